//! How the pages look.

/// The stylesheet of all pages, served as `/style.css` with the type `text/css; charset=utf-8`. It
/// has a light and a dark theme, by what the browser prefers.
pub const STYLE: &str = "
:root { color-scheme: light dark; --back: #fff; --text: #1b2430; --soft: #566173; --line: #e2e7ee;
  --grid: #838d9b; --card: #f5f7fa; --link: #0b57c4; --bad: #b3261e; --bad-back: #fbe9e7;
  --c0: #2f6fe0; --c1: #b5620c; --c2: #0e8a6b; --c3: #c23a7c; --c4: #6c7a12; --c5: #8a52cf;
  --c6: #7d4a36; --c7: #0f7f9e; }
@media (prefers-color-scheme: dark) {
  :root { --back: #12161d; --text: #e6eaf0; --soft: #a2adbd; --line: #2a313c; --card: #1a2029;
    --grid: #66717f; --link: #8ab8ff; --bad: #ff9b90; --bad-back: #40211f;
    --c0: #6f9df0; --c1: #e0964a; --c2: #3fb894; --c3: #e87db0; --c4: #a9b84b; --c5: #b18bea;
    --c6: #cc9682; --c7: #4bc4e0; }
}
* { box-sizing: border-box; }
body { margin: 0; background: var(--back); color: var(--text);
  font: 14px/1.45 system-ui, 'Segoe UI', 'DejaVu Sans', sans-serif; }
header { padding: 0.9rem 1.25rem 0.6rem; border-bottom: 1px solid var(--line); }
h1 { margin: 0.15rem 0; font-size: 1.2rem; overflow-wrap: anywhere; }
h1, header p { max-height: 8rem; overflow: auto; }
h1 small { color: var(--soft); font-size: 0.9rem; font-weight: 400; unicode-bidi: isolate; }
header p { margin: 0.2rem 0; color: var(--soft); overflow-wrap: anywhere; }
header .errors { color: var(--bad); } .errors a { display: inline-block; max-width: 20rem;
  margin-left: 0.4rem; overflow: hidden; text-overflow: ellipsis; white-space: nowrap;
  vertical-align: bottom; unicode-bidi: isolate; }
.legend span { margin-right: 1rem; padding-left: 0.4rem; border-left: 0.6rem solid var(--c);
  unicode-bidi: isolate; }
a { color: var(--link); }
code, dd, .took, pre { font-family: ui-monospace, 'DejaVu Sans Mono', monospace; }
code, dd { font-size: 0.92em; }
b, dt, dd, h5, td { unicode-bidi: isolate; }
[hidden] { display: none !important; }
footer { padding: 0.5rem 1.25rem; color: var(--soft); font-size: 0.78rem; }
.rows { list-style: none; margin: 0; padding: 0 0 2rem; }
.row { display: block; border-bottom: 1px solid var(--line); content-visibility: auto;
  contain-intrinsic-size: auto 30px; scroll-margin-top: 2rem; }
.axis, summary { display: grid; grid-template-columns: minmax(18rem, 36%) 1fr 5.5rem;
  gap: 0.75rem; align-items: center; padding: 0 1.25rem; }
.axis { position: sticky; top: 0; z-index: 1; min-height: 1.6rem; background: var(--back);
  border-bottom: 1px solid var(--grid); color: var(--soft); font-size: 0.78rem; }
.axis span { grid-area: 1 / 2; white-space: nowrap; padding-left: 0.2rem; }
.axis span:nth-child(2) { margin-left: 25%; } .axis span:nth-child(3) { margin-left: 50%; }
.axis span:nth-child(4) { margin-left: 75%; }
.axis span:nth-child(5) { grid-area: 1 / 3; margin-left: -0.75rem; }
.row:target > details > summary { outline: 2px solid var(--link); outline-offset: -2px; }
.c0 { --c: var(--c0); } .c1 { --c: var(--c1); } .c2 { --c: var(--c2); } .c3 { --c: var(--c3); }
.c4 { --c: var(--c4); } .c5 { --c: var(--c5); } .c6 { --c: var(--c6); } .c7 { --c: var(--c7); }
summary { min-height: 29px; cursor: pointer; list-style: none; scroll-margin-top: 2rem; }
summary::-webkit-details-marker { display: none; }
summary:hover, details[open] > summary { background: var(--card); }
summary:focus-visible { outline: 2px solid var(--link); outline-offset: -2px; }
.label { margin-left: max(0px, min(var(--d) * 0.9rem, 100% - 12.5rem)); padding-left: 0.5rem;
  border-left: 4px solid var(--c); display: flex; gap: 0.45rem; align-items: baseline;
  overflow: hidden; white-space: nowrap; }
.label b { font-weight: 600; min-width: 4rem; flex: 0 1 auto; overflow: hidden;
  text-overflow: ellipsis; }
details[open] > summary .label { display: block; padding-block: 0.2rem; white-space: normal;
  overflow-wrap: anywhere; }
details[open] > summary :is(b, small) { white-space: pre-wrap; }
details[open] .fold { margin-right: 0.45rem; }
.bad > details > summary :is(b, .took) { color: var(--bad); }
.label .blank { font-weight: 400; font-style: italic; color: var(--soft); }
.label small { color: var(--soft); min-width: 2rem; flex: 0 99 auto; overflow: hidden;
  text-overflow: ellipsis; }
.label em { min-width: 2.8rem; flex: 0 2 auto; overflow: hidden; text-overflow: ellipsis; }
em { font-style: normal; font-size: 0.82em; padding: 0.05rem 0.4rem; border-radius: 0.6rem;
  color: var(--bad); background: var(--bad-back); }
.time { position: relative; height: 15px; background-image: linear-gradient(90deg,
  var(--grid) 1px, transparent 1px); background-size: 25% 100%;
  border-right: 1px solid var(--grid); }
.bar { position: absolute; top: 2px; bottom: 2px; left: min(calc(var(--s) * 0.01%), 100% - 3px);
  width: calc(var(--w) * 0.01%); min-width: 3px; border-radius: 3px; background: var(--c); }
.bad .bar { border: 1px solid var(--bad);
  background: repeating-linear-gradient(135deg, var(--bad) 0 6px, var(--back) 6px 9px); }
.tick { position: absolute; top: 0; bottom: 0; width: 2px; background: var(--text);
  left: min(calc(var(--t) * 0.01%), 100% - 2px); }
.took { text-align: right; color: var(--soft); white-space: nowrap; }
.panel { margin: 0.1rem 1.25rem 0.9rem; padding: 0.5rem 1rem 0.8rem; background: var(--card);
  border-left: 4px solid var(--c); border-radius: 0 6px 6px 0; overflow-wrap: anywhere; }
h4 { margin: 0.8rem 0 0.25rem; font-size: 0.95rem; } h5 { margin: 0.4rem 0 0.1rem;
  font-size: 0.9rem; font-weight: 600; }
h5 small { color: var(--soft); font-weight: 400; }
h4:has(+ dl:empty):not(:has(em), :has(+ dl + p)), h4:not(:has(em)):not(:has(+ dl, + h5)), p:empty,
dl:empty { display: none; }
dl { display: grid; grid-template-columns: fit-content(40%) 1fr; gap: 0.1rem 1rem;
  margin: 0; }
dt, dd small { color: var(--soft); } dd { margin: 0; white-space: pre-wrap; }
.panel p { margin: 0.2rem 0; color: var(--soft); } ul { margin: 0; padding-left: 1.1rem; }
dl dl { border-left: 1px solid var(--line); padding-left: 0.6rem; }
form { display: flex; flex-wrap: wrap; gap: 0.5rem 1rem; align-items: end; margin: 0.5rem 0; }
form .search { flex: 1 1 22rem; } .more { margin: 0.5rem 1.25rem; } .mistake { color: var(--bad); }
label { display: grid; gap: 0.1rem; color: var(--soft); font-size: 0.85rem; }
input, button { font: inherit; color: var(--text); background: var(--back); padding: 0.25rem 0.5rem;
  border: 1px solid var(--soft); border-radius: 5px; }
.fold { flex: none; padding: 0 0.2rem; border: 0; background: none; cursor: pointer; }
.fold::before { content: '▾'; } .fold[aria-expanded=false]::before { content: '▸'; }
.searched .fold { visibility: hidden; }
.copy { margin-left: 0.5rem; padding: 0 0.35rem; font: 0.75rem/1.5 system-ui, sans-serif; }
.copy::before { content: 'copy'; } .copy.done::before { content: 'copied'; }
.above > details > summary { color: var(--soft); }
output { color: var(--soft); } ::placeholder { color: var(--soft); opacity: 1; }
table { border-collapse: collapse; width: 100%; } th { text-align: left; color: var(--soft);
  font-weight: 500; } td, th { padding: 0.35rem 1.25rem; border-bottom: 1px solid var(--line); }
tr:hover td { background: var(--card); }
:is(td, th):nth-child(n+3):nth-child(-n+5) { text-align: right;
  font-variant-numeric: tabular-nums; }
td.errors { color: var(--bad); font-weight: 600; }
@media (max-width: 640px) {
  .axis, summary { grid-template-columns: 1fr 5.5rem; padding: 0 0.75rem; gap: 0.2rem 0.5rem; }
  summary { padding-top: 0.25rem; padding-bottom: 0.25rem; }
  .axis span { grid-area: 1 / 1; } .axis span:nth-child(even) { display: none; }
  .axis span:nth-child(5) { grid-area: 1 / 2; margin-left: -0.5rem; }
  .label { grid-column: 1 / 3; margin-left: max(0px, min(var(--d) * 0.5rem, 100% - 12.5rem)); }
  header { padding-left: 0.75rem; padding-right: 0.75rem; }
  .panel { margin: 0 0.5rem 0.6rem; }
  dl { grid-template-columns: 1fr; } dd { padding-left: 0.75rem; }
  table, tbody, tr { display: block; } tr:has(th) { display: none; }
  tr { padding: 0.4rem 0.75rem; border-bottom: 1px solid var(--line); }
  td { display: inline-block; padding: 0 0.8rem 0 0; border: 0; overflow-wrap: anywhere; }
  td:first-child { display: block; font-weight: 600; }
  td:nth-child(3)::before { content: 'spans: '; } td:nth-child(4)::before { content: 'errors: '; }
}
";
