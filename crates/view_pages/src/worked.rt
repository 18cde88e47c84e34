//! Worked examples of what a page says, with values that were written out by hand. The checker
//! computes what the definitions make of each, and compares.
//!
//! Each function is a group of examples. Its clauses are the examples, and it does nothing when it
//! is called.

ghost use Rattle.std.specs.Prelude.{◌≡◌, ◌-◌, ◌^◌, [], ◌∷◌, true, false, codes};
ghost use Rattle.view_pages.specs.Dates.{moment_html};
ghost use Rattle.view_pages.specs.Html.{html_bytes, markup_if, text_after};
ghost use Rattle.view_pages.specs.Lists.{grouped};
ghost use Rattle.view_pages.specs.Reading.{number_in, places_in};
ghost use Rattle.view_pages.specs.Rows.{depth_html, id_html, level_of, remark_html};
ghost use Rattle.trace_lines.specs.Services.{colour_of, with_name};
ghost use Rattle.trace_lines.specs.Times.{share_of};
ghost use Rattle.trace_store.specs.Facts.{service_in};
ghost use Rattle.view_pages.specs.Times.{duration};

/// The rows that are read of a page.
pub(crate) fn readings()
    ensures empty { places_in [] ≡ [] }
    ensures none { places_in (codes "<ol class='rows'><li>1</li></ol>") ≡ [] }
    ensures two { places_in
        (codes "<ol><li data-row='1' class='row'><b>a</b></li><li data-row='0'></li></ol>")
        ≡ 1 ∷ 0 ∷ [] }
    ensures twice { places_in (codes "<li data-row='12'><li data-row='12'>") ≡ 12 ∷ 12 ∷ [] }
    ensures text { places_in (codes "<b>&lt;li data-row=&#39;7&#39;&gt;</b>") ≡ [] }
    ensures no_tag { places_in (codes "<b>li data-row='7'</b>") ≡ [] }
    ensures other { places_in (codes "<li data-row=7><li data-rows='7'>< li data-row='7'>") ≡ [] }
    ensures number { number_in (codes "1024' class='row'") ≡ 1024 }
{}

/// When something is, and how long it took.
pub(crate) fn times()
    ensures quarter { share_of (record { from = 100; until = 300 }) 150 ≡ 2500 }
    ensures start { share_of (record { from = 100; until = 300 }) 100 ≡ 0 }
    ensures before { share_of (record { from = 100; until = 300 }) 7 ≡ 0 }
    ensures after { share_of (record { from = 100; until = 300 }) 301 ≡ 10000 }
    ensures no_time { share_of (record { from = 100; until = 100 }) 100 ≡ 0 }
    ensures nanoseconds { html_bytes (duration 999) ≡ codes "999 ns" }
    ensures microseconds { html_bytes (duration 1_500) ≡ codes "1.50 us" }
    ensures milliseconds { html_bytes (duration 12_345_678) ≡ codes "12.34 ms" }
    ensures seconds { html_bytes (duration 61_000_000_000) ≡ codes "61.00 s" }
{}

/// Dates and times, in UTC.
pub(crate) fn dates()
    ensures first { html_bytes (moment_html 0) ≡ codes "1970-01-01T00:00:00.000000000Z" }
    ensures leap { html_bytes (moment_html 951_825_599_000_000_001)
        ≡ codes "2000-02-29T11:59:59.000000001Z" }
    ensures plain { html_bytes (moment_html 1_790_000_000_123_456_789)
        ≡ codes "2026-09-21T14:13:20.123456789Z" }
    ensures century { html_bytes (moment_html 4_107_542_400_000_000_000)
        ≡ codes "2100-03-01T00:00:00.000000000Z" }
    ensures last { html_bytes (moment_html (2 ^ 64 - 1))
        ≡ codes "2554-07-21T23:34:33.709551615Z" }
{}

/// What a row says.
pub(crate) fn rows()
    ensures top { level_of 0 ≡ 1 }
    ensures deepest { level_of (2 ^ 64 - 1) ≡ 2 ^ 64 - 1 }
    ensures depth { html_bytes (depth_html 3) ≡ codes "' aria-level='4' style='--d:3" }
    ensures remark { html_bytes (remark_html true (codes "cycle")) ≡ codes " <em>cycle</em>" }
    ensures no_remark { html_bytes (remark_html false (codes "cycle")) ≡ [] }
    ensures bad { html_bytes (markup_if true (codes " bad")) ≡ codes " bad" }
    ensures no_query { html_bytes (text_after (codes "?") []) ≡ [] }
    ensures again { html_bytes (id_html false (1 ∷ 255 ∷ [])) ≡ [] }
{}

/// What is said of a service.
pub(crate) fn services()
    ensures names { with_name (codes "a" ∷ codes "b" ∷ []) (codes "a") ≡ codes "a" ∷ codes "b" ∷ [] }
    ensures more { with_name (codes "a" ∷ []) (codes "b") ≡ codes "a" ∷ codes "b" ∷ [] }
    ensures colour { colour_of (codes "a" ∷ codes "b" ∷ []) (codes "b") ≡ 1 }
    ensures none { service_in {A = Unit {0}} [] ≡ codes "unknown_service" }
{}

/// A number of traces has its digits in groups of three.
pub(crate) fn numbers()
    ensures three { html_bytes (grouped 999) ≡ codes "999" }
    ensures thousands { html_bytes (grouped 1_260) ≡ codes "1,260" }
    ensures millions { html_bytes (grouped 12_034_005) ≡ codes "12,034,005" }
{}
