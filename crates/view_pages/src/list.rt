//! The list of traces.

ghost use Rattle.std.specs.Prelude.{OnOk};
ghost use Rattle.view_pages.specs.Html.{Appends, each};
ghost use Rattle.view_pages.specs.Lists.{after_html, empty_html, foot_html, form_html, grouped};
ghost use Rattle.view_pages.specs.Lists.{hidden_html, list_head_html, list_html, mistake_html};
ghost use Rattle.view_pages.specs.Lists.{more_html, settings_html};
ghost use Rattle.view_pages.specs.Lists.{millions, name_html, none_html, notice_html, root_html};
ghost use Rattle.view_pages.specs.Lists.{short_html, shown_html, sizes_html, some_html};
ghost use Rattle.view_pages.specs.Lists.{summary_html, table_html, texts_html, thousands};
ghost use Rattle.view_pages.specs.Lists.{when_html};

use crate::date::{push_second, push_three};
use crate::html::{push_after, push_digits, push_if, push_markup, push_number, push_text};
use crate::page::push_start;
use crate::times::push_duration;
use otlp_ids::{OutOfMemory, VERSION};
use std::alloc::Allocator;
use trace_lines::{Filter, Summary, front_of};

/// Appends the first 120 characters of a text, and a mark where it has more. Its memory doesn't
/// grow with the text.
fn push_short<A: Allocator + Copy>(out: &mut String<A>, text: &str) -> Result<(), OutOfMemory>
    ensures { OnOk result (Appends out.old out.new (short_html text.now)) }
{
    let front = front_of(*out.allocator(), text)?;
    push_text(out, &front)?;
    push_if(out, front.len() < text.len(), "&hellip;")
}

/// Appends the name of a root.
#[tactic(auto, unfolding(crate::specs::Lists::root_html))]
fn push_root<A: Allocator + Copy>(out: &mut String<A>, name: &str) -> Result<(), OutOfMemory>
    ensures { OnOk result (Appends out.old out.new (root_html name.now)) }
{
    if name.is_empty() {
        push_markup(out, "<i>(no name)</i>")
    } else {
        push_short(out, name)
    }
}

/// Appends the name of a trace, which leads to its page.
fn push_name<A: Allocator + Copy>(
    out: &mut String<A>,
    query: &str,
    summary: &Summary,
) -> Result<(), OutOfMemory>
    ensures { OnOk result (Appends out.old out.new (name_html query.now summary.now)) }
{
    push_markup(out, "<tr><td><a href='/trace/")?;
    push_digits(out, &summary.trace.to_be_bytes())?;
    push_after(out, "?", query)?;
    push_markup(out, "'>")?;
    push_root(out, summary.name)?;
    push_markup(out, "</a>")
}

/// Appends the service of a trace, its spans and its errors.
fn push_sizes<A: Allocator + Copy>(
    out: &mut String<A>,
    summary: &Summary,
) -> Result<(), OutOfMemory>
    ensures { OnOk result (Appends out.old out.new (sizes_html summary.now)) }
{
    push_markup(out, "<td>")?;
    push_short(out, summary.service)?;
    push_markup(out, "<td>")?;
    push_number(out, summary.span_count)?;
    push_markup(out, "<td>")?;
    push_number(out, summary.error_count)
}

/// Appends how long a trace took and when it began.
fn push_when<A: Allocator>(out: &mut String<A>, summary: &Summary) -> Result<(), OutOfMemory>
    ensures { OnOk result (Appends out.old out.new (when_html summary.now)) }
{
    push_markup(out, "<td>")?;
    push_duration(out, summary.duration_nanos())?;
    push_markup(out, "<td>")?;
    push_second(out, summary.start_time_unix_nano)
}

/// Appends the row of a trace.
fn push_summary<A: Allocator + Copy>(
    out: &mut String<A>,
    query: &str,
    summary: &Summary,
) -> Result<(), OutOfMemory>
    ensures { OnOk result (Appends out.old out.new (summary_html query.now summary.now)) }
{
    push_name(out, query, summary)?;
    push_sizes(out, summary)?;
    push_when(out, summary)
}

/// Appends the rows of traces.
#[tactic(auto, unfolding(crate::specs::Html::html_bytes))]
fn push_summaries<A: Allocator + Copy>(
    out: &mut String<A>,
    query: &str,
    summaries: &[Summary],
) -> Result<(), OutOfMemory>
    ensures { OnOk result (Appends out.old out.new (each (summary_html query.now) summaries.now)) }
{
    for summary in summaries {
        push_summary(out, query, summary)?;
    }
    Ok(())
}

/// Appends the boxes of the filter.
fn push_texts<A: Allocator>(out: &mut String<A>, filter: &Filter<A>) -> Result<(), OutOfMemory>
    ensures { OnOk result (Appends out.old out.new (texts_html filter.now)) }
{
    push_markup(
        out,
        "<form><label class='search'>Search<input name='q' value='",
    )?;
    push_text(out, &filter.search)?;
    push_markup(
        out,
        "' placeholder='service=shop duration&gt;100ms -root'></label>",
    )?;
    push_markup(out, "<label>Service<input name='service' value='")?;
    push_text(out, &filter.service)?;
    push_markup(
        out,
        "'></label><label>Name begins with<input name='name' value='",
    )?;
    push_text(out, &filter.name)?;
    push_markup(
        out,
        "'></label><label>At least, in ms<input name='least' value='",
    )
}

/// Appends the form of the filter.
fn push_form<A: Allocator>(out: &mut String<A>, filter: &Filter<A>) -> Result<(), OutOfMemory>
    ensures { OnOk result (Appends out.old out.new (form_html filter.now)) }
{
    push_texts(out, filter)?;
    push_number(out, filter.least_ms)?;
    push_markup(
        out,
        "'></label><label>Errors only<input type='checkbox' name='errors' value='1'",
    )?;
    push_if(out, filter.errors_only, " checked")?;
    push_markup(out, "></label><button>Show</button></form>")
}

/// Appends a number of at most six digits, in groups of three.
fn push_thousands<A: Allocator>(out: &mut String<A>, number: u64) -> Result<(), OutOfMemory>
    ensures { OnOk result (Appends out.old out.new (thousands number)) }
{
    push_number(out, number / 1_000)?;
    push_markup(out, ",")?;
    push_three(out, number % 1_000)
}

/// Appends a greater number, in groups of three.
fn push_millions<A: Allocator>(out: &mut String<A>, number: u64) -> Result<(), OutOfMemory>
    ensures { OnOk result (Appends out.old out.new (millions number)) }
{
    push_number(out, number / 1_000_000)?;
    push_markup(out, ",")?;
    push_three(out, number / 1_000 % 1_000)?;
    push_markup(out, ",")?;
    push_three(out, number % 1_000)
}

/// Appends a number, its digits in groups of three.
#[tactic(auto, unfolding(crate::specs::Lists::grouped))]
fn push_grouped<A: Allocator>(out: &mut String<A>, number: u64) -> Result<(), OutOfMemory>
    ensures { OnOk result (Appends out.old out.new (grouped number)) }
{
    if number < 1_000 {
        push_number(out, number)
    } else if number < 1_000_000 {
        push_thousands(out, number)
    } else {
        push_millions(out, number)
    }
}

/// Appends the settings by which an SDK posts its traces here, and nothing else.
fn push_settings<A: Allocator>(out: &mut String<A>, host: &str) -> Result<(), OutOfMemory>
    ensures { OnOk result (Appends out.old out.new (settings_html host.now)) }
{
    push_markup(out, "<pre>OTEL_EXPORTER_OTLP_ENDPOINT=")?;
    push_after(out, "http://", host)?;
    push_markup(out, "\nOTEL_EXPORTER_OTLP_PROTOCOL=http/protobuf")?;
    push_markup(
        out,
        "\nOTEL_METRICS_EXPORTER=none\nOTEL_LOGS_EXPORTER=none</pre>",
    )
}

/// Appends where traces are to be sent, since none is here.
fn push_empty<A: Allocator>(out: &mut String<A>, host: &str) -> Result<(), OutOfMemory>
    ensures { OnOk result (Appends out.old out.new (empty_html host.now)) }
{
    push_markup(out, "<p>No trace is here yet. Post traces to <code>")?;
    push_after(out, "http://", host)?;
    push_markup(out, "/v1/traces</code>. An SDK does, set so:</p>")?;
    push_settings(out, host)
}

/// Appends that none of the traces that are kept is in the list.
fn push_none<A: Allocator>(out: &mut String<A>, total: u64) -> Result<(), OutOfMemory>
    ensures { OnOk result (Appends out.old out.new (none_html total)) }
{
    push_markup(out, "<p>Nothing matches. Traces that are kept: ")?;
    push_grouped(out, total)?;
    push_markup(out, ". <a href='/'>Show all</a></p>")
}

/// Appends that some of the traces that are kept are in the list.
fn push_some<A: Allocator>(out: &mut String<A>, shown: u64, total: u64) -> Result<(), OutOfMemory>
    ensures { OnOk result (Appends out.old out.new (some_html shown total)) }
{
    push_markup(out, "<p>Showing ")?;
    push_grouped(out, shown)?;
    push_markup(out, " of ")?;
    push_grouped(out, total)?;
    push_markup(out, "</p>")
}

/// Appends what is said of a list that has so many of the traces that are kept.
#[tactic(auto, unfolding(crate::specs::Html::html_bytes, crate::specs::Lists::shown_html))]
fn push_shown<A: Allocator>(
    out: &mut String<A>,
    host: &str,
    shown: u64,
    total: u64,
) -> Result<(), OutOfMemory>
    ensures { OnOk result (Appends out.old out.new (shown_html host.now shown total)) }
{
    if total == 0 {
        push_empty(out, host)
    } else if shown == 0 {
        push_none(out, total)
    } else if shown < total {
        push_some(out, shown, total)
    } else {
        Ok(())
    }
}

/// Appends the hidden fields of a form that asks for what a filter asks for.
fn push_hidden<A: Allocator>(out: &mut String<A>, filter: &Filter<A>) -> Result<(), OutOfMemory>
    ensures { OnOk result (Appends out.old out.new (hidden_html filter.now)) }
{
    push_markup(out, "<input type='hidden' name='q' value='")?;
    push_text(out, &filter.search)?;
    push_markup(out, "'><input type='hidden' name='service' value='")?;
    push_text(out, &filter.service)?;
    push_markup(out, "'><input type='hidden' name='name' value='")?;
    push_text(out, &filter.name)?;
    push_markup(out, "'><input type='hidden' name='least' value='")?;
    push_number(out, filter.least_ms)?;
    push_if(
        out,
        filter.errors_only,
        "'><input type='hidden' name='errors' value='1",
    )
}

/// Appends a button that shows the traces after this one.
fn push_after_trace<A: Allocator + Copy>(
    out: &mut String<A>,
    filter: &Filter<A>,
    last: &Summary,
) -> Result<(), OutOfMemory>
    ensures { OnOk result (Appends out.old out.new (after_html filter.now last.now)) }
{
    push_markup(out, "<form class='more'>")?;
    push_hidden(out, filter)?;
    push_markup(out, "'><input type='hidden' name='after' value='")?;
    push_digits(out, &last.trace.to_be_bytes())?;
    push_markup(out, "'><button>Older traces</button></form>")
}

/// Appends a button that shows the traces after the last of these, where there are more.
#[tactic(auto, unfolding(crate::specs::Html::html_bytes, crate::specs::Lists::more_html))]
fn push_more<A: Allocator + Copy>(
    out: &mut String<A>,
    filter: &Filter<A>,
    summaries: &[Summary],
    has_more: bool,
) -> Result<(), OutOfMemory>
    ensures { OnOk result
        (Appends out.old out.new (more_html filter.now summaries.now has_more)) }
{
    if !has_more {
        return Ok(());
    }
    match summaries.last() {
        Some(last) => push_after_trace(out, filter, last),
        None => Ok(()),
    }
}

/// Appends what is above the rows.
fn push_list_head<A: Allocator>(out: &mut String<A>, filter: &Filter<A>) -> Result<(), OutOfMemory>
    ensures { OnOk result (Appends out.old out.new (list_head_html filter.now)) }
{
    push_start(out)?;
    push_markup(out, "Traces</title><header><h1>Traces</h1>")?;
    push_form(out, filter)
}

/// Appends the rows, one below the other.
fn push_table<A: Allocator + Copy>(
    out: &mut String<A>,
    query: &str,
    summaries: &[Summary],
) -> Result<(), OutOfMemory>
    ensures { OnOk result (Appends out.old out.new (table_html query.now summaries.now)) }
{
    push_markup(
        out,
        "</header><main><table><tr><th>Name<th>Service<th>Spans<th>Errors",
    )?;
    push_markup(out, "<th>Duration<th>Start (UTC)")?;
    push_summaries(out, query, summaries)?;
    push_markup(out, "</table></main>")
}

/// Appends which version made the page.
fn push_foot<A: Allocator>(out: &mut String<A>) -> Result<(), OutOfMemory>
    ensures { OnOk result (Appends out.old out.new (foot_html VERSION.now)) }
{
    push_markup(out, "<footer>Dulhafrin ")?;
    push_text(out, VERSION)?;
    push_markup(out, "</footer></html>")
}

/// Appends the list of traces (profile): the form of the filter, and a row for each of these, in
/// this order, with a link to the page of the trace. A name and a service are cut at 120
/// characters, with a mark.
///
/// The caller says what the list was asked for: `filter` is what the form shows, and the links have
/// the query `query`, without its `?`, so that the pages of the traces know the way back. `total`
/// says how many traces are kept, in the list or not: where that are more than there are rows, the
/// page says so. `host` is the host with its port, as a `Host` field has it (RFC 9110, 7.2); where
/// no trace is kept, the page says that traces are posted to `http://HOST/v1/traces`, or to the
/// path alone where `host` is empty, and by which settings an SDK does that. Where there are more
/// traces that the filter takes (`has_more`), a button shows those after the last row. Its foot says
/// which version of the kit made it.
///
/// # Errors
///
/// `OutOfMemory` where the page could not be stored. It may then have been appended in part.
pub fn write_list_page<A: Allocator + Copy>(
    out: &mut String<A>,
    filter: &Filter<A>,
    query: &str,
    host: &str,
    summaries: &[Summary],
    total: u64,
    has_more: bool,
) -> Result<(), OutOfMemory>
    ensures { OnOk result
        (Appends out.old out.new
        (list_html VERSION.now filter.now query.now host.now summaries.now total has_more)) }
{
    push_list_head(out, filter)?;
    push_shown(out, host, summaries.len() as u64, total)?;
    push_table(out, query, summaries)?;
    push_more(out, filter, summaries, has_more)?;
    push_foot(out)
}

/// Appends the list's page where what is searched for can't be read: the form has it as it was
/// typed, and a sentence below says from which byte on, counted from 0, and why.
///
/// # Errors
///
/// `OutOfMemory` where the page could not be stored. It may then have been appended in part.
pub fn write_mistake_page<A: Allocator>(
    out: &mut String<A>,
    filter: &Filter<A>,
    at: u64,
    why: &str,
) -> Result<(), OutOfMemory>
    ensures { OnOk result (Appends out.old out.new
        (mistake_html VERSION.now filter.now at why.now)) }
{
    push_list_head(out, filter)?;
    push_markup(
        out,
        "<p class='mistake' role='alert'>The search can't be read from byte ",
    )?;
    push_number(out, at)?;
    push_markup(out, " on: ")?;
    push_text(out, why)?;
    push_markup(out, "</p></header>")?;
    push_foot(out)
}

/// Appends a page that says in a few words why there is no other, and what to do: both are texts.
/// Its link to the list has the query `query`, without its `?`.
///
/// # Errors
///
/// `OutOfMemory` where the page could not be stored. It may then have been appended in part.
pub fn write_notice_page<A: Allocator>(
    out: &mut String<A>,
    query: &str,
    title: &str,
    advice: &str,
) -> Result<(), OutOfMemory>
    ensures { OnOk result (Appends out.old out.new (notice_html query.now title.now advice.now)) }
{
    push_start(out)?;
    push_text(out, title)?;
    push_markup(out, "</title><header><a href='/")?;
    push_after(out, "?", query)?;
    push_markup(out, "'>All traces</a><h1>")?;
    push_text(out, title)?;
    push_markup(out, "</h1><p>")?;
    push_text(out, advice)?;
    push_markup(out, "</p></header></html>")
}
