//! The report after the lines of a run.
ghost use Rattle.std.specs.Prelude.{◌≡◌, ◌++◌, OnOk, flat_map, string_bytes};
ghost use Rattle.otlp_span.specs.Dropped.{entry_view};
ghost use Rattle.trace_run.specs.Lines.{name_line, report_text};

use drop_ledger::Ledger;
use otlp_ids::OutOfMemory;
use otlp_span::Entry;
use std::alloc::Allocator;

/// Appends the report of a run (profile): `queued COUNT`, with how many spans wait or are in a
/// batch that was not handed over; `named TICKET TRACE SPAN REASON` for each dropped span that the
/// ledger names, the newest first; `lost TICKET TRACE SPAN REASON` for each span that the ledger of
/// lost spans names, the newest first; `late COUNT`, with how many spans ended after the shutdown.
/// The words of a REASON are those of `Reason`'s `Display`.
///
/// # Errors
///
/// `OutOfMemory` where the text could not be stored. It may then have been appended in part.
pub fn write_report<A: Allocator>(
    out: &mut String<A>,
    queued: u64,
    ledger: &Ledger<A>,
    lost: &Ledger<A>,
    late: u64,
) -> Result<(), OutOfMemory>
    ensures { OnOk result (string_bytes out.new
        ≡ string_bytes out.old ++ report_text queued ledger.now lost.now late) }
{
    writeln!(out, "queued {queued}")?;
    write_names(out, "named", ledger)?;
    write_names(out, "lost", lost)?;
    writeln!(out, "late {late}")?;
    Ok(())
}

/// Appends a line for each name of a ledger, the newest first, each after this word.
fn write_names<A: Allocator>(
    out: &mut String<A>,
    word: &str,
    ledger: &Ledger<A>,
) -> Result<(), OutOfMemory>
    ensures { OnOk result (string_bytes out.new
        ≡ string_bytes out.old ++ flat_map (name_line word.now) ledger.now) }
{
    for entry in ledger.iter() {
        write_name(out, word, entry)?;
    }
    Ok(())
}

/// Appends the line of a name, after this word.
fn write_name<A: Allocator>(
    out: &mut String<A>,
    word: &str,
    entry: &Entry,
) -> Result<(), OutOfMemory>
    ensures { OnOk result (string_bytes out.new
        ≡ string_bytes out.old ++ name_line word.now (entry_view entry.now)) }
{
    let Entry {
        trace,
        span,
        ticket,
        reason,
    } = *entry;
    writeln!(out, "{word} {ticket} {trace} {span} {reason}")?;
    Ok(())
}
