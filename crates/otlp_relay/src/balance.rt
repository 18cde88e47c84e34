//! What became of all that was received, in a line.

use crate::failure::Failure;
use relay_queue::{Amounts, Report};
use std::io::{self, Write};

/// Writes how many bodies were received, and what became of them.
fn write_bodies<W: Write>(output: &mut W, amounts: &Amounts) -> io::Result<()> {
    write!(
        output,
        "bodies received {}, delivered {}, lost {}, left {}",
        amounts.received, amounts.delivered, amounts.lost, amounts.kept
    )
}

/// Writes how many spans were received, and what became of them.
fn write_spans<W: Write>(output: &mut W, amounts: &Amounts, rejected: u64) -> io::Result<()> {
    write!(
        output,
        "spans received {}, delivered {}, rejected {rejected}, lost {}, left {}",
        amounts.received, amounts.delivered, amounts.lost, amounts.kept
    )
}

/// Prints what became of the bodies and the spans: how many were received by posts that were
/// answered 200, how many of these and of those that the spool had at the start a collector took,
/// how many spans it rejected of these bodies, how many are lost, and how many are left in the spool.
pub(crate) fn print_balance<W: Write>(output: &mut W, report: &Report) -> Result<(), Failure> {
    match write_balance(output, report) {
        Ok(()) => Ok(()),
        Err(_) => Err(Failure::Write),
    }
}

/// The same, with the writer's error.
fn write_balance<W: Write>(output: &mut W, report: &Report) -> io::Result<()> {
    write_bodies(output, &report.bodies)?;
    output.write_all(b"; ")?;
    write_spans(output, &report.spans, report.rejected_spans)?;
    output.write_all(b"\n")?;
    output.flush()
}
