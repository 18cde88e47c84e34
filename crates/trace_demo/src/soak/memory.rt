//! How much memory the process has.
ghost use Rattle.std.specs.Prelude.{◌↔◌, IsTrue};
ghost use Rattle.trace_demo.specs.Memory.{IsFlat, IsNear};

use std::alloc::Global;
use std::fs::File;
use std::io;
use std::rt::Files;

/// How many rounds are the first ones, in which stacks and heaps of threads grow.
pub(crate) const WARM_ROUNDS: usize = 5;

/// The process's resident size, in kilobytes, as the system reports it (proc(5), VmRSS). `None`
/// where it doesn't.
pub(crate) fn resident<R: Files>(rt: &R, alloc: Global) -> Option<u64> {
    let file = File::open(rt, "/proc/self/status").ok()?;
    let text = io::read_to_string(alloc, file).ok()?;
    kilobytes(text.as_str())
}

/// The resident size in such a text.
fn kilobytes(text: &str) -> Option<u64> {
    for line in text.lines() {
        if let Some(rest) = line.strip_prefix("VmRSS:") {
            let digits = rest.trim().strip_suffix(" kB")?;
            return digits.parse::<u64>().ok();
        }
    }
    None
}

/// Whether memory stayed flat, by its size after each of the first rounds and of the later ones,
/// in kilobytes: each later size is above one of the first ones by no more than the slack. A `true`
/// is promised to be right. (profile)
pub(crate) fn is_flat(first: &[u64], later: &[u64], slack: u64) -> bool
    ensures { IsTrue result → IsFlat first.now later.now slack }
{
    let mut at = 0;
    while at < later.len() {
        if !is_near(first, slack, later[at]) {
            return false;
        }
        at += 1;
    }
    true
}

/// Whether a size is above one of the first ones by no more than the slack.
fn is_near(first: &[u64], slack: u64, size: u64) -> bool
    ensures { IsTrue result ↔ IsNear first.now slack size }
{
    first.iter().any(|one| size.saturating_sub(*one) <= slack)
}
