//! The names of the files of a spool in a folder.
ghost use Rattle.std.specs.Prelude.{◌<◌, ◌^◌, IfSome};

use crate::state::MAX_NUMBER;
use std::alloc::{AllocError, Global};

/// What the name of a file ends in.
const SUFFIX: &str = ".spool";

/// How many digits a number has in a name.
const DIGITS: usize = 20;

/// The name of a file: its number, and how many older files have that number too. In the folder it
/// is the number in twenty decimal digits, a dot with the count where that isn't 0, and `.spool`.
/// The names of files rise in the order in which these were made. (profile)
#[derive(Clone, Copy, Debug, PartialEq, Eq, PartialOrd, Ord)]
pub(crate) struct FileName {
    pub(crate) number: u64,
    count: u32,
}

impl FileName {
    /// What the name of a file says, if it is that of a file of a spool.
    pub(crate) fn parse(name: &str) -> Option<FileName>
        ensures { IfSome result (λ name. name.number < 2 ^ 63) }
    {
        let stem = name.strip_suffix(SUFFIX)?;
        let (digits, count) = match stem.split_once('.') {
            Some((digits, count)) => (digits, count_in(count)?),
            None => (stem, 0),
        };
        Some(FileName {
            number: number_in(digits)?,
            count,
        })
    }

    /// The name of a new file with a number, where this one is the newest. `None` if 2^32 files
    /// have the number.
    pub(crate) fn after(newest: Option<FileName>, number: u64) -> Option<FileName> {
        let count = match newest {
            Some(newest) if newest.number == number => newest.count.checked_add(1)?,
            _ => 0,
        };
        Some(FileName { number, count })
    }

    /// The path of the file in a folder.
    pub(crate) fn path_in(self, alloc: Global, folder: &str) -> Result<String, AllocError> {
        let FileName { number, count } = self;
        if count == 0 {
            format!(in alloc; "{folder}/{number:020}{SUFFIX}")
        } else {
            format!(in alloc; "{folder}/{number:020}.{count}{SUFFIX}")
        }
    }
}

/// The number of a name. A sign is no digit, though `parse` takes one.
fn number_in(digits: &str) -> Option<u64>
    ensures { IfSome result (λ number. number < 2 ^ 63) }
{
    if digits.len() != DIGITS || digits.starts_with('+') {
        return None;
    }
    let number = digits.parse::<u64>().ok()?;
    if number >= MAX_NUMBER {
        return None;
    }
    Some(number)
}

/// The count of a name, which is written without a sign, and without a zero at its front.
fn count_in(digits: &str) -> Option<u32> {
    if digits.starts_with('+') || digits.starts_with('0') {
        return None;
    }
    digits.parse::<u32>().ok()
}
