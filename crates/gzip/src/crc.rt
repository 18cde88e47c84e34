//! CRC-32 (RFC 1952, 8), sixteen bytes a step.

ghost use Rattle.std.specs.Prelude.{◌≡◌, ℕ, ◌+◌, ◌*◌, ◌/◌, ◌%◌, ◌<◌, ◌≤◌, length, bit_xor};
ghost use Rattle.model_deflate.specs.Crc.{divided, divided_by, crc_bytes, crc32};
ghost use Rattle.gzip.specs.Tables.{IsCrcTable, AreCrcEntries};

use std::alloc::{AllocError, Allocator};

/// A table that the check of bytes, CRC-32, is looked up in: the steps of each byte, and those of
/// each with one to fifteen bytes of 0 after it. It takes 16 KB.
#[derive(Drop)]
pub struct CrcTable<A: Allocator> {
    entries: Vec<u32, A>,
    ghost exact: { IsCrcTable entries.items },
}

/// How many entries a table has: one of each byte, alone and before one to fifteen others.
const ENTRIES: usize = 4096;

/// A step of the division by the polynomial.
fn step(state: u32) -> u32
    ensures { result ≡ divided state }
{
    (state / 2) ^ (0xedb8_8320 * (state % 2))
}

/// The eight steps of a byte.
fn steps(byte: u32) -> u32
    ensures { result ≡ divided_by 8 byte }
{
    let mut state = byte;
    let mut done: u32 = 0;
    while done < 8 {
        state = step(state);
        done += 1;
    }
    state
}

/// The entry that follows those that are there.
fn next_entry(entries: &[u32], index: usize) -> u32
    requires sized { length entries.now ≡ index }
    requires exact { AreCrcEntries entries.now index }
    ensures { result ≡ divided_by (8 * (index / 256 + 1)) (index % 256) }
{
    if index < 256 {
        return steps(index as u32);
    }
    let before = entries[index - 256];
    entries[(before & 255) as usize] ^ (before >> 8)
}

/// The entry of the lowest byte of a word, before so many other bytes.
#[inline(always)]
fn entry(table: &[u32], others: usize, word: u64) -> u32
    requires table { IsCrcTable table.now }
    requires few { others < 16 }
    ensures { result ≡ divided_by (8 * (others + 1)) (word % 256) }
{
    table[256 * others + (word & 255) as usize]
}

/// The steps of the eight bytes of a word, before so many other bytes.
#[inline(always)]
fn word_steps(table: &[u32], others: usize, word: u64) -> u32
    requires table { IsCrcTable table.now }
    requires few { others ≤ 8 }
    ensures { result ≡ divided_by (64 + 8 * others) word }
{
    let first = entry(table, others + 7, word);
    let second = entry(table, others + 6, word >> 8);
    let third = entry(table, others + 5, word >> 16);
    let fourth = entry(table, others + 4, word >> 24);
    let fifth = entry(table, others + 3, word >> 32);
    let sixth = entry(table, others + 2, word >> 40);
    let seventh = entry(table, others + 1, word >> 48);
    let eighth = entry(table, others, word >> 56);
    first ^ second ^ third ^ fourth ^ fifth ^ sixth ^ seventh ^ eighth
}

/// The state after two words. What is looked up of the second doesn't wait for the first.
#[inline(always)]
fn after_words(table: &[u32], state: u32, first: u64, second: u64) -> u32
    requires { IsCrcTable table.now }
    ensures { result ≡ divided_by 64 (bit_xor second (divided_by 64 (bit_xor first state))) }
{
    let low = word_steps(table, 0, second);
    let high = word_steps(table, 8, first ^ u64::from(state));
    low ^ high
}

/// The state after bytes, one a step.
fn update_each(table: &[u32], state: u32, bytes: &[u8]) -> u32
    requires { IsCrcTable table.now }
    ensures { result ≡ crc_bytes state bytes.now }
{
    let mut state = state;
    for byte in bytes {
        let index = (state ^ u32::from(*byte)) & 255;
        state = table[index as usize] ^ (state >> 8);
    }
    state
}

/// The state after bytes: after two words of eight bytes a step, and then after each byte that is
/// left.
fn update(table: &[u32], state: u32, bytes: &[u8]) -> u32
    requires { IsCrcTable table.now }
    ensures { result ≡ crc_bytes state bytes.now }
{
    let mut state = state;
    let mut rest = bytes;
    'words: loop {
        let Some((first, after)) = rest.split_first_chunk::<8>() else {
            break;
        };
        let Some((second, later)) = after.split_first_chunk::<8>() else {
            break;
        };
        let first = u64::from_le_bytes(*first);
        let second = u64::from_le_bytes(*second);
        state = after_words(table, state, first, second);
        rest = later;
    }
    update_each(table, state, rest)
}

impl<A: Allocator> CrcTable<A> {
    /// A table. It fails where memory is refused.
    pub fn new(alloc: A) -> Result<CrcTable<A>, AllocError>
    where
        A: Drop,
    {
        let mut entries = Vec::with_capacity(alloc, ENTRIES)?;
        for index in 0..ENTRIES {
            let entry = next_entry(entries.as_slice(), index);
            entries.push_reserved(entry);
        }
        Ok(CrcTable { entries })
    }

    /// The check of these bytes.
    pub fn check(&self, bytes: &[u8]) -> u32
        ensures { result ≡ crc32 bytes.now }
    {
        update(self.entries.as_slice(), u32::MAX, bytes) ^ u32::MAX
    }
}
