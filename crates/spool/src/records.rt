//! The records of a file: reading and writing them.
ghost use Rattle.std.specs.Prelude.{◌≡◌, ℕ, ◌+◌, ◌-◌, ◌*◌, ◌^◌, ◌<◌, ◌≤◌, List, [], ◌∷◌, ◌++◌, length, take, drop};
ghost use Rattle.std.specs.Prelude.{true, false, if◌then◌else◌, ◌==◌, map, MatchOption, IfOk, OnOk, OnErr, IsErrOf, unwrap_or};
ghost use Rattle.std.specs.Prelude.{Option, is_some};
ghost use Rattle.std.specs.List.{AllByRecursion};
ghost use Rattle.std.specs.Int.{w32, from_le_bytes};
ghost use Rattle.spool.specs.Records.{record_bytes, IsContent, spelled, length_at, content_at, after_at};
ghost use Rattle.spool.specs.Records.{is_record_at, is_skipped_at, contents, rest, body_content, note_content, body_of};
ghost use Rattle.spool.specs.Records.{kept_body, note_of, bodies, notes, numbered, span};
ghost use Rattle.spool.specs.Reading.{IsFramed, IsEntry, IsKept, IsRead, read_of, span_on, unread_of};
ghost use Rattle.spool.specs.Spools.{greatest, numbered_from, IsOneTooLong};
ghost use Rattle.spool.specs.Settled.{waiting_view};

use crate::SpoolError;
use gzip::CrcTable;
use std::alloc::{AllocError, Global};

/// The first byte of a content that keeps a body.
const BODY: u8 = 1;

/// The first byte of a content that notes a number.
const NOTE: u8 = 2;

/// The length and the check that bytes begin with, and the bytes after them.
fn head(bytes: &[u8]) -> Option<(u32, u32, &[u8])>
    ensures { MatchOption result (length bytes.now < 8) (λ x. (x.0 ≡ length_at bytes.now)
        × (x.1 ≡ from_le_bytes w32 (take 4 (drop 4 bytes.now))) × (x.2.now ≡ drop 8 bytes.now)
        × (8 ≤ length bytes.now)) }
{
    let Some((length, after)) = bytes.split_first_chunk::<4>() else {
        return None;
    };
    let Some((check, after)) = after.split_first_chunk::<4>() else {
        return None;
    };
    Some((
        u32::from_le_bytes(*length),
        u32::from_le_bytes(*check),
        after,
    ))
}

/// The check, the content and the bytes after it of the record that bytes begin with, where they
/// are as many as its length says. Whether it checks isn't looked at.
fn frame_at(bytes: &[u8]) -> Option<(u32, &[u8], &[u8])>
    ensures { MatchOption result (IsFramed bytes.now → ⊥) (λ x. IsFramed bytes.now
        × (x.0 ≡ from_le_bytes w32 (take 4 (drop 4 bytes.now)))
        × (x.1.now ≡ content_at bytes.now) × (x.2.now ≡ after_at bytes.now)) }
{
    let Some((length, check, after)) = head(bytes) else {
        return None;
    };
    let length = length as usize;
    if length == 0 || after.len() < length {
        return None;
    }
    let (content, after) = after.split_at(length);
    Some((check, content, after))
}

/// The content of the record that bytes begin with, if it checks, and the bytes after it.
fn record_at<'a>(table: &CrcTable<Global>, bytes: &'a [u8]) -> Option<(&'a [u8], &'a [u8])>
    ensures { MatchOption result (is_record_at bytes.now ≡ false) (λ x.
        (is_record_at bytes.now ≡ true) × (x.0.now ≡ content_at bytes.now) × (x.1.now
        ≡ after_at bytes.now)) }
{
    let Some((check, content, after)) = frame_at(bytes) else {
        return None;
    };
    if table.check(content) != check {
        return None;
    }
    Some((content, after))
}

/// The content of the record that bytes begin with, if the record after it checks, and the bytes
/// after it. Whether it checks itself isn't looked at.
fn skipped_at<'a>(table: &CrcTable<Global>, bytes: &'a [u8]) -> Option<(&'a [u8], &'a [u8])>
    ensures { MatchOption result (is_skipped_at bytes.now ≡ false) (λ x.
        (is_skipped_at bytes.now ≡ true) × (x.0.now ≡ content_at bytes.now) × (x.1.now
        ≡ after_at bytes.now)) }
{
    let Some((_check, content, after)) = frame_at(bytes) else {
        return None;
    };
    let Some(_next) = record_at(table, after) else {
        return None;
    };
    Some((content, after))
}

/// A record that is read: its content, the bytes after it, and whether it checks. One that doesn't
/// is damaged, and is skipped.
#[derive(Clone, Copy, Debug)]
pub(crate) struct Entry<'a> {
    content: &'a [u8],
    after: &'a [u8],
    checks: bool,
}

/// The record that bytes begin with, which checks, or is damaged while the one after it checks.
fn entry_at<'a>(table: &CrcTable<Global>, bytes: &'a [u8]) -> Option<Entry<'a>>
    ensures { MatchOption result ((contents bytes.now ≡ []) × (rest bytes.now ≡ bytes.now))
        (λ x. IsEntry bytes.now x.content.now x.after.now x.checks) }
{
    if let Some((content, after)) = record_at(table, bytes) {
        return Some(Entry {
            content,
            after,
            checks: true,
        });
    }
    let Some((content, after)) = skipped_at(table, bytes) else {
        return None;
    };
    Some(Entry {
        content,
        after,
        checks: false,
    })
}

/// What a record has of bodies.
#[derive(Clone, Copy, Debug, PartialEq, Eq)]
pub(crate) enum Kept {
    /// One.
    Body,
    /// One, which is damaged.
    Damaged,
    /// None.
    Nothing,
}

/// Whether a content keeps a body.
fn has_body(content: &[u8]) -> bool
    ensures { result ≡ is_some (body_of content.now) }
{
    match content.first() {
        Some(&BODY) => true,
        _ => false,
    }
}

/// Whether the content of a damaged record kept a body: unless it is as long as that of a note, and
/// doesn't begin as one with a body.
fn had_body(content: &[u8]) -> bool
    ensures { result ≡ kept_body content.now }
{
    match content.split_first() {
        Some((kind, bytes)) => *kind == BODY || bytes.len() != 8,
        None => false,
    }
}

/// What a record has of bodies, which checks or is damaged.
fn kept_by(content: &[u8], checks: bool) -> Kept
    ensures { IsKept result (bodies (read_of checks content.now)) }
{
    if checks {
        if has_body(content) {
            return Kept::Body;
        }
        return Kept::Nothing;
    }
    if had_body(content) {
        return Kept::Damaged;
    }
    Kept::Nothing
}

/// The place after a record, and the one after the last body that isn't damaged, by those before
/// it.
fn place_after(place: u64, ends: u64, kept: Kept) -> (u64, u64)
    requires { place + 1 < 2 ^ 64 }
    ensures places { (these : List (Option (List ℕ))) → IsKept kept these
        → result.0 ≡ place + length these }
    ensures ends { (these after : List (Option (List ℕ))) → IsKept kept these
        → span_on result.0 result.1 after ≡ span_on place ends (these ++ after) }
    ensures few { result.0 ≤ place + 1 }
    ensures within { ends ≤ place → result.1 ≤ result.0 }
{
    match kept {
        Kept::Body => (place + 1, place + 1),
        Kept::Damaged => (place + 1, ends),
        Kept::Nothing => (place, ends),
    }
}

/// The number that a content notes, or 0.
fn noted(content: &[u8]) -> u64
    ensures { result ≡ unwrap_or (note_of content.now) 0 }
{
    let Some((kind, bytes)) = content.split_first() else {
        return 0;
    };
    if *kind != NOTE || bytes.len() != 8 {
        return 0;
    }
    let Some((number, _)) = bytes.split_first_chunk::<8>() else {
        return 0;
    };
    u64::from_le_bytes(*number)
}

/// The greatest number that a record notes, or 0. One that is damaged notes none.
fn noted_by(content: &[u8], checks: bool) -> u64
    ensures { result ≡ greatest (notes (read_of checks content.now)) }
{
    if checks {
        return noted(content);
    }
    0
}

/// How many bytes of a record are not read.
fn unread(content: &[u8], checks: bool) -> u64
    ensures { result ≡ unread_of checks content.now }
{
    if checks {
        return 0;
    }
    8 + content.len() as u64
}

/// What the records of a file are: how many bodies they keep, with the damaged ones; how many up to
/// the last one that isn't damaged; the greatest number that they note; and how many bytes are not
/// read.
#[derive(Clone, Copy, Debug)]
pub(crate) struct FileRecords {
    place: u64,
    pub(crate) bodies: u64,
    pub(crate) done: u64,
    pub(crate) rest: u64,
}

impl FileRecords {
    /// Of no records.
    fn none() -> FileRecords
        ensures { (bytes : List ℕ) → IsRead bytes bytes result }
    {
        FileRecords {
            place: 0,
            bodies: 0,
            done: 0,
            rest: 0,
        }
    }

    /// With one more record.
    fn add(&mut self, entry: &Entry<'_>)
        requires place { self.old.place + 1 < 2 ^ 64 }
        requires rest { self.old.rest + (8 + length entry.now.content.now) < 2 ^ 64 }
        ensures places { self.new.place ≡ self.old.place
            + length (bodies (read_of entry.now.checks entry.now.content.now)) }
        ensures read { (bytes left : List ℕ) → IsRead bytes left self.old
            → IsEntry left entry.now.content.now entry.now.after.now entry.now.checks
            → IsRead bytes entry.now.after.now self.new }
    {
        let kept = kept_by(entry.content, entry.checks);
        let (place, ends) = place_after(self.place, self.bodies, kept);
        self.place = place;
        self.bodies = ends;
        self.done = self.done.max(noted_by(entry.content, entry.checks));
        self.rest += unread(entry.content, entry.checks);
    }

    /// With the bytes at the end, which are not read.
    fn ended(self, left: usize) -> FileRecords
        requires { self.rest + left < 2 ^ 64 }
        ensures { result ≡ record self { rest = self.rest + left } }
    {
        FileRecords {
            rest: self.rest + left as u64,
            ..self
        }
    }
}

/// Reads all records of a file.
pub(crate) fn scan(table: &CrcTable<Global>, bytes: &[u8]) -> FileRecords
    ensures bodies { result.bodies ≡ span (bodies (contents bytes.now)) }
    ensures done { result.done ≡ greatest (notes (contents bytes.now)) }
    ensures rest { result.rest ≡ length (rest bytes.now) }
    ensures few { 9 * result.bodies ≤ length bytes.now }
{
    let mut found = FileRecords::none();
    let mut left = bytes;
    while let Some(entry) = entry_at(table, left) {
        found.add(&entry);
        left = entry.after;
    }
    found.ended(left.len())
}

/// The number that bytes which are not read take.
pub(crate) fn torn_count(rest: u64) -> u64
    ensures { result ≡ (if rest == 0 then 0 else 1) }
{
    if rest == 0 { 0 } else { 1 }
}

/// A body that waits.
#[derive(Drop)]
pub struct WaitingBody {
    /// Its number.
    pub number: u64,
    /// Its bytes.
    pub bytes: Vec<u8>,
}

/// The bodies of a file with a number from one on, and what its records are.
#[derive(Drop)]
pub(crate) struct FileBodies {
    pub(crate) bodies: Vec<WaitingBody>,
    pub(crate) records: FileRecords,
}

/// The bodies of a file that have a number from this on, where they are numbered from the file's
/// number.
pub(crate) fn bodies_from(
    alloc: Global,
    table: &CrcTable<Global>,
    bytes: &[u8],
    number: u64,
    from: u64,
) -> Result<FileBodies, AllocError>
    requires { number + length bytes.now < 2 ^ 64 }
    ensures bodies { IfOk result (λ file. waiting_view file.bodies.items
        ≡ numbered_from from (numbered number (bodies (contents bytes.now)))) }
    ensures count { IfOk result (λ file.
        file.records.bodies ≡ span (bodies (contents bytes.now))) }
    ensures rest { IfOk result (λ file. file.records.rest ≡ length (rest bytes.now)) }
{
    let mut found = Vec::new(alloc);
    let mut records = FileRecords::none();
    let mut left = bytes;
    while let Some(entry) = entry_at(table, left) {
        push_body(alloc, &mut found, &entry, number + records.place, from)?;
        records.add(&entry);
        left = entry.after;
    }
    Ok(FileBodies {
        bodies: found,
        records: records.ended(left.len()),
    })
}

/// Keeps the body of a record, if it has one that isn't damaged, and this number isn't below `from`.
fn push_body(
    alloc: Global,
    found: &mut Vec<WaitingBody>,
    entry: &Entry<'_>,
    number: u64,
    from: u64,
) -> Result<(), AllocError>
    ensures { OnOk result ((after : List (Option (List ℕ)))
        → waiting_view found.new.items ++ numbered_from from (numbered
        (number + length (bodies (read_of entry.now.checks entry.now.content.now))) after)
        ≡ waiting_view found.old.items ++ numbered_from from (numbered number
        (bodies (read_of entry.now.checks entry.now.content.now) ++ after))) }
{
    if !entry.checks {
        return Ok(());
    }
    let Some((&BODY, body)) = entry.content.split_first() else {
        return Ok(());
    };
    if number < from {
        return Ok(());
    }
    found.push(WaitingBody {
        number,
        bytes: body.to_vec(alloc)?,
    })?;
    Ok(())
}

/// Writes the record of a content at the end.
fn push_record(
    table: &CrcTable<Global>,
    out: &mut Vec<u8>,
    content: &[u8],
) -> Result<(), SpoolError>
    requires { 0 < length content.now }
    ensures written { OnOk result (out.new.items ≡ out.old.items ++ record_bytes content.now) }
    ensures fits { OnOk result (IsContent content.now) }
    ensures full { IsErrOf result SpoolError.Full → 2 ^ 32 ≤ length content.now }
{
    if content.len() > u32::MAX as usize {
        return Err(SpoolError::Full);
    }
    let length = content.len() as u32;
    let check = table.check(content);
    out.extend_from_slice(&length.to_le_bytes())?;
    out.extend_from_slice(&check.to_le_bytes())?;
    out.extend_from_slice(content)?;
    Ok(())
}

/// Writes the record of a body at the end.
fn push_body_record(
    alloc: Global,
    table: &CrcTable<Global>,
    out: &mut Vec<u8>,
    body: &[u8],
) -> Result<(), SpoolError>
    ensures written { OnOk result (out.new.items
        ≡ out.old.items ++ record_bytes (body_content body.now)) }
    ensures fits { OnOk result (IsContent (body_content body.now)) }
    ensures full { IsErrOf result SpoolError.Full → 2 ^ 32 ≤ length body.now + 1 }
{
    let mut content = Vec::new(alloc);
    content.push(BODY)?;
    content.extend_from_slice(body)?;
    push_record(table, out, &content)
}

/// The records of bodies.
pub(crate) fn bodies_record(
    alloc: Global,
    table: &CrcTable<Global>,
    bodies: &[Vec<u8>],
) -> Result<Vec<u8>, SpoolError>
    ensures written { IfOk result (λ v. v.items
        ≡ spelled (map body_content (map (λ body. body.items) bodies.now))) }
    ensures fits { OnOk result (AllByRecursion IsContent
        (map body_content (map (λ body. body.items) bodies.now))) }
    ensures full { IsErrOf result SpoolError.Full
        → IsOneTooLong (map (λ body. body.items) bodies.now) }
{
    let mut out = Vec::new(alloc);
    for body in bodies {
        push_body_record(alloc, table, &mut out, body)?;
    }
    Ok(out)
}

/// The record of a note.
pub(crate) fn note_record(
    alloc: Global,
    table: &CrcTable<Global>,
    number: u64,
) -> Result<Vec<u8>, SpoolError>
    ensures written { IfOk result (λ v. v.items ≡ spelled (note_content number ∷ [])) }
    ensures fits { OnOk result (IsContent (note_content number)) }
    ensures full { IsErrOf result SpoolError.Full → number < 0 }
{
    let mut content = Vec::new(alloc);
    content.push(NOTE)?;
    content.extend_from_slice(&number.to_le_bytes())?;
    let mut out = Vec::new(alloc);
    push_record(table, &mut out, &content)?;
    Ok(out)
}
