//! A spool alone: what is put and what waits, and files that change while they are open.
ghost use Rattle.std.specs.Prelude.{◌≡◌, IfOk};
ghost use Rattle.spool.specs.Settled.{IsSettled};

use crate::tests::device::{Change, TestDevice};
use crate::tests::equal::assert_equal;
use spool::{Device, MemoryDevice, MemoryFile, Opened, Spool, SpoolError, WaitingBody};
use std::alloc::{AllocError, Global};

/// The record of the body 7, 8, with the CRC-32 of zlib.
const FIRST: &[u8] = &[3, 0, 0, 0, 208, 173, 25, 191, 1, 7, 8];

/// The record of the body 9.
const SECOND: &[u8] = &[2, 0, 0, 0, 26, 155, 30, 33, 1, 9];

/// The same, but for its last byte.
const TORN: &[u8] = &[2, 0, 0, 0, 26, 155, 30, 33, 1];

/// The record of the note that all bodies below 1 were delivered.
const NOTE: &[u8] = &[9, 0, 0, 0, 182, 60, 85, 4, 2, 1, 0, 0, 0, 0, 0, 0, 0];

/// Opens a spool of a thousand bytes at most. What fails lets the device go.
fn opened<D: Device + Drop>(
    alloc: Global,
    device: D,
    segment_limit: u64,
) -> Result<Opened<D>, SpoolError>
    ensures { IfOk result (λ opened. D.is_known
        → IsSettled D.files D.moment D.left_at opened.spool) }
{
    match Spool::open(alloc, device, 1000, segment_limit) {
        Ok(opened) => Ok(opened),
        Err((error, _)) => Err(error),
    }
}

/// Lists bodies: of each its number, its length and its bytes.
fn push_listed(out: &mut Vec<u8>, found: &[WaitingBody]) -> Result<(), AllocError> {
    for body in found.iter() {
        out.push((body.number % 256) as u8)?;
        out.push((body.bytes.len() % 256) as u8)?;
        out.extend_from_slice(body.bytes.as_slice())?;
    }
    Ok(())
}

/// Lists the bodies that wait and have this number or a higher one.
fn listed<D: Device>(alloc: Global, spool: &mut Spool<D>, from: u64) -> Result<Vec<u8>, SpoolError>
    requires { D.is_known → IsSettled D.files D.moment D.left_at spool.old }
    ensures { D.is_known → IsSettled D.files D.moment D.left_at spool.new }
{
    let mut out = Vec::new(alloc);
    for index in 0..spool.file_count() {
        let found = spool.bodies(alloc, index, from)?;
        push_listed(&mut out, &found)?;
    }
    Ok(out)
}

/// Puts a body.
fn put<D: Device>(alloc: Global, spool: &mut Spool<D>, body: &[u8]) -> Result<u64, SpoolError>
    requires { D.is_known → IsSettled D.files D.moment D.left_at spool.old }
    ensures { IfOk result (λ _. D.is_known → IsSettled D.files D.moment D.left_at spool.new) }
{
    let mut bodies = Vec::new(alloc);
    bodies.push(body.to_vec(alloc)?)?;
    spool.put(alloc, &bodies)
}

/// A file with the bytes of some parts.
fn file(alloc: Global, number: u64, parts: &[&[u8]]) -> Result<MemoryFile, AllocError> {
    let mut bytes = Vec::new(alloc);
    for part in parts {
        bytes.extend_from_slice(part)?;
    }
    Ok(MemoryFile { number, bytes })
}

/// What came of two puts and a note.
#[derive(Drop)]
struct Found {
    /// The numbers of the bodies, and the next one.
    numbers: (u64, u64, u64),
    /// The size of all files, and how many there are, before the note.
    size: (u64, usize),
    /// The bodies that waited before it, all of them and those from the number 1 on.
    waiting: (Vec<u8>, Vec<u8>),
    /// The files after it.
    files: Vec<MemoryFile>,
}

/// Puts two bodies into files of so many bytes, and notes that the first one was delivered.
fn work(alloc: Global, segment_limit: u64) -> Result<Found, SpoolError> {
    let device = MemoryDevice::new(alloc, Vec::new(alloc), u64::MAX);
    let mut opened = opened(alloc, device, segment_limit)?;
    let first = put(alloc, &mut opened.spool, &[7, 8])?;
    let second = put(alloc, &mut opened.spool, &[9])?;
    let size = (opened.spool.size(), opened.spool.file_count());
    let all = listed(alloc, &mut opened.spool, 0)?;
    let later = listed(alloc, &mut opened.spool, 1)?;
    opened.spool.note_delivered(alloc, 1)?;
    Ok(Found {
        numbers: (first, second, opened.spool.next_number()),
        size,
        waiting: (all, later),
        files: opened.spool.into_device().into_files(),
    })
}

#[test]
fn a_body_is_in_a_file_until_it_is_delivered(rt: HostRuntime) {
    // In one file, and in a file for each, of which the older one is removed.
    let rows: [(u64, usize, &[(u64, &[&[u8]])]); 2] = [
        (21, 1, &[(0, &[FIRST, SECOND]), (2, &[NOTE])]),
        (20, 2, &[(1, &[SECOND]), (2, &[NOTE])]),
    ];
    for (limit, count, left) in rows {
        let found = work(rt.alloc(), limit).expect(&rt, "a spool");
        assert_equal(&rt, (found.numbers, found.size), ((0, 1, 2), (21, count)));
        let (all, later) = (found.waiting.0.as_slice(), found.waiting.1.as_slice());
        assert_equal(&rt, all, [0, 2, 7, 8, 1, 1, 9].as_slice());
        assert_equal(&rt, later, [1, 1, 9].as_slice());
        assert_equal(&rt, found.files.len(), left.len());
        for (found, (number, parts)) in found.files.iter().zip(left.iter()) {
            let wanted = file(rt.alloc(), *number, parts).expect(&rt, "memory");
            assert_equal(&rt, found.number, wanted.number);
            assert_equal(&rt, found.bytes.as_slice(), wanted.bytes.as_slice());
        }
    }
}

/// Why a file of these parts isn't read once it has changed, and what waits once the spool is opened
/// again, with how many bytes are not read then.
fn refusal(
    alloc: Global,
    parts: &[&[u8]],
    change: Change,
) -> Result<(Option<SpoolError>, Vec<u8>, u64), SpoolError> {
    let mut files = Vec::new(alloc);
    files.push(file(alloc, 5, parts)?)?;
    let device = TestDevice::changing(alloc, files, change);
    let mut changed = opened(alloc, device, 1000)?;
    let refused = listed(alloc, &mut changed.spool, 0).err();
    let files = changed.spool.into_device().into_files();
    let mut again = opened(alloc, TestDevice::new(alloc, files, u64::MAX), 1000)?;
    let all = listed(alloc, &mut again.spool, 0)?;
    Ok((refused, all, again.damaged_bytes))
}

#[test]
fn a_file_that_has_changed_is_refused(rt: HostRuntime) {
    let two = [FIRST, SECOND];
    let noted = [FIRST, NOTE];
    let between = [FIRST, NOTE, SECOND];
    let torn = [FIRST, TORN];
    let all = [5, 2, 7, 8, 6, 1, 9].as_slice();
    let one = [5, 2, 7, 8].as_slice();
    let later = [6, 1, 9].as_slice();
    let none = [].as_slice();
    let failed = Some(SpoolError::Failed);
    for (parts, change, wanted, left, damaged) in [
        (two.as_slice(), Change::Nothing, None, all, 0),
        (torn.as_slice(), Change::Nothing, None, one, 9),
        (two.as_slice(), Change::FlipsBit(20), failed, one, 10),
        (two.as_slice(), Change::FlipsBit(11), failed, one, 10),
        (two.as_slice(), Change::FlipsBit(10), failed, later, 11),
        (two.as_slice(), Change::FlipsBit(0), failed, none, 21),
        (between.as_slice(), Change::FlipsBit(20), failed, all, 17),
        (noted.as_slice(), Change::FlipsBit(10), failed, none, 11),
        (two.as_slice(), Change::CutsByte, failed, one, 9),
        (two.as_slice(), Change::AddsByte, failed, all, 1),
        (noted.as_slice(), Change::FlipsBit(20), failed, one, 17),
        (torn.as_slice(), Change::FlipsBit(10), failed, none, 20),
        (torn.as_slice(), Change::CutsByte, failed, one, 8),
        (torn.as_slice(), Change::AddsByte, failed, one, 10),
    ] {
        let (refused, bodies, lost) = refusal(rt.alloc(), parts, change).expect(&rt, "a spool");
        assert_equal(&rt, (refused, lost), (wanted, damaged));
        assert_equal(&rt, bodies.as_slice(), left);
    }
}
