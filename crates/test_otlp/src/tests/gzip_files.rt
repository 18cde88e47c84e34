//! Gzip files that are written: how long they are, and that they are read back.
use crate::tests::equal::assert_equal;
use gzip::{Gunzip, GunzipError, Gzip};
use std::alloc::{AllocError, Allocator};

/// The file of eight times `a`, in hexadecimal: a literal, and a copy of seven bytes from one byte
/// back, which overlaps what it makes.
pub(crate) const OVERLAP: &str = "1f8b08000000000000ff4b840200468084bf08000000";

/// The file of these bytes.
pub(crate) fn written<A: Allocator + Copy + Drop>(
    alloc: A,
    bytes: &[u8],
) -> Result<Vec<u8, A>, AllocError> {
    let mut writer = Gzip::new(alloc)?;
    let mut out = Vec::new(alloc);
    match writer.write(bytes, &mut out) {
        Ok(()) => Ok(out),
        Err(error) => Err(error),
    }
}

/// So many bytes, which begin anew after 251 of them.
fn pattern<A: Allocator>(alloc: A, count: usize) -> Result<Vec<u8, A>, AllocError> {
    let mut bytes = Vec::new(alloc);
    for place in 0..count {
        bytes.push((place % 251) as u8)?;
    }
    Ok(bytes)
}

/// So many bytes in which no string of four is there twice.
fn noise<A: Allocator>(alloc: A, count: usize) -> Result<Vec<u8, A>, AllocError> {
    let mut bytes = Vec::new(alloc);
    let mut state: u32 = 1;
    for _ in 0..count {
        state = state.wrapping_mul(1_664_525).wrapping_add(1_013_904_223);
        bytes.push((state >> 24) as u8)?;
    }
    Ok(bytes)
}

/// What a file means that is read at this limit.
fn read<A: Allocator + Copy + Drop>(
    alloc: A,
    file: &[u8],
    limit: usize,
) -> Result<Vec<u8, A>, GunzipError> {
    let mut reader = Gunzip::new(alloc)?;
    let mut out = Vec::new(alloc);
    match reader.read(file, limit, &mut out) {
        Ok(()) => Ok(out),
        Err(error) => Err(error),
    }
}

/// How long the file of these bytes is, and whether it is read back as they are.
fn length_of<A: Allocator + Copy + Drop>(
    alloc: A,
    bytes: &[u8],
) -> Result<(usize, bool), GunzipError> {
    let file = written(alloc, bytes)?;
    let all = read(alloc, &file, bytes.len())?;
    Ok((file.len(), all.as_slice() == bytes))
}

/// Bits of the files below. Each begins with three bits and ends with seven. Noise is stored in four
/// blocks. Of 100,000 bytes of a pattern that begins anew after 251, the first 144 take eight bits
/// each and the other 107 nine; then come 386 copies of 258 bytes, of 8 bits and 11 for the distance,
/// and one of 161, of 13 and 11. A run is a literal of eight bits, 387 copies of 258 bytes, of 8
/// bits and 5 for the distance, and one of 153, of 13 and 5.
#[test]
fn how_long_files_are_that_are_read_back(rt: HostRuntime) {
    let noise = noise(rt.alloc(), 200_000).expect(&rt, "memory");
    let pattern = pattern(rt.alloc(), 100_000).expect(&rt, "memory");
    let run = vec![in rt.alloc(); 0u8; 100_000].expect(&rt, "memory");
    for (bytes, length) in [
        (noise.as_slice(), 200_000 + 4 * 5 + 18),
        (pattern.as_slice(), 9483 / 8 + 1 + 18),
        (run.as_slice(), 5067 / 8 + 1 + 18),
    ] {
        let found = length_of(rt.alloc(), bytes).expect(&rt, "a file");
        assert_equal(&rt, found, (length, true));
    }
}
