//! Posts of a round, which a service keeps together, with one sync.
ghost use Rattle.std.specs.Prelude.{◌≡◌};

use crate::tests::device::TestDevice;
use crate::tests::equal::assert_equal;
use crate::tests::relay::{Relay, opened};
use http_connection::{Connection, Gathers, Limits};
use relay_service::{Hosts, NoPieces, RelayService};
use relay_store::{Naming, RelayBlank, SharedKeeper};
use std::alloc::{AllocError, Global};
use std::hash::RandomState;
use std::marker::Brand;
use std::net::{IpAddr, Ipv4Addr};
use std::process::Abort;
use std::random::RandomSource;
use std::sync::Wait;
use std::test::Fail;

/// The room that is left for what is pending.
const ROOM: usize = 1 << 24;

/// What comes before the body of a post.
const HEAD: &[u8] = b"POST /v1/traces HTTP/1.1\r\nhost: localhost:4318\r\n\
content-type: application/x-protobuf\r\ncontent-length: 34\r\n\r\n";

/// A body of one span, whose identifiers are as long as the standard has them.
const FIRST: &[u8] = b"\x0a\x20\x12\x1e\x12\x1c\x0a\x10aaaaaaaaaaaaaaaa\x12\x08aaaaaaaa";

/// Another one.
const SECOND: &[u8] = b"\x0a\x20\x12\x1e\x12\x1c\x0a\x10bbbbbbbbbbbbbbbb\x12\x08bbbbbbbb";

/// What is answered to a post that is taken, 76 bytes.
const TAKEN: &[u8] = b"HTTP/1.1 200 OK\r\ncontent-type: application/x-protobuf\r\n\
content-length: 0\r\n\r\n";

/// A service that keeps bodies together.
type Service<J, R> = RelayService<SharedKeeper<J, R, TestDevice>>;

/// Posts of these bodies, of 34 bytes each.
fn posts(alloc: Global, bodies: &[&[u8]]) -> Result<Vec<u8>, AllocError> {
    let mut bytes = Vec::new(alloc);
    for body in bodies {
        bytes.extend_from_slice(HEAD)?;
        bytes.extend_from_slice(body)?;
    }
    Ok(bytes)
}

/// Reads what a client sends up to a whole request, which the service is shown.
fn read<J: Naming, R: Wait>(
    connection: &mut Connection<NoPieces>,
    service: &mut Service<J, R>,
    input: &[u8],
) -> Result<(), Fail> {
    let mut reader = input;
    for _ in 0..100 {
        connection.advance_to_whole(service, ROOM);
        if reader.is_empty() || !connection.wants_read() {
            break;
        }
        connection.read_from(&mut reader)?;
    }
    connection.show(service, ROOM);
    Ok(())
}

/// How many answers these bytes are, each of which says that a post is taken, or `None`.
fn count_taken(output: &[u8]) -> Option<usize> {
    let mut count: usize = 0;
    for answer in output.chunks(76) {
        if answer != TAKEN {
            return None;
        }
        count = count.saturating_add(1);
    }
    Some(count)
}

/// How many posts of a client are answered as taken, or `None` where anything else is answered.
fn answered<J: Naming, R: Wait>(
    alloc: Global,
    connection: &mut Connection<NoPieces>,
    service: &mut Service<J, R>,
) -> Result<Option<usize>, Fail> {
    let mut output = Vec::new(alloc);
    connection.advance(service, ROOM);
    for _ in 0..100 {
        if connection.wants_write() {
            connection.write_to(&mut output)?;
        }
    }
    Ok(count_taken(&output))
}

/// A round in which two clients send these bytes: how many posts of each are taken, and how often
/// the device was synced.
fn round<J: Naming, R: Wait + Abort + RandomSource + Copy>(
    rt: R,
    alloc: Global,
    blank: RelayBlank,
    inputs: (&[u8], &[u8]),
) -> Result<(Option<usize>, Option<usize>, u64), Fail>
    requires { blank ≡ J.name }
{
    let device = TestDevice::new(alloc, Vec::new(alloc), u64::MAX);
    let spool = opened(alloc, device, 600).expect(&rt, "a spool");
    let Relay {
        kept,
        keeper,
        mut sender,
        ..
    } = Relay::<J, R>::new(rt, alloc, blank, 100, Some(spool), &[]);
    let hosts = Hosts::new(alloc, IpAddr::V4(Ipv4Addr::LOCALHOST), 4318, &[])?;
    let mut service = RelayService::new(alloc, keeper, hosts, 1_000);
    let mut first = Connection::new(alloc, RandomState::new(&rt)?, Limits::default());
    let mut second = Connection::new(alloc, RandomState::new(&rt)?, Limits::default());
    read(&mut first, &mut service, inputs.0)?;
    read(&mut second, &mut service, inputs.1)?;
    assert_equal(&rt, first.wants_write() || second.wants_write(), false);
    service.settle();
    let first = answered(alloc, &mut first, &mut service)?;
    let second = answered(alloc, &mut second, &mut service)?;
    let spool = sender.take_spool(&rt, &kept).expect(&rt, "a spool");
    Ok((first, second, spool.into_device().syncs))
}

/// The same, of a relay of its own.
fn play<R: Wait + Abort + RandomSource + Copy>(
    rt: R,
    alloc: Global,
    inputs: (&[u8], &[u8]),
) -> Result<(Option<usize>, Option<usize>, u64), Fail> {
    round::<Brand, R>(rt, alloc, RelayBlank::new(), inputs)
}

#[test]
fn posts_of_a_round_take_one_sync(rt: HostRuntime) -> Result<(), Fail> {
    let alloc = rt.alloc();
    let first = posts(alloc, &[FIRST])?;
    let other = posts(alloc, &[SECOND])?;
    let both = posts(alloc, &[SECOND, FIRST])?;
    let (none, first, other, both) = (b"".as_slice(), &*first, &*other, &*both);
    let (zero, one, two) = (Some(0), Some(1), Some(2));
    for (inputs, wanted) in [
        ((none, none), (zero, zero, 1)),
        ((first, none), (one, zero, 3)),
        ((first, other), (one, one, 3)),
        // Of equal bodies each is kept.
        ((first, first), (one, one, 3)),
        // A post that follows another one of its client is kept later.
        ((first, both), (one, two, 4)),
        // A silent client holds up no other one.
        (
            (b"POST /v1/traces HTTP/1.1\r\n".as_slice(), first),
            (zero, one, 3),
        ),
    ] {
        assert_equal(&rt, play(rt, alloc, inputs)?, wanted);
    }
    Ok(())
}
