//! The bytes of bodies, put one after the other.
ghost use Rattle.std.specs.Prelude.{◌≡◌, ◌+◌, ◌^◌, ◌<◌, ◌≤◌, ◌++◌, length, take, vec_capacity};
ghost use Rattle.std.specs.Prelude.{vec_len};
ghost use Rattle.std.specs.VecDeque.{deque_len};
ghost use Rattle.model_body.specs.Histories.{joined};
ghost use Rattle.model_body.specs.Desks.{memory_of};
ghost use Rattle.relay_queue.specs.Bodies.{bodies_view};

use std::alloc::Allocator;
use std::collections::VecDeque;

/// How many bytes the body at this place has: so many more do the bodies up to it have than those
/// before it.
fn size_at<A: Allocator>(bodies: &VecDeque<Vec<u8, A>, A>, at: usize) -> usize
    requires { at < deque_len bodies.now }
    ensures more { length (joined (take (at + 1) (bodies_view bodies.now.items)))
        ≡ length (joined (take at (bodies_view bodies.now.items))) + result }
    ensures within { length (joined (take (at + 1) (bodies_view bodies.now.items)))
        ≤ memory_of (bodies_view bodies.now.items) }
{
    bodies[at].len()
}

/// How many bodies, the first ones, have at most `limit` bytes together.
fn whole_count<A: Allocator>(bodies: &VecDeque<Vec<u8, A>, A>, limit: usize) -> usize
    ensures there { result ≤ deque_len bodies.now }
    ensures within { length (joined (take result (bodies_view bodies.now.items))) ≤ limit }
    ensures greatest { result < deque_len bodies.now
        → limit < length (joined (take (result + 1) (bodies_view bodies.now.items))) }
{
    let mut room = limit;
    for index in 0..bodies.len() {
        let size = size_at(bodies, index);
        if size > room {
            return index;
        }
        room -= size;
    }
    bodies.len()
}

/// How many bodies, the first ones, fit into a batch of at most `limit` bytes, and at least one.
pub(crate) fn fit_count<A: Allocator>(bodies: &VecDeque<Vec<u8, A>, A>, limit: usize) -> usize
    requires { 0 < deque_len bodies.now }
    ensures some { 1 ≤ result }
    ensures there { result ≤ deque_len bodies.now }
    ensures within { 1 < result
        → length (joined (take result (bodies_view bodies.now.items))) ≤ limit }
    ensures greatest { result < deque_len bodies.now
        → limit < length (joined (take (result + 1) (bodies_view bodies.now.items))) }
{
    whole_count(bodies, limit).max(1)
}

/// How many bytes the first `count` bodies have together.
pub(crate) fn joined_len<A: Allocator>(bodies: &VecDeque<Vec<u8, A>, A>, count: usize) -> usize
    requires there { count ≤ deque_len bodies.now }
    requires fits { memory_of (bodies_view bodies.now.items) < 2 ^ 64 }
    ensures { result ≡ length (joined (take count (bodies_view bodies.now.items))) }
{
    let mut total = 0;
    for index in 0..count {
        let size = size_at(bodies, index);
        total += size;
    }
    total
}

/// Appends bytes for which there is room.
fn append_reserved<A: Allocator>(out: &mut Vec<u8, A>, bytes: &[u8])
    requires { vec_len out.old + length bytes.now ≤ vec_capacity out.old }
    ensures items { out.new.items ≡ out.old.items ++ bytes.now }
    ensures len { vec_len out.new ≡ vec_len out.old + length bytes.now }
    ensures capacity { vec_capacity out.old ≤ vec_capacity out.new }
{
    let Ok(()) = out.extend_from_slice(bytes) else {
        unreachable!()
    };
}

/// Appends the bytes of the first `count` bodies, one body after the other, where there is room
/// for them.
pub(crate) fn append_joined<A: Allocator>(
    bodies: &VecDeque<Vec<u8, A>, A>,
    count: usize,
    out: &mut Vec<u8, A>,
)
    requires there { count ≤ deque_len bodies.now }
    requires room { vec_len out.old + length (joined (take count (bodies_view bodies.now.items)))
        ≤ vec_capacity out.old }
    ensures { out.new.items ≡ out.old.items
        ++ joined (take count (bodies_view bodies.now.items)) }
{
    for index in 0..count {
        append_reserved(out, bodies[index].as_slice());
    }
}
