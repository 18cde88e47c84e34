//! A line of bodies.
ghost use Rattle.std.specs.Prelude.{◌≡◌, ◌≢◌, ◌+◌, ◌^◌, ◌<◌, ◌≤◌, ◌↔◌, ◌++◌, ◌∷◌, [], true, false};
ghost use Rattle.std.specs.Prelude.{length, take, drop, IfErr, IsSome, OnErr, OnOk, option_map};
ghost use Rattle.std.specs.Prelude.{vec_capacity, vec_len};
ghost use Rattle.std.specs.Option.{option_to_list};
ghost use Rattle.model_body.specs.Histories.{joined};
ghost use Rattle.model_body.specs.Desks.{Fit, body_size, memory_of};
ghost use Rattle.relay_queue.specs.Bodies.{bodies_view};

use crate::bodies::{append_joined, fit_count, joined_len};
use otlp_ids::OutOfMemory;
use std::alloc::Allocator;
use std::collections::VecDeque;
use std::marker::Model;
use std::mem;

/// What a body takes beside its bytes, in bytes.
pub(crate) const OVERHEAD: usize = 96;

/// Bodies, the first one first, and how much memory they take. In contracts it is the list of their
/// bytes.
#[derive(Drop)]
pub(crate) struct Line<A: Allocator> {
    bodies: VecDeque<Vec<u8, A>, A>,
    memory: usize,
}

impl<A: Allocator> Model for Line<A> {
    ghost use Rattle.std.specs.Prelude.{◌≡◌, ◌^◌, ◌<◌, ℕ, List};
    ghost use Rattle.model_body.specs.Desks.{memory_of};
    ghost use Rattle.relay_queue.specs.Bodies.{bodies_view};

    ghost Value = { List (List ℕ) };

    ghost view = { λ l. bodies_view l.bodies.items };

    ghost invariant = { λ l. (l.memory ≡ memory_of (bodies_view l.bodies.items))
        × (l.memory < 2 ^ 64) };
}

impl<A: Allocator + Copy> Line<A> {
    /// No body. It takes no memory.
    pub(crate) fn new(alloc: A) -> Line<A>
        ensures { result ≡ [] }
    {
        Line {
            bodies: VecDeque::new(alloc),
            memory: 0,
        }
    }

    /// Takes all bodies out, and takes no memory.
    pub(crate) fn take_all(&mut self) -> Vec<Vec<u8, A>, A>
        ensures all { bodies_view result.items ≡ self.old }
        ensures line { self.new ≡ [] }
    {
        let empty = VecDeque::new(*self.bodies.allocator());
        self.memory = 0;
        Vec::from(mem::replace(&mut self.bodies, empty))
    }
}

impl<A: Allocator> Line<A> {
    /// How many bodies there are.
    pub(crate) fn len(&self) -> usize
        ensures { result ≡ length self.now }
    {
        self.bodies.len()
    }

    /// Whether there is no body.
    pub(crate) fn is_empty(&self) -> bool
        ensures none { result ≡ true → self.now ≡ [] }
        ensures some { result ≡ false → self.now ≢ [] }
    {
        self.bodies.is_empty()
    }

    /// How much memory they take, in bytes.
    pub(crate) fn memory(&self) -> usize
        ensures { result ≡ memory_of self.now }
    {
        self.memory
    }

    /// Puts a body after the others, or hands it back where the line can't grow.
    #[tactic(auto, using(crate::proofs::Lines::view_push, crate::proofs::Lines::memory_push))]
    pub(crate) fn push(&mut self, body: Vec<u8, A>) -> Result<(), Vec<u8, A>>
        requires { memory_of self.old + body_size body.items < 2 ^ 64 }
        ensures pushed { OnOk result (self.new ≡ self.old ++ body.items ∷ []) }
        ensures handed_back { IfErr result (λ same. same ≡ body) }
        ensures unchanged { OnErr result (self.new ≡ self.old) }
    {
        let size = body.len() + OVERHEAD;
        if let Err(refused) = self.bodies.push_back(body) {
            return Err(refused.value);
        }
        self.memory += size;
        Ok(())
    }

    /// Takes the first body out, if there is one.
    pub(crate) fn pop(&mut self) -> Option<Vec<u8, A>>
        ensures first { self.old ≡ option_to_list (option_map (λ body. body.items) result)
            ++ self.new }
        ensures some { IsSome result ↔ (0 < length self.old) }
    {
        let body = self.bodies.pop_front()?;
        self.memory -= body.len() + OVERHEAD;
        Some(body)
    }

    /// Moves the first `count` bodies after those of `into`, where there is room for them.
    pub(crate) fn move_first(&mut self, count: usize, into: &mut Vec<Vec<u8, A>, A>)
        requires there { count ≤ length self.old }
        requires room { vec_len into.old + count ≤ vec_capacity into.old }
        ensures into { bodies_view into.new.items ≡ bodies_view into.old.items
            ++ take count self.old }
        ensures line { self.new ≡ drop count self.old }
    {
        for _ in 0..count {
            into.push_reserved(self.pop().unwrap());
        }
    }

    /// How many bodies, the first ones, fit into a batch of at most `limit` bytes, and at least one.
    pub(crate) fn fitting(&self, limit: usize) -> usize
        requires { self.now ≢ [] }
        ensures { Fit limit self.now result }
    {
        fit_count(&self.bodies, limit)
    }

    /// Appends the bytes of the first `count` bodies, one body after the other.
    ///
    /// # Errors
    ///
    /// `OutOfMemory` where there was no room and `out` could not grow. It then holds what it held.
    pub(crate) fn join(&self, count: usize, out: &mut Vec<u8, A>) -> Result<(), OutOfMemory>
        requires { count ≤ length self.now }
        ensures joined { OnOk result (out.new.items ≡ out.old.items
            ++ joined (take count self.now)) }
        ensures unchanged { OnErr result (out.new.items ≡ out.old.items) }
        ensures refused { OnErr result (vec_capacity out.old < vec_len out.old
            + length (joined (take count self.now))) }
    {
        let len = joined_len(&self.bodies, count);
        out.reserve(len)?;
        append_joined(&self.bodies, count, out);
        Ok(())
    }
}
