//! A generator of words for scripts, examples and tests: it gives listed words, then zeros. What
//! is drawn from it is the same in each run, so it is no source of randomness.

ghost use Rattle.std.specs.Prelude.{◌≡◌};

use rand_core::utils::NextWord;
use rand_core::{Rng, utils};
use std::alloc::{Allocator, Global};
use std::marker::Model;

/// Gives listed words of 64 bits one after the other, and zeros after them, for ever. In
/// contracts it is the list of the words that are left.
///
/// Each `next_u64` spends a word, and so does each `next_u32`, which gives its high half.
/// `fill_bytes` spends a word for every eight bytes that it fills, and one for what is left of
/// them, each with its low byte first. None of them fails or takes memory.
#[derive(Debug, Drop)]
pub struct WordsRng<A: Allocator = Global> {
    words: Vec<u64, A>,
    given: usize,
}

impl<A: Allocator> Model for WordsRng<A> {
    ghost use Rattle.std.specs.Prelude.{ℕ, ◌≤◌, List, drop, length};

    ghost Value = { List ℕ };

    ghost view = { λ w. drop w.given w.words.items };

    ghost invariant = { λ w. w.given ≤ length w.words.items };
}

impl<A: Allocator> WordsRng<A> {
    /// A generator that gives these words, the first one first. It takes no memory.
    pub fn new(words: Vec<u64, A>) -> WordsRng<A>
        ensures { result ≡ words.items }
    {
        WordsRng { words, given: 0 }
    }
}

impl<A: Allocator> NextWord<u64> for WordsRng<A> {
    ghost use Rattle.trace_api.specs.Words.{next};

    ghost step = { next };

    fn next_word(&mut self) -> u64 {
        match self.words.get(self.given) {
            Some(word) => {
                self.given += 1;
                *word
            }
            None => 0,
        }
    }
}

impl<A: Allocator> Rng for WordsRng<A> {
    ghost use Rattle.trace_api.specs.Words.{stream};

    ghost stream = { stream };

    fn next_u32(&mut self) -> u32 {
        (self.next_word() >> 32) as u32
    }

    fn next_u64(&mut self) -> u64 {
        self.next_word()
    }

    fn fill_bytes(&mut self, dst: &mut [u8]) {
        utils::fill_bytes_via_u64(self, dst)
    }
}
