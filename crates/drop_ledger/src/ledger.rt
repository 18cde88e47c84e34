//! The names of spans that aren't delivered.
ghost use Rattle.std.specs.Prelude.{◌≡◌, ◌+◌, ◌-◌, ◌^◌, ◌<◌, ◌∷◌, ◌++◌, ◌==◌, [], IfNone, IfSome};
ghost use Rattle.std.specs.Prelude.{IsTrue, length, option_map, reverse, slice_get};
ghost use Rattle.std.specs.Option.{ForSome};
ghost use Rattle.model_span.specs.Dropped.{count_of_reason};
ghost use Rattle.otlp_span.specs.Dropped.{entry_view, reason_view};
ghost use Rattle.otlp_span.specs.Slips.{entries_of, is_named};

use crate::counts::DropCounts;
use otlp_span::{Entries, Entry, Reason, Slip};
use std::alloc::{Allocator, Global};
use std::marker::Model;

/// The names of spans that aren't delivered, the newest first, each on its own span's slip. No call
/// takes memory (profile). A ledger that is dropped is taken apart one name at a time, so that a
/// long one doesn't use up the stack.
#[derive(Drop)]
#[derive_where(Debug)]
pub struct Ledger<A: Allocator = Global> {
    newest: Option<Slip<A>>,
    len: u64,
    counts: DropCounts,
}

impl<A: Allocator> Model for Ledger<A> {
    ghost use Rattle.std.specs.Prelude.{List};
    ghost use Rattle.model_span.specs.Dropped.{Entry};
    ghost use Rattle.otlp_span.specs.Slips.{entries_of};
    ghost use Rattle.drop_ledger.specs.Counts.{IsLedger};

    ghost Value = { List Entry };

    ghost view = { λ l. entries_of l.newest };

    ghost invariant = { λ l. IsLedger l.newest l.len l.counts };
}

impl<A: Allocator> Default for Ledger<A> {
    ghost use Rattle.std.specs.Prelude.{◌≡◌, []};

    ghost is_default = { λ ledger. ledger ≡ [] };

    /// As `Ledger::new`: no names.
    fn default() -> Ledger<A> {
        Ledger::new()
    }
}

impl<A: Allocator> Ledger<A> {
    /// No names.
    pub fn new() -> Ledger<A>
        ensures { result ≡ [] }
    {
        Ledger {
            newest: None,
            len: 0,
            counts: DropCounts::new(),
        }
    }

    /// How many names there are.
    pub fn len(&self) -> u64
        ensures { result ≡ length self.now }
    {
        self.len
    }

    /// Whether there is none.
    pub fn is_empty(&self) -> bool
        ensures { result ≡ (length self.now == 0) }
    {
        self.len == 0
    }

    /// How many of the names have this reason. Where it is that of lost spans, this walks over all
    /// names, else over none.
    pub fn count(&self, reason: Reason) -> u64
        ensures { result ≡ count_of_reason (reason_view reason) self.now }
    {
        if reason.is_lost() {
            count_in(self.iter(), self.len, reason)
        } else {
            self.counts.of(reason)
        }
    }

    /// The name that was pushed last, if there is one.
    pub fn newest(&self) -> Option<&Entry>
        ensures { option_map (λ e. entry_view e.now) result ≡ slice_get self.now 0 }
    {
        match &self.newest {
            Some(slip) => slip.newest(),
            None => None,
        }
    }

    /// The names, the newest first.
    pub fn iter(&self) -> Entries<'_, A>
        ensures { result ≡ self.now }
    {
        Entries::new(self.newest.as_ref())
    }

    /// Names a span on its slip, which names nothing yet (`SpanData::into_slip`).
    pub fn push(&mut self, slip: Slip<A>, entry: Entry)
        requires room { length self.old < 2 ^ 64 - 1 }
        requires blank { slip ≡ [] }
        ensures { self.new ≡ entry_view entry ∷ self.old }
    {
        self.len += 1;
        self.counts.add(entry.reason, 1);
        let below = self.newest.take();
        self.newest = Some(slip.link(entry, below));
    }

    /// Moves the names of another ledger onto this one, its newest first: so they are here in
    /// reverse order. Each slip is linked anew; no memory is taken or freed.
    pub fn append_reversed(&mut self, other: Ledger<A>)
        requires { length self.old + length other < 2 ^ 64 }
        ensures { self.new ≡ reverse other ++ self.old }
    {
        let Ledger {
            newest,
            len,
            counts,
        } = other;
        let below = self.newest.take();
        self.newest = turned_onto(newest, below);
        self.len += len;
        self.counts.add_all(counts);
    }

    /// Takes the name out that was pushed last, if there is one. Its slip's memory is freed.
    pub fn pop(&mut self) -> Option<Entry>
        ensures some { IfSome result (λ entry. self.old ≡ entry_view entry ∷ self.new) }
        ensures none { IfNone result (self.old ≡ []) }
        ensures unchanged { IfNone result (self.new ≡ []) }
    {
        let (entry, _slip) = self.pop_slip()?;
        Some(entry)
    }

    /// Takes the name out that was pushed last, if there is one, with its slip. No memory is freed:
    /// the slip's is where it is dropped, as once a lock is given back.
    pub fn pop_slip(&mut self) -> Option<(Entry, Slip<A>)>
        ensures some { IfSome result (λ popped. self.old ≡ entry_view popped.0 ∷ self.new) }
        ensures slip { IfSome result (λ popped. popped.1 ≡ entry_view popped.0 ∷ []) }
        ensures none { IfNone result (self.old ≡ []) }
        ensures unchanged { IfNone result (self.new ≡ []) }
    {
        let mut slip = self.newest.take()?;
        let entry = *slip.newest()?;
        self.newest = slip.relink(None);
        self.len -= 1;
        self.counts.remove(entry.reason);
        Some((entry, slip))
    }
}

/// How many of these `len` names have this reason.
fn count_in<A: Allocator>(entries: Entries<'_, A>, len: u64, reason: Reason) -> u64
    requires { len ≡ length entries }
    ensures { result ≡ count_of_reason (reason_view reason) entries.entry }
{
    let mut count = 0;
    for entry in entries {
        if entry.reason.is(reason) {
            count += 1;
        }
    }
    count
}

/// Links the slips of a chain onto another one, the first of them first.
fn turned_onto<A: Allocator>(chain: Option<Slip<A>>, onto: Option<Slip<A>>) -> Option<Slip<A>>
    requires chain_named { ForSome chain (λ slip. IsTrue (is_named slip)) }
    requires onto_named { ForSome onto (λ slip. IsTrue (is_named slip)) }
    ensures all { entries_of result ≡ reverse (entries_of chain) ++ entries_of onto }
    ensures named { ForSome result (λ slip. IsTrue (is_named slip)) }
{
    let (mut rest, mut turned) = (chain, onto);
    while let Some(mut slip) = rest {
        rest = slip.relink(turned);
        turned = Some(slip);
    }
    turned
}
