//! What a soak came to, and how it is reported.
ghost use Rattle.std.specs.Prelude.{◌≡◌};

use crate::soak::book::Book;
use crate::soak::course::COURSES;
use crate::soak::losses::are_named;
use crate::soak::memory::{WARM_ROUNDS, is_flat};
use crate::soak::verdict::Verdict;
use crate::sums::all_drops;
use batch_desk::Totals;
use std::alloc::Global;
use std::io::{self, Eprint, Write};

/// What was counted in all rounds.
#[derive(Debug, Clone, Copy, PartialEq, Eq, Default)]
pub(crate) struct Counts {
    /// How many spans ended, on all threads.
    pub(crate) ended: u64,
    /// How many of them were in batches that were taken whole, by the collector's own reading.
    pub(crate) delivered: u64,
    /// How many were in batches that were taken but for some of their spans, by the same.
    pub(crate) partial: u64,
    /// How many were named as lost.
    pub(crate) lost: u64,
    /// Of how many of these the collector has the body all the same.
    pub(crate) lost_kept: u64,
    /// How many were named as dropped.
    pub(crate) dropped: u64,
    /// How many bodies came that had been kept before.
    pub(crate) repeats: u64,
    /// How many attempts were of each kind of course.
    pub(crate) courses: [u64; COURSES],
}

/// A count with so many more.
fn more(count: u64, by: usize) -> u64 {
    count.saturating_add(by as u64)
}

impl Counts {
    /// Adds a round in which so many spans ended.
    fn add(&mut self, ended: usize, book: &Book) {
        let found = &book.found;
        self.ended = more(self.ended, ended);
        self.delivered = more(self.delivered, found.delivered.len());
        self.partial = more(self.partial, found.partial.len());
        self.lost = more(self.lost, found.lost.len());
        self.lost_kept = self.lost_kept.saturating_add(book.lost_kept);
        self.dropped = more(self.dropped, found.dropped.len());
        self.repeats = self.repeats.saturating_add(book.repeats);
        for (count, by) in self.courses.iter_mut().zip(book.courses.iter()) {
            *count = count.saturating_add(*by);
        }
    }
}

/// What a soak has found so far.
#[derive(Drop)]
pub(crate) struct Findings {
    counts: Counts,
    verdict: Verdict,
    /// The resident size after each of the first rounds, in kilobytes.
    first: Vec<u64>,
    /// That after each later one.
    later: Vec<u64>,
}

impl Findings {
    /// Of no round.
    pub(crate) fn new(alloc: Global) -> Findings {
        Findings {
            counts: Counts::default(),
            verdict: Verdict {
                is_balanced: true,
                are_lost_named: true,
                are_equal: true,
                are_delivered_kept: true,
                are_counted: false,
                is_flat: false,
            },
            first: Vec::new(alloc),
            later: Vec::new(alloc),
        }
    }

    /// Adds a round: the numbers of the spans that ended, and what both sides of the links noted.
    /// `None` where memory was refused.
    pub(crate) fn add(&mut self, alloc: Global, ended: &[u64], book: &Book) -> Option<()> {
        let found = &book.found;
        let balances = found.balances(alloc, ended).ok()?;
        let are_named = are_named(alloc, found.lost.as_slice(), book.to_lose.as_slice()).ok()?;
        let verdict = &mut self.verdict;
        verdict.is_balanced = verdict.is_balanced && balances;
        verdict.are_lost_named = verdict.are_lost_named && are_named;
        verdict.are_equal = verdict.are_equal && book.are_equal;
        verdict.are_delivered_kept = verdict.are_delivered_kept && book.are_delivered_kept;
        self.counts.add(ended.len(), book);
        Some(())
    }

    /// Adds the resident size after a round. `None` where memory was refused.
    pub(crate) fn add_size(&mut self, kilobytes: u64) -> Option<()> {
        if self.first.len() < WARM_ROUNDS {
            self.first.push(kilobytes).ok()
        } else {
            self.later.push(kilobytes).ok()
        }
    }

    /// Compares what the processor counted, and judges the sizes, which may rise by this slack.
    pub(crate) fn close(&mut self, totals: Totals, slack: u64) {
        let dropped = all_drops(totals);
        let counts = self.counts;
        let taken = counts.delivered.saturating_add(counts.partial);
        let is_empty = totals.left == 0 && totals.late == 0;
        self.verdict.are_counted = is_empty
            && totals.handed == taken.saturating_add(counts.lost)
            && totals.lost == counts.lost
            && dropped == counts.dropped;
        self.verdict.is_flat = is_flat(self.first.as_slice(), self.later.as_slice(), slack);
    }

    /// What was found.
    pub(crate) fn verdict(&self) -> Verdict
        ensures { result ≡ self.now.verdict }
    {
        self.verdict
    }

    /// Whether attempts were of each kind of course.
    fn has_each_course(&self) -> bool {
        self.counts.courses.iter().all(|count| *count > 0)
    }

    /// Writes how many spans ended, and what was found, a line each, and flushes.
    pub(crate) fn print<W: Write>(&self, output: &mut W) -> io::Result<()> {
        let verdict = self.verdict;
        writeln!(output, "ended {}", self.counts.ended)?;
        writeln!(output, "balanced {}", word(verdict.is_balanced))?;
        writeln!(output, "lost names match {}", word(verdict.are_lost_named))?;
        writeln!(output, "counts agree {}", word(verdict.are_counted))?;
        writeln!(output, "repeats equal {}", word(verdict.are_equal))?;
        let delivered = word(verdict.are_delivered_kept);
        writeln!(output, "delivered kept {delivered}")?;
        writeln!(output, "memory flat {}", word(verdict.is_flat))?;
        writeln!(output, "each fault came {}", word(self.has_each_course()))?;
        output.flush()
    }

    /// Prints what was counted on the standard error, a line each.
    pub(crate) fn print_counts(&self, rt: &impl Eprint) -> io::Result<()> {
        let counts = self.counts;
        eprintln!(rt; "delivered {}", counts.delivered)?;
        eprintln!(rt; "partial {}", counts.partial)?;
        let (lost, kept) = (counts.lost, counts.lost_kept);
        eprintln!(rt; "lost {lost}, of which the collector kept {kept}")?;
        eprintln!(rt; "dropped {}", counts.dropped)?;
        eprintln!(rt; "repeats {}", counts.repeats)?;
        let [none, cut, unread, refused, partial, busy, slow, good] = counts.courses;
        eprintln!(rt; "no link {none}, write failed {cut}, read failed {unread}")?;
        eprintln!(rt; "400 {refused}, partial {partial}, 503 {busy}, 429 {slow}, good {good}")?;
        self.print_sizes(rt)
    }

    /// Prints how many rounds there were, and the resident sizes after the first and the last of
    /// them, and the greatest.
    fn print_sizes(&self, rt: &impl Eprint) -> io::Result<()> {
        let sizes = || self.first.iter().chain(self.later.iter()).copied();
        let first = sizes().next().unwrap_or(0);
        let last = sizes().last().unwrap_or(0);
        let most = sizes().max().unwrap_or(0);
        eprintln!(rt; "rounds {}", sizes().count())?;
        eprintln!(rt; "resident kB: first {first}, last {last}, greatest {most}")
    }
}

/// A word for an answer.
fn word(answer: bool) -> &'static str {
    if answer { "yes" } else { "no" }
}
