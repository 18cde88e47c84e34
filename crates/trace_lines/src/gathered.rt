//! What is gathered of the spans of a trace before they are arranged.

ghost use Rattle.std.specs.Prelude.{◌≡◌, ◌∷◌, ◌++◌, ◌<◌, [], IfOk, List, OnOk, length, take, true};
ghost use Rattle.trace_lines.specs.Plans.{AreGathered, key_count, kin_by, values};
ghost use Rattle.trace_store.specs.declared.span.ViewSpan.{ViewSpan as Kept};

use crate::repeat::{Use, add_use, first_of};
use crate::service::add_name;
use crate::times::{frame_with, no_time};
use otlp_ids::OutOfMemory;
use std::alloc::Allocator;
use std::collections::BTreeMap;
use std::sync::Arc;
use trace_store::{ViewSpan, names_none, service_of};
use trace_tree::{Frame, Kin};

/// How many spans a step takes.
pub(crate) const STEP: usize = 2_000;

/// What is known of the first spans of a list. It owns its keys.
#[derive(Drop)]
pub(crate) struct Gathered<A: Allocator> {
    /// How each identifier is used.
    pub(crate) uses: BTreeMap<Vec<u8, A>, Use, A>,
    /// The place of each service among the services, by their first spans.
    pub(crate) services: BTreeMap<Vec<u8, A>, usize, A>,
    /// The time from the earliest start to the latest end.
    pub(crate) frame: Frame,
}

impl<A: Allocator + Copy> Gathered<A> {
    /// What is known of no span.
    pub(crate) fn new(alloc: A) -> Gathered<A>
        ensures { AreGathered {A = A} [] result }
    {
        let uses = BTreeMap::new(alloc);
        let services = BTreeMap::new(alloc);
        Gathered {
            uses,
            services,
            frame: no_time(),
        }
    }

    /// The next span of the list, in this place.
    ///
    /// # Errors
    ///
    /// `OutOfMemory` where memory was refused. What was known before is of no more use then.
    fn add(&mut self, alloc: A, span: &ViewSpan<A>, place: usize) -> Result<(), OutOfMemory>
        ensures { (spans : List (Kept A)) → AreGathered spans self.old → place ≡ length spans
            → OnOk result (AreGathered (spans ++ span.now ∷ []) self.new) }
    {
        add_use(alloc, &mut self.uses, &span.span.span_id, place)?;
        add_name(alloc, &mut self.services, service_of(span).as_bytes())?;
        self.frame = frame_with(self.frame, &span.span);
        Ok(())
    }

    /// Some of the spans of a list, from a place on. Answers the place with which to go on.
    ///
    /// # Errors
    ///
    /// `OutOfMemory` where memory was refused. What was known before is of no more use then.
    pub(crate) fn add_some(
        &mut self,
        alloc: A,
        spans: &[Arc<ViewSpan<A>, A>],
        from: usize,
    ) -> Result<usize, OutOfMemory>
        ensures known { AreGathered (take from (values spans.now)) self.old
            → IfOk result (λ at. AreGathered (take at (values spans.now)) self.new) }
        ensures more { from < length spans.now → IfOk result (λ at. from < at) }
    {
        let until = spans.len().min(from.saturating_add(STEP));
        let mut at = from;
        while at < until {
            self.add(alloc, &spans[at], at)?;
            at += 1;
        }
        Ok(at)
    }

    /// What the place of a span goes by, where all spans of its list are known.
    pub(crate) fn kin_of(&self, span: &ViewSpan<A>) -> Kin
        ensures { result ≡ kin_by self.now span.now }
    {
        let span = &span.span;
        let is_root = names_none(span);
        let parent = if is_root {
            None
        } else {
            first_of(&self.uses, &span.parent_span_id)
        };
        Kin {
            parent,
            names_none: is_root,
            start_time_unix_nano: span.start_time_unix_nano,
        }
    }

    /// Lets some of what is known go, so that its memory is given back, but for the time. Answers
    /// whether more is left.
    pub(crate) fn forget_some(&mut self) -> bool
        ensures frame { self.new.frame ≡ self.old.frame }
        ensures fewer { result ≡ true → key_count self.new < key_count self.old }
    {
        for _turn in 0..STEP {
            if self.uses.pop_first().is_none() && self.services.pop_first().is_none() {
                return false;
            }
        }
        true
    }
}
