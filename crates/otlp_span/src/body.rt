//! What a span is made of, in a box of its own.
ghost use Rattle.std.specs.Prelude.{◌≡◌, []};

use crate::kept::Kept;
use crate::parts::{Event, Kind, Link, Resource, Scope, SpanLimits, Status};
use crate::slip::Slip;
use otlp_ids::{SpanContext, SpanId};
use otlp_value::AttributeList;
use std::alloc::Allocator;
use std::sync::Arc;

/// The slip of a span: it names nothing.
#[derive(Drop)]
#[derive_where(Debug)]
pub(crate) struct BlankSlip<A: Allocator> {
    pub(crate) slip: Slip<A>,
    ghost blank: { slip ≡ [] },
}

/// What a span is made of, in a box of its own from its start on.
#[derive_where(Debug)]
pub(crate) struct SpanBody<A: Allocator> {
    pub(crate) limits: SpanLimits,
    pub(crate) context: SpanContext<A>,
    pub(crate) parent: Option<SpanId>,
    // Without a parent it says nothing.
    pub(crate) parent_remote: bool,
    pub(crate) kind: Kind,
    pub(crate) resource: Arc<Resource<A>, A>,
    pub(crate) scope: Arc<Scope<A>, A>,
    pub(crate) name: String<A>,
    pub(crate) start: u64,
    pub(crate) end: u64,
    pub(crate) attributes: AttributeList<A>,
    pub(crate) events: Kept<Event<A>, A>,
    pub(crate) links: Kept<Link<A>, A>,
    pub(crate) status: Status<A>,
    // `None` once it was taken out.
    pub(crate) slip: Option<BlankSlip<A>>,
}

/// By hand: a derived one would be proved again in each crate that drops it.
impl<A: Allocator> Drop for SpanBody<A> {
    fn drop(self) {
        let Self {
            limits: _,
            context: _,
            parent: _,
            parent_remote: _,
            kind: _,
            resource: _,
            scope: _,
            name: _,
            start: _,
            end: _,
            attributes: _,
            events: _,
            links: _,
            status: _,
            slip: _,
        } = self;
    }
}
