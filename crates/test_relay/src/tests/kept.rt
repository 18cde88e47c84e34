//! Relays step by step: bodies that are kept in memory, and bodies that are kept in a spool.
use crate::tests::equal::assert_equal;
use crate::tests::relay::{FIRST, SECOND};
use crate::tests::steps::{Answer, Step, amounts, follow};
use relay_queue::{KeepFault, Loss, Report};
use relay_store::{Holdings, Tried};
use retry_core::{Cause, Next, Outcome};

/// When a batch without a reply is sent again: a second later, in nanoseconds.
const LATER: u64 = 1_000_000_000;

/// A body is kept.
const KEPT: Answer = Answer::Kept(Ok(()));

/// A batch is delivered.
const CAME: Answer = Answer::Tried(Tried::Came(Outcome::Delivered));

/// Nothing follows.
const DONE: Answer = Answer::Follows(Some(Next::Done));

/// A batch is refused.
const REFUSED: Answer = Answer::Tried(Tried::Came(Outcome::Refused(413)));

/// A refused batch isn't sent again.
const GIVEN_UP: Answer = Answer::Follows(Some(Next::GiveUp(Cause::Refused(413))));

/// There is nothing to send.
const NOTHING: Answer = Answer::Tried(Tried::Nothing);

#[test]
fn a_batch_without_a_reply_is_sent_again_at_its_moment(rt: HostRuntime) {
    let report = Report {
        bodies: amounts(2, 2, 0),
        spans: amounts(1, 1, 0),
        rejected_spans: 0,
        unwritten_names: 0,
        waiting_bytes: 0,
        attempts: 2,
        refusals: 0,
        has_failed: false,
    };
    let no_reply = Outcome::NoReply;
    let steps = [
        (Step::Keep(FIRST), KEPT),
        (Step::Keep(b""), KEPT),
        (Step::Try(0), Answer::Tried(Tried::Came(no_reply))),
        (Step::Try(0), Answer::Tried(Tried::Unjudged)),
        (Step::Finish, Answer::Follows(Some(Next::Again(LATER)))),
        (Step::Try(LATER - 1), Answer::Tried(Tried::Early(LATER))),
        (Step::Try(LATER), CAME),
        (Step::Finish, DONE),
        (Step::Finish, Answer::Follows(None)),
        (Step::Try(0), NOTHING),
        (Step::Report, Answer::Reported(report)),
        (Step::Look, Answer::Seen(24, 0, 0, 0)),
    ];
    let _none = follow(rt, rt.alloc(), None, &[no_reply], &steps);
}

#[test]
fn a_refused_body_is_lost_by_name_and_what_is_left_is_given_up(rt: HostRuntime) {
    let (refused, delivered) = (Outcome::Refused(413), Outcome::Delivered);
    let holds = Holdings {
        is_spooled: false,
        has_ever_failed: false,
        kept: 2,
    };
    let none = Holdings { kept: 0, ..holds };
    let report = Report {
        bodies: amounts(4, 1, 3),
        spans: amounts(4, 1, 3),
        rejected_spans: 0,
        unwritten_names: 0,
        waiting_bytes: 0,
        attempts: 3,
        refusals: 0,
        has_failed: false,
    };
    let steps = [
        (Step::Keep(FIRST), KEPT),
        (Step::Keep(SECOND), KEPT),
        // The batch, and then each of its bodies alone.
        (Step::Try(0), REFUSED),
        (Step::Finish, GIVEN_UP),
        (Step::Try(0), CAME),
        (Step::Finish, DONE),
        (Step::Try(0), REFUSED),
        (Step::Finish, GIVEN_UP),
        (Step::Look, Answer::Seen(48, 1, 34, 413)),
        (Step::List(10), Answer::Listed(34, Some(Loss::Refused(413)))),
        (Step::Keep(FIRST), KEPT),
        (Step::Keep(SECOND), KEPT),
        (Step::Balance, Answer::Holds(holds)),
        // From then on nothing is kept, and nothing is given up twice.
        (Step::Drain, Answer::Named(3, 341_234, 413)),
        (Step::Balance, Answer::Holds(none)),
        (Step::Keep(FIRST), Answer::Kept(Err(KeepFault::Failed))),
        (Step::Drain, Answer::Named(3, 341_234, 413)),
        (Step::Try(0), NOTHING),
        (Step::Report, Answer::Reported(report)),
        // The newest names, the last one first.
        (Step::List(1), Answer::Listed(34, Some(Loss::Abandoned))),
        (
            Step::List(5),
            Answer::Listed(341_234, Some(Loss::Abandoned)),
        ),
    ];
    let _none = follow(rt, rt.alloc(), None, &[refused, delivered, refused], &steps);
}

/// What is kept in a spool that never failed.
fn spooled(kept: u64) -> Holdings {
    Holdings {
        is_spooled: true,
        has_ever_failed: false,
        kept,
    }
}

/// What is reported of bodies of one span each, of which so many bytes wait after so many attempts.
fn report(received: u64, delivered: u64, lost: u64, waiting_bytes: u64, attempts: u64) -> Answer {
    Answer::Reported(Report {
        bodies: amounts(received, delivered, lost),
        spans: amounts(received, delivered, lost),
        rejected_spans: 0,
        unwritten_names: 0,
        waiting_bytes,
        attempts,
        refusals: 0,
        has_failed: false,
    })
}

#[test]
fn bodies_of_a_spool_are_delivered_and_noted(rt: HostRuntime) {
    let steps = [
        (Step::Refill, Answer::Read(Ok(false))),
        (Step::Keep(FIRST), KEPT),
        (Step::Keep(SECOND), KEPT),
        (Step::Report, report(2, 0, 0, 42, 0)),
        // They stay there.
        (Step::Drain, Answer::Named(0, 0, 0)),
        (Step::Try(0), CAME),
        (Step::Finish, DONE),
        (Step::Try(0), NOTHING),
        (Step::Report, report(2, 2, 0, 59, 1)),
        (Step::Look, Answer::Seen(24, 0, 0, 0)),
    ];
    let files = follow(rt, rt.alloc(), Some(Vec::new(rt.alloc())), &[], &steps);
    assert_equal(&rt, files.is_some(), true);
    let steps = [
        (Step::Refill, Answer::Read(Ok(false))),
        (Step::Report, report(0, 0, 0, 59, 0)),
    ];
    let _files = follow(rt, rt.alloc(), files, &[], &steps);
}

#[test]
fn a_start_reads_what_waits(rt: HostRuntime) {
    let kept = [(Step::Keep(FIRST), KEPT), (Step::Keep(SECOND), KEPT)];
    let files = follow(rt, rt.alloc(), Some(Vec::new(rt.alloc())), &[], &kept);
    assert_equal(&rt, files.is_some(), true);
    let refused = Outcome::Refused(413);
    let steps = [
        (Step::Refill, Answer::Read(Ok(true))),
        (Step::Balance, Answer::Holds(spooled(2))),
        (Step::Try(0), REFUSED),
        (Step::Finish, GIVEN_UP),
        (Step::Try(0), REFUSED),
        (Step::Finish, GIVEN_UP),
        (Step::Try(0), CAME),
        (Step::Finish, DONE),
        (Step::Look, Answer::Seen(48, 1, 12, 413)),
        (Step::Refill, Answer::Read(Ok(false))),
        (Step::Balance, Answer::Holds(spooled(0))),
    ];
    let _files = follow(rt, rt.alloc(), files, &[refused, refused], &steps);
}

#[test]
fn a_batch_in_hand_is_read_and_sent_again(rt: HostRuntime) {
    let holds = Holdings {
        has_ever_failed: true,
        ..spooled(2)
    };
    let steps = [
        (Step::Refill, Answer::Read(Ok(false))),
        (Step::Keep(FIRST), KEPT),
        (Step::Keep(SECOND), KEPT),
        (Step::Try(0), CAME),
        (Step::Reopen, Answer::Kept(Err(KeepFault::Failed))),
        (Step::Balance, Answer::Holds(holds)),
        (Step::Finish, Answer::Follows(None)),
        (Step::Try(0), CAME),
        (Step::Finish, DONE),
        (Step::Try(0), NOTHING),
        (Step::Look, Answer::Seen(48, 0, 0, 0)),
    ];
    let _files = follow(rt, rt.alloc(), Some(Vec::new(rt.alloc())), &[], &steps);
}
