//! The head of a message, which both sides read in the same way.

ghost use Rattle.std.specs.Prelude.{◌≡◌, ℕ, ◌≤◌, ◌++◌, length, List, IfErr, IfOk, OnOk};
ghost use Rattle.std.specs.Io.KnownBytes.{Consumes};
ghost use Rattle.httparse.specs.Grammar.{Field};
ghost use Rattle.httparse.specs.Outcome.{IfComplete, OnInvalid, OnPartial, OnTooManyHeaders};
ghost use Rattle.httparse.specs.declared.spans.HeaderSpan.{HeaderSpan};
ghost use Rattle.http_wire.specs.Devices.{HasFailed};
ghost use Rattle.http_wire.specs.Faults.{CountsAtHead};
ghost use Rattle.http_wire.specs.Heads.{FindsSuchHead, HasNone, IsStoppedHead, LacksSuchHead};
ghost use Rattle.http_wire.specs.Heads.{ParsesSuchHead};
ghost use Rattle.http_wire.specs.Places.{IsDue};

use crate::{FaultRead, HeadLimits, HeadPlace, HttpFault, read_byte};
use httparse::spans::HeaderSpan;
use httparse::{Error, Status};
use std::alloc::Allocator;

/// A kind of head, a request's or a reply's, and how `httparse` parses a text as one (RFC 9112,
/// sections 3 and 4).
pub trait ParseHead {
    /// Where the parts of a head are in its text.
    type Spans: Drop;

    // The heads of this kind.
    ghost Head: { Type 0 };

    // Which of them are valid.
    ghost valid: { Self.Head → Type 0 };

    // How one is printed.
    ghost printed: { Self.Head → List ℕ };

    // The fields of one.
    ghost fields_in: { Self.Head → List Field };

    // Bytes can follow the text that make it a head.
    ghost may_become: { List ℕ → Type 0 };

    // No bytes can.
    ghost never_has: { List ℕ → Type 0 };

    // The text's head has more fields than this number.
    ghost exceeds: { ℕ → List ℕ → Type 0 };

    // These spans cover the parts of this head, which is at the front of the text.
    ghost covers: { List ℕ → List HeaderSpan → Self.Spans → Self.Head → Type 0 };

    // They are within the text.
    ghost is_within: { List ℕ → List HeaderSpan → Self.Spans → Type 0 };

    /// What `httparse` says of the text: a head is at its front, whose fields' spans then are at
    /// the front of `spans`, or more bytes are needed.
    ///
    /// # Errors
    ///
    /// `TooManyHeaders` where the head has more fields than `spans` has room for, and another one
    /// where the text can't begin a head.
    fn parse(text: &[u8], spans: &mut [HeaderSpan]) -> httparse::Result<Self::Spans>
        ensures complete { IfComplete result (λ found. (head : Self.Head)
            × covers text.now spans.new found head) }
        ensures within { IfComplete result (is_within text.now spans.new) }
        ensures partial { OnPartial result (HasNone valid printed text.now) }
        ensures unfinished { OnPartial result (may_become text.now) }
        ensures invalid { OnInvalid result (never_has text.now) }
        ensures too_many { OnTooManyHeaders result (exceeds (length spans.old) text.now) }
        ensures room { length spans.new ≡ length spans.old };

    // A parse is due after a head.
    ghost due: { (head : Self.Head) → valid head → IsDue (printed head) };

    // A head whose parts are covered is valid, and the text begins with it.
    ghost begins: { (text : List ℕ) (spans : List HeaderSpan) (found : Self.Spans)
        (head : Self.Head) → covers text spans found head
        → (rest : List ℕ) × (valid head × (text ≡ printed head ++ rest)) };

    // It has no more fields than there are spans.
    ghost fits: { (text : List ℕ) (spans : List HeaderSpan) (found : Self.Spans)
        (head : Self.Head) → covers text spans found head
        → length (fields_in head) ≤ length spans };
}

/// Whether a front of the text is a head, whose fields' spans then are at the front of `spans`.
///
/// # Errors
///
/// [`HttpFault::TooLarge`] where the head has more fields than `spans` has room for, and
/// [`HttpFault::BadHead`] where the text can't begin a head.
fn parse<P: ParseHead>(text: &[u8], spans: &mut [HeaderSpan]) -> Result<Option<P::Spans>, HttpFault>
    ensures parsed { ParsesSuchHead (HasNone P.valid P.printed) P.may_become P.never_has
        P.exceeds P.covers P.is_within text.now (length spans.old) spans.new result }
    ensures room { length spans.new ≡ length spans.old }
{
    match P::parse(text, spans) {
        Ok(Status::Complete(head)) => Ok(Some(head)),
        Ok(Status::Partial) => Ok(None),
        Err(Error::TooManyHeaders) => Err(HttpFault::TooLarge),
        Err(_) => Err(HttpFault::BadHead),
    }
}

/// Why there is no head, where the bytes stopped by `fault` before it was whole.
fn stopped<P: ParseHead>(text: &[u8], spans: &mut [HeaderSpan], fault: HttpFault) -> HttpFault
    requires { HasNone P.valid P.printed text.now }
    ensures { IsStoppedHead (HasNone P.valid P.printed) P.may_become P.never_has P.exceeds
        text.now (length spans.old) fault result }
{
    match parse::<P>(text, spans) {
        Ok(Some(_)) => unreachable!(),
        Ok(None) => fault,
        Err(bad) => bad,
    }
}

/// Reads one head of this kind, byte by byte so that none after it is taken, and keeps its text in
/// `text`. It is parsed where its place says so, and where the reading stops.
///
/// # Errors
///
/// [`HttpFault::Ended`] where the bytes end before it is whole, [`HttpFault::Device`] where a read
/// fails, [`HttpFault::OutOfMemory`] where the text isn't given room, [`HttpFault::BadHead`] where
/// the text can't begin a head, and [`HttpFault::TooLarge`] where it passes the limits of bytes or
/// of fields. The text then has the bytes that were taken.
pub fn read_head<P: ParseHead, R: FaultRead, A: Allocator>(
    reader: &mut R,
    limits: &HeadLimits,
    text: &mut Vec<u8, A>,
    spans: &mut [HeaderSpan],
) -> Result<P::Spans, HttpFault>
    requires { length spans.old ≡ limits.now.fields }
    ensures taken { Consumes (R.remaining reader.old) (R.remaining reader.new) text.new.items }
    ensures kept { OnOk result (R.failures reader.new ≡ R.failures reader.old) }
    ensures head { IfOk result (FindsSuchHead P.valid P.printed P.fields_in P.covers P.is_within
        limits.now text.new.items spans.new) }
    ensures none { IfErr result (LacksSuchHead (HasNone P.valid P.printed) P.may_become
        P.never_has P.exceeds limits.now text.new.items (R.remaining reader.new)
        (HasFailed (R.failures reader.old) (R.failures reader.new))) }
    ensures counted { IfErr result (λ fault.
        CountsAtHead fault (R.failures reader.old) (R.failures reader.new)) }
    ensures room { length spans.new ≡ length spans.old }
{
    let mut place = HeadPlace::new();
    text.clear();
    while text.len() < limits.head {
        if text.reserve(1).is_err() {
            return Err(stopped::<P>(text, spans, HttpFault::OutOfMemory));
        }
        let byte = match read_byte(reader) {
            Ok(Some(byte)) => byte,
            Ok(None) => return Err(stopped::<P>(text, spans, HttpFault::Ended)),
            Err(_) => return Err(stopped::<P>(text, spans, HttpFault::Device)),
        };
        text.push_reserved(byte);
        if place.pass(byte) {
            if let Some(head) = parse::<P>(text, spans)? {
                return Ok(head);
            }
        }
    }
    Err(stopped::<P>(text, spans, HttpFault::TooLarge))
}
