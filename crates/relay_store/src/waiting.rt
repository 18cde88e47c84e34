//! What is done at a spool, where it is there.
ghost use Rattle.std.specs.Prelude.{◌≡◌, ◌≢◌, ◌+◌, ◌^◌, ◌<◌, [], IfOk, IfSome, IsErrOf, IsNone};
ghost use Rattle.std.specs.Prelude.{IsSome, List, OnErr, OnOk, false, length, true, ◌∷◌, ◌↔◌};
ghost use Rattle.spool.specs.declared.records.WaitingBody.{WaitingBody};
ghost use Rattle.relay_queue.specs.Bodies.{bodies_view};
ghost use Rattle.spool.specs.Spools.{numbered_from, waiting};
ghost use Rattle.spool.specs.Settled.{IsSettled, device_of, waiting_view};
ghost use Rattle.relay_store.specs.Fronts.{BeginWith, SpoolLeaves, spool_next, spool_waiting};
ghost use Rattle.relay_store.specs.Kept.{AdmitsFirst, AreFull, LeftByNotes, LeftByPuts, PutsAll};

use relay_queue::{AdmitFault, BodyDesk, KeepFault};
use spool::{Device, Spool, SpoolError, WaitingBody};
use std::alloc::{AllocError, Global};

/// Bodies that wait, whose numbers have no gap between them.
#[derive(Drop)]
pub(crate) struct WaitingBodies {
    /// The number of the first one. The others have those after it.
    pub(crate) first: u64,
    /// Their bytes.
    pub(crate) bodies: Vec<Vec<u8>>,
}

/// The number that the next body of a spool gets, or 0 where there is no spool.
pub(crate) fn next_of<D: Device>(spool: &Option<Spool<D>>) -> u64
    ensures { D.is_known → IfSome spool.now (IsSettled D.files D.moment D.left_at)
        → result ≡ spool_next D.files spool.now }
{
    match spool {
        Some(spool) => spool.next_number(),
        None => 0,
    }
}

/// Puts bodies into a spool, with one sync: the number that the next one gets.
///
/// # Errors
///
/// `Full`, where nothing is changed. `Failed`: the spool isn't there, or is to be opened again.
pub(crate) fn put_into<D: Device>(
    alloc: Global,
    spool: &mut Option<Spool<D>>,
    bodies: &[Vec<u8>],
) -> Result<u64, KeepFault>
    requires { D.is_known → IfSome spool.old (IsSettled D.files D.moment D.left_at) }
    ensures put { OnOk result (D.is_known
        → PutsAll D.files D.moment D.left_at (bodies_view bodies.now) spool.old spool.new) }
    ensures next { IfOk result (λ next. D.is_known → next ≡ spool_next D.files spool.new) }
    ensures crash { D.is_known → SpoolLeaves D.moment D.left_at spool.old spool.new
        (LeftByPuts D.files (bodies_view bodies.now)) }
    ensures there { OnOk result (IsSome spool.old) }
    ensures stays { IsSome spool.old → IsSome spool.new }
    ensures full { IsErrOf result KeepFault.Full → D.is_known
        → AreFull D.files (bodies_view bodies.now) spool.old }
    ensures refused { IsErrOf result KeepFault.Full → spool.new ≡ spool.old }
{
    let Some(spool) = spool else {
        return Err(KeepFault::Failed);
    };
    match spool.put(alloc, bodies) {
        Ok(_number) => Ok(spool.next_number()),
        Err(SpoolError::Full) => Err(KeepFault::Full),
        Err(SpoolError::Memory) => Err(KeepFault::Failed),
        Err(SpoolError::Failed | SpoolError::Overlap) => Err(KeepFault::Failed),
    }
}

/// Notes in a spool, where it is there, that all bodies below a number ended: whether it failed.
pub(crate) fn note_into<D: Device>(alloc: Global, spool: &mut Option<Spool<D>>, number: u64) -> bool
    requires { D.is_known → IfSome spool.old (IsSettled D.files D.moment D.left_at) }
    ensures settled { result ≡ false → D.is_known
        → IfSome spool.new (IsSettled D.files D.moment D.left_at) }
    ensures noted { result ≡ false → D.is_known → spool_waiting D.files spool.new
        ≡ numbered_from number (spool_waiting D.files spool.old) }
    ensures next { result ≡ false → D.is_known
        → spool_next D.files spool.new ≡ spool_next D.files spool.old }
    ensures crash { D.is_known → SpoolLeaves D.moment D.left_at spool.old spool.new
        (LeftByNotes D.files number) }
    ensures there { IsSome spool.new → IsSome spool.old }
    ensures stays { IsSome spool.old → IsSome spool.new }
{
    let Some(spool) = spool else {
        return false;
    };
    spool.note_delivered(alloc, number).is_err()
}

/// The number of the first body, or 0 where there is none.
fn first_number(found: &[WaitingBody]) -> u64
    ensures { (body : WaitingBody) (others : List WaitingBody) → found.now ≡ body ∷ others
        → result ≡ body.number }
{
    match found.first() {
        Some(body) => body.number,
        None => 0,
    }
}

/// Whether this is the number after so many from a first one on.
fn is_next(first: u64, count: u64, number: u64) -> bool
    ensures { (result ≡ true) ↔ (number ≡ first + count) }
{
    u128::from(first) + u128::from(count) == u128::from(number)
}

/// The first ones of bodies that wait, up to a gap between their numbers.
fn first_run(alloc: Global, found: Vec<WaitingBody>) -> Result<WaitingBodies, AllocError>
    ensures begin { IfOk result (λ run. BeginWith run.first (bodies_view run.bodies.items)
        (waiting_view found.items)) }
    ensures some { IfOk result (λ run. found.items ≢ [] → run.bodies.items ≢ []) }
{
    let first = first_number(&found);
    let mut bodies = Vec::new(alloc);
    for body in found {
        let WaitingBody { number, bytes } = body;
        if !is_next(first, bodies.len() as u64, number) {
            return Ok(WaitingBodies { first, bodies });
        }
        bodies.push(bytes)?;
    }
    Ok(WaitingBodies { first, bodies })
}

/// The first bodies that wait, with a number from this on, up to a gap between their numbers, of the
/// oldest file that has any.
///
/// # Errors
///
/// `Memory`, `Failed`.
fn first_waiting<D: Device>(
    alloc: Global,
    spool: &mut Spool<D>,
    from: u64,
) -> Result<Option<WaitingBodies>, SpoolError>
    requires { D.is_known → IsSettled D.files D.moment D.left_at spool.old }
    ensures settled { D.is_known → IsSettled D.files D.moment D.left_at spool.new }
    ensures same { D.is_known
        → D.files (device_of spool.new) ≡ D.files (device_of spool.old) }
    ensures found { IfOk result (λ o. IfSome o (λ found. D.is_known
        → BeginWith found.first (bodies_view found.bodies.items)
        (numbered_from from (waiting (D.files (device_of spool.old)))))) }
    ensures some { IfOk result (λ o. IfSome o (λ found. found.bodies.items ≢ [])) }
    ensures none { IfOk result (λ o. IsNone o → D.is_known
        → numbered_from from (waiting (D.files (device_of spool.old))) ≡ []) }
{
    for index in 0..spool.file_count() {
        let found = spool.bodies(alloc, index, from)?;
        if found.len() > 0 {
            let run = first_run(alloc, found)?;
            return Ok(Some(run));
        }
    }
    Ok(None)
}

/// The first bodies that wait, with a number from this on, up to a gap between their numbers, of the
/// oldest file of a spool that has any, where the spool is there.
///
/// # Errors
///
/// `Memory`; `Failed`, also where there are 2^64 numbers.
pub(crate) fn find_waiting<D: Device>(
    alloc: Global,
    spool: &mut Option<Spool<D>>,
    from: u64,
) -> Result<Option<WaitingBodies>, SpoolError>
    requires { D.is_known → IfSome spool.old (IsSettled D.files D.moment D.left_at) }
    ensures settled { D.is_known → IfSome spool.new (IsSettled D.files D.moment D.left_at) }
    ensures same { D.is_known
        → spool_waiting D.files spool.new ≡ spool_waiting D.files spool.old }
    ensures next { D.is_known → spool_next D.files spool.new ≡ spool_next D.files spool.old }
    ensures there { IsSome spool.new → IsSome spool.old }
    ensures stays { IsSome spool.old → IsSome spool.new }
    ensures found { IfOk result (λ o. IfSome o (λ found. D.is_known
        → BeginWith found.first (bodies_view found.bodies.items)
        (numbered_from from (spool_waiting D.files spool.old)))) }
    ensures some { IfOk result (λ o. IfSome o (λ found. found.bodies.items ≢ [])) }
    ensures numbers { IfOk result (λ o. IfSome o (λ found.
        found.first + length found.bodies.items < 2 ^ 64)) }
    ensures none { IfOk result (λ o. IsNone o → D.is_known
        → numbered_from from (spool_waiting D.files spool.old) ≡ []) }
{
    let Some(spool) = spool else {
        return Ok(None);
    };
    let Some(found) = first_waiting(alloc, spool, from)? else {
        return Ok(None);
    };
    if found.first.checked_add(found.bodies.len() as u64).is_none() {
        return Err(SpoolError::Failed);
    }
    Ok(Some(found))
}

/// Admits bodies to a desk, in order, up to the first that isn't admitted: why it isn't.
fn admit_all(desk: &mut BodyDesk, bodies: Vec<Vec<u8>>) -> Option<AdmitFault>
    ensures { AdmitsFirst (bodies_view bodies.items) desk.old desk.new }
{
    for body in bodies {
        if let Err((fault, _body)) = desk.admit(body) {
            return Some(fault);
        }
    }
    None
}

/// Admits bodies to a desk, in order, as many as there is memory for.
///
/// # Errors
///
/// `Full`, `Memory`: why the desk still has no body.
pub(crate) fn admit_first(desk: &mut BodyDesk, bodies: Vec<Vec<u8>>) -> Result<(), SpoolError>
    ensures first { AdmitsFirst (bodies_view bodies.items) desk.old desk.new }
    ensures some { OnOk result (desk.new.kept ≢ []) }
    ensures none { OnErr result (desk.new.kept ≡ []) }
{
    let fault = admit_all(desk, bodies);
    if desk.counts().kept > 0 {
        return Ok(());
    }
    match fault {
        Some(AdmitFault::Full) => Err(SpoolError::Full),
        _ => Err(SpoolError::Memory),
    }
}
