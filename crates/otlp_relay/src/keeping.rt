//! What is kept, and its spool: opening it, and opening it again after it failed.
ghost use Rattle.std.specs.Prelude.{◌≡◌, ◌≤◌, ◌*◌, ◌-◌, ◌^◌, min, IfSome, IsNone};

use crate::args::RelayArgs;
use crate::failure::Failure;
use crate::folder::Folders;
use crate::settings::{segment_bytes_of, spool_limit_of};
use crate::told::Told;
use relay_store::{Accounted, Naming, RelaySender};
use spool::{DeviceError, Opened, Spool, SpoolError, SpoolFolder, max_body};
use std::alloc::Global;
use std::io::Write;
use std::sync::{Arc, Mutex, Wait};

/// How long a spool that failed isn't opened again, in milliseconds. (profile)
const BETWEEN_OPENS_MS: u64 = 1_000;

/// What is kept, with the accounts of those who share it, and its lock.
pub(crate) type Kept<J> = Arc<Mutex<Accounted<J, SpoolFolder>>, Global>;

/// Where a spool is, and how large it may get.
#[derive(Drop)]
pub(crate) struct Place {
    pub(crate) folders: Folders,
    pub(crate) name: String,
    pub(crate) limit: u64,
}

impl Place {
    /// Opens the spool.
    pub(crate) fn open(&self, alloc: Global) -> Result<Opened<SpoolFolder>, SpoolError> {
        let device = match self.folders.open(self.name.as_str()) {
            Ok(device) => device,
            Err(DeviceError::Memory) => return Err(SpoolError::Memory),
            Err(DeviceError::Failed) => return Err(SpoolError::Failed),
        };
        match Spool::open(alloc, device, self.limit, segment_bytes_of(self.limit)) {
            Ok(opened) => Ok(opened),
            Err((error, _)) => Err(error),
        }
    }
}

/// Where the spool is that the arguments name, if they name one. Then no body may be larger than one
/// that the spool takes whenever no other waits.
pub(crate) fn place_of(folders: Folders, args: &mut RelayArgs) -> Option<Place>
    ensures limit { IfSome result (λ place. args.old.spool_mb ≤ 1_048_576
        → place.limit ≡ args.old.spool_mb * 1_048_576 - 65_536) }
    ensures most { IfSome result (λ place.
        args.new.max_body ≡ min args.old.max_body (min (place.limit - 43) (2 ^ 32 - 2))) }
    ensures none { IsNone result → args.new.max_body ≡ args.old.max_body }
{
    let limit = spool_limit_of(args);
    let name = args.spool.take()?;
    args.max_body = args.max_body.min(max_body(limit));
    Some(Place {
        folders,
        name,
        limit,
    })
}

/// Opens the spool at the start, and says what of it can't be read: the spool, if there is one, and
/// how many bytes these are.
pub(crate) fn open_first<F: Write>(
    alloc: Global,
    place: Option<&Place>,
    faults: &mut F,
) -> Result<(Option<Spool<SpoolFolder>>, u64), Failure> {
    let Some(place) = place else {
        return Ok((None, 0));
    };
    match place.open(alloc) {
        Ok(
            Opened {
                spool,
                damaged_bytes,
            },
        ) => {
            say_damaged(faults, damaged_bytes);
            Ok((Some(spool), damaged_bytes))
        }
        Err(SpoolError::Memory) => Err(Failure::OutOfMemory),
        Err(SpoolError::Failed | SpoolError::Full) => Err(Failure::Spool),
        Err(SpoolError::Overlap) => Err(Failure::Overlap),
    }
}

/// Says how many bytes of a spool can't be read, if there are some.
pub(crate) fn say_damaged<F: Write>(faults: &mut F, damaged_bytes: u64) {
    if damaged_bytes > 0 {
        let _ = writeln!(
            faults,
            "otlp-relay: {damaged_bytes} bytes of the spool are cut off or damaged; no span is read \
            from them"
        );
    }
}

/// What opens a spool again that failed.
#[derive(Drop)]
pub(crate) struct Mender {
    alloc: Global,
    place: Option<Place>,
    // Whether it is known to have failed, and was not opened again.
    is_failed: bool,
    // The moment from which it may be opened again, in milliseconds.
    next_ms: u64,
    // How many of its bytes can't be read, as was said last.
    damaged_bytes: u64,
}

impl Mender {
    /// Of a spool at this place, if there is one. It was said that so many of its bytes can't be
    /// read.
    pub(crate) fn new(alloc: Global, place: Option<Place>, damaged_bytes: u64) -> Mender {
        Mender {
            alloc,
            place,
            is_failed: false,
            next_ms: 0,
            damaged_bytes,
        }
    }
}

impl Mender {
    /// Whether there is a spool.
    pub(crate) fn is_spooled(&self) -> bool {
        self.place.is_some()
    }

    /// Opens the spool again where it has failed, at most once a second, and reports that it has
    /// failed, and that it is back. Where another number of its bytes can't be read than was said
    /// last, it says so in any case.
    pub(crate) fn mend<J: Naming, R: Wait, L: Write>(
        &mut self,
        rt: &R,
        sender: &mut RelaySender<J>,
        kept: &Mutex<Accounted<J, SpoolFolder>>,
        told: &mut Told<L>,
        now_ms: u64,
    ) {
        let Some(place) = &self.place else {
            return;
        };
        if !sender.has_failed(rt, kept) {
            return;
        }
        if !self.is_failed {
            self.is_failed = true;
            told.spool_failed(now_ms);
        }
        if now_ms < self.next_ms {
            return;
        }
        self.next_ms = now_ms.saturating_add(BETWEEN_OPENS_MS);
        // (the folder is let go before it is opened again: it is locked)
        let failed = sender.take_spool(rt, kept);
        drop(failed);
        if let Ok(opened) = place.open(self.alloc) {
            let Opened {
                spool,
                damaged_bytes,
            } = opened;
            sender.restore(rt, kept, spool);
            told.spool_back();
            self.is_failed = false;
            if damaged_bytes != self.damaged_bytes {
                self.damaged_bytes = damaged_bytes;
                told.spool_damaged(damaged_bytes);
            }
        }
    }
}
