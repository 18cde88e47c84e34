//! The front of a text, put together so that it goes out in one write.

ghost use Rattle.std.specs.Prelude.{◌≡◌, ◌≤◌, ◌⊎◌, [], length, Some};

use crate::device::{DeviceFailed, FaultWrite};
use std::marker::Model;

/// The most bytes that a [`Front`] takes: a head, of which most have 200 bytes, and a front of a
/// body. (profile)
pub const FRONT_ROOM: usize = 1024;

/// The front of a text: it takes bytes while there is room, up to [`FRONT_ROOM`] of them, and then
/// fails. It takes no memory. In contracts it is a `Front`.
#[derive(Drop)]
pub struct Front {
    bytes: [u8; FRONT_ROOM],
    len: usize,
    failures: u64,
}

impl Model for Front {
    ghost use Rattle.std.specs.Prelude.{◌≡◌, ◌≤◌, ◌⊎◌, take};
    ghost use Rattle.http_wire.specs.Fronts as model;

    ghost Value = { model.Front };

    ghost view = { λ f. record { taken = take f.len f.bytes; failures = f.failures } };

    ghost invariant = { λ f. (f.len ≤ 1024) × ((f.failures ≡ 0) ⊎ (f.len ≡ 1024)) };
}

impl Default for Front {
    fn default() -> Front {
        Front::new()
    }
}

impl Front {
    /// One that took nothing yet.
    pub fn new() -> Front
        ensures { result ≡ record { taken = []; failures = 0 } }
    {
        Front {
            bytes: [0; FRONT_ROOM],
            len: 0,
            failures: 0,
        }
    }

    /// What it took.
    pub fn taken(&self) -> &[u8]
        ensures taken { result.now ≡ self.now.taken }
        ensures short { length result.now ≤ 1024 }
        ensures full { (self.now.failures ≡ 0) ⊎ (length result.now ≡ 1024) }
    {
        &self.bytes[..self.len]
    }
}

impl FaultWrite for Front {
    ghost contents = { λ f. Some f.taken };

    ghost failures = { λ f. f.failures };

    fn failures(&self) -> u64 {
        self.failures
    }

    fn write(&mut self, buf: &[u8]) -> Result<usize, DeviceFailed> {
        let n = buf.len().min(FRONT_ROOM - self.len);
        if n == 0 {
            self.failures = self.failures.saturating_add(1);
            return Err(DeviceFailed);
        }
        self.bytes[self.len..self.len + n].copy_from_slice(&buf[..n]);
        self.len += n;
        Ok(n)
    }
}
