//! What batches are handed to.
ghost use Rattle.std.specs.Prelude.{◌≡◌, ◌+◌, ◌<◌, ◌≤◌, ℕ, List, Option, OnErr, OnOk, length};
ghost use Rattle.retry_core.specs.Retries.{outcome_view};
ghost use Rattle.span_exporter.specs.Handed as model;
ghost use Rattle.span_exporter.specs.Handed.{Gains, handing};

use otlp_ids::OutOfMemory;
use retry_core::Outcome;

/// What batches are handed to (Trace SDK, "Span Exporter"): bodies of requests, whose room is made
/// beforehand (profile).
///
/// An `impl` says by its ghost member `handed` what it was handed, or that it doesn't say, and by
/// `room` for how many attempts of a body of a given size it has room.
pub trait Exporter {
    ghost handed: { Self → Option (List model.Handed) };

    ghost room: { Self → ℕ → ℕ };

    /// Makes room for this number of attempts to send a body of at most `size` bytes. What room
    /// there was before doesn't add to it. Nothing is sent.
    ///
    /// # Errors
    ///
    /// `OutOfMemory` where this room can't be had. The exporter is unchanged, and has the room that
    /// it had before.
    fn prepare(&mut self, size: usize, attempts: u32) -> Result<(), OutOfMemory>
        ensures room { OnOk result
            ((len : ℕ) → len ≤ size → attempts ≤ room self.new len) }
        ensures nothing_is_sent { handed self.new ≡ handed self.old }
        ensures refused { OnErr result (self.new ≡ self.old) };

    /// Attempts to send a body, for which there is room: the batch's number, which attempt of this
    /// batch it is, from 1 on, and the bytes. The answer is the outcome. It takes up the room of
    /// one attempt. (Trace SDK, "Export(batch)")
    fn export(&mut self, number: u64, attempt: u32, body: &[u8]) -> Outcome
        requires { 0 < room self.old (length body.now) }
        ensures handed { Gains (handing number attempt body.now (outcome_view result))
            (handed self.old) (handed self.new) }
        ensures room { (len : ℕ) → room self.old len ≤ room self.new len + 1 };
}
