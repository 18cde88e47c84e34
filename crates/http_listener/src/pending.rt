//! How many bytes may be pending.
ghost use Rattle.std.specs.Prelude.{◌≡◌, ◌+◌, ◌-◌, ◌<◌, ◌^◌, ℕ};

/// The bytes that all connections hold together, and the most that they may.
#[derive(Clone, Copy, Debug, PartialEq, Eq)]
pub struct Pending {
    /// The bytes that they hold.
    pub held: u64,
    /// The most that they may hold.
    pub most: u64,
}

impl Pending {
    /// No connection holds a byte, and together they may hold this number.
    pub fn new(most: u64) -> Pending
        ensures { result ≡ record { held = 0; most = most } }
    {
        Pending { held: 0, most }
    }

    /// How many bytes more may be held.
    pub fn room(self) -> u64
        ensures { result ≡ self.most - self.held }
    {
        self.most.saturating_sub(self.held)
    }

    /// Notes that a connection which held `before` bytes now holds `after`: what is held is that and
    /// what the others hold again.
    pub fn change(&mut self, before: u64, after: u64)
        ensures most { self.new.most ≡ self.old.most }
        ensures held { (others : ℕ) → self.old.held ≡ before + others
            → after + others < 2 ^ 64 → self.new.held ≡ after + others }
    {
        self.held = self.held.saturating_sub(before).saturating_add(after);
    }
}
