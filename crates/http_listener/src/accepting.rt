//! When further peers are accepted.
ghost use Rattle.std.specs.Prelude.{◌≡◌, ◌≢◌, ◌+◌, ◌-◌, ◌^◌, ◌↔◌, IsTrue, min};
ghost use Rattle.http_listener.specs.Accepts.{IsDue};

use std::io::ErrorKind;

/// How long the system is waited for at most, in milliseconds, and how long after it had no room
/// for another peer it is asked again. (profile)
pub const TICK_MS: u64 = 500;

/// When further peers are accepted.
#[derive(Clone, Copy, Debug, PartialEq, Eq)]
pub enum Accepting {
    /// When the listener reports one.
    WhenReported,
    /// At once, since more may wait.
    AtOnce,
    /// At this moment, in milliseconds: the system had no room for another one.
    At(u64),
}

impl Accepting {
    /// After the system gave none at this moment, in milliseconds, for an error of this kind. Where
    /// none waits, the listener reports the next one. Where it had no room it is asked again once a
    /// tick has passed, so that nothing spins: the listener reports no more those that wait.
    pub fn after_error(kind: ErrorKind, now_ms: u64) -> Accepting
        ensures none { kind ≡ ErrorKind.WouldBlock → result ≡ Accepting.WhenReported }
        ensures room { kind ≢ ErrorKind.WouldBlock
            → result ≡ Accepting.At (min (now_ms + 500) (2 ^ 64 - 1)) }
    {
        match kind {
            ErrorKind::WouldBlock => Accepting::WhenReported,
            _ => Accepting::At(now_ms.saturating_add(TICK_MS)),
        }
    }

    /// After the listener reported one.
    pub fn reported(self) -> Accepting
        ensures waits { self ≡ Accepting.WhenReported → result ≡ Accepting.AtOnce }
        ensures kept { self ≢ Accepting.WhenReported → result ≡ self }
    {
        match self {
            Accepting::WhenReported => Accepting::AtOnce,
            Accepting::AtOnce | Accepting::At(_) => self,
        }
    }

    /// Whether peers are accepted at this moment, in milliseconds.
    pub fn is_due(self, now_ms: u64) -> bool
        ensures { IsTrue result ↔ IsDue self now_ms }
    {
        match self {
            Accepting::WhenReported => false,
            Accepting::AtOnce => true,
            Accepting::At(at_ms) => at_ms <= now_ms,
        }
    }

    /// How long the system may be waited for, in milliseconds: not at all only where more may wait
    /// that can be accepted.
    pub fn wait_ms(self) -> u64
        ensures at_once { self ≡ Accepting.AtOnce → result ≡ 0 }
        ensures otherwise { self ≢ Accepting.AtOnce → result ≡ 500 }
    {
        match self {
            Accepting::AtOnce => 0,
            Accepting::WhenReported | Accepting::At(_) => TICK_MS,
        }
    }
}
