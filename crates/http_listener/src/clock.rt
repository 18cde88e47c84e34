//! Since when a peer waits, and when it is over its time.
ghost use Rattle.std.specs.Prelude.{◌≡◌, ◌≢◌, ◌⊎◌, ◌↔◌, IsTrue, false, true};
ghost use Rattle.http_listener.specs.Clocks.{IsOver, due_at, is_of_requests, time_at};
ghost use Rattle.http_listener.specs.declared.clock.Stage.TheVariants.{Idle};

/// What a connection is at.
#[derive(Clone, Copy, Debug, PartialEq, Eq)]
pub enum Stage {
    /// No byte of a request has come since it was made, or since the answer before went out.
    Idle,
    /// A request arrives.
    Receiving,
    /// An answer goes out.
    Answering,
    /// A request was refused, and the rest of it is read and thrown away.
    Discarding,
    /// All is written, and writing is shut down: the peer's end is waited for.
    Closing,
}

/// How long a peer may stay at each stage, in milliseconds.
#[derive(Clone, Copy, Debug, PartialEq, Eq)]
pub struct StageTimes {
    /// How long it may ask for nothing.
    pub idle_ms: u64,
    /// How long its request may take to arrive: from its first byte, or from when it last took bytes
    /// of an earlier answer.
    pub request_ms: u64,
    /// How long it may take nothing of its answer.
    pub answer_ms: u64,
    /// How long the rest of a refused request is read.
    pub discard_ms: u64,
    /// How long its end is waited for after writing was shut down.
    pub close_ms: u64,
}

/// What is seen of a peer.
#[derive(Clone, Copy, Debug, PartialEq, Eq)]
pub struct Sight {
    /// What its connection is at.
    pub stage: Stage,
    /// Whether it has taken bytes of an answer.
    pub took: bool,
    /// The moment, in milliseconds.
    pub at_ms: u64,
}

/// What is to be done with a peer at a moment.
#[derive(Clone, Copy, Debug, PartialEq, Eq)]
pub enum Due {
    /// Nothing: it has time.
    Wait,
    /// Shut down writing, so that it sees the end of its answer, and wait for its end.
    ShutDown,
    /// Close it.
    Close,
}

/// The clock of a peer: the stage that it is at, and since when it waits there.
#[derive(Clone, Copy, Debug, PartialEq, Eq)]
pub struct PeerClock {
    /// What its connection is at.
    pub stage: Stage,
    /// The moment from which its time there counts, in milliseconds.
    pub since_ms: u64,
}

impl StageTimes {
    /// The time that a peer may stay at this stage, in milliseconds.
    pub fn at(&self, stage: Stage) -> u64
        ensures { result ≡ time_at self.now stage }
    {
        match stage {
            Stage::Idle => self.idle_ms,
            Stage::Receiving => self.request_ms,
            Stage::Answering => self.answer_ms,
            Stage::Discarding => self.discard_ms,
            Stage::Closing => self.close_ms,
        }
    }
}

impl PeerClock {
    /// The clock of a peer that has connected at this moment, in milliseconds.
    pub fn new(now_ms: u64) -> PeerClock
        ensures { result ≡ record { stage = Idle; since_ms = now_ms } }
    {
        PeerClock {
            stage: Stage::Idle,
            since_ms: now_ms,
        }
    }

    /// Notes what is seen of the peer. Its time begins anew where it is at another stage, and where
    /// it has taken bytes of an answer, also while a further request arrives: a client that reads
    /// isn't cut off, and neither the time without a request nor that of an earlier request counts
    /// as a request's.
    pub fn note(&mut self, sight: Sight)
        ensures stage { self.new.stage ≡ sight.stage }
        ensures moved { sight.stage ≢ self.old.stage → self.new.since_ms ≡ sight.at_ms }
        ensures taken { is_of_requests sight.stage ≡ true → sight.took ≡ true
            → self.new.since_ms ≡ sight.at_ms }
        ensures kept { sight.stage ≡ self.old.stage
            → (is_of_requests sight.stage ≡ false) ⊎ (sight.took ≡ false)
            → self.new.since_ms ≡ self.old.since_ms }
    {
        let takes = sight.took && matches!(sight.stage, Stage::Receiving | Stage::Answering);
        if takes || sight.stage != self.stage {
            self.since_ms = sight.at_ms;
        }
        self.stage = sight.stage;
    }

    /// Whether the peer has been at its stage for as long as it may, or for longer.
    pub fn is_over(self, times: &StageTimes, now_ms: u64) -> bool
        ensures { IsTrue result ↔ IsOver times.now self now_ms }
    {
        match self.since_ms.checked_add(times.at(self.stage)) {
            Some(end_ms) => end_ms <= now_ms,
            None => false,
        }
    }

    /// What is to be done with the peer: where it is over its time it is closed, and before that,
    /// where the rest of a refused request was read, writing is shut down (RFC 9112, section 9.6).
    pub fn due(self, times: &StageTimes, now_ms: u64) -> Due
        ensures waits { (result ≡ Due.Wait) ↔ ¬ IsOver times.now self now_ms }
        ensures over { IsOver times.now self now_ms → result ≡ due_at self.stage }
    {
        if !self.is_over(times, now_ms) {
            return Due::Wait;
        }
        match self.stage {
            Stage::Discarding => Due::ShutDown,
            _ => Due::Close,
        }
    }
}
