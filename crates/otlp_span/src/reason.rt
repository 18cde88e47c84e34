//! Why a span isn't delivered.
ghost use Rattle.std.specs.Prelude.{◌≡◌};
ghost use Rattle.model_span.specs.Dropped.{can_drop_batch, is_lost, is_reason};
ghost use Rattle.otlp_span.specs.Dropped.{reason_view};

use std::fmt;

/// Why a sampled span that has ended isn't delivered (profile). Where its batch was not handed to
/// an exporter, the span is dropped; where it was, the span is lost.
#[derive(Debug, Clone, Copy, PartialEq, Eq)]
pub enum Reason {
    /// Dropped: there was no room for it where ended spans wait.
    QueueFull,
    /// Dropped: memory was refused while its batch was encoded.
    EncodeMemory,
    /// Dropped: its batch was larger than a body may be.
    TooLarge,
    /// Dropped: it was given up, since who was to hand it on has left.
    Abandoned,
    /// Lost: the collector refused its batch for good, with this status.
    Refused(u16),
    /// Lost: the reply to its batch could not be read.
    BadReply,
    /// Lost: no attempt to send its batch succeeded.
    GivenUp,
    /// Lost: its batch was handed to the exporter, and who was to send it again has left.
    LeftHanded,
}

impl Reason {
    /// Whether the span is lost: its batch was handed to an exporter.
    pub fn is_lost(&self) -> bool
        ensures { result ≡ is_lost (reason_view self.now) }
    {
        match self {
            Reason::QueueFull | Reason::EncodeMemory | Reason::TooLarge | Reason::Abandoned =>
                false,
            Reason::Refused(_) | Reason::BadReply | Reason::GivenUp | Reason::LeftHanded => true,
        }
    }

    /// Whether a batch may be dropped for this reason: `EncodeMemory`, `TooLarge` or `Abandoned`.
    pub fn can_drop_batch(&self) -> bool
        ensures { result ≡ can_drop_batch (reason_view self.now) }
    {
        match self {
            Reason::EncodeMemory | Reason::TooLarge | Reason::Abandoned => true,
            _ => false,
        }
    }

    /// Whether it is this reason, with the same status where it has one.
    pub fn is(&self, other: Reason) -> bool
        ensures { result ≡ is_reason (reason_view other) (reason_view self.now) }
    {
        match (*self, other) {
            (Reason::QueueFull, Reason::QueueFull) => true,
            (Reason::EncodeMemory, Reason::EncodeMemory) => true,
            (Reason::TooLarge, Reason::TooLarge) => true,
            (Reason::Abandoned, Reason::Abandoned) => true,
            (Reason::Refused(status), Reason::Refused(of_other)) => status == of_other,
            (Reason::BadReply, Reason::BadReply) => true,
            (Reason::GivenUp, Reason::GivenUp) => true,
            (Reason::LeftHanded, Reason::LeftHanded) => true,
            _ => false,
        }
    }
}

/// As one word, and the status after `refused` (profile): `queue-full`, `encode-memory`,
/// `too-large`, `abandoned`, `refused STATUS`, `bad-reply`, `attempts` where no attempt succeeded,
/// `left` where who was to send it again has left.
impl fmt::Display for Reason {
    ghost use Rattle.std.specs.Prelude.{Some};
    ghost use Rattle.model_span.specs.Dropped.{reason_word};
    ghost use Rattle.otlp_span.specs.Dropped.{reason_view};

    ghost output = { λ reason. Some (reason_word (reason_view reason)) };

    fn fmt<W: fmt::Write>(&self, f: &mut fmt::Formatter<W>) -> fmt::Result {
        match self {
            Reason::QueueFull => f.write_str("queue-full"),
            Reason::EncodeMemory => f.write_str("encode-memory"),
            Reason::TooLarge => f.write_str("too-large"),
            Reason::Abandoned => f.write_str("abandoned"),
            Reason::Refused(status) => write!(f, "refused {status}"),
            Reason::BadReply => f.write_str("bad-reply"),
            Reason::GivenUp => f.write_str("attempts"),
            Reason::LeftHanded => f.write_str("left"),
        }
    }
}
