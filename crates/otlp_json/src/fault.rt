//! Why a text is no request.

use json::Invalid;
use otlp_ids::OutOfMemory;
use std::alloc::AllocError;
use thiserror::Error;

/// What is wrong with a text. Of several faults it is the first.
#[derive(Error, Debug, Clone, Copy, PartialEq, Eq)]
pub enum JsonFault {
    /// The bytes are no text (RFC 8259, section 8.1).
    #[error("the text is not UTF-8")]
    NotUtf8,
    /// The text is no JSON (RFC 8259), or an unknown member nests deeper than 128 levels. (the
    /// depth: profile)
    #[error("the text is no JSON")]
    Malformed,
    /// A value isn't of the type of its field, or is null in a list (Protocol Buffers, "ProtoJSON
    /// Format"), or the text is no object.
    #[error("a value is not of the type of its field")]
    WrongType,
    /// A text has no number in the place of one (Protocol Buffers, "ProtoJSON Format").
    #[error("a text has no number")]
    BadNumber,
    /// A number isn't in the range of its type, or isn't whole (Protocol Buffers, "ProtoJSON
    /// Format").
    #[error("a number is out of range, or not whole")]
    OutOfRange,
    /// An identifier isn't in hexadecimal (opentelemetry-proto, "JSON Protobuf Encoding").
    #[error("an identifier is not in hexadecimal")]
    BadIdentifier,
    /// Bytes aren't in Base64 (RFC 4648).
    #[error("bytes are not in Base64")]
    BadBase64,
    /// Objects nest deeper than 200 levels, more than any request that is read. (profile)
    #[error("objects nest too deep")]
    TooDeep,
}

/// Why a text is not read.
#[derive(Error, Debug, Clone, Copy, PartialEq, Eq)]
pub enum JsonError {
    /// Memory is refused.
    #[error("out of memory")]
    OutOfMemory,
    /// The text is wrong.
    #[error("{fault} (near byte {offset})")]
    Fault {
        /// What is wrong.
        fault: JsonFault,
        /// Where reading has stopped: near or after the fault, as a number of bytes.
        offset: usize,
    },
}

/// Why reading stops.
#[derive(Debug, Clone, Copy, PartialEq, Eq)]
pub(crate) enum Stop {
    /// Memory is refused.
    OutOfMemory,
    /// The text is wrong.
    Fault(JsonFault),
}

impl From<JsonFault> for Stop {
    ghost use Rattle.std.specs.Prelude.{◌≡◌};
    ghost use Rattle.otlp_json.specs.declared.fault.Stop.TheVariants as stops;

    ghost from_gives = { λ fault stop. stop ≡ stops.Fault fault };

    fn from(fault: JsonFault) -> Stop {
        Stop::Fault(fault)
    }
}

impl From<Invalid> for Stop {
    ghost use Rattle.std.specs.Prelude.{◌≡◌};
    ghost use Rattle.otlp_json.specs.declared.fault.Stop.TheVariants as stops;
    ghost use Rattle.otlp_json.specs.declared.fault.JsonFault.TheVariants as faults;

    ghost from_gives = { λ _ stop. stop ≡ stops.Fault faults.Malformed };

    fn from(_: Invalid) -> Stop {
        Stop::Fault(JsonFault::Malformed)
    }
}

impl From<OutOfMemory> for Stop {
    ghost use Rattle.std.specs.Prelude.{◌≡◌};
    ghost use Rattle.otlp_json.specs.declared.fault.Stop.TheVariants as stops;

    ghost from_gives = { λ _ stop. stop ≡ stops.OutOfMemory };

    fn from(_: OutOfMemory) -> Stop {
        Stop::OutOfMemory
    }
}

impl From<AllocError> for Stop {
    ghost use Rattle.std.specs.Prelude.{◌≡◌};
    ghost use Rattle.otlp_json.specs.declared.fault.Stop.TheVariants as stops;

    ghost from_gives = { λ _ stop. stop ≡ stops.OutOfMemory };

    fn from(_: AllocError) -> Stop {
        Stop::OutOfMemory
    }
}
