//! What an attempt met that didn't deliver its batch.

ghost use Rattle.std.specs.Prelude.{◌≡◌, ◌==◌, if◌then◌else◌, length, Ok, Some};
ghost use Rattle.std.specs.Result.{result_map_both};
ghost use Rattle.std.specs.Str.{is_utf8};
ghost use Rattle.model_desk.specs.Retries.{delivered};
ghost use Rattle.model_desk.specs.Retries.Outcome.{partial};
ghost use Rattle.retry_core.specs.Retries.{outcome_view};
ghost use Rattle.otlp_http.specs.Outcomes as meaning;
ghost use Rattle.otlp_http.specs.Outcomes.{outcome_of_body, reply_view};
ghost use Rattle.http_exporter.specs.declared.failure.Failure.TheVariants as failures;
ghost use Rattle.http_exporter.specs.Failures as model;
ghost use Rattle.http_exporter.specs.Failures.{AreKept, IsFront};

use arrayvec::ArrayString;
use otlp_http::{HttpFault, Reply, outcome_of};
use otlp_wire::{read_partial_bytes, read_status_message};
use retry_core::Outcome;
use std::alloc::Allocator;
use std::marker::Model;
use std::{fmt, str};

/// The most bytes that a [`Message`] keeps. (profile)
pub const MESSAGE_ROOM: usize = 256;

/// What a collector says of a batch that it didn't take: the beginning of its text, up to
/// [`MESSAGE_ROOM`] bytes and to a whole character. It is empty where the collector says nothing,
/// or nothing that is UTF-8. It takes no memory of its own. In contracts it is its bytes.
#[derive(Drop)]
pub struct Message {
    text: ArrayString<MESSAGE_ROOM>,
}

impl Model for Message {
    ghost use Rattle.std.specs.Prelude.{ℕ, List};

    ghost Value = { List ℕ };

    ghost view = { λ m. m.text.bytes };
}

impl Message {
    /// The beginning of this text.
    fn of(text: &str) -> Message
        ensures { IsFront text.now result }
    {
        let size = text.floor_char_boundary(MESSAGE_ROOM);
        let mut front = ArrayString::new();
        front.push_str(&text[..size]);
        Message { text: front }
    }

    /// The text, as the collector sent it: it may have control characters.
    pub fn as_str(&self) -> &str
        ensures { result.now ≡ self.now }
    {
        self.text.as_str()
    }

    /// Whether there is none.
    pub fn is_empty(&self) -> bool
        ensures { result ≡ (length self.now == 0) }
    {
        self.text.is_empty()
    }

    /// The same text again. It takes no memory.
    pub fn copy(&self) -> Message
        ensures { result ≡ self.now }
    {
        Message { text: self.text }
    }
}

/// Writes the text with a space in place of each control character, so that a terminal shows it and
/// does nothing else.
impl fmt::Display for Message {
    fn fmt<W: fmt::Write>(&self, f: &mut fmt::Formatter<W>) -> fmt::Result {
        for letter in self.as_str().chars() {
            f.write_char(if letter.is_control() { ' ' } else { letter })?;
        }
        Ok(())
    }
}

/// Writes the text as a literal.
impl fmt::Debug for Message {
    fn fmt<W: fmt::Write>(&self, f: &mut fmt::Formatter<W>) -> fmt::Result {
        fmt::Debug::fmt(self.as_str(), f)
    }
}

/// What an attempt met that didn't deliver its batch whole. (OTLP Specification, "OTLP/HTTP
/// Response")
#[derive(Debug, Drop)]
pub enum Failure {
    /// No connection could be had: the host wasn't found, no program listens there, or none was
    /// made in time.
    NoConnection,
    /// A write failed, or waited too long, before the whole request had gone out.
    WriteStopped,
    /// The request went out, and no head of a reply came that can be used, for this cause: the
    /// bytes ended before (`Ended`), a read failed or waited too long (`Device`), memory for it was
    /// refused (`OutOfMemory`), or what came is no head or too large a one (`BadHead`, `TooLarge`).
    NoReply(HttpFault),
    /// The collector didn't take the batch.
    Status {
        /// The HTTP status.
        status: u16,
        /// What the body says: the message of a Status (google/rpc/status.proto), or a text.
        message: Message,
    },
    /// The collector took the batch but for some spans ("Partial Success").
    Partial {
        /// How many spans it rejected.
        rejected: i64,
        /// Why it did.
        message: Message,
    },
}

impl Failure {
    /// The same failure again. It takes no memory.
    pub fn copy(&self) -> Failure
        ensures { result ≡ self.now }
    {
        match self {
            Failure::NoConnection => Failure::NoConnection,
            Failure::WriteStopped => Failure::WriteStopped,
            Failure::NoReply(fault) => Failure::NoReply(*fault),
            Failure::Status { status, message } => Failure::Status {
                status: *status,
                message: message.copy(),
            },
            Failure::Partial { rejected, message } => Failure::Partial {
                rejected: *rejected,
                message: message.copy(),
            },
        }
    }
}

/// Why there is no reply, for a person.
fn no_reply(fault: HttpFault) -> &'static str {
    match fault {
        HttpFault::Ended => "the connection ended before a reply",
        HttpFault::Device => "no reply came in time, or it could not be read",
        HttpFault::OutOfMemory => "no memory for the head of the reply",
        HttpFault::TooLarge => "the head of the reply is too large",
        HttpFault::BadHead | HttpFault::BadLength | HttpFault::BadChunk =>
            "the reply has no head that can be read",
    }
}

/// Writes the failure for a person, on one line.
impl fmt::Display for Failure {
    fn fmt<W: fmt::Write>(&self, f: &mut fmt::Formatter<W>) -> fmt::Result {
        let message = match self {
            Failure::NoConnection => return f.write_str("no connection to the collector"),
            Failure::WriteStopped => return f.write_str("the request could not be sent whole"),
            Failure::NoReply(fault) => return f.write_str(no_reply(*fault)),
            Failure::Status { status, message } => {
                write!(f, "the collector answered {status}")?;
                message
            }
            Failure::Partial { rejected, message } => {
                write!(f, "the collector rejected {rejected} of the spans")?;
                message
            }
        };
        if message.is_empty() {
            return Ok(());
        }
        write!(f, ": {message}")
    }
}

/// The bytes, where they are UTF-8.
fn text_in(bytes: &[u8]) -> &str
    ensures { result.now ≡ model.text_in bytes.now }
{
    match str::from_utf8(bytes) {
        Ok(text) => text,
        Err(_) => "",
    }
}

/// What the body of a reply says by which a batch wasn't taken.
fn message_of<A: Allocator>(body: &Result<Vec<u8, A>, HttpFault>) -> &str
    ensures { result.now ≡
        model.message_of (result_map_both (λ v. v.items) (λ fault. fault) body.now) }
{
    let Ok(body) = body else {
        return "";
    };
    match read_status_message(body) {
        Ok(message) if !message.is_empty() => message,
        _ => text_in(body),
    }
}

/// What it comes to that spans were rejected, for this cause: a message that isn't UTF-8 makes the
/// response one without a reading, by which the batch can't be taken in part.
fn rejection(rejected: i64, message: &[u8]) -> (Outcome, Option<Failure>)
    ensures outcome { outcome_view result.0
        ≡ (if is_utf8 message.now then partial rejected else delivered) }
    ensures failure { AreKept
        (Some (failures.Partial rejected (model.text_in message.now))) result.1 }
{
    let failure = Failure::Partial {
        rejected,
        message: Message::of(text_in(message)),
    };
    match str::from_utf8(message) {
        Ok(_) => (Outcome::Partial(rejected), Some(failure)),
        Err(_) => (Outcome::Delivered, Some(failure)),
    }
}

/// What these bytes of a body say of a batch that was taken: how much of it, and why not all.
fn met_by_bytes(body: &[u8]) -> (Outcome, Option<Failure>)
    ensures outcome { outcome_view result.0 ≡ outcome_of_body (Ok body.now) }
    ensures failure { AreKept (model.rejection_of (Ok body.now)) result.1 }
{
    let Ok((rejected, message)) = read_partial_bytes(body) else {
        return (Outcome::Delivered, None);
    };
    if rejected > 0 {
        return rejection(rejected, message);
    }
    (Outcome::Delivered, None)
}

/// The same of a body, if it could be had.
fn met_by_body<A: Allocator>(body: &Result<Vec<u8, A>, HttpFault>) -> (Outcome, Option<Failure>)
    ensures outcome { outcome_view result.0
        ≡ outcome_of_body (result_map_both (λ v. v.items) (λ fault. fault) body.now) }
    ensures failure { AreKept
        (model.rejection_of (result_map_both (λ v. v.items) (λ fault. fault) body.now)) result.1 }
{
    match body {
        Ok(body) => met_by_bytes(body),
        Err(_) => (Outcome::Delivered, None),
    }
}

/// What a reply means for the batch, as [`outcome_of`] says, and what it says that is no delivery of
/// the whole batch; or the same of why there is no reply. A body is parsed once. It takes no memory.
pub(crate) fn met_by<A: Allocator>(
    reply: &Result<Reply<A>, HttpFault>,
) -> (Outcome, Option<Failure>)
    ensures outcome { outcome_view result.0
        ≡ meaning.outcome_of (result_map_both reply_view (λ fault. fault) reply.now) }
    ensures failure { AreKept
        (model.failure_of (result_map_both reply_view (λ fault. fault) reply.now)) result.1 }
{
    let failure = match reply {
        Ok(answer) => match answer.status {
            200..=299 => return met_by_body(&answer.body),
            status => Failure::Status {
                status,
                message: Message::of(message_of(&answer.body)),
            },
        },
        Err(fault) => Failure::NoReply(*fault),
    };
    (outcome_of(reply), Some(failure))
}
