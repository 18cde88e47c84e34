//! Identifiers and contexts of spans (OpenTelemetry Trace API, "SpanContext"; W3C Trace Context),
//! what is answered where memory is refused, and the version of the kit.
#![tactic(auto)]

ghost use Rattle.std.specs.Prelude.{◌≡◌, ◌≢◌, ◌*◌, ◌/◌, ◌%◌, ◌^◌, ◌<◌, ◌↔◌, ◌∷◌, [], false, IfOk};
ghost use Rattle.std.specs.Prelude.{IfSome, IsErrOf, IsOk, IsOkUnless, IsTrue, OnErr, Some, length};
ghost use Rattle.std.specs.Prelude.{string_bytes};
ghost use Rattle.std.specs.Fmt.{DisplaysOnOk};
ghost use Rattle.std.specs.List.{AllPass};
ghost use Rattle.hex.specs.Hex.{decode_of, decode_sized, encode_lower, is_hex_digit};
ghost use Rattle.model_span.specs.Attributes.{is_empty};
ghost use Rattle.model_span.specs.Identifiers.{bytes_at, identifier, has_sampled_flag};
ghost use Rattle.model_span.specs.Identifiers.{with_sampled_flag, span_id, trace_id, words_spent};
ghost use Rattle.model_span.specs.Spans.{is_id, is_valid as is_valid_context};
ghost use Rattle.otlp_ids.specs.SpanContext.{context_view};
ghost use Rattle.otlp_ids.specs.WordStream.{Spends, after_words, words_of};

use hex::FromHex;
use rand_core::Rng;
use std::alloc::{AllocError, AllocFailed, Allocator, Global};
use std::{fmt, str};
use thiserror::Error;

/// The version of the kit and of its programs.
pub const VERSION: &str = "0.1.0";

/// Memory was refused: a growth, or one more owner of an `Arc`. What was called is unchanged,
/// unless it says otherwise.
#[derive(Debug, Clone, Copy, PartialEq, Eq, Error)]
#[error("out of memory")]
pub struct OutOfMemory;

impl From<AllocError> for OutOfMemory {
    fn from(_: AllocError) -> OutOfMemory {
        OutOfMemory
    }
}

impl<T: Drop> From<AllocFailed<T>> for OutOfMemory {
    fn from(_: AllocFailed<T>) -> OutOfMemory {
        OutOfMemory
    }
}

/// An equal text, on memory of its own. An empty one takes none.
///
/// # Errors
///
/// `OutOfMemory` where the text could not be stored.
pub fn copy_text<A: Allocator>(alloc: A, text: &str) -> Result<String<A>, OutOfMemory>
    ensures value { IfOk result (λ copied. string_bytes copied ≡ text.now) }
    ensures refused { OnErr result (is_empty text.now ≡ false) }
{
    if text.is_empty() {
        return Ok(String::new(alloc));
    }
    Ok(String::from_str(alloc, text)?)
}

/// Why there is no identifier.
#[derive(Debug, Clone, Copy, PartialEq, Eq, Error)]
pub enum IdFault {
    /// The generator gave only zeros, in eight draws.
    #[error("no randomness: only zeros were drawn")]
    NoRandomness,
    /// The text is too short or too long.
    #[error("bad length: an identifier has two digits a byte")]
    BadLength,
    /// A character is no hexadecimal digit.
    #[error("bad digit: an identifier is written in hexadecimal")]
    BadDigit,
}

/// Whether some byte isn't zero.
fn is_any_set(bytes: &[u8]) -> bool
    ensures { result ≡ is_id bytes.now }
{
    bytes.iter().any(|byte| *byte != 0)
}

/// How many times an identifier is drawn before the generator is given up. (profile)
const DRAWS: usize = 8;

/// The bytes of the first draw, of eight, that isn't all zero.
fn draw_bytes<R: Rng, const N: usize>(rng: &mut R) -> Option<[u8; N]>
    requires { N % 8 ≡ 0 }
    ensures value { result ≡ identifier (N / 8) (words_of (R.stream rng.old)) }
    ensures valid { IfSome result (λ bytes. IsTrue (is_id bytes)) }
    ensures spent { Spends (words_spent (N / 8)) (R.stream rng.old) (R.stream rng.new) }
{
    'draws: for draw in 0..DRAWS {
        let mut bytes = [0; N];
        fill_with_words(rng, &mut bytes);
        if is_any_set(&bytes) {
            return Some(bytes);
        }
    }
    None
}

/// Fills the bytes with random words, the high byte of each first.
fn fill_with_words<R: Rng>(rng: &mut R, bytes: &mut [u8])
    requires { length bytes.old % 8 ≡ 0 }
    ensures bytes { bytes.new ≡ bytes_at (words_of (R.stream rng.old)) 0 (length bytes.old / 8) }
    ensures rest { R.stream rng.new ≡ after_words (length bytes.old / 8) (R.stream rng.old) }
{
    'words: for i in 0..bytes.len() / 8 {
        let word = rng.next_u64();
        bytes[8 * i..8 * i + 8].copy_from_slice(&word.to_be_bytes());
    }
}

/// The bytes that a text of two digits a byte spells.
fn bytes_from_hex<const N: usize>(text: &str) -> Result<[u8; N], IdFault>
    requires { N < 2 ^ 63 }
    ensures value { IfOk result (λ bytes. decode_of text.now ≡ Ok bytes) }
    ensures ok { IsOk result ↔ ((length text.now ≡ 2 * N) × AllPass is_hex_digit text.now) }
    ensures length { IsErrOf result IdFault.BadLength ↔ (length text.now ≢ 2 * N) }
    ensures digit { IsErrOf result IdFault.BadDigit
        ↔ ((length text.now ≡ 2 * N) × ¬ AllPass is_hex_digit text.now) }
{
    if text.len() != 2 * N {
        return Err(IdFault::BadLength);
    }
    <[u8; N] as FromHex>::from_hex(text).or(Err(IdFault::BadDigit))
}

/// Writes bytes as hexadecimal digits, in lower case.
fn write_digits(bytes: &[u8], out: &mut [u8])
    requires { length out.old ≡ 2 * length bytes.now }
    ensures { out.new ≡ encode_lower bytes.now }
{
    let _ = hex::encode_to_slice(bytes, out);
}

/// Displays bytes as hexadecimal digits, in lower case, by way of room for them.
fn display_digits<W: fmt::Write>(
    bytes: &[u8],
    room: &mut [u8],
    f: &mut fmt::Formatter<W>,
) -> fmt::Result
    requires { length room.old ≡ 2 * length bytes.now }
    ensures { DisplaysOnOk W.write_str_gives f.old result (Some (encode_lower bytes.now)) f.new }
{
    write_digits(bytes, room);
    f.pad(str::from_utf8(room).map_err(|_| fmt::Error)?)
}

/// The identifier of a trace: 16 bytes, as they are sent.
#[derive(Debug, Clone, Copy, PartialEq, Eq, Hash)]
pub struct TraceId(pub [u8; 16]);

impl TraceId {
    /// Draws an identifier: two words of the generator, the first one first, each with its high
    /// byte first. A draw of zeros alone is repeated, up to seven times. (OpenTelemetry Trace SDK,
    /// "Id Generators"; order and count: profile)
    ///
    /// # Errors
    ///
    /// `NoRandomness` where eight draws were all zero. In each case the words that were drawn are
    /// spent, and no others.
    pub fn draw<R: Rng>(rng: &mut R) -> Result<TraceId, IdFault>
        ensures value { IfOk result (λ id. trace_id (words_of (R.stream rng.old)) ≡ Some id.0) }
        ensures valid { IfOk result (λ id. IsTrue (is_id id.0)) }
        ensures only { IsOkUnless result IdFault.NoRandomness }
        ensures no_randomness { OnErr result (trace_id (words_of (R.stream rng.old)) ≡ None) }
        ensures spent { Spends (words_spent 2) (R.stream rng.old) (R.stream rng.new) }
    {
        draw_bytes(rng).map(TraceId).ok_or(IdFault::NoRandomness)
    }

    /// The identifier that 32 hexadecimal digits spell (W3C Trace Context, "trace-id"; either case:
    /// profile).
    ///
    /// # Errors
    ///
    /// `BadLength` where the text hasn't 32 bytes, else `BadDigit` where one of them is no digit.
    pub fn from_hex(text: &str) -> Result<TraceId, IdFault>
        ensures value { IfOk result (λ id. decode_of text.now ≡ Ok id.0) }
        ensures ok { IsOk result ↔ ((length text.now ≡ 32) × AllPass is_hex_digit text.now) }
        ensures bad_length { IsErrOf result IdFault.BadLength ↔ (length text.now ≢ 32) }
        ensures bad_digit { IsErrOf result IdFault.BadDigit
            ↔ ((length text.now ≡ 32) × ¬ AllPass is_hex_digit text.now) }
    {
        Ok(TraceId(bytes_from_hex(text)?))
    }

    /// Writes the identifier as 32 hexadecimal digits, in lower case (W3C Trace Context,
    /// "trace-id").
    pub fn write_hex(&self, out: &mut [u8])
        requires { length out.old ≡ 32 }
        ensures { out.new ≡ encode_lower self.now.0 }
    {
        write_digits(&self.0, out)
    }

    /// Whether some byte isn't zero (W3C Trace Context, "trace-id").
    pub fn is_valid(&self) -> bool
        ensures { result ≡ is_id self.now.0 }
    {
        is_any_set(&self.0)
    }
}

/// As 32 hexadecimal digits, in lower case (W3C Trace Context, "trace-id").
impl fmt::Display for TraceId {
    ghost output = { λ id. Some (encode_lower id.0) };

    fn fmt<W: fmt::Write>(&self, f: &mut fmt::Formatter<W>) -> fmt::Result {
        display_digits(&self.0, &mut [0; 32], f)
    }
}

/// The identifier of a span: 8 bytes, as they are sent.
#[derive(Debug, Clone, Copy, PartialEq, Eq, Hash)]
pub struct SpanId(pub [u8; 8]);

impl SpanId {
    /// Draws an identifier: one word of the generator, its high byte first. A draw of zeros alone
    /// is repeated, up to seven times. (OpenTelemetry Trace SDK, "Id Generators"; order and count:
    /// profile)
    ///
    /// # Errors
    ///
    /// `NoRandomness` where eight draws were all zero. In each case the words that were drawn are
    /// spent, and no others.
    pub fn draw<R: Rng>(rng: &mut R) -> Result<SpanId, IdFault>
        ensures value { IfOk result (λ id. span_id (words_of (R.stream rng.old)) ≡ Some id.0) }
        ensures valid { IfOk result (λ id. IsTrue (is_id id.0)) }
        ensures only { IsOkUnless result IdFault.NoRandomness }
        ensures no_randomness { OnErr result (span_id (words_of (R.stream rng.old)) ≡ None) }
        ensures spent { Spends (words_spent 1) (R.stream rng.old) (R.stream rng.new) }
    {
        draw_bytes(rng).map(SpanId).ok_or(IdFault::NoRandomness)
    }

    /// The identifier that 16 hexadecimal digits spell (W3C Trace Context, "parent-id"; either
    /// case: profile).
    ///
    /// # Errors
    ///
    /// `BadLength` where the text hasn't 16 bytes, else `BadDigit` where one of them is no digit.
    pub fn from_hex(text: &str) -> Result<SpanId, IdFault>
        ensures value { IfOk result (λ id. decode_of text.now ≡ Ok id.0) }
        ensures ok { IsOk result ↔ ((length text.now ≡ 16) × AllPass is_hex_digit text.now) }
        ensures bad_length { IsErrOf result IdFault.BadLength ↔ (length text.now ≢ 16) }
        ensures bad_digit { IsErrOf result IdFault.BadDigit
            ↔ ((length text.now ≡ 16) × ¬ AllPass is_hex_digit text.now) }
    {
        Ok(SpanId(bytes_from_hex(text)?))
    }

    /// Writes the identifier as 16 hexadecimal digits, in lower case (W3C Trace Context,
    /// "parent-id").
    pub fn write_hex(&self, out: &mut [u8])
        requires { length out.old ≡ 16 }
        ensures { out.new ≡ encode_lower self.now.0 }
    {
        write_digits(&self.0, out)
    }

    /// Whether some byte isn't zero (W3C Trace Context, "parent-id").
    pub fn is_valid(&self) -> bool
        ensures { result ≡ is_id self.now.0 }
    {
        is_any_set(&self.0)
    }
}

/// As 16 hexadecimal digits, in lower case (W3C Trace Context, "parent-id").
impl fmt::Display for SpanId {
    ghost output = { λ id. Some (encode_lower id.0) };

    fn fmt<W: fmt::Write>(&self, f: &mut fmt::Formatter<W>) -> fmt::Result {
        display_digits(&self.0, &mut [0; 16], f)
    }
}

/// The flags of a trace (W3C Trace Context, "trace-flags"): bit 0 says that the span is sampled.
#[derive(Debug, Clone, Copy, PartialEq, Eq, Hash)]
pub struct TraceFlags(pub u8);

impl TraceFlags {
    /// The sampled flag alone (W3C Trace Context, "sampled flag").
    pub const SAMPLED: TraceFlags = TraceFlags(1);

    /// Whether the span is sampled (W3C Trace Context, "sampled flag").
    pub fn sampled(&self) -> bool
        ensures { result ≡ has_sampled_flag self.now.0 }
    {
        self.0 & 1 != 0
    }

    /// The same flags, but for the sampled flag, which is as given (W3C Trace Context, "sampled
    /// flag").
    pub fn with_sampled(&self, sampled: bool) -> TraceFlags
        ensures { result.0 ≡ with_sampled_flag sampled self.now.0 }
    {
        let others = self.0 & 0xfe;
        if sampled {
            TraceFlags(others | 1)
        } else {
            TraceFlags(others)
        }
    }
}

/// As 2 hexadecimal digits, in lower case (W3C Trace Context, "trace-flags").
impl fmt::Display for TraceFlags {
    ghost output = { λ flags. Some (encode_lower (flags.0 ∷ [])) };

    fn fmt<W: fmt::Write>(&self, f: &mut fmt::Formatter<W>) -> fmt::Result {
        display_digits(&[self.0], &mut [0; 2], f)
    }
}

/// What a span hands on to its children, also in other processes.
#[derive(Drop)]
#[derive_where(Debug, PartialEq, Eq)]
pub struct SpanContext<A: Allocator = Global> {
    /// The trace that the span belongs to.
    pub trace: TraceId,
    /// The span's own identifier.
    pub span: SpanId,
    /// The flags of the trace.
    pub flags: TraceFlags,
    /// Whether the context came from another process.
    pub remote: bool,
    /// The trace state (W3C Trace Context, "tracestate"), empty where there is none.
    pub state: String<A>,
}

impl<A: Allocator> SpanContext<A> {
    /// Whether both identifiers are valid.
    pub fn is_valid(&self) -> bool
        ensures { result ≡ is_valid_context (context_view self.now) }
    {
        self.trace.is_valid() && self.span.is_valid()
    }
}

impl<A: Allocator + Copy> SpanContext<A> {
    /// An equal context, on memory of its own. One whose trace state is empty takes none.
    ///
    /// # Errors
    ///
    /// `OutOfMemory` where the trace state could not be stored.
    pub fn copy(&self, alloc: A) -> Result<SpanContext<A>, OutOfMemory>
        ensures value { IfOk result (λ context. context_view context ≡ context_view self.now) }
        ensures refused { OnErr result (is_empty (context_view self.now).state ≡ false) }
    {
        Ok(SpanContext {
            trace: self.trace,
            span: self.span,
            flags: self.flags,
            remote: self.remote,
            state: copy_text(alloc, &self.state)?,
        })
    }
}
