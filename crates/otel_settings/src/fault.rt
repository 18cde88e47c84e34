//! Values that can't be read.

ghost use Rattle.std.specs.Prelude.{◌≡◌, ◌++◌, OnOk, option_map};
ghost use Rattle.otel_settings.specs.Faults.{faults_view, unread};

use crate::sampler::SamplerName;
use crate::variable::Variable;
use otlp_http::HeaderFault;
use std::alloc::{AllocError, Allocator, Global};
use std::fmt;

/// What is used instead of a value that can't be read.
#[derive(Debug, Clone, Copy, PartialEq, Eq)]
pub enum Instead {
    /// `false`.
    False,
    /// No attributes.
    NoAttributes,
    /// This number.
    Number(u32),
    /// No limit.
    NoLimit,
    /// This sampler.
    Sampler(SamplerName),
    /// The ratio 1.0, which samples each trace.
    RatioOne,
    /// Port 4318 of the same machine, `http://localhost:4318/v1/traces`.
    DefaultEndpoint,
    /// What this variable says, or its default if it says nothing.
    Variable(Variable),
    /// The exporter `otlp`.
    Otlp,
    /// The propagator `tracecontext`.
    TraceContext,
    /// The protocol `http/protobuf`.
    HttpProtobuf,
    /// No compression.
    NoCompression,
    /// HTTP without TLS.
    PlainHttp,
    /// Requests without these fields.
    NoHeaders,
    /// The methods of RFC 9110 and `PATCH`.
    StandardMethods,
}

impl fmt::Display for Instead {
    fn fmt<W: fmt::Write>(&self, f: &mut fmt::Formatter<W>) -> fmt::Result {
        match self {
            Instead::False => f.write_str("false"),
            Instead::NoAttributes => f.write_str("no attributes"),
            Instead::Number(number) => write!(f, "{number}"),
            Instead::NoLimit => f.write_str("no limit"),
            Instead::Sampler(sampler) => write!(f, "{sampler}"),
            Instead::RatioOne => f.write_str("1.0"),
            Instead::DefaultEndpoint => f.write_str("http://localhost:4318/v1/traces"),
            Instead::Variable(variable) => write!(f, "what {variable} says"),
            Instead::Otlp => f.write_str("otlp"),
            Instead::TraceContext => f.write_str("tracecontext"),
            Instead::HttpProtobuf => f.write_str("http/protobuf"),
            Instead::NoCompression => f.write_str("no compression"),
            Instead::PlainHttp => f.write_str("HTTP without TLS"),
            Instead::NoHeaders => f.write_str("a request without them"),
            Instead::StandardMethods => f.write_str("the standard list"),
        }
    }
}

/// A value that can't be read, or that asks for what the kit doesn't have. It counts as unset
/// (OpenTelemetry Specification, "Environment Variable Specification", on each type of value).
#[derive(Drop)]
#[derive_where(Debug, PartialEq, Eq)]
pub struct SettingFault<A: Allocator = Global> {
    /// The variable.
    pub variable: Variable,
    /// Its value. Of headers, whose values may be secrets, the name of the field that isn't taken,
    /// and nothing where the value is no pairs.
    pub text: String<A>,
    /// What is used instead.
    pub instead: Instead,
    /// Of headers, why the field of this name isn't taken.
    pub cause: Option<HeaderFault>,
}

/// The scheme of a URL over TLS.
const TLS_SCHEME: &str = "https:";

impl<A: Allocator> SettingFault<A> {
    /// Whether the value is an endpoint that is reached over TLS.
    fn asks_for_tls(&self) -> bool {
        let variable = self.variable;
        let scheme = self.text.as_bytes().get(..TLS_SCHEME.len());
        matches!(
            variable,
            Variable::OtlpEndpoint | Variable::OtlpTracesEndpoint
        ) && scheme.is_some_and(|scheme| scheme.eq_ignore_ascii_case(TLS_SCHEME.as_bytes()))
    }
}

/// Says the variable, its value, and what is used instead. Of a variable whose value may be a
/// secret, as of headers and keys, the value isn't said; of headers, the name of the field that
/// isn't taken is.
impl<A: Allocator> fmt::Display for SettingFault<A> {
    fn fmt<W: fmt::Write>(&self, f: &mut fmt::Formatter<W>) -> fmt::Result {
        let variable = self.variable;
        let text = self.text.as_str();
        let instead = self.instead;
        if variable.is_unsupported() {
            return write!(f, "{variable} isn't supported: {instead} is used instead");
        }
        if self.asks_for_tls() {
            return write!(
                f,
                "{variable}: {text:?} needs TLS, which isn't supported: {instead} is used \
                instead; name a proxy on this machine that has TLS, as http://localhost:4318"
            );
        }
        let form = variable.form();
        if let Some(cause) = self.cause {
            return write!(
                f,
                "{variable}: the field {text:?} isn't sent ({cause}): {instead} is used instead"
            );
        }
        if variable.is_secret() {
            return write!(f, "{variable} isn't {form}: {instead} is used instead");
        }
        write!(
            f,
            "{variable}: {text:?} isn't {form}: {instead} is used instead"
        )
    }
}

/// Adds a fault to the list, if the variable is set and was not read.
pub(crate) fn note_unread<A: Allocator>(
    alloc: A,
    faults: &mut Vec<SettingFault<A>, A>,
    variable: Variable,
    text: Option<&str>,
    is_read: bool,
    instead: Instead,
) -> Result<(), AllocError>
    ensures { OnOk result (faults_view faults.new.items ≡ faults_view faults.old.items
        ++ unread variable instead (option_map (λ t. t.now) text.entry) is_read) }
{
    let Some(text) = text else { return Ok(()) };
    if is_read {
        return Ok(());
    }
    let text = String::from_str(alloc, text)?;
    faults.push(SettingFault {
        variable,
        text,
        instead,
        cause: None,
    })?;
    Ok(())
}
