//! Settings of tracing by the standard's environment variables (OpenTelemetry Specification,
//! "Environment Variable Specification"; OTLP Specification, "OTLP Exporter Configuration").
//!
//! [`settings_of`] makes settings of a list of names and values, and [`settings_of_environment`] of
//! those of the process. They are a function of the list, variable by variable: of equal names the
//! last counts, and a variable that isn't set, or whose value is empty, leaves its default. A value
//! that can't be read leaves the default, too, and is once in the list of faults, with its variable
//! and with what is used instead. So is a value that asks for what the kit doesn't have, as another
//! protocol and TLS. Headers go out with each request to the collector. Of theirs a fault says the
//! name alone, since their values may be secrets.
//!
//! [`resource_attributes`] reads the text of `OTEL_RESOURCE_ATTRIBUTES`: `key1=value1,key2=value2`
//! (OpenTelemetry Specification, "Resource SDK", "Specifying resource information via an
//! environment variable"; W3C Baggage, "Header content", without properties). A key is a token of
//! HTTP, and a value any visible ASCII characters but `"`, `,`, `;` and `\`; in both `%` and two
//! hexadecimal digits are a byte, and what comes out is UTF-8. Spaces and tabs may be around keys
//! and values. A value may be empty, and have a `=`.
#![tactic(auto)]

mod attributes;
mod coding;
mod endpoint;
mod environment;
mod fault;
mod headers;
mod laws;
mod methods;
mod pair_texts;
mod pairs;
mod read;
mod resource;
mod resource_fault;
mod sampler;
mod settings;
mod unsupported;
mod variable;

pub use attributes::resource_attributes;
pub use environment::{Environment, settings_of_environment};
pub use fault::{Instead, SettingFault};
pub use laws::last_counts;
pub use pair_texts::resource_pairs;
pub use resource_fault::ResourceFault;
pub use sampler::{NamedSampler, SamplerName};
pub use settings::{Settings, settings_of};
pub use variable::Variable;
