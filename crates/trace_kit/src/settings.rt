//! Settings by the standard's environment variables (OpenTelemetry Specification, "Environment
//! Variable Specification"; OTLP Specification, "OTLP Exporter Configuration"):
//! [`settings_of_environment`], and [`settings_of`] for any list of names and values. Each value
//! that can't be read is a [`SettingFault`]. An [`Environment`] is a process's, or what stands for
//! one.
pub use otel_settings::{
    Environment, Instead, NamedSampler, ResourceFault, SamplerName, SettingFault, Settings,
    Variable, resource_attributes, resource_pairs, settings_of, settings_of_environment,
};
