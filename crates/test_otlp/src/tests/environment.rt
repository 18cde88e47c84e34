//! Settings of an environment, which is a table here.
ghost use Rattle.std.specs.Prelude.{◌≤◌, length};

use crate::tests::equal::{assert_displayed, assert_equal};
use otel_settings::{Settings, Variable, settings_of_environment};
use std::alloc::Global;
use std::env::FillError;
use std::process::Abort;
use std::rt::Env;

/// An environment in which one name has this value, and the sampler is one that takes a ratio.
#[derive(Drop)]
struct OneName(&'static str, &'static [u8]);

impl Env for OneName {
    fn arg(&self, _: usize, _: &mut [u8]) -> Result<usize, FillError> {
        Err(FillError::NotPresent)
    }

    fn var(&self, name: &str, buf: &mut [u8]) -> Result<usize, FillError> {
        let value: &[u8] = if name == self.0 {
            self.1
        } else if name == "OTEL_TRACES_SAMPLER" {
            b"traceidratio"
        } else {
            return Err(FillError::NotPresent);
        };
        if buf.len() < value.len() {
            return Err(FillError::TooLong);
        }
        buf[..value.len()].copy_from_slice(value);
        Ok(value.len())
    }

    fn var_at(&self, _: usize, _: &mut [u8]) -> Result<usize, FillError> {
        Err(FillError::NotPresent)
    }
}

/// The settings of an environment in which this name has this value.
fn settings_with(
    rt: &impl Abort,
    alloc: Global,
    name: &'static str,
    value: &'static [u8],
) -> Settings {
    settings_of_environment(&(OneName(name, value), alloc)).expect(rt, "memory")
}

/// The names of the variables, by hand (Environment Variable Specification; OTLP Exporter
/// Configuration; Semantic Conventions, "http.request.method"), in the order of their faults; without
/// that of the service's name.
const NAMES: [&str; 35] = [
    "OTEL_SDK_DISABLED",
    "OTEL_RESOURCE_ATTRIBUTES",
    "OTEL_TRACES_SAMPLER",
    "OTEL_TRACES_SAMPLER_ARG",
    "OTEL_BSP_SCHEDULE_DELAY",
    "OTEL_BSP_MAX_QUEUE_SIZE",
    "OTEL_BSP_MAX_EXPORT_BATCH_SIZE",
    "OTEL_BSP_EXPORT_TIMEOUT",
    "OTEL_ATTRIBUTE_VALUE_LENGTH_LIMIT",
    "OTEL_ATTRIBUTE_COUNT_LIMIT",
    "OTEL_SPAN_ATTRIBUTE_VALUE_LENGTH_LIMIT",
    "OTEL_SPAN_ATTRIBUTE_COUNT_LIMIT",
    "OTEL_SPAN_EVENT_COUNT_LIMIT",
    "OTEL_SPAN_LINK_COUNT_LIMIT",
    "OTEL_EVENT_ATTRIBUTE_COUNT_LIMIT",
    "OTEL_LINK_ATTRIBUTE_COUNT_LIMIT",
    "OTEL_EXPORTER_OTLP_ENDPOINT",
    "OTEL_EXPORTER_OTLP_TRACES_ENDPOINT",
    "OTEL_EXPORTER_OTLP_TIMEOUT",
    "OTEL_EXPORTER_OTLP_TRACES_TIMEOUT",
    "OTEL_TRACES_EXPORTER",
    "OTEL_PROPAGATORS",
    "OTEL_EXPORTER_OTLP_PROTOCOL",
    "OTEL_EXPORTER_OTLP_TRACES_PROTOCOL",
    "OTEL_EXPORTER_OTLP_COMPRESSION",
    "OTEL_EXPORTER_OTLP_TRACES_COMPRESSION",
    "OTEL_EXPORTER_OTLP_CERTIFICATE",
    "OTEL_EXPORTER_OTLP_TRACES_CERTIFICATE",
    "OTEL_EXPORTER_OTLP_CLIENT_KEY",
    "OTEL_EXPORTER_OTLP_TRACES_CLIENT_KEY",
    "OTEL_EXPORTER_OTLP_CLIENT_CERTIFICATE",
    "OTEL_EXPORTER_OTLP_TRACES_CLIENT_CERTIFICATE",
    "OTEL_EXPORTER_OTLP_HEADERS",
    "OTEL_EXPORTER_OTLP_TRACES_HEADERS",
    "OTEL_INSTRUMENTATION_HTTP_KNOWN_METHODS",
];

/// Asserts that the one fault of settings is of the variable with this name.
fn assert_fault_of(rt: &impl Abort, settings: &Settings, name: &str) {
    assert!(rt; settings.faults.len() == 1);
    assert_equal(rt, settings.faults[0].variable.name(), name);
}

/// No setting but the service's name has the value `?`.
#[test]
fn each_variable_of_a_process_is_read(rt: HostRuntime) {
    assert_equal(&rt, Variable::ALL.len(), NAMES.len() + 1);
    for name in &NAMES {
        assert_fault_of(&rt, &settings_with(&rt, rt.alloc(), name, b"?"), name);
    }
    let settings = settings_with(&rt, rt.alloc(), "OTEL_SERVICE_NAME", b"?");
    assert_equal(&rt, settings.faults.len(), 0);
    assert_equal(&rt, settings.service_name.is_some(), true);
}

#[test]
fn a_value_that_is_not_utf_8_is_a_fault(rt: HostRuntime) {
    let settings = settings_with(&rt, rt.alloc(), "OTEL_BSP_MAX_QUEUE_SIZE", b"9\xff");
    assert!(rt; settings.faults.len() == 1);
    let text = "OTEL_BSP_MAX_QUEUE_SIZE: \"\u{FFFD}\" isn't a whole number from 1 to 65536: 2048 \
                is used instead";
    assert_displayed(&rt, rt.alloc(), &settings.faults[0], text);
}
