//! The settings.

ghost use Rattle.std.specs.Prelude.{◌≡◌, ◌≤◌, ◌++◌, IfOk, OnOk};
ghost use Rattle.batch_desk.specs.Views.{config_view};
ghost use Rattle.otlp_span.specs.Parts.{limits_view};
ghost use Rattle.otel_settings.specs.Pairs.{pairs_view};
ghost use Rattle.otel_settings.specs.Faults.{faults_view};
ghost use Rattle.otel_settings.specs.Settings as settings;
ghost use Rattle.otel_settings.specs.SettingsView.{settings_view};

use crate::coding::read_coding;
use crate::endpoint::read_target;
use crate::fault::{Instead, SettingFault};
use crate::headers::read_headers;
use crate::methods::read_methods;
use crate::read::{read_boolean, read_number, read_text};
use crate::resource::read_resource;
use crate::sampler::{NamedSampler, read_sampler};
use crate::unsupported::note_unsupported;
use crate::variable::Variable;
use batch_desk::DeskConfig;
use otlp_http::{Coding, Target};
use otlp_span::SpanLimits;
use otlp_value::Value;
use std::alloc::{AllocError, Allocator, Global};

/// The greatest number of spans that may wait (profile).
const MOST_SPANS: u32 = 65_536;

/// What the environment sets.
#[derive(Drop)]
#[derive_where(Debug)]
pub struct Settings<A: Allocator = Global> {
    /// Whether tracing is off: `false` by default.
    pub disabled: bool,
    /// The attributes of the resource, as `Resource::new` takes them: those of
    /// `OTEL_RESOURCE_ATTRIBUTES`, and `service.name` from `OTEL_SERVICE_NAME`, which wins. Their
    /// keys are distinct. What a program sets itself counts before them.
    pub resource: Vec<(String<A>, Value<A>), A>,
    /// The name of the service, if `OTEL_SERVICE_NAME` is set; it is in `resource`, too.
    pub service_name: Option<String<A>>,
    /// The sampler: `parentbased_always_on` by default.
    pub sampler: NamedSampler,
    /// How much the queue of a batch processor holds, and when a batch is taken from it.
    pub desk: DeskConfig,
    /// How long the export of a batch may take, in milliseconds: 30,000 by default. 0 is no limit.
    pub export_timeout_ms: u32,
    /// How much a span keeps.
    pub limits: SpanLimits,
    /// Where spans are sent to: `http://localhost:4318/v1/traces` by default. It has the fields of
    /// `OTEL_EXPORTER_OTLP_HEADERS`, or of that of traces, which go out with each request.
    pub target: Target<A>,
    /// In which coding bodies are sent: as they are by default, or as gzip files.
    pub coding: Coding,
    /// How long a request to the collector may take, in milliseconds: 10,000 by default. 0 is no
    /// limit.
    pub timeout_ms: u32,
    /// The methods of HTTP that spans are named by, with commas between them, as `KnownMethods` of
    /// `traced_http` reads them: empty by default, which is the standard ones.
    pub known_methods: String<A>,
    /// The values that can't be read, or that ask for what the kit doesn't have, in the order of
    /// [`Variable`].
    pub faults: Vec<SettingFault<A>, A>,
}

impl<A: Allocator> Settings<A> {
    /// How long a request to the collector may take, as `HttpExporter::new` takes it, in
    /// milliseconds: `timeout_ms`, or 2^32 - 1 (49 days) where that is 0, which is no limit.
    /// (profile)
    pub fn request_timeout_ms(&self) -> u64
        ensures value { result ≡ settings.request_timeout self.now.timeout_ms }
        ensures bound { 1 ≤ result }
    {
        if self.timeout_ms == 0 {
            return u64::from(u32::MAX);
        }
        u64::from(self.timeout_ms)
    }
}

/// The settings of a queue, with their faults after those before.
#[tactic(auto, unfolding(crate::specs::Settings::desk_of, crate::specs::Settings::desk_faults))]
fn read_desk<A: Allocator + Copy>(
    alloc: A,
    faults: &mut Vec<SettingFault<A>, A>,
    pairs: &[(&str, &str)],
) -> Result<DeskConfig, AllocError>
    ensures value { IfOk result (λ desk.
        config_view desk ≡ settings.desk_of (pairs_view pairs.now)) }
    ensures faults { OnOk result (faults_view faults.new.items
        ≡ settings.desk_faults (faults_view faults.old.items) (pairs_view pairs.now)) }
{
    let delay_ms = read_number(
        alloc,
        faults,
        pairs,
        Variable::BspScheduleDelay,
        0,
        u32::MAX,
        Instead::Number(5000),
    )?;
    let queue = read_number(
        alloc,
        faults,
        pairs,
        Variable::BspMaxQueueSize,
        1,
        MOST_SPANS,
        Instead::Number(2048),
    )?;
    let queue = queue.unwrap_or(2048);
    let batch_size = queue.min(512);
    let batch = read_number(
        alloc,
        faults,
        pairs,
        Variable::BspMaxExportBatchSize,
        1,
        queue,
        Instead::Number(batch_size),
    )?;
    Ok(DeskConfig {
        queue: queue as usize,
        batch: batch.unwrap_or(batch_size) as usize,
        delay_ms: delay_ms.unwrap_or(5000),
    })
}

/// A number that may be any, if the variable is set and read, with its fault after those before.
fn read_any<A: Allocator + Copy>(
    alloc: A,
    faults: &mut Vec<SettingFault<A>, A>,
    pairs: &[(&str, &str)],
    variable: Variable,
    instead: Instead,
) -> Result<Option<u32>, AllocError>
    ensures value { IfOk result (λ value.
        value ≡ settings.number_of 0 settings.most_of_all variable (pairs_view pairs.now)) }
    ensures faults { OnOk result (faults_view faults.new.items ≡ faults_view faults.old.items
        ++ settings.number_faults 0 settings.most_of_all variable instead (pairs_view pairs.now)) }
{
    read_number(alloc, faults, pairs, variable, 0, u32::MAX, instead)
}

/// A count, 128 by default, with its fault after those before.
fn read_count<A: Allocator + Copy>(
    alloc: A,
    faults: &mut Vec<SettingFault<A>, A>,
    pairs: &[(&str, &str)],
    variable: Variable,
) -> Result<u32, AllocError>
    ensures value { IfOk result (λ count.
        count ≡ settings.count_of variable (pairs_view pairs.now)) }
    ensures faults { OnOk result (faults_view faults.new.items ≡ faults_view faults.old.items
        ++ settings.count_faults variable (pairs_view pairs.now)) }
{
    let count = read_any(alloc, faults, pairs, variable, Instead::Number(128))?;
    Ok(count.unwrap_or(128))
}

/// How much a span keeps, with the faults after those before.
#[tactic(auto, unfolding(crate::specs::Settings::limits_of, crate::specs::Settings::limit_faults))]
fn read_limits<A: Allocator + Copy>(
    alloc: A,
    faults: &mut Vec<SettingFault<A>, A>,
    pairs: &[(&str, &str)],
) -> Result<SpanLimits, AllocError>
    ensures value { IfOk result (λ limits.
        limits_view limits ≡ settings.limits_of (pairs_view pairs.now)) }
    ensures faults { OnOk result (faults_view faults.new.items
        ≡ settings.limit_faults (faults_view faults.old.items) (pairs_view pairs.now)) }
{
    let general = Variable::AttributeValueLengthLimit;
    let length = read_any(alloc, faults, pairs, general, Instead::NoLimit)?;
    let general = Variable::AttributeCountLimit;
    let count = read_any(alloc, faults, pairs, general, Instead::Number(128))?;
    let instead = Instead::Variable(Variable::AttributeValueLengthLimit);
    let of_span = Variable::SpanAttributeValueLengthLimit;
    let span_length = read_any(alloc, faults, pairs, of_span, instead)?;
    let instead = Instead::Variable(Variable::AttributeCountLimit);
    let of_span = Variable::SpanAttributeCountLimit;
    let span_count = read_any(alloc, faults, pairs, of_span, instead)?;
    let events = read_count(alloc, faults, pairs, Variable::SpanEventCountLimit)?;
    let links = read_count(alloc, faults, pairs, Variable::SpanLinkCountLimit)?;
    let of_event = read_count(alloc, faults, pairs, Variable::EventAttributeCountLimit)?;
    let of_link = read_count(alloc, faults, pairs, Variable::LinkAttributeCountLimit)?;
    Ok(SpanLimits {
        max_attributes_per_span: span_count.or(count).unwrap_or(128),
        max_events_per_span: events,
        max_links_per_span: links,
        max_attributes_per_event: of_event,
        max_attributes_per_link: of_link,
        max_attribute_value_length: span_length.or(length),
    })
}

/// How long a request may take, with the faults after those before.
fn read_timeout<A: Allocator + Copy>(
    alloc: A,
    faults: &mut Vec<SettingFault<A>, A>,
    pairs: &[(&str, &str)],
) -> Result<u32, AllocError>
    ensures value { IfOk result (λ timeout.
        timeout ≡ settings.timeout_of (pairs_view pairs.now)) }
    ensures faults { OnOk result (faults_view faults.new.items
        ≡ settings.timeout_faults (faults_view faults.old.items) (pairs_view pairs.now)) }
{
    let general = Variable::OtlpTimeout;
    let timeout = read_any(alloc, faults, pairs, general, Instead::Number(10_000))?;
    let instead = Instead::Variable(Variable::OtlpTimeout);
    let of_traces = read_any(alloc, faults, pairs, Variable::OtlpTracesTimeout, instead)?;
    Ok(of_traces.or(timeout).unwrap_or(10_000))
}

/// The settings that these names and values make, variable by variable. Of equal names the last
/// counts, and an empty value counts as unset. A value that can't be read, or that asks for what
/// the kit doesn't have, leaves its default, and is once in the list of faults.
///
/// # Errors
///
/// `AllocError` where memory was refused.
#[tactic(auto, unfolding(crate::specs::Settings::settings_of))]
pub fn settings_of<A: Allocator + Copy>(
    alloc: A,
    pairs: &[(&str, &str)],
) -> Result<Settings<A>, AllocError>
    ensures { IfOk result (λ all.
        settings_view all ≡ settings.settings_of (pairs_view pairs.now)) }
{
    let mut faults = Vec::new(alloc);
    let disabled = read_boolean(alloc, &mut faults, pairs, Variable::SdkDisabled)?;
    let resource = read_resource(alloc, &mut faults, pairs)?;
    let service_name = read_text(alloc, pairs, Variable::ServiceName)?;
    let sampler = read_sampler(alloc, &mut faults, pairs)?;
    let desk = read_desk(alloc, &mut faults, pairs)?;
    let instead = Instead::Number(30_000);
    let timeout = read_any(
        alloc,
        &mut faults,
        pairs,
        Variable::BspExportTimeout,
        instead,
    )?;
    let limits = read_limits(alloc, &mut faults, pairs)?;
    let target = read_target(alloc, &mut faults, pairs)?;
    let timeout_ms = read_timeout(alloc, &mut faults, pairs)?;
    note_unsupported(alloc, &mut faults, pairs)?;
    let headers = read_headers(alloc, &mut faults, pairs)?;
    let known_methods = read_methods(alloc, &mut faults, pairs)?;
    Ok(Settings {
        disabled: disabled.unwrap_or(false),
        resource,
        service_name,
        sampler,
        desk,
        export_timeout_ms: timeout.unwrap_or(30_000),
        limits,
        target: target.with_headers(headers),
        coding: read_coding(pairs),
        timeout_ms,
        known_methods,
        faults,
    })
}
