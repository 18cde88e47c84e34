//! What a traced service is started with.
ghost use Rattle.std.specs.Prelude.{◌≡◌, ◌≤◌, IfErr, IfOk, None, vec_len};
ghost use Rattle.batch_desk.specs.Views.{config_view};
ghost use Rattle.batch_processor.specs.declared.config.BatchConfig.{BatchConfig as Config};
ghost use Rattle.batch_service.specs.Refusals.{Answers, refusal_of};
ghost use Rattle.batch_service.specs.Service.{EndsServed, new_service, origin_of};
ghost use Rattle.batch_service.specs.declared.fault.StartFault.TheVariants as faults;
ghost use Rattle.otel_settings.specs.Environments.{AreRead};
ghost use Rattle.otel_settings.specs.Faults.{faults_view};
ghost use Rattle.otel_settings.specs.Pairs.{Pairs};
ghost use Rattle.otel_settings.specs.Settings.{request_timeout, settings_of};
ghost use Rattle.otlp_span.specs.Parts.{limits_view};
ghost use Rattle.otlp_span.specs.Resources.{overlaid, service_resource};
ghost use Rattle.otlp_value.specs.Value.{attributes_view};
ghost use Rattle.traced_service.specs.Sums.{Sums};
ghost use Rattle.traced_service.specs.Setups.{IsOf, sampler_of, setup_of};

use crate::counts::TracedDone;
use crate::log::{Lines, LogThread};
use crate::names::Rings;
use crate::source::SpanSource;
use crate::work::{Traced, TracedWork};
use batch_processor::BatchConfig;
use batch_service::{StartFault, refusal_of, serve};
use drop_ledger::NameLines;
use http_exporter::{CompressedExporter, HttpExporter, KeptExporter, TcpDial};
use otel_settings::{
    Environment, NamedSampler, SamplerName, SettingFault, Settings, settings_of_environment,
};
use otlp_http::{Coding, Target};
use otlp_ids::{OutOfMemory, VERSION};
use otlp_span::{Resource, Scope};
use rand::make_rng;
use rand::rngs::StdRng;
use rand_core::Rng;
use retry_core::RetryConfig;
use std::alloc::Global;
use std::io::{LineWriter, Write};
use std::net::{Net, TcpListener, TcpStream};
use std::random::RandomSource;
use std::sync::{Arc, Wait};
use std::thread::{self, Threads};
use std::time::Clock;

/// What a traced service is started with: what its spans are made with, where they go, and how they
/// wait.
#[derive(Drop)]
pub struct ServiceSetup {
    is_off: bool,
    provider: SpanSource,
    scope: Arc<Scope>,
    target: Target,
    coding: Coding,
    timeout_ms: u64,
    config: BatchConfig,
    faults: Vec<SettingFault>,
    ghost is_time: { 1 ≤ timeout_ms },
}

/// The sampler of the settings, or one that samples no span where tracing is off.
fn sampler_of(is_off: bool, sampler: NamedSampler) -> NamedSampler
    ensures { result ≡ sampler_of is_off sampler }
{
    if is_off {
        NamedSampler {
            name: SamplerName::AlwaysOff,
            ratio: sampler.ratio,
        }
    } else {
        sampler
    }
}

impl ServiceSetup {
    /// By these settings, of the service with this name, which counts where they name none. Spans
    /// are of a scope of that name too. Where tracing is off no span is sampled.
    ///
    /// # Errors
    ///
    /// `OutOfMemory` where memory was refused.
    pub fn new(alloc: Global, name: &str, settings: Settings) -> Result<ServiceSetup, OutOfMemory>
        ensures provider { IfOk result (λ setup. setup.provider ≡ record {
          sampler = sampler_of settings.disabled settings.sampler;
          resource = overlaid (service_resource VERSION.now name.now)
              (attributes_view settings.resource.items);
          limits = limits_view settings.limits;
        }) }
        ensures queue { IfOk result (λ setup.
            config_view setup.config.desk ≡ config_view settings.desk) }
        ensures target { IfOk result (λ setup. setup.target ≡ settings.target) }
        ensures coding { IfOk result (λ setup. setup.coding ≡ settings.coding) }
        ensures timeout { IfOk result (λ setup.
            setup.timeout_ms ≡ request_timeout settings.timeout_ms) }
        ensures faults { IfOk result (λ setup. setup.faults.items ≡ settings.faults.items) }
        ensures is_off { IfOk result (λ setup. setup.is_off ≡ settings.disabled) }
    {
        let timeout_ms = settings.request_timeout_ms();
        let resource = Resource::service(alloc, name)?.with_attributes(alloc, settings.resource)?;
        let sampler = sampler_of(settings.disabled, settings.sampler);
        Ok(ServiceSetup {
            is_off: settings.disabled,
            provider: SpanSource::new(sampler, Arc::new(alloc, resource)?, settings.limits),
            scope: Arc::new(alloc, Scope::named(alloc, name)?)?,
            target: settings.target,
            coding: settings.coding,
            timeout_ms,
            config: BatchConfig {
                desk: settings.desk,
                ..BatchConfig::default()
            },
            faults: settings.faults,
        })
    }

    /// By an environment, as the process's: as [`ServiceSetup::new`] by the settings that it makes.
    ///
    /// # Errors
    ///
    /// `OutOfMemory` where memory was refused.
    pub fn from_environment<R: Environment + AllocGlobal>(
        rt: &R,
        name: &str,
    ) -> Result<ServiceSetup, OutOfMemory>
        ensures { IfOk result (λ setup. (pairs : Pairs) × AreRead (R.gives rt.now) pairs
            × IsOf (setup_of VERSION.now name.now (settings_of pairs)) setup.provider
            (config_view setup.config.desk) setup.target setup.coding setup.timeout_ms
            (faults_view setup.faults.items) setup.is_off) }
    {
        let settings = settings_of_environment(rt)?;
        ServiceSetup::new(rt.alloc(), name, settings)
    }

    /// The same, with these retries in place of the standard's.
    pub fn with_retry(mut self, retry: RetryConfig) -> ServiceSetup
        ensures provider { result.provider ≡ self.provider }
        ensures queue { result.config ≡ record self.config { retry = retry } }
        ensures target { result.target ≡ self.target }
        ensures coding { result.coding ≡ self.coding }
        ensures timeout { result.timeout_ms ≡ self.timeout_ms }
        ensures faults { result.faults.items ≡ self.faults.items }
        ensures is_off { result.is_off ≡ self.is_off }
    {
        self.config.retry = retry;
        self
    }

    /// Whether tracing is off, by `OTEL_SDK_DISABLED`.
    pub fn is_off(&self) -> bool
        ensures { result ≡ self.now.is_off }
    {
        self.is_off
    }

    /// The values of variables that can't be read, or that ask for what the kit doesn't have.
    pub fn faults(&self) -> &[SettingFault]
        ensures { result.now ≡ self.now.faults.items }
    {
        &self.faults
    }

    /// Serves with this number of threads, 1 to [`MAX_THREADS`](batch_service::MAX_THREADS): does
    /// the work of each, exports its spans over HTTP, over a connection that is kept as long as
    /// replies let it, and stops once all work is done, as [`batch_service::serve`]. A line for each
    /// goes to the log: first for what the settings have that can't be used, and then for each span
    /// that isn't delivered.
    ///
    /// Each thread makes its spans with a provider and a scope of its own, copies of the service's;
    /// one for which memory is refused shares the service's.
    ///
    /// The lines are written by a thread of their own, to which threads that drop spans give the
    /// names, 16 at a time (see [`NamingPass`](batch_service::NamingPass)), and the worker the
    /// others. So the log holds up no end of a span. Each may have 4,096 names waiting: those that
    /// come where it has as many are only counted ([`ServiceLog::unwritten`]). The stop waits until
    /// all that wait are written.
    ///
    /// # Errors
    ///
    /// Why the service was not started; then no work was done.
    pub fn serve<R, L, W>(
        self,
        rt: R,
        log: L,
        threads: usize,
        work: &W,
    ) -> Result<TracedDone<W::Output, CompressedExporter<KeptExporter<TcpDial<R>>>, L>, StartFault>
    where
        R: Threads + Wait + RandomSource + Clock + AllocGlobal,
        R: Net<Listener = TcpListener, Stream = TcpStream>,
        R: Copy + Send + Sync + 'static,
        L: Write + Send + Drop + 'static,
        W: TracedWork + Sync,
        W::Output: Send + Drop,
        ensures served { IfOk result (λ done. EndsServed threads
            (new_service (origin_of self.config threads) None None)
            done.served.desk None None done.served.end) }
        ensures threads { IfOk result (λ done. vec_len done.threads ≡ threads) }
        ensures refused { IfOk result (λ done. Sums done.threads.items done.refused) }
        ensures fault { Answers (refusal_of self.config threads) result }
    {
        let ServiceSetup {
            is_off: _,
            provider,
            scope,
            target,
            coding,
            timeout_ms,
            config,
            faults,
        } = self;
        if let Some(fault) = refusal_of(&config, threads) {
            return Err(fault);
        }
        let alloc = rt.alloc();
        let lines = open_log(alloc, log, &faults)?;
        let seed = draw_seed(&rt)?;
        let exporter = HttpExporter::new(alloc, rt, target, timeout_ms);
        let exporter = KeptExporter::new(exporter.reading_after_a_stop());
        let exporter = CompressedExporter::new(alloc, exporter, coding);
        let shared = provider.shared()?;
        let tracer = shared.tracer(Arc::try_clone(&scope)?);
        let Rings {
            worker,
            names,
            taken,
        } = Rings::new(alloc, threads, is_crowded(&rt, threads))?;
        let traced = Traced {
            rt,
            alloc,
            provider,
            scope,
            tracer: &tracer,
            seed,
            names,
            work,
        };
        let log = LogThread::start(rt, alloc, lines, taken)?;
        // (nothing may end this before the thread of the log is stopped)
        let done = serve(rt, alloc, exporter, worker, config, threads, &traced);
        let mut log = log.stop(&rt);
        log.leave_out(traced.names.left_out(&rt));
        Ok(TracedDone::new(done?, log))
    }
}

/// Whether there are more of these threads than processors. Where that can't be had, there aren't.
fn is_crowded<R: Threads>(rt: &R, threads: usize) -> bool {
    match thread::available_parallelism(rt) {
        Ok(processors) => threads > processors.get(),
        Err(_) => false,
    }
}

/// The log that is written to this writer, with a line for each of these faults.
///
/// # Errors
///
/// `OutOfMemory` where memory was refused.
fn open_log<L>(alloc: Global, log: L, told: &[SettingFault]) -> Result<Lines<L>, StartFault>
where
    L: Write + Drop,
    ensures { IfErr result (λ fault. fault ≡ faults.OutOfMemory) }
{
    let Ok(mut lines) = LineWriter::new(alloc, log) else {
        return Err(StartFault::OutOfMemory);
    };
    report(&mut lines, told);
    Ok(NameLines::new(lines))
}

/// Writes a line for each fault. A line that can't be written is left out.
fn report<L: Write>(log: &mut L, faults: &[SettingFault]) {
    for fault in faults {
        let _ = writeln!(log, "{fault}");
    }
}

/// What the generators of a service's threads are seeded with.
///
/// # Errors
///
/// `NoRandomBytes` where the system gave none.
fn draw_seed<R: RandomSource>(rt: &R) -> Result<u64, StartFault>
    ensures { IfErr result (λ fault. fault ≡ faults.NoRandomBytes) }
{
    match make_rng::<StdRng, R>(rt) {
        Ok(mut rng) => Ok(rng.next_u64()),
        Err(_) => Err(StartFault::NoRandomBytes),
    }
}

/// Serves the service with this name by the environment of the process (OpenTelemetry
/// Specification, "Environment Variable Specification"): [`ServiceSetup::from_environment`], and
/// then [`ServiceSetup::serve`].
///
/// # Errors
///
/// Why the service was not started; then no work was done.
pub fn serve_from_environment<R, L, W>(
    rt: R,
    log: L,
    name: &str,
    threads: usize,
    work: &W,
) -> Result<TracedDone<W::Output, CompressedExporter<KeptExporter<TcpDial<R>>>, L>, StartFault>
where
    R: Threads + Wait + RandomSource + Clock + Environment + AllocGlobal,
    R: Net<Listener = TcpListener, Stream = TcpStream>,
    R: Copy + Send + Sync + 'static,
    L: Write + Send + Drop + 'static,
    W: TracedWork + Sync,
    W::Output: Send + Drop,
    ensures served { IfOk result (λ done. (pairs : Pairs) × AreRead (R.gives rt) pairs
        × (config : Config) × (config_view config.desk ≡ (settings_of pairs).desk)
        × EndsServed threads (new_service (origin_of config threads) None None)
        done.served.desk None None done.served.end) }
    ensures threads { IfOk result (λ done. vec_len done.threads ≡ threads) }
    ensures refused { IfOk result (λ done. Sums done.threads.items done.refused) }
{
    match ServiceSetup::from_environment(&rt, name) {
        Ok(setup) => setup.serve(rt, log, threads, work),
        Err(OutOfMemory) => Err(StartFault::OutOfMemory),
    }
}
