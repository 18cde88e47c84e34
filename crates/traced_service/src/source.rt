//! What the spans of a service are made with, and its copies for the service's threads.
ghost use Rattle.std.specs.Prelude.{◌≡◌, IfOk};
ghost use Rattle.std.specs.Arc.{arc_value};
ghost use Rattle.otlp_span.specs.Parts.{limits_view, resource_view, scope_view};
ghost use Rattle.otlp_value.specs.Value.{attributes_view};

use otel_settings::NamedSampler;
use otlp_ids::{OutOfMemory, copy_text};
use otlp_span::{Resource, Scope, SpanLimits};
use otlp_value::Value;
use std::alloc::{AllocError, Global};
use std::marker::Model;
use std::sync::Arc;
use trace_api::Provider;

/// What a service's spans have in common, of which its threads make providers.
#[derive(Drop)]
pub(crate) struct SpanSource {
    sampler: NamedSampler,
    resource: Arc<Resource>,
    limits: SpanLimits,
}

impl Model for SpanSource {
    ghost use Rattle.std.specs.Arc.{arc_value};
    ghost use Rattle.otel_settings.specs.declared.sampler.NamedSampler.{NamedSampler};
    ghost use Rattle.otlp_span.specs.Parts.{limits_view, resource_view};
    ghost use Rattle.trace_api.specs.Starts.{ProviderWith};

    ghost Value = { ProviderWith NamedSampler };

    ghost view = { λ s. record {
      sampler = s.sampler;
      resource = resource_view (arc_value s.resource);
      limits = limits_view s.limits;
    } };
}

impl SpanSource {
    /// Spans of this resource, which the sampler decides on and which keep as much as the limits
    /// allow.
    pub(crate) fn new(
        sampler: NamedSampler,
        resource: Arc<Resource>,
        limits: SpanLimits,
    ) -> SpanSource
        ensures { result ≡ record {
          sampler = sampler;
          resource = resource_view (arc_value resource);
          limits = limits_view limits;
        } }
    {
        SpanSource {
            sampler,
            resource,
            limits,
        }
    }

    /// A provider that shares the resource.
    ///
    /// # Errors
    ///
    /// `AllocError` where the resource is shared too often.
    pub(crate) fn shared(&self) -> Result<Provider<NamedSampler>, AllocError>
        ensures { IfOk result (λ provider. provider ≡ self.now) }
    {
        let resource = Arc::try_clone(&self.resource)?;
        Ok(Provider::new(self.sampler, resource, self.limits))
    }

    /// An equal provider, on memory of its own.
    ///
    /// # Errors
    ///
    /// `OutOfMemory` where memory was refused.
    pub(crate) fn copied(&self, alloc: Global) -> Result<Provider<NamedSampler>, OutOfMemory>
        ensures { IfOk result (λ provider. provider ≡ self.now) }
    {
        let resource = Arc::new(alloc, copy_resource(alloc, &self.resource)?)?;
        Ok(Provider::new(self.sampler, resource, self.limits))
    }
}

/// An equal resource, on memory of its own.
///
/// # Errors
///
/// `OutOfMemory` where memory was refused.
fn copy_resource(alloc: Global, resource: &Resource) -> Result<Resource, OutOfMemory>
    ensures { IfOk result (λ copied. resource_view copied ≡ resource_view resource.now) }
{
    Ok(Resource {
        attributes: copy_pairs(alloc, &resource.attributes)?,
        schema_url: copy_text(alloc, resource.schema_url.as_str())?,
    })
}

/// An equal scope, on memory of its own.
///
/// # Errors
///
/// `OutOfMemory` where memory was refused.
pub(crate) fn copy_scope(alloc: Global, scope: &Scope) -> Result<Scope, OutOfMemory>
    ensures { IfOk result (λ copied. scope_view copied ≡ scope_view scope.now) }
{
    Ok(Scope {
        name: copy_text(alloc, scope.name.as_str())?,
        version: copy_text(alloc, scope.version.as_str())?,
        attributes: copy_pairs(alloc, &scope.attributes)?,
        schema_url: copy_text(alloc, scope.schema_url.as_str())?,
    })
}

/// Equal attributes, on memory of their own.
fn copy_pairs(alloc: Global, pairs: &[(String, Value)]) -> Result<Vec<(String, Value)>, OutOfMemory>
    ensures { IfOk result (λ copied. attributes_view copied.items ≡ attributes_view pairs.now) }
{
    let mut copied = Vec::with_capacity(alloc, pairs.len())?;
    for (key, value) in pairs {
        copied.push((copy_text(alloc, key.as_str())?, value.copy(alloc)?))?;
    }
    Ok(copied)
}
