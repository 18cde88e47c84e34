//! The resource of a service.
ghost use Rattle.std.specs.Prelude.{◌≡◌, IfOk, OnErr, false, string_bytes};
ghost use Rattle.model_span.specs.Attributes.{is_empty, text};
ghost use Rattle.otlp_value.specs.Value.{attribute_view, attributes_view};
ghost use Rattle.otlp_span.specs.Parts.{resource_view};
ghost use Rattle.otlp_span.specs.Resources.{name_or_unknown, overlaid, service_resource};

use crate::pairs::{kept_attributes, set_all};
use crate::parts::Resource;
use otlp_ids::{OutOfMemory, VERSION, copy_text};
use otlp_value::{Limits, Value};
use std::alloc::Allocator;

/// A resource has no limits (Common, "Attribute Limits").
const NO_LIMITS: Limits = Limits {
    count: u32::MAX,
    value_length: None,
};

/// The name of a service, where it has one.
fn name_or_unknown(name: &str) -> &str
    ensures { result.now ≡ name_or_unknown name.now }
{
    if name.is_empty() {
        "unknown_service"
    } else {
        name
    }
}

/// An attribute whose value is a text.
fn text_pair<A: Allocator + Copy>(
    alloc: A,
    key: &str,
    value: &str,
) -> Result<(String<A>, Value<A>), OutOfMemory>
    ensures { IfOk result (λ pair. attribute_view pair
        ≡ record { key = key.now; value = text value.now }) }
{
    Ok((copy_text(alloc, key)?, Value::text(alloc, value)?))
}

impl<A: Allocator + Copy> Resource<A> {
    /// The resource of the service with this name, without a schema: `service.name`, and that this
    /// kit makes its spans, by `telemetry.sdk.language`, `telemetry.sdk.name` and
    /// `telemetry.sdk.version` (Resource SDK, "SDK-provided resource attributes"; Semantic
    /// Conventions, "Service", "Telemetry SDK"). A service with an empty name is
    /// `unknown_service`.
    ///
    /// # Errors
    ///
    /// `OutOfMemory` where an attribute could not be stored.
    pub fn service(alloc: A, name: &str) -> Result<Resource<A>, OutOfMemory>
        ensures { IfOk result
            (λ made. resource_view made ≡ service_resource VERSION.now name.now) }
    {
        let mut attributes = Vec::with_capacity(alloc, 4)?;
        attributes.push_reserved(text_pair(alloc, "service.name", name_or_unknown(name))?);
        attributes.push_reserved(text_pair(alloc, "telemetry.sdk.language", "rattle")?);
        attributes.push_reserved(text_pair(alloc, "telemetry.sdk.name", "dulhafrin")?);
        attributes.push_reserved(text_pair(alloc, "telemetry.sdk.version", VERSION)?);
        Ok(Resource::new(alloc, attributes))
    }

    /// The resource with these attributes over its own: of a key that both have the given value
    /// counts, in the place of its own one; new keys come last (Resource SDK, "Merge"; without the
    /// schema of the other, and a pair with an empty key is ignored: profile).
    ///
    /// # Errors
    ///
    /// `OutOfMemory` where the list of attributes could not grow. The resource is let go then.
    pub fn with_attributes(
        self,
        alloc: A,
        attributes: Vec<(String<A>, Value<A>), A>,
    ) -> Result<Resource<A>, OutOfMemory>
        ensures { IfOk result (λ made. resource_view made
            ≡ overlaid (resource_view self) (attributes_view attributes.items)) }
    {
        let mut all = kept_attributes(alloc, NO_LIMITS, self.attributes)?;
        set_all(&mut all, attributes)?;
        Ok(Resource {
            attributes: all.into_pairs(),
            schema_url: self.schema_url,
        })
    }
}
