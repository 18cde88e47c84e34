//! How the span of a request is named.

ghost use Rattle.std.specs.Prelude.{◌≡◌, IfOk, string_bytes};
ghost use Rattle.std.specs.Option.{option_copied};
ghost use Rattle.traced_http.specs.Methods as spec;

use crate::method::KnownMethods;
use otlp_ids::OutOfMemory;
use std::alloc::Global;

/// The name of a server's span: the method, or `HTTP` where it isn't known, and the route, if there
/// is one (Semantic Conventions, "HTTP spans", "Name").
///
/// # Errors
///
/// `OutOfMemory` where memory was refused.
pub(crate) fn span_name(
    alloc: Global,
    known: &KnownMethods,
    method: &str,
    route: Option<&str>,
) -> Result<String, OutOfMemory>
    ensures { IfOk result (λ name. string_bytes name
        ≡ spec.span_name known.now method.now (option_copied route.entry)) }
{
    let mut name = String::from_str(alloc, known.name(method))?;
    let Some(route) = route else {
        return Ok(name);
    };
    name.push_str(" ")?;
    name.push_str(route)?;
    Ok(name)
}
