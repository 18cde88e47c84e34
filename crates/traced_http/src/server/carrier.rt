//! The fields of a request, as what carries a context.

ghost use Rattle.std.specs.Prelude.{◌≡◌, IfOk, map, option_map};
ghost use Rattle.otlp_ids.specs.SpanContext.{context_view};
ghost use Rattle.traced_http.specs.Carried.{carried, fields_of, lent_fields};

use http::{HeaderMap, HeaderValue};
use otlp_ids::{OutOfMemory, SpanContext};
use std::alloc::Global;
use trace_context::{Extractor, extract};

/// The names and the values of the fields, in order.
#[derive(Drop)]
pub(crate) struct Fields<'a> {
    list: Vec<(&'a [u8], &'a [u8])>,
}

impl<'a> Extractor for Fields<'a> {
    ghost use Rattle.traced_http.specs.Carried.{lent_fields};

    ghost fields = { λ f. lent_fields f.list.items };

    fn count(&self) -> usize {
        self.list.len()
    }

    fn field(&self, index: usize) -> (&[u8], &[u8]) {
        self.list[index]
    }
}

/// All fields, in order.
fn fields_in<'a>(
    alloc: Global,
    headers: &'a HeaderMap<HeaderValue>,
) -> Result<Fields<'a>, OutOfMemory>
    ensures { IfOk result (λ f. lent_fields f.list.items ≡ fields_of headers.now) }
{
    let mut list = Vec::with_capacity(alloc, headers.len())?;
    for (name, value) in headers.iter() {
        list.push((name.as_bytes(), value.as_bytes()))?;
    }
    Ok(Fields { list })
}

/// The context of the caller, if the request carries one.
///
/// # Errors
///
/// `OutOfMemory` where memory was refused.
pub(crate) fn caller_of(
    alloc: Global,
    headers: &HeaderMap<HeaderValue>,
) -> Result<Option<SpanContext>, OutOfMemory>
    ensures { IfOk result (λ found. option_map context_view found ≡ carried headers.now) }
{
    let fields = fields_in(alloc, headers)?;
    extract(alloc, &fields)
}
