//! When a response was made.

ghost use Rattle.std.specs.Prelude.{◌≡◌, IfOk, OnErr, OnOk};
ghost use Rattle.http_server.specs.Response.{fields, fields_of};
ghost use Rattle.httpdate.specs.Date.{unix_secs};
ghost use Rattle.http_connection.specs.Dates as spec;
ghost use Rattle.http_connection.specs.Dates.{IsDated, SaysDate};

use http::{HeaderName, HeaderValue};
use http_server::Response;
use httpdate::HttpDate;
use std::alloc::{AllocError, Global};

/// Whether one of the fields says it.
fn has_date(headers: &[(HeaderName, HeaderValue)]) -> bool
    ensures { result ≡ spec.has_date (fields headers.now) }
{
    let mut rest = headers;
    while let [first, after @ ..] = rest {
        if first.0.as_str() == "date" {
            return true;
        }
        rest = after;
    }
    false
}

/// Adds the field that says this moment, in nanoseconds since 1970.
///
/// # Errors
///
/// `AllocError` where memory was refused; the response is as it was.
fn add_date(alloc: Global, response: &mut Response, at: u64) -> Result<(), AllocError>
    ensures added { OnOk result (IsDated at (fields_of response.old) (fields_of response.new)) }
    ensures refused { OnErr result (fields_of response.new ≡ fields_of response.old) }
    ensures status { response.new.status ≡ response.old.status }
    ensures body { response.new.body ≡ response.old.body }
{
    let Ok(date) = HttpDate::from_unix_secs(at / 1_000_000_000) else {
        return Err(AllocError);
    };
    let Ok(value) = HeaderValue::from_bytes(alloc, &date.to_bytes()) else {
        return Err(AllocError);
    };
    response.add_header(HeaderName::from_static("date"), value)?;
    Ok(())
}

/// Says at which moment the response was made, in nanoseconds since 1970, unless it says that (RFC
/// 9110, section 6.6.1). Where memory is refused, it doesn't.
pub fn say_date(alloc: Global, response: &mut Response, at: u64)
    ensures { SaysDate at response.old response.new }
{
    if !has_date(&response.headers) {
        let _ = add_date(alloc, response, at);
    }
}
