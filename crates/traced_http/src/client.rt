//! A client of HTTP whose requests have spans (OpenTelemetry Semantic Conventions, "HTTP spans"): each
//! request goes within a span of the kind client, whose context it carries (W3C Trace Context), over
//! [`NewConnections`] or a [`KeptConnection`].

mod sends;
mod start;

pub use http_client::{ClientRequest, KeptConnection, NewConnections, SendFault, Transport};
pub use sends::{Client, ClientParts};
