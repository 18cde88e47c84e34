//! A client of HTTP/1.1 without spans (RFC 9110, RFC 9112): a [`ClientRequest`] of any method, with
//! fields and a body, goes out over [`NewConnections`] or a [`KeptConnection`], and its reply is read,
//! or a [`SendFault`] says why there is none. `traced_http` sends such requests within spans.
#![tactic(auto)]

mod exchange;
mod fault;
mod refusal;
mod request;
mod transport;

pub use fault::SendFault;
pub use refusal::refusal_of;
pub use request::ClientRequest;
pub use transport::{KeptConnection, NewConnections, Transport};
