//! The address that is listened at.

ghost use Rattle.std.specs.Prelude.{◌≡◌};

use mio::net::TcpListener;
use std::io::{self, ErrorKind};
use std::net::{self, Net, SocketAddr, TcpStream};
use thiserror::Error;

/// Why an address can't be listened at, and what to do, where a program has the options `--address`
/// and `--port`.
#[derive(Debug, Clone, Copy, PartialEq, Eq, Error)]
pub enum ListenFault {
    /// Another program listens there.
    #[error("address in use; choose another --port")]
    InUse,
    /// Only the system's own programs may listen there.
    #[error("permission denied; choose a --port above 1023")]
    NotPermitted,
    /// The machine has no such address.
    #[error("this machine has no such address; choose another --address")]
    NoAddress,
    /// The system said something else.
    #[error("{0}; choose another --address or --port")]
    Other(ErrorKind),
}

impl ListenFault {
    /// What the system's error says.
    fn of(kind: ErrorKind) -> ListenFault
        ensures in_use { kind ≡ ErrorKind.AddrInUse → result ≡ ListenFault.InUse }
        ensures not_permitted { kind ≡ ErrorKind.PermissionDenied
            → result ≡ ListenFault.NotPermitted }
        ensures no_address { kind ≡ ErrorKind.AddrNotAvailable → result ≡ ListenFault.NoAddress }
    {
        match kind {
            ErrorKind::AddrInUse => ListenFault::InUse,
            ErrorKind::PermissionDenied => ListenFault::NotPermitted,
            ErrorKind::AddrNotAvailable => ListenFault::NoAddress,
            _ => ListenFault::Other(kind),
        }
    }
}

/// Listens at this address, without waiting at a call. The address that was taken is with it, where
/// port 0 was a free one.
///
/// # Errors
///
/// The system refuses it.
pub fn listen<R>(rt: &R, address: SocketAddr) -> Result<(TcpListener, SocketAddr), ListenFault>
where
    R: Net<Listener = net::TcpListener, Stream = TcpStream>,
{
    match bind(rt, address) {
        Ok((listener, address)) => Ok((TcpListener::from_std(listener), address)),
        Err(error) => Err(ListenFault::of(error.kind())),
    }
}

/// The same, with the system's error.
fn bind<R>(rt: &R, address: SocketAddr) -> io::Result<(net::TcpListener, SocketAddr)>
where
    R: Net<Listener = net::TcpListener, Stream = TcpStream>,
{
    let listener = net::TcpListener::bind(rt, address)?;
    listener.set_nonblocking(true)?;
    let address = listener.local_addr()?;
    Ok((listener, address))
}
