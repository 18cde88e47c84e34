//! A customer, who asks the services without a trace of his own.
use anyhow::{Result, ensure};
use std::alloc::Global;
use std::io::Write;
use std::net::{Ipv4Addr, Net, TcpListener, TcpStream};
use std::time::Duration;
use trace_kit::http::{Counted, HeadLimits, read_reply};

/// How long a read may take, in milliseconds.
const TIMEOUT_MS: u64 = 10_000;

/// Gets what is at this path of a service, and gives the status.
pub fn get<R>(rt: &R, alloc: Global, port: u16, path: &str) -> Result<u16>
where
    R: Net<Listener = TcpListener, Stream = TcpStream>,
{
    let stream = TcpStream::connect(rt, (Ipv4Addr::LOCALHOST, port))?;
    stream.set_read_timeout(Some(Duration::from_millis(TIMEOUT_MS)))?;
    let mut writer = &stream;
    write!(
        writer,
        "GET {path} HTTP/1.1\r\nHost: localhost\r\nConnection: close\r\n\r\n"
    )?;
    let mut reader = Counted::new(&stream);
    match read_reply(alloc, alloc, &mut reader, &HeadLimits::default()) {
        Ok(reply) => Ok(reply.status),
        Err(_) => {
            ensure!(false, "{path} has no reply");
            Ok(0)
        }
    }
}
