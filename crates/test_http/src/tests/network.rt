//! Connections over a network of our own: what is set of each before it is read or written, and when
//! an attempt ends. That the system does as it is set, runs of the programs show
//! (`tools/export-runs`).

use crate::tests::equal::assert_equal;
use http_exporter::{Dial, HttpExporter, TcpDial};
use otlp_http::{FaultRead, FaultWrite, Target};
use retry_core::Outcome;
use std::alloc::Global;
use std::cell::Cell;
use std::io::{self, ErrorKind, Read, Write};
use std::net::{Ipv4Addr, Net, OpenListener, OpenStream, SocketAddr};
use std::os::fd::{AsRawFd, RawFd};
use std::process::Abort;
use std::time::{Clock, Duration};

/// What was asked for of a network, and set of its connection.
#[derive(Drop)]
struct Settings {
    dials: Cell<u32>,
    patience: Cell<Option<Duration>>,
    read: Cell<Option<Duration>>,
    write: Cell<Option<Duration>>,
    is_prompt: Cell<bool>,
    /// How many seconds have passed by the network's clock.
    seconds: Cell<u64>,
}

impl Settings {
    /// Nothing yet.
    fn none() -> Settings {
        Settings {
            dials: Cell::new(0),
            patience: Cell::new(None),
            read: Cell::new(None),
            write: Cell::new(None),
            is_prompt: Cell::new(false),
            seconds: Cell::new(0),
        }
    }
}

/// A connection over which this text comes, so many bytes a read, and so many go in a write at most.
/// A read or a write that could wait for ever, or be held back, fails.
#[derive(Drop)]
struct Connection<'a> {
    settings: &'a Settings,
    text: &'a [u8],
    read: usize,
    write: usize,
}

impl Read for Connection<'_> {
    fn read(&mut self, buf: &mut [u8]) -> io::Result<usize> {
        if self.settings.read.get().is_none() {
            return Err(io::Error::from(ErrorKind::TimedOut));
        }
        let room = buf.len().min(self.read);
        self.text.read(&mut buf[..room])
    }
}

impl Write for Connection<'_> {
    fn write(&mut self, buf: &[u8]) -> io::Result<usize> {
        if self.settings.write.get().is_none() || !self.settings.is_prompt.get() {
            return Err(io::Error::from(ErrorKind::TimedOut));
        }
        Ok(buf.len().min(self.write))
    }

    fn flush(&mut self) -> io::Result<()> {
        Ok(())
    }
}

impl OpenStream for Connection<'_> {
    fn set_read_timeout(&self, dur: Option<Duration>) -> io::Result<()> {
        self.settings.read.set(dur);
        Ok(())
    }

    fn set_write_timeout(&self, dur: Option<Duration>) -> io::Result<()> {
        self.settings.write.set(dur);
        Ok(())
    }

    fn set_nodelay(&self, nodelay: bool) -> io::Result<()> {
        self.settings.is_prompt.set(nodelay);
        Ok(())
    }
}

impl AsRawFd for Connection<'_> {
    fn as_raw_fd(&self) -> RawFd {
        -1
    }
}

/// No listener, since nobody dials this network's side.
#[derive(Drop)]
struct NoListener<'a>(Connection<'a>);

impl<'a> OpenListener for NoListener<'a> {
    type Stream = Connection<'a>;

    fn accept(&self) -> io::Result<(Connection<'a>, SocketAddr)> {
        Err(io::Error::from(ErrorKind::Unsupported))
    }
}

impl AsRawFd for NoListener<'_> {
    fn as_raw_fd(&self) -> RawFd {
        -1
    }
}

/// A network in which each host has three addresses, of which the last alone takes connections. A
/// second passes with each reading of its clock.
#[derive(Clone, Copy)]
struct Network<'a> {
    settings: &'a Settings,
    text: &'a [u8],
    read: usize,
    write: usize,
}

impl<'a> Net for Network<'a> {
    type Stream = Connection<'a>;

    type Listener = NoListener<'a>;

    fn bind(&self, _addr: SocketAddr) -> io::Result<NoListener<'a>> {
        Err(io::Error::from(ErrorKind::Unsupported))
    }

    fn connect(&self, _addr: SocketAddr) -> io::Result<Connection<'a>> {
        Err(io::Error::from(ErrorKind::ConnectionRefused))
    }

    fn connect_timeout(&self, addr: SocketAddr, timeout: Duration) -> io::Result<Connection<'a>> {
        let dials = self.settings.dials.get();
        self.settings.dials.set(dials.saturating_add(1));
        self.settings.patience.set(Some(timeout));
        if addr != SocketAddr::from((Ipv4Addr::new(127, 0, 0, 3), 4318u16)) {
            return Err(io::Error::from(ErrorKind::ConnectionRefused));
        }
        Ok(Connection {
            settings: self.settings,
            text: self.text,
            read: self.read,
            write: self.write,
        })
    }

    fn lookup_host(&self, host: &str, port: u16, found: &mut [SocketAddr]) -> io::Result<usize> {
        if host != "collector" || found.len() < 3 {
            return Err(io::Error::from(ErrorKind::NotFound));
        }
        found[0] = SocketAddr::from((Ipv4Addr::new(127, 0, 0, 1), port));
        found[1] = SocketAddr::from((Ipv4Addr::new(127, 0, 0, 2), port));
        found[2] = SocketAddr::from((Ipv4Addr::new(127, 0, 0, 3), port));
        Ok(3)
    }
}

impl Clock for Network<'_> {
    fn monotonic(&self) -> io::Result<Duration> {
        let seconds = self.settings.seconds.get();
        self.settings.seconds.set(seconds.saturating_add(1));
        Ok(Duration::from_secs(seconds))
    }

    fn since_1970(&self) -> io::Result<Duration> {
        Err(io::Error::from(ErrorKind::Unsupported))
    }
}

/// A connection, a read and a write get what is left of 30 seconds, of which one passes with each:
/// the attempt begins at second 1, so the third address is dialed at second 4.
#[test]
fn each_address_of_a_host_is_dialed_and_nothing_waits_longer_than_the_attempt(rt: HostRuntime) {
    let settings = Settings::none();
    let network = Network {
        settings: &settings,
        text: b"abc",
        read: 1_000,
        write: 1_000,
    };
    let mut dial = TcpDial::new(network, 30_000);
    assert!(rt; dial.dial("elsewhere", 4318).is_none());
    assert_equal(&rt, settings.dials.get(), 0);
    let Some(mut link) = dial.dial("collector", 4318) else {
        assert!(rt; false);
        return;
    };
    let patience = settings.patience.get();
    assert_equal(
        &rt,
        (settings.dials.get(), patience),
        (3, Some(Duration::from_secs(27))),
    );
    assert_equal(&rt, link.write(b"abcd").ok(), Some(4));
    assert_equal(&rt, settings.write.get(), Some(Duration::from_secs(26)));
    assert_equal(&rt, link.read(&mut [0; 8]).ok(), Some(3));
    assert_equal(&rt, settings.read.get(), Some(Duration::from_secs(25)));
    settings.seconds.set(31);
    assert_equal(
        &rt,
        (link.write(b"a").ok(), link.read(&mut [0; 8]).ok()),
        (None, None),
    );
    assert_equal(&rt, FaultRead::failures(&link), 2);
}

/// A host whose time is over before its third address is dialed gives no connection.
#[test]
fn the_time_of_all_addresses_is_that_of_an_attempt(rt: HostRuntime) {
    let settings = Settings::none();
    let network = Network {
        settings: &settings,
        text: b"",
        read: 1_000,
        write: 1_000,
    };
    let mut dial = TcpDial::new(network, 30_000).within_ms(2500);
    assert!(rt; dial.dial("collector", 4318).is_none());
    let half = Some(Duration::from_millis(500));
    assert_equal(
        &rt,
        (settings.dials.get(), settings.patience.get()),
        (2, half),
    );
}

/// A reply, how many bytes of it come in a read and of the request go in a write, and what comes of
/// an attempt that begins at second 0 and has ten: from second 1 on it dials, and from second 4 on
/// each second a write or a read begins. With the second of its end, and for how many seconds the last
/// read waits, if there is one.
type Drip = (&'static [u8], (usize, usize), (Outcome, u64, Option<u64>));

const DRIPS: [Drip; 4] = [
    (
        b"HTTP/1.1 200 OK\r\nContent-Length: 0\r\n\r\n",
        (1, 1_000),
        (Outcome::NoReply, 11, Some(1)),
    ),
    (
        b"HTTP/1.1 200 OK\r\nContent-Length: 0\r\n\r\n",
        (8, 1_000),
        (Outcome::Delivered, 10, Some(1)),
    ),
    (
        b"HTTP/1.1 400 No\r\nContent-Length: 9\r\n\r\nabcdefghi",
        (8, 1_000),
        (Outcome::Refused(400), 11, Some(1)),
    ),
    (b"", (1, 1), (Outcome::NoReply, 11, None)),
];

/// What comes of an attempt over this network, with the second of its end, and for how many seconds
/// the last read waits.
fn attempt(rt: &impl Abort, alloc: Global, network: Network<'_>) -> (Outcome, u64, Option<u64>) {
    let target = Target::new(alloc, "collector", 4318, "/v1/traces").expect(rt, "a target");
    let mut exporter = HttpExporter::new(alloc, network, target, 30_000).within_ms(10_000);
    let outcome = exporter.attempt(b"abc");
    let waited = match network.settings.read.get() {
        Some(time) => Some(time.as_secs()),
        None => None,
    };
    (outcome, network.settings.seconds.get(), waited)
}

#[test]
fn an_attempt_ends_where_a_reply_drips(rt: HostRuntime) {
    for (text, (read, write), wanted) in DRIPS {
        let settings = Settings::none();
        let network = Network {
            settings: &settings,
            text,
            read,
            write,
        };
        assert_equal(
            &rt,
            (text, attempt(&rt, rt.alloc(), network)),
            (text, wanted),
        );
    }
}
