//! Connections over TCP to the servers that are judged, and of the clients that a dialogue is played to.

ghost use Rattle.std.specs.Prelude.{None};

use h2_cmd_against::{Link, LinkRead};
use h2_cmd_inject::Guests;
use h2_host::Stopwatch;
use std::io::{ErrorKind, Read, Write};
use std::net::{IpAddr, Ipv4Addr, SocketAddr, TcpListener, TcpStream};
use std::time::Duration;

/// The server on a port of this host, or the clients of a port that is listened on, over TCP.
#[derive(Drop)]
pub struct TcpPeer<'x> {
    rt: &'x HostRuntime,
    port: u16,
    listener: Option<TcpListener>,
    failure: Option<ErrorKind>,
    stream: Option<TcpStream>,
    times: Stopwatch<'x, HostRuntime>,
}

/// How many milliseconds one write may take.
const WRITE_MILLIS: u64 = 2_000;

/// The most milliseconds that a case takes.
const MOST_MILLIS: u64 = 5_000;

/// The most milliseconds that a dialogue takes.
const DIALOGUE_MILLIS: u64 = 30_000;

/// An address of this host.
fn local(port: u16) -> SocketAddr {
    SocketAddr::new(IpAddr::V4(Ipv4Addr::new(127, 0, 0, 1)), port)
}

impl<'x> TcpPeer<'x> {
    /// Without a connection yet.
    pub fn new(rt: &'x HostRuntime, port: u16) -> TcpPeer<'x> {
        TcpPeer {
            rt,
            port,
            listener: None,
            failure: None,
            stream: None,
            times: Stopwatch::new(rt),
        }
    }

    /// Why the port could not be listened on, where it could not.
    pub fn failure(&self) -> Option<ErrorKind> {
        self.failure
    }

    /// A new connection, if there is one: of the next client where a port is listened on, else to the server.
    fn next_stream(&mut self) -> Option<TcpStream> {
        match &self.listener {
            Some(listener) => match listener.accept() {
                Ok((stream, _)) => Some(stream),
                Err(_) => None,
            },
            None => TcpStream::connect(self.rt, local(self.port)).ok(),
        }
    }
}

impl Guests for TcpPeer<'_> {
    fn listen(&mut self, port: u16) -> bool {
        match TcpListener::bind(self.rt, local(port)) {
            Ok(listener) => {
                self.listener = Some(listener);
                true
            }
            Err(error) => {
                self.failure = Some(error.kind());
                false
            }
        }
    }
}

impl Link for TcpPeer<'_> {
    ghost log = { λ _. None };

    fn connect(&mut self) -> bool {
        self.stream = None;
        let Some(stream) = self.next_stream() else {
            return false;
        };
        let _unset = stream.set_nodelay(true);
        let _unlimited = stream.set_write_timeout(Some(Duration::from_millis(WRITE_MILLIS)));
        self.stream = Some(stream);
        self.times.start();
        true
    }

    fn read(&mut self, millis: u64, buffer: &mut [u8]) -> LinkRead {
        let Some(stream) = self.stream.as_mut() else {
            return LinkRead::Ended;
        };
        let wait = Duration::from_millis(millis.max(1));
        if stream.set_read_timeout(Some(wait)).is_err() {
            return LinkRead::Ended;
        }
        match stream.read(buffer) {
            Ok(0) => LinkRead::Ended,
            Ok(count) => LinkRead::Octets(count),
            Err(error) => match error.kind() {
                ErrorKind::WouldBlock | ErrorKind::TimedOut | ErrorKind::Interrupted => {
                    LinkRead::Quiet
                }
                _ => LinkRead::Ended,
            },
        }
    }

    fn write_all(&mut self, octets: &[u8]) -> bool {
        match self.stream.as_mut() {
            Some(stream) => stream.write_all(octets).is_ok(),
            None => false,
        }
    }

    fn is_late(&mut self) -> bool {
        let most = if self.listener.is_some() {
            DIALOGUE_MILLIS
        } else {
            MOST_MILLIS
        };
        match self.times.millis() {
            Some(millis) => millis > most,
            None => false,
        }
    }
}
