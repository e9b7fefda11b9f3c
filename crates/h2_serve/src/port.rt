//! A port, and the wires of the clients that connect to it. What is done with them is written over these traits, so that
//! contracts can say it; the sockets of TCP report nothing. Definitions: `specs/Ports.antt`.

ghost use Rattle.std.specs.Prelude.{◌≡◌, List, [], ◌∷◌, Option, None, false, IfOk, OnErr, OnOk};
ghost use Rattle.h2_serve.specs.Wires.{grown};
ghost use Rattle.h2_serve.specs.Ports.{Event, Accepted, Closed, Listening, seen};

use crate::{Socket, Wire};
use std::io::ErrorKind;
use std::net::{IpAddr, Ipv4Addr, Net, SocketAddr, TcpListener, TcpStream};

/// A port could not be listened on, or a client not be accepted.
#[derive(Clone, Copy)]
pub struct PortFault;

/// What accepts clients. A contract sees what happened, in order, where the type reports it: each wire as it was when its
/// client was accepted, and as it was when it was closed.
pub trait Listener {
    type Link: Wire + Drop;

    ghost events: { Self → Option (List Event) };

    /// The wire of the next client. Waits for one.
    fn accept(&mut self) -> Result<Self::Link, PortFault>
        ensures ok { IfOk result (λ wire. events self.new ≡ grown (events self.old) (Accepted
            (seen (Self.Link.octets_read wire) (Self.Link.octets_written wire) (Self.Link.read_lengths wire) (Self.Link.has_failed wire)) ∷ [])) }
        ensures open { IfOk result (λ wire. Self.Link.has_failed wire ≡ false) }
        ensures err { OnErr result (events self.new ≡ events self.old) };

    /// Closes a wire so that the peer can still read what was written.
    fn close(&mut self, wire: Self::Link)
        ensures { events self.new ≡ grown (events self.old) (Closed
            (seen (Self.Link.octets_read wire) (Self.Link.octets_written wire) (Self.Link.read_lengths wire) (Self.Link.has_failed wire)) ∷ []) };
}

/// What can listen on a port, and then accepts its clients.
pub trait Port: Listener {
    /// Listens on a port of an address of this host.
    fn listen(&mut self, host: [u8; 4], port: u16) -> Result<(), PortFault>
        ensures ok { OnOk result (Self.events self.new ≡ grown (Self.events self.old) (Listening host port ∷ [])) }
        ensures err { OnErr result (Self.events self.new ≡ Self.events self.old) };
}

/// The most clients in a row that may go away before they are accepted.
const ACCEPT_TRIES: u32 = 1_000;

/// Whether a connection that could not be accepted was lost with its client, so that the next one can be (Linux
/// accept(2), "Error handling").
fn is_lost_client(kind: ErrorKind) -> bool {
    matches!(
        kind,
        ErrorKind::ConnectionAborted
            | ErrorKind::ConnectionReset
            | ErrorKind::HostUnreachable
            | ErrorKind::NetworkUnreachable
            | ErrorKind::NetworkDown
    )
}

/// The next connection of a listener as a wire. Clients that went away before they were accepted are passed over.
fn accept(listener: &TcpListener) -> Result<Socket, PortFault>
    ensures { IfOk result (λ socket. socket.failed ≡ false) }
{
    for _ in 0..ACCEPT_TRIES {
        match listener.accept() {
            Ok((stream, _)) => {
                // Otherwise a small frame may be held back until the peer has acknowledged the one before. Where this
                // fails, the connection is only slower.
                let _unset = stream.set_nodelay(true);
                return Ok(Socket::new(stream));
            }
            Err(error) if is_lost_client(error.kind()) => {}
            Err(_) => return Err(PortFault),
        }
    }
    Err(PortFault)
}

/// The clients of a TCP listener.
#[derive(Drop)]
pub struct TcpClients<'l> {
    listener: &'l TcpListener,
}

impl<'l> TcpClients<'l> {
    pub fn new(listener: &'l TcpListener) -> TcpClients<'l> {
        TcpClients { listener }
    }
}

impl Listener for TcpClients<'_> {
    type Link = Socket;

    ghost events = { λ _. None };

    fn accept(&mut self) -> Result<Socket, PortFault> {
        accept(self.listener)
    }

    fn close(&mut self, wire: Socket) {
        wire.close();
    }
}

/// A port of TCP.
#[derive(Drop)]
pub struct TcpPort<'n, N> {
    net: &'n N,
    listener: Option<TcpListener>,
    failure: Option<ErrorKind>,
}

impl<'n, N: Net<Listener = TcpListener, Stream = TcpStream>> TcpPort<'n, N> {
    /// No port is listened on yet.
    pub fn new(net: &'n N) -> TcpPort<'n, N> {
        TcpPort {
            net,
            listener: None,
            failure: None,
        }
    }

    /// Why it could not be listened on, where it could not.
    pub fn failure(&self) -> Option<ErrorKind> {
        self.failure
    }
}

impl<N: Net<Listener = TcpListener, Stream = TcpStream>> Listener for TcpPort<'_, N> {
    type Link = Socket;

    ghost events = { λ _. None };

    fn accept(&mut self) -> Result<Socket, PortFault> {
        match &self.listener {
            Some(listener) => accept(listener),
            None => Err(PortFault),
        }
    }

    fn close(&mut self, wire: Socket) {
        wire.close();
    }
}

impl<N: Net<Listener = TcpListener, Stream = TcpStream>> Port for TcpPort<'_, N> {
    fn listen(&mut self, host: [u8; 4], port: u16) -> Result<(), PortFault> {
        let address = SocketAddr::new(IpAddr::V4(Ipv4Addr::from(host)), port);
        match TcpListener::bind(self.net, address) {
            Ok(listener) => {
                self.listener = Some(listener);
                Ok(())
            }
            Err(error) => {
                self.failure = Some(error.kind());
                Err(PortFault)
            }
        }
    }
}
