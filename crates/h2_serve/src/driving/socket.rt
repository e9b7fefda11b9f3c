//! A TCP connection as a wire. No contract can say which octets a socket reads or writes, so it reports none of them.

ghost use Rattle.std.specs.Prelude.{◌≡◌, Bool, None, false};

use crate::driving::wire::{Wire, WireFault};
use std::io::{Read, Write};
use std::marker::Model;
use std::net::{Shutdown, TcpStream};
use std::time::Duration;

/// How long one read waits for octets that the peer still sends while a connection is closed, in milliseconds.
const CLOSE_WAIT_MILLIS: u64 = 50;

/// The most reads of such octets; each has at most 4,096 of them.
const CLOSE_READS: u32 = 4096;

/// A TCP connection. A contract sees whether its last read or write failed.
#[derive(Drop)]
pub struct Socket {
    stream: TcpStream,
    failed: bool,
}

impl Model for Socket {
    ghost use Rattle.h2_serve.specs.Sockets.{SocketView};

    ghost Value = { SocketView };

    ghost view = { λ s. record { failed = s.failed } };
}

impl Socket {
    /// A wire over this connection, of which no call has failed. Takes no memory.
    pub fn new(stream: TcpStream) -> Socket
        ensures { result.failed ≡ false }
    {
        Socket {
            stream,
            failed: false,
        }
    }

    // Reads on until the peer ends, is silent for 50 ms, or has sent 16 MB: less resets a peer that is still
    // sending, more would block the next connection.
    /// Closes the connection so that the peer can still read what was written: it ends the writing side, and reads
    /// and drops what the peer still sends, until the peer ends its side, sends nothing for 50 milliseconds, or has
    /// sent 16 MB.
    ///
    /// A connection that is closed while octets of the peer are unread is reset instead, and the peer may then lose
    /// the last frames, among them the GOAWAY (RFC 9113, 5.4.1).
    pub fn close(mut self) {
        let _ended = self.stream.shutdown(Shutdown::Write);
        let wait = Duration::from_millis(CLOSE_WAIT_MILLIS);
        if self.stream.set_read_timeout(Some(wait)).is_err() {
            return;
        }
        let mut buffer = [0u8; 4096];
        for _ in 0..CLOSE_READS {
            match self.stream.read(&mut buffer) {
                Ok(count) if count > 0 => {}
                _ => return,
            }
        }
    }
}

/// Any error of the socket is a fault, an interruption too, and so is a write of 0 octets.
impl Wire for Socket {
    ghost octets_read = { λ _. None };

    ghost octets_written = { λ _. None };

    ghost read_lengths = { λ _. None };

    ghost has_failed = { λ s. s.failed };

    fn read(&mut self, buffer: &mut [u8]) -> Result<usize, WireFault> {
        match self.stream.read(buffer) {
            Ok(count) => {
                self.failed = false;
                Ok(count)
            }
            Err(_) => {
                self.failed = true;
                Err(WireFault)
            }
        }
    }

    fn write(&mut self, octets: &[u8]) -> Result<usize, WireFault> {
        match self.stream.write(octets) {
            Ok(count) if count > 0 => {
                self.failed = false;
                Ok(count)
            }
            _ => {
                self.failed = true;
                Err(WireFault)
            }
        }
    }
}
