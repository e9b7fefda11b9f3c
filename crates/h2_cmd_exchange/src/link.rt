//! Connections to a server. What is done with them is written over this trait, so that contracts can say it; a socket of TCP
//! reports nothing. Definitions: `specs/Links.antt`.

ghost use Rattle.std.specs.Prelude.{◌≡◌, ◌<◌, List, Option, length, true};
ghost use Rattle.h2_cmd_exchange.specs.Links.{IsWithin, LinkEvent, Opened, Sent, happened, late_if, read_event};

/// What a read gives.
#[derive(Clone, Copy)]
pub enum LinkRead {
    /// This many octets, at the front of the buffer: at least one.
    Octets(usize),
    /// Nothing came in the time that was given.
    Quiet,
    /// The server closed the connection, or it failed.
    Ended,
}

/// Connections to a server, one after another. A contract sees what happened on them, in order, where the type reports it.
pub trait Link {
    ghost log: { Self → Option (List LinkEvent) };

    /// Ends the connection, if there is one, and asks the server for a new one. Says whether it took it.
    fn connect(&mut self) -> bool
        ensures { log self.new ≡ happened (log self.old) (Opened result) };

    /// Reads some octets to the front of a buffer, which must not be empty; waits for them for this many milliseconds at most.
    fn read(&mut self, millis: u64, buffer: &mut [u8]) -> LinkRead
        requires { 0 < length buffer.old }
        ensures within { IsWithin result (length buffer.new) }
        ensures log { log self.new ≡ happened (log self.old) (read_event result buffer.new) };

    /// Writes all of these octets. Says whether it was done.
    fn write_all(&mut self, octets: &[u8]) -> bool
        ensures { log self.new ≡ happened (log self.old) (Sent octets.now result) };

    /// Whether the time of a case is over.
    fn is_late(&mut self) -> bool
        ensures { log self.new ≡ late_if result (log self.old) };
}
