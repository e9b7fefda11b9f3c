//! A server: connections of a listener, one after another, and a line about how each of them ended; with an explanation
//! of what each client sends, as it comes. Below it a connection driven over a wire (`drive`): what is read is fed to the
//! connection, and the frames that it sends are written.
#![tactic(auto)]

mod driving;
mod explained;
mod fault;
mod lines;
mod port;
mod server;

pub use driving::drive_fault::{DriveEnd, DriveFault};
pub use driving::driven::Driven;
pub use driving::driver::{drive, drive_with};
pub use driving::outgoing::Pending;
pub use driving::socket::Socket;
pub use driving::wire::{Wire, WireFault};
pub use explained::explain::{ClientEnd, Clients, explain_on, explain_over, listen_and_explain};
pub use explained::explained_conn::Conclusion;
pub use explained::keeper::{Keeper, NoKeeper};
pub use explained::numbered::numbered;
pub use fault::ServeFault;
pub use port::{Listener, Port, PortFault, TcpClients, TcpPort};
pub use server::{listen_and_serve, serve_on, serve_over};
