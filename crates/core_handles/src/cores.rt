//! The cores that a handle may hold.

use wire_peer::{Client, Server};
use wire_pool::Pool;

/// A core.
#[derive(Drop)]
pub(crate) enum Core {
    /// The client's end of a connection.
    Client(Client),
    /// The server's end of a connection.
    Server(Server),
    /// A pool of connections.
    Pool(Pool),
}
