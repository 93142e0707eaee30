//! How a connection ended.

ghost use Rattle.std.specs.Prelude.{◌≡◌};
ghost use Rattle.proxy.specs.Told.{is_told, name_of};

use crate::direction::Direction;
use sockets::{IoFailure, RelayFault};
use std::fmt;

/// Who is at one end of a connection.
#[derive(Clone, Copy)]
pub enum Side {
    Client,
    Server,
}

impl Side {
    /// Returns its name.
    fn name(self) -> &'static str
        ensures { result.now ≡ name_of self }
    {
        match self {
            Side::Client => "client",
            Side::Server => "server",
        }
    }
}

/// How a connection ended.
#[derive(Clone, Copy)]
pub enum Ending {
    /// Both sides ended.
    Ended,
    /// Connecting to the server failed.
    Unconnected(IoFailure),
    /// The link to this side failed.
    Failed(Side, RelayFault),
    /// The script hung up at the request with this id, of which no byte went on.
    HungUp(i32),
    /// It was cut once so many bytes went this way.
    Cut(Direction, u64),
}

impl Ending {
    /// Returns true if it is told also where nothing is shown: the proxy ended the connection, or
    /// connecting to the server or the link to it failed.
    pub fn is_told(self) -> bool
        ensures { result ≡ is_told self }
    {
        match self {
            Ending::Ended | Ending::Failed(Side::Client, _) => false,
            Ending::Unconnected(_) | Ending::HungUp(_) | Ending::Cut(..) => true,
            Ending::Failed(Side::Server, _) => true,
        }
    }
}

impl fmt::Display for Ending {
    ghost use Rattle.proxy.specs.Told.{ending_text};

    ghost output = { ending_text };

    fn fmt<W: fmt::Write>(&self, f: &mut fmt::Formatter<W>) -> fmt::Result {
        match *self {
            Ending::Ended => f.write_str("ended"),
            Ending::Unconnected(failure) => write!(f, "failed: connecting: {failure}"),
            Ending::Failed(side, fault) => write!(f, "failed: {}: {fault}", side.name()),
            Ending::HungUp(id) => write!(f, "hangup id {id}"),
            Ending::Cut(direction, count) => write!(f, "cut {} {count}", direction.word()),
        }
    }
}
