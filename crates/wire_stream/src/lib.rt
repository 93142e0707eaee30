//! Reads and writes streams of messages: bytes that come and go over a link.
//!
//! A `MsgReader` makes messages of bytes that come in pieces. A `Link` moves bytes both ways, may
//! fail, and may have none to move yet. An `Inlet` holds the piece that a link gave last, and
//! `flush` sends what an `Outlet`, such as an `OutBuf`, has waiting. Nothing here looks into a
//! message beyond its length, except by calls of wire_msg.
//!
//! Stands on wire_msg and framing. Whatever has a connection stands on it: wire_peer, wire_serve,
//! sockets, wire_end and the programs. Read first: `reader`, and then `link`.
#![tactic(auto)]

mod held;
mod inlet;
mod link;
mod mem_link;
mod msg_buf;
mod out_buf;
mod outlet;
mod pieces;
mod reader;
mod reader_state;
mod tcp_link;

pub use inlet::{Inlet, Pulled};
pub use link::{Link, LinkFault, Moved};
pub use mem_link::MemLink;
pub use msg_buf::MsgBuf;
pub use out_buf::OutBuf;
pub use outlet::{Flushed, Outlet, flush};
pub use pieces::{PiecesRead, read_pieces};
pub use reader::MsgReader;
pub use reader_state::{Fed, ReadEnd, ReadRefusal, ReaderState};
pub use tcp_link::TcpLink;
