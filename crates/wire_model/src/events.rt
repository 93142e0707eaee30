//! What may happen in a world.

use wire_msg::Payload;
use wire_peer::CallKind;

/// One thing that happens in a world. Connections are numbered from 1, in the order in which they
/// are made, and the requests that wait at a server from 0.
#[derive(Clone, Copy)]
pub enum Event<'a> {
    /// A connection is checked out of the pool.
    Open,
    /// The connection is checked in.
    Return(u64),
    /// A call of this kind with this payload is made over the connection.
    Call(u64, CallKind, Payload<'a>),
    /// Bytes of the client's output go into the server, at most this many.
    Up(u64, usize),
    /// Bytes of the server's output go into the client, at most this many.
    Down(u64, usize),
    /// The server answers the waiting request of this index.
    Answer(u64, usize),
    /// Nothing more moves up, and the server is told the end.
    CutUp(u64),
    /// Nothing more moves down, and the client is told the end.
    CutDown(u64),
    /// The pool is cleared.
    Clear,
    /// All clients end, and the pool is reset.
    Restart,
    /// A raw connection is made, which has a server but no client of ours.
    RawOpen,
    /// These bytes are fed to the server of a raw connection.
    Raw(u64, &'a [u8]),
    /// Bytes of the output of a raw connection's server are taken away, at most this many.
    RawTake(u64, usize),
}
