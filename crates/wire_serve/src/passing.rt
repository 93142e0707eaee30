//! Gathers bytes, and passes them on to a server: the header of a message as it is, and a query as
//! the message that asks the same.

ghost use Rattle.std.specs.Prelude.{◌≡◌, ◌≤◌, ◌<◌, ◌++◌, IfOk, List, OnErr, length, take, ℕ};
ghost use Rattle.wire_serve.specs.Heads.{IsPart, IsWholeQuery, IsWithin};
ghost use Rattle.wire_serve.specs.Passing.{AsksAs, PassesOn, TakesNext};

use crate::head::{Head, MAX_QUERY_LEN, head_of};
use std::alloc::{AllocError, Global};
use wire_peer::Server;
use wire_query::{QueryFault, RawQuery};
use wire_stream::ReadRefusal;

/// The number of bytes of a header.
const HEADER: usize = 16;

/// What became of gathered bytes.
#[derive(Clone, Copy, Debug, PartialEq, Eq)]
pub(crate) enum Passed {
    /// More bytes are to be gathered.
    Nothing,
    /// The server was fed the header of a message.
    Header,
    /// The server was fed the message of a query.
    Query,
    /// The bytes are no query.
    Refused(QueryFault),
}

/// Why there is no message of a query.
#[derive(Clone, Copy, Debug, PartialEq, Eq)]
enum NoMessage {
    /// The bytes are no query.
    Fault(QueryFault),
    /// Memory ran out.
    OutOfMemory,
}

impl From<AllocError> for NoMessage {
    ghost use Rattle.wire_serve.specs.declared.passing.NoMessage.{NoMessage};

    ghost from_gives = { λ _ why. why ≡ NoMessage.OutOfMemory };

    fn from(_: AllocError) -> NoMessage {
        NoMessage::OutOfMemory
    }
}

/// Returns how many more bytes are wanted behind these.
fn wanted(part: &[u8]) -> usize
    requires { IsPart part.now }
    ensures some { 0 < result }
    ensures within { (more : List ℕ) → length more ≤ result → IsWithin (part.now ++ more) }
{
    match head_of(part) {
        Head::Query(len) => len - part.len(),
        Head::Part => HEADER - part.len(),
        Head::Other => unreachable!(),
    }
}

/// Returns the message that asks what the query in `bytes` asks.
fn message_of(alloc: Global, bytes: &[u8]) -> Result<Vec<u8>, NoMessage>
    ensures { AsksAs bytes.now result }
{
    let query = match RawQuery::parse(alloc, bytes, MAX_QUERY_LEN) {
        Ok(query) => query,
        Err(fault) => return Err(NoMessage::Fault(fault)),
    };
    let mut message = Vec::new(alloc);
    query.write_msg(&mut message)?;
    Ok(message)
}

/// Feeds `server` the message of the query in `part`.
///
/// # Errors
///
/// Returns `OutOfMemory` if memory runs out. The server is unchanged then.
fn pass_query(alloc: Global, part: &[u8], server: &mut Server) -> Result<Passed, ReadRefusal>
    requires next { TakesNext server.old }
    requires whole { IsWholeQuery part.now }
    ensures { PassesOn result part.now server.old server.new }
{
    match message_of(alloc, part) {
        Ok(message) => {
            server.feed(&message)?;
            Ok(Passed::Query)
        }
        Err(NoMessage::Fault(fault)) => Ok(Passed::Refused(fault)),
        Err(NoMessage::OutOfMemory) => Err(ReadRefusal::OutOfMemory),
    }
}

/// Passes gathered bytes on, if they are as many as are wanted.
///
/// # Errors
///
/// Returns `OutOfMemory` if memory runs out. The server is unchanged then.
fn pass_on(alloc: Global, part: &[u8], server: &mut Server) -> Result<Passed, ReadRefusal>
    requires next { TakesNext server.old }
    requires within { IsWithin part.now }
    ensures { PassesOn result part.now server.old server.new }
{
    match head_of(part) {
        Head::Part => Ok(Passed::Nothing),
        Head::Query(len) if part.len() < len => Ok(Passed::Nothing),
        Head::Query(_) => pass_query(alloc, part, server),
        Head::Other => {
            server.feed(part)?;
            Ok(Passed::Header)
        }
    }
}

/// Gathers bytes of `piece` behind `part`, no more than are wanted, and passes them on if all of
/// these are there. Returns how many were gathered, and what became of them.
///
/// # Errors
///
/// Returns `OutOfMemory` if memory runs out. Nothing changes then.
pub(crate) fn gather(
    alloc: Global,
    piece: &[u8],
    part: &mut Vec<u8>,
    server: &mut Server,
) -> Result<(usize, Passed), ReadRefusal>
    requires next { TakesNext server.old }
    requires begun { IsPart part.old.items }
    ensures within { IfOk result (λ t. t.0 ≤ length piece.now) }
    ensures some { 0 < length piece.now → IfOk result (λ t. 0 < t.0) }
    ensures gathered { IfOk result (λ t. part.new.items ≡ part.old.items ++ take t.0 piece.now) }
    ensures passed { IfOk result (λ t.
        PassesOn (Ok t.1) (part.old.items ++ take t.0 piece.now) server.old server.new) }
    ensures unchanged { OnErr result
        ((part.new.items ≡ part.old.items) × (server.new ≡ server.old)) }
{
    let start = part.len();
    let n = wanted(part).min(piece.len());
    if part.extend_from_slice(&piece[..n]).is_err() {
        return Err(ReadRefusal::OutOfMemory);
    }
    match pass_on(alloc, part, server) {
        Ok(passed) => Ok((n, passed)),
        Err(refusal) => {
            part.truncate(start);
            Err(refusal)
        }
    }
}
