//! Bytes that move over a connection.

ghost use Rattle.std.specs.Prelude.{[], ◌≡◌, ◌≢◌, ◌≤◌, ℕ, IfOk, MatchResult, None, OnErr, OnOk};
ghost use Rattle.std.specs.Prelude.{drop, false, take, true};
ghost use Rattle.wire_msg.specs.{IsOpen};
ghost use Rattle.wire_model.specs.{CopiesReply, with_server_output, WantsRoom, closed_now};
ghost use Rattle.wire_peer.specs.{MayTake};
ghost use Rattle.wire_world.specs.Moving.{DownEnd, DownResult, FedClient, FedServer, GoneRaw};
ghost use Rattle.wire_world.specs.Moving.{GoneUp, MovedUp, RawEnd, RawResult, TakenRaw, Unfed};
ghost use Rattle.wire_world.specs.Moving.{UpEnd, UpResult};
ghost use Rattle.wire_world.specs.Records.{records_of};

use crate::connections::Connection;
use crate::records::CallRecord;
use std::alloc::{AllocError, Global};
use wire_peer::{Client, ClientState, Server, ServerCause, ServerState};
use wire_stream::ReadRefusal;

impl Connection {
    /// Moves the first bytes of the client's output into the server, and returns how many: `n`, or
    /// fewer if there are no more or the server takes no more.
    ///
    /// # Errors
    ///
    /// Returns `OutOfMemory` if there is no memory for a message whose header is now complete. Some
    /// bytes may have been moved.
    pub(crate) fn move_up(&mut self, n: usize) -> Result<usize, ReadRefusal>
        requires { self.old.raw ≡ false }
        ensures { (m : MovedUp self.old n self.new) × UpResult m result }
    {
        let Some(client) = &mut self.client else {
            unreachable!()
        };
        pass_up(client, &mut self.server, n)
    }

    /// Moves the first bytes of the server's output into the client, and returns how many: `n`, or
    /// fewer if there are no more or the client is closed. Each reply goes into the record of its
    /// call.
    ///
    /// # Errors
    ///
    /// Returns `AllocError` if there is no memory for a message whose header is now complete, or
    /// for the copy of a reply. Some bytes may have been moved, and the connection is cut both
    /// ways.
    pub(crate) fn move_down(
        &mut self,
        n: usize,
        calls: &mut [CallRecord],
    ) -> Result<usize, AllocError>
        requires { self.old.raw ≡ false }
        ensures { DownResult self.old n (records_of calls.old) self.new (records_of calls.new)
            result }
    {
        let Some(client) = &mut self.client else {
            unreachable!()
        };
        match pass_down(client, &mut self.server, &self.calls, n, calls) {
            Ok(moved) => Ok(moved),
            Err(_) => {
                self.server.end();
                client.end();
                self.up_cut = true;
                self.down_cut = true;
                Err(AllocError)
            }
        }
    }

    /// Feeds `bytes` to the server of a raw connection, and returns how many it took: all, or fewer
    /// if it takes no more.
    ///
    /// # Errors
    ///
    /// Returns `OutOfMemory` if there is no memory for a message whose header is now complete. Some
    /// bytes may have been taken.
    pub(crate) fn take_raw(&mut self, bytes: &[u8]) -> Result<usize, ReadRefusal>
        requires { self.old.raw ≡ true }
        ensures { (m : TakenRaw self.old bytes.now self.new) × RawResult m result }
    {
        pass_raw(&mut self.server, bytes)
    }

    /// Takes away the first bytes of the server's output, at most `n`.
    ///
    /// # Errors
    ///
    /// Returns `AllocError` if memory runs out. Nothing changes then.
    pub(crate) fn give_raw(&mut self, alloc: Global, n: usize) -> Result<Vec<u8>, AllocError>
        ensures given { IfOk result (λ v. (v.items ≡ take n self.old.server.output)
            ×
            (self.new
            ≡ record self.old
            { server = with_server_output self.old.server (drop n self.old.server.output) })) }
        ensures unchanged { OnErr result (self.new ≡ self.old) }
        ensures some { OnErr result (take n self.old.server.output ≢ []) }
    {
        let output = self.server.output();
        let count = output.len().min(n);
        if count == 0 {
            return Ok(Vec::new(alloc));
        }
        let bytes = Vec::from_slice(alloc, &output[..count])?;
        self.server.sent(count);
        Ok(bytes)
    }
}

/// Feeds `piece` to a server, and returns how many bytes it took: at least one, unless `piece` is
/// empty or the server takes no more.
///
/// # Errors
///
/// Returns `OutOfMemory` if there is no memory for a message whose header is now complete. Nothing
/// is taken then.
fn feed_server(server: &mut Server, piece: &[u8]) -> Result<usize, ReadRefusal>
    ensures fed { MatchResult result (λ taken. FedServer server.old piece.now taken server.new)
        (λ _. WantsRoom server.old piece.now) }
    ensures unchanged { OnErr result (server.new ≡ server.old) }
{
    let ServerState::Open = server.state() else {
        return Ok(0);
    };
    server.feed(piece)
}

/// Moves the first bytes of the client's output into the server, and returns how many, at most `n`.
///
/// # Errors
///
/// Returns `OutOfMemory` if there is no memory for a message whose header is now complete. Some
/// bytes may have been moved.
fn pass_up(client: &mut Client, server: &mut Server, n: usize) -> Result<usize, ReadRefusal>
    ensures { (moved : ℕ) × (moved ≤ n) × GoneUp client.old server.old moved client.new server.new
        × UpEnd n moved client.new server.new result }
{
    let mut moved = 0;
    while moved < n {
        let output = client.output();
        let piece = &output[..output.len().min(n - moved)];
        let taken = feed_server(server, piece)?;
        if taken == 0 {
            return Ok(moved);
        }
        client.sent(taken);
        moved += taken;
    }
    Ok(moved)
}

/// Feeds `bytes` to a server, and returns how many it took: all, or fewer if it takes no more.
///
/// # Errors
///
/// Returns `OutOfMemory` if there is no memory for a message whose header is now complete. Some
/// bytes may have been taken.
fn pass_raw(server: &mut Server, bytes: &[u8]) -> Result<usize, ReadRefusal>
    ensures { (moved : ℕ) × GoneRaw server.old bytes.now moved server.new
        × RawEnd bytes.now moved server.new result }
{
    let mut moved = 0;
    while moved < bytes.len() {
        let taken = feed_server(server, &bytes[moved..])?;
        if taken == 0 {
            return Ok(moved);
        }
        moved += taken;
    }
    Ok(moved)
}

/// Moves the first bytes of the server's output into the client, and returns how many: `n`, or
/// fewer if there are no more or the client is closed. Each reply goes into the record of its call.
///
/// # Errors
///
/// Returns `AllocError` if memory runs out. Some bytes may have been moved.
fn pass_down(
    client: &mut Client,
    server: &mut Server,
    indexes: &[usize],
    n: usize,
    calls: &mut [CallRecord],
) -> Result<usize, AllocError>
    requires { client.old.state ≡ ClientState.Open → client.old.reply ≡ None }
    ensures { DownEnd indexes.now client.old server.old (records_of calls.old) n client.new
        server.new (records_of calls.new) result }
{
    let mut moved = 0;
    while moved < n {
        let ClientState::Open = client.state() else {
            return Ok(moved);
        };
        let output = server.output();
        let piece = &output[..output.len().min(n - moved)];
        match feed_client(client, indexes, calls, piece) {
            Ok(0) => return Ok(moved),
            Ok(taken) => {
                server.sent(taken);
                moved += taken;
            }
            Err(taken) => {
                server.sent(taken);
                return Err(AllocError);
            }
        }
    }
    Ok(moved)
}

/// Feeds `piece` to a client. If that makes a reply ready, copies it into the record of its call
/// and releases it. Returns how many bytes the client took: at least one, unless `piece` is empty.
///
/// # Errors
///
/// Returns how many bytes were taken, if memory runs out. A reply that is ready stays ready.
fn feed_client(
    client: &mut Client,
    indexes: &[usize],
    calls: &mut [CallRecord],
    piece: &[u8],
) -> Result<usize, usize>
    requires may { MayTake client.old }
    requires between { IsOpen client.old.requests.limit client.old.held }
    ensures fed { MatchResult result
        (λ taken. FedClient indexes.now client.old (records_of calls.old) piece.now taken client.new
        (records_of calls.new))
        (λ taken. Unfed client.old piece.now taken client.new) }
    ensures unchanged { OnErr result (records_of calls.new ≡ records_of calls.old) }
{
    let Ok(taken) = client.feed(piece) else {
        return Err(0);
    };
    let Ok(()) = copy_reply(client, indexes, calls) else {
        return Err(taken);
    };
    client.release();
    Ok(taken)
}

/// Copies the reply that is ready, if one is, into the record of its call.
///
/// # Errors
///
/// Returns `AllocError` if memory runs out. Nothing changes then.
fn copy_reply(
    client: &Client,
    indexes: &[usize],
    calls: &mut [CallRecord],
) -> Result<(), AllocError>
    ensures copied { OnOk result
        (CopiesReply indexes.now client.now.held client.now.reply (records_of calls.old)
        (records_of calls.new)) }
    ensures unchanged { OnErr result (records_of calls.new ≡ records_of calls.old) }
    ensures ready { OnErr result (client.now.reply ≢ None) }
{
    let Some(reply) = client.reply() else {
        return Ok(());
    };
    let Some(index) = indexes.get(reply.call as usize) else {
        return Ok(());
    };
    let index = *index;
    if index >= calls.len() {
        return Ok(());
    }
    calls[index].give(reply.payload, reply.last)
}

/// Returns why the server closed, if it is open in the state `before` and closed in the state
/// `after`.
pub(crate) fn closed_now(before: ServerState, after: ServerState) -> Option<ServerCause>
    ensures { result ≡ closed_now before after }
{
    match (before, after) {
        (ServerState::Open, ServerState::Closed(cause)) => Some(cause),
        _ => None,
    }
}
