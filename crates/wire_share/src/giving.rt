//! Gives replies to clients.

ghost use Rattle.std.specs.Prelude.{◌≡◌, IfErr, List, OnOk};
ghost use Rattle.wire_msg.specs.{Message, SpellsMsg};
ghost use Rattle.wire_peer.specs.{LogEntry, WaitsAt};
ghost use Rattle.wire_peer.specs.declared.call_table.ReadyReply.{ReadyReply};
ghost use Rattle.wire_serve.specs.{state_of};
ghost use Rattle.wire_share.specs.Acts.{Gives};
ghost use Rattle.wire_share.specs.Sharing.{Awaits};
ghost use Rattle.wire_share.specs.Cores.{CoreDoes, Follows, Ran, Shares, command_of, core_seen};
ghost use Rattle.wire_share.specs.Refusing.{FollowFails, GiveFails};

use crate::client::Client;
use crate::need::command_in;
use crate::refusals::GiveRefusal;
use crate::routes::Routes;
use crate::server::Server;
use crate::state::State;
use wire_serve::ConnState;

/// Notes what the reply that is ready tells of cursors and transactions, if the client awaits it.
///
/// # Errors
///
/// Returns `NotAwaited` if it doesn't, or no request of it waits, `Closed` if the client is closed,
/// and `OutOfMemory` if memory runs out. Nothing is noted then, but where memory runs out.
fn follow(
    client: &Client,
    server: &Server,
    routes: &mut Routes,
    upstream: u64,
) -> Result<(), GiveRefusal>
    ensures noted { OnOk result ((m answer : Message)
        → WaitsAt client.now.downstream.conn.server 0 m
        → SpellsMsg answer server.now.upstream.client.held
        → Follows (command_of m) answer.content.body upstream routes.old routes.new) }
    ensures awaited { OnOk result ((reply : ReadyReply)
        × Awaits client.now.downstream server.now.upstream reply) }
    ensures is_open { OnOk result (state_of client.now.downstream.conn ≡ ConnState.Open) }
    ensures refused { IfErr result (λ refusal. FollowFails refusal client.now server.now
        routes.old routes.new) }
{
    let Some(reply) = server.upstream.reply() else {
        return Err(GiveRefusal::NotAwaited);
    };
    if !client.downstream.awaits(&server.upstream, reply) {
        return Err(GiveRefusal::NotAwaited);
    }
    if client.downstream.state() != ConnState::Open {
        return Err(GiveRefusal::Closed);
    }
    let Some(request) = client.downstream.request() else {
        return Err(GiveRefusal::NotAwaited);
    };
    let asked = command_in(request.payload.body());
    let told = reply.payload.body();
    match routes.answered(asked, told, upstream) {
        Ok(()) => Ok(()),
        Err(_) => Err(GiveRefusal::OutOfMemory),
    }
}

impl State {
    /// Gives the reply that a connection has ready to this client, if it awaits that.
    ///
    /// # Errors
    ///
    /// Returns `NotAwaited` if it doesn't, or one of both isn't there, `Closed` if the client is,
    /// and `OutOfMemory` if memory runs out. What the reply tells may be noted then.
    pub(crate) fn give(&mut self, upstream: u64, number: u64) -> Result<(), GiveRefusal>
        ensures run { Ran (core_seen self.old) (core_seen self.new) }
        ensures given { OnOk result ((m answer : Message) × (reply : ReadyReply)
            × (made : List LogEntry)
            × CoreDoes (Shares (Gives number upstream m reply answer made))
            (core_seen self.old) (core_seen self.new)) }
        ensures refused { IfErr result (λ refusal. GiveFails refusal number upstream
            (core_seen self.old) (core_seen self.new)) }
    {
        let Some(client) = self.downs.get_mut(&number) else {
            return Err(GiveRefusal::NotAwaited);
        };
        let Some(server) = self.ups.get_mut(&upstream) else {
            return Err(GiveRefusal::NotAwaited);
        };
        match follow(client, server, &mut self.routes, upstream) {
            Ok(()) => client.downstream.answer(&mut server.upstream),
            Err(refusal) => Err(refusal),
        }
    }
}
