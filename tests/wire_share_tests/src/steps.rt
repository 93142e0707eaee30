//! Steps that two clients and two connections to the server make, and what each has to come to.
//! Clients 0 and 1 are those of numbers 1 and 2, and connections 0 and 1 those of numbers 5 and 6.

ghost use Rattle.std.specs.Prelude.{◌<◌, ◌≤◌};

use std::alloc::Global;
use wire_peer::{CallRefusal, ClientState, ServerCause};
use wire_serve::{CloseCause, ConnState};
use wire_share::{Awaited, Downstream, GiveRefusal, PassRefusal, Upstream};

/// What a client and a connection do, and have to come to.
#[derive(Clone, Copy)]
pub(crate) enum Does<'a> {
    /// These bytes come from the client, which got all that was put out, and a request waits.
    Asks(&'a [u8]),
    /// The request is passed on.
    Passes,
    /// Passing on is refused, since no request waits.
    PassesNone,
    /// Passing on is refused, since the connection is closed.
    PassesInVain,
    /// These bytes are put out at the connection, and sent.
    Goes(&'a [u8]),
    /// So many calls await a reply.
    Owes(usize),
    /// The client awaits the reply to this call.
    Awaits(Awaited),
    /// The client and the connection have these numbers.
    AreNumbered(u64, u64),
    /// No request waits at the client, and it awaits no reply.
    IsFree,
    /// This message comes from the server, and a reply is ready.
    Replies(&'a [u8]),
    /// The reply answers the request.
    Answers,
    /// The client awaits another reply, and stays open.
    AwaitsAnother,
    /// These bytes are put out at the client.
    Gets(&'a [u8]),
    /// The client ends, and is closed for that.
    Leaves,
    /// The connection lets go of its reply and ends: it has none then, and is closed.
    Ends,
}

/// A step: the client, the connection, and what they do.
pub(crate) type Step<'a> = (usize, usize, Does<'a>);

/// Feeds all of these bytes to a client. Returns false if it takes less.
fn comes(client: &mut Downstream, bytes: &[u8]) -> bool {
    let mut rest = bytes;
    for _ in 0..bytes.len() {
        if rest.is_empty() {
            break;
        }
        match client.feed(rest) {
            Ok(n) if n > 0 => rest = &rest[n..],
            _ => return false,
        }
    }
    rest.is_empty()
}

/// Has a client get what was put out, and send these bytes.
fn asks(client: &mut Downstream, bytes: &[u8]) -> bool {
    let all = client.output().len();
    client.sent(all);
    client.is_ready() && comes(client, bytes) && client.request().is_some()
}

/// Passes on where no request waits.
fn passes_none(client: &mut Downstream, link: &mut Upstream) -> bool {
    matches!(client.pass_on(link), Err(PassRefusal::NothingWaits))
}

/// Passes on over a closed connection.
fn passes_in_vain(client: &mut Downstream, link: &mut Upstream) -> bool {
    matches!(
        client.pass_on(link),
        Err(PassRefusal::Call(CallRefusal::Closed))
    )
}

/// Sends all that was put out at a connection. Returns whether it is this.
fn goes(link: &mut Upstream, bytes: &[u8]) -> bool {
    let is = link.output() == bytes;
    let all = link.output().len();
    link.sent(all);
    is
}

/// Returns true if a client awaits the reply to this call.
fn awaits(client: &Downstream, call: Awaited) -> bool {
    match client.awaited() {
        Some(awaited) => awaited.upstream == call.upstream && awaited.call == call.call,
        None => false,
    }
}

/// Feeds a message to a connection.
fn replies(link: &mut Upstream, message: &[u8]) -> bool {
    match link.feed(message) {
        Ok(n) => n == message.len() && link.reply().is_some(),
        Err(_) => false,
    }
}

/// Answers a client that awaits another reply.
fn awaits_another(client: &mut Downstream, link: &mut Upstream) -> bool {
    matches!(client.answer(link), Err(GiveRefusal::NotAwaited))
        && matches!(client.state(), ConnState::Open)
}

/// Has a client end.
fn leaves(client: &mut Downstream) -> bool {
    client.end();
    matches!(
        client.state(),
        ConnState::Closed(CloseCause::Server(ServerCause::Ended))
    )
}

/// Has a connection let go of its reply and end.
fn ends(link: &mut Upstream) -> bool {
    link.release();
    link.end();
    link.reply().is_none() && !matches!(link.state(), ClientState::Open)
}

/// Returns true if a client and a connection do this, and it comes to what it has to.
fn holds(client: &mut Downstream, link: &mut Upstream, does: Does<'_>) -> bool {
    match does {
        Does::Asks(bytes) => asks(client, bytes),
        Does::Passes => client.pass_on(link).is_ok(),
        Does::PassesNone => passes_none(client, link),
        Does::PassesInVain => passes_in_vain(client, link),
        Does::Goes(bytes) => goes(link, bytes),
        Does::Owes(calls) => link.outstanding() == calls,
        Does::Awaits(call) => awaits(client, call),
        Does::AreNumbered(own, other) => client.connection() == own && link.number() == other,
        Does::IsFree => client.request().is_none() && client.awaited().is_none(),
        Does::Replies(message) => replies(link, message),
        Does::Answers => client.answer(link).is_ok(),
        Does::AwaitsAnother => awaits_another(client, link),
        Does::Gets(bytes) => client.output() == bytes,
        Does::Leaves => leaves(client),
        Does::Ends => ends(link),
    }
}

/// Returns true if these steps, one after another, come to what they have to.
fn all_hold(clients: &mut [Downstream; 2], links: &mut [Upstream; 2], steps: &[Step<'_>]) -> bool {
    for (client, link, does) in steps {
        let (Some(client), Some(link)) = (clients.get_mut(*client), links.get_mut(*link)) else {
            return false;
        };
        if !holds(client, link, *does) {
            return false;
        }
    }
    true
}

/// Returns true if the steps of these scripts, one after another, come to what they have to.
fn all_play(
    clients: &mut [Downstream; 2],
    links: &mut [Upstream; 2],
    scripts: &[&[Step<'_>]],
) -> bool {
    for steps in scripts {
        if !all_hold(clients, links, steps) {
            return false;
        }
    }
    true
}

/// Makes the clients. `None` if memory for them is refused.
fn two_clients(alloc: Global) -> Option<[Downstream; 2]> {
    let one = Downstream::new(alloc, 1).ok()?;
    let two = Downstream::new(alloc, 2).ok()?;
    Some([one, two])
}

/// Returns true if the steps of these scripts come to what they have to, with new clients and new
/// connections.
pub(crate) fn plays(alloc: Global, scripts: &[&[Step<'_>]]) -> bool {
    let Some(mut clients) = two_clients(alloc) else {
        return false;
    };
    let mut links = [Upstream::new(alloc, 5), Upstream::new(alloc, 6)];
    all_play(&mut clients, &mut links, scripts)
}
