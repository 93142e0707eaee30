//! Serves many connections in one thread.

ghost use Rattle.std.specs.Prelude.{◌≡◌, OnOk};
ghost use Rattle.slab.specs.Slab.{get};
ghost use Rattle.bsonserver.specs.Runs.{GoesOnServing, HasBegun};
ghost use Rattle.bsonserver.specs.Turning.{held_for, if_over};
ghost use Rattle.server_core.specs.{reply_flow};

use crate::edge_triggered::EdgeTriggered;
use crate::event_loop::{EventLoop, ROOM};
use crate::scripts::Scripts;
use mio::net::TcpStream;
use mio::{Events, Token};
use script_rules::{Flow, Scripted};
use server_core::{ANSWER_STEPS, Output, ReplyRules, STEPS, Serving, Stop};
use sockets::{ACCEPTS, LISTENER, STDIN};
use std::alloc::Global;
use std::io::Write;
use std::time::Clock;
use test_store::Store;
use wire_serve::{GatedLink, Turned};
use wire_stream::TcpLink;

/// The link of a connection: a gate before a socket.
pub type Socket = GatedLink<TcpLink<EdgeTriggered<TcpStream>>>;

/// The connections of the program: over sockets, by the rules of a script before a store.
pub type Connected = Serving<Socket, Scripted<Store>>;

/// Begins without connections, with the rules of the script before a store without documents. Those
/// of `replies`, which are the same, say what becomes of replies.
pub fn begin(alloc: Global, scripts: Scripts) -> Connected
    ensures { HasBegun scripts.script.rules.items scripts.replies.rules.items result }
{
    let Scripts { script, replies } = scripts;
    let store = Store::new(alloc);
    let handler = Scripted::new(alloc, script, store);
    let replies = ReplyRules::new(alloc, replies);
    Serving::new(alloc, handler, replies)
}

/// Returns what a turn came to, if the connection is over.
fn if_over(turned: Option<Turned>) -> Option<Turned>
    ensures { result ≡ if_over turned }
{
    match turned {
        Some(Turned::Over(leave)) => Some(Turned::Over(leave)),
        Some(Turned::Again | Turned::Waits) | None => None,
    }
}

/// Accepts a connection and opens it, if one waits and one more is wanted.
fn accept_one<W: Write>(
    event_loop: &mut EventLoop,
    serving: &mut Connected,
    out: &mut W,
) -> Result<(), Stop>
    ensures { OnOk result (GoesOnServing serving.old serving.new
        (W.contents out.old) (W.contents out.new)) }
{
    match event_loop.accept(serving.len() < ROOM, serving.next_key())? {
        Some(stream) => serving.open(GatedLink::new(TcpLink::new(stream)), out),
        None => Ok(()),
    }
}

/// Accepts connections, until none waits, and no more than `ACCEPTS`.
fn accept_some<W: Write>(
    event_loop: &mut EventLoop,
    serving: &mut Connected,
    out: &mut W,
) -> Result<(), Stop>
    ensures { OnOk result (GoesOnServing serving.old serving.new
        (W.contents out.old) (W.contents out.new)) }
{
    for _ in 0..ACCEPTS {
        if !event_loop.is_ready() {
            break;
        }
        accept_one(event_loop, serving, out)?;
    }
    Ok(())
}

/// Returns for how many milliseconds the reply is held that a connection put out in its last turn,
/// which came to `turned`, if it goes on and put out one that is to be held.
fn held(serving: &Connected, key: usize, turned: Option<Turned>) -> Option<u64>
    ensures { result ≡ held_for turned
        (reply_flow (get serving.now.conns.slots key) serving.now.replies.flow) }
{
    match turned {
        Some(Turned::Again | Turned::Waits) => match serving.flow(key) {
            Some(Flow::Held(millis)) => Some(millis),
            _ => None,
        },
        Some(Turned::Over(_)) | None => None,
    }
}

/// Has a connection take a turn of one step, and holds its reply, if that is to be held. Returns what
/// the turn came to, or `None` if there is no such connection.
fn take_step<W: Output>(
    clock: &impl Clock,
    event_loop: &mut EventLoop,
    serving: &mut Connected,
    key: usize,
    out: &mut W,
) -> Result<Option<Turned>, Stop>
    ensures { OnOk result (GoesOnServing serving.old serving.new
        (W.contents out.old) (W.contents out.new)) }
{
    let turned = serving.turn(key, 1, out)?;
    if let Some(millis) = held(serving, key, turned) {
        event_loop.hold(clock, key, millis)?;
    }
    Ok(turned)
}

/// Has a connection take a turn, in one step after another. While its reply is held, it takes none.
fn take_steps<W: Output>(
    clock: &impl Clock,
    event_loop: &mut EventLoop,
    serving: &mut Connected,
    key: usize,
    out: &mut W,
) -> Result<(), Stop>
    ensures { OnOk result (GoesOnServing serving.old serving.new
        (W.contents out.old) (W.contents out.new)) }
{
    for _ in 0..STEPS {
        if event_loop.holds(key) {
            return Ok(());
        }
        let turned = take_step(clock, event_loop, serving, key, out)?;
        if turned != Some(Turned::Again) {
            return event_loop.after_turn(key, turned);
        }
    }
    event_loop.take_up(key)
}

/// Has a connection take a turn of many steps. Returns why the server stops, if it does.
fn take_whole<W: Output>(
    event_loop: &mut EventLoop,
    serving: &mut Connected,
    key: usize,
    out: &mut W,
) -> Result<(), Stop>
    ensures { OnOk result (GoesOnServing serving.old serving.new
        (W.contents out.old) (W.contents out.new)) }
{
    let turned = serving.turn(key, STEPS, out)?;
    event_loop.after_turn(key, turned)
}

/// Has a connection take a turn. Returns why the server stops, if it does.
fn take_turn<W: Output>(
    clock: &impl Clock,
    event_loop: &mut EventLoop,
    serving: &mut Connected,
    key: usize,
    out: &mut W,
) -> Result<(), Stop>
    ensures { OnOk result (GoesOnServing serving.old serving.new
        (W.contents out.old) (W.contents out.new)) }
{
    if serving.has_no_rules() {
        take_whole(event_loop, serving, key, out)
    } else {
        take_steps(clock, event_loop, serving, key, out)
    }
}

/// Has each connection that isn't done take another turn.
fn take_up_turns<W: Output>(
    clock: &impl Clock,
    event_loop: &mut EventLoop,
    serving: &mut Connected,
    out: &mut W,
) -> Result<(), Stop>
    ensures { OnOk result (GoesOnServing serving.old serving.new
        (W.contents out.old) (W.contents out.new)) }
{
    for _ in 0..event_loop.due() {
        if let Some(key) = event_loop.resume_turn() {
            take_turn(clock, event_loop, serving, key, out)?;
        }
    }
    Ok(())
}

/// Has a connection receive and answer a request, before it sends the reply. Returns why the server
/// stops, if it does.
fn answer_one<W: Output>(
    event_loop: &mut EventLoop,
    serving: &mut Connected,
    key: usize,
    out: &mut W,
) -> Result<(), Stop>
    ensures { OnOk result (GoesOnServing serving.old serving.new
        (W.contents out.old) (W.contents out.new)) }
{
    let turned = serving.turn(key, ANSWER_STEPS, out)?;
    event_loop.after_turn(key, if_over(turned))
}

/// Has each connection of which these events are receive and answer a request, before it sends the
/// reply.
fn answer_each<W: Output>(
    event_loop: &mut EventLoop,
    serving: &mut Connected,
    events: &Events<Global>,
    out: &mut W,
) -> Result<(), Stop>
    ensures { OnOk result (GoesOnServing serving.old serving.new
        (W.contents out.old) (W.contents out.new)) }
{
    for event in events.iter() {
        match event.token() {
            LISTENER | STDIN => {}
            Token(key) => {
                event_loop.begin_turn(event);
                answer_one(event_loop, serving, key, out)?;
            }
        }
    }
    Ok(())
}

/// Has each connection of which these events are take a turn, and notes that others may wait.
fn finish_each<W: Output>(
    clock: &impl Clock,
    event_loop: &mut EventLoop,
    serving: &mut Connected,
    events: &Events<Global>,
    out: &mut W,
) -> Result<(), Stop>
    ensures { OnOk result (GoesOnServing serving.old serving.new
        (W.contents out.old) (W.contents out.new)) }
{
    for event in events.iter() {
        match event.token() {
            LISTENER => event_loop.resume(),
            STDIN => {}
            Token(key) => {
                event_loop.begin_turn(event);
                take_turn(clock, event_loop, serving, key, out)?;
            }
        }
    }
    Ok(())
}

/// Has each connection of which these events are take a turn. Without rules all of them answer
/// before any sends its reply, so that replies go one right after another: a client of many connections
/// is then woken for the first, and not for each.
fn take_turns<W: Output>(
    clock: &impl Clock,
    event_loop: &mut EventLoop,
    serving: &mut Connected,
    events: &Events<Global>,
    out: &mut W,
) -> Result<(), Stop>
    ensures { OnOk result (GoesOnServing serving.old serving.new
        (W.contents out.old) (W.contents out.new)) }
{
    event_loop.count();
    if serving.has_no_rules() {
        answer_each(event_loop, serving, events, out)?;
        finish_each(clock, event_loop, serving, events, out)?;
        Ok(())
    } else {
        finish_each(clock, event_loop, serving, events, out)
    }
}

/// Waits for events, and serves the connections that they are of.
pub fn serve_some<R: Clock + Eprint, W: Output>(
    rt: &R,
    event_loop: &mut EventLoop,
    serving: &mut Connected,
    events: &mut Events<Global>,
    out: &mut W,
) -> Result<(), Stop>
    ensures { OnOk result (GoesOnServing serving.old serving.new
        (W.contents out.old) (W.contents out.new)) }
{
    out.flush().map_err(Stop::Output)?;
    event_loop.wait(rt, events)?;
    take_up_turns(rt, event_loop, serving, out)?;
    take_turns(rt, event_loop, serving, events, out)?;
    accept_some(event_loop, serving, out)?;
    Ok(())
}
