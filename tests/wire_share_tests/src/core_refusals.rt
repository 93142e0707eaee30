//! A request that goes through a core where each allocation is refused in turn.

ghost use Rattle.std.specs.Prelude.{◌≤◌};

use crate::sharing::{ASKED_1, GIVEN_1, PASSED_1, REPLY_1};
use std::alloc::Global;
use wire_peer::{CallRefusal, ServerCause};
use wire_serve::{CloseCause, ConnState};
use wire_share::{Core, GiveRefusal, PassFault, PassRefusal, Place, Use};

/// Accepts a client, once more where memory was refused, which has to accept none.
fn accepts(core: &mut Core) -> Option<u64> {
    match core.accept() {
        Ok(number) => Some(number),
        Err(_) => core.accept().ok(),
    }
}

/// Opens a shared connection, once more where memory was refused, which has to open none.
fn opens(core: &mut Core) -> Option<u64> {
    match core.open(Use::Shared) {
        Ok(number) => Some(number),
        Err(_) => core.open(Use::Shared).ok(),
    }
}

/// Feeds a request, and feeds on where memory was refused, which has to take nothing.
fn comes(core: &mut Core, client: u64) -> bool {
    let mut taken = 0;
    for _ in 0..4 {
        if let Some(rest) = ASKED_1.get(taken..) {
            taken += core.take(client, rest).unwrap_or(0);
        }
    }
    matches!(core.place(client, None), Some(Place::New(Use::Shared)))
}

/// Passes the request on, once more where memory was refused, which has to put nothing out.
fn passes(core: &mut Core, client: u64, server: u64) -> bool {
    match core.pass(client, server) {
        Ok(()) => true,
        Err(PassFault::Refused(PassRefusal::Call(CallRefusal::OutOfMemory))) => {
            core.server_output(server).is_empty() && core.pass(client, server).is_ok()
        }
        Err(_) => false,
    }
}

/// Feeds the reply, and feeds it again where memory was refused, which has to take nothing.
fn replies(core: &mut Core, server: u64) -> bool {
    core.take_up(server, REPLY_1).is_ok() || core.take_up(server, REPLY_1) == Ok(33)
}

/// Gives the reply, once more where memory was refused, which has to leave the reply.
fn gives(core: &mut Core, client: u64, server: u64) -> bool {
    match core.give(server, client) {
        Ok(()) => true,
        Err(GiveRefusal::OutOfMemory) => core.give(server, client) == Ok(()),
        Err(_) => false,
    }
}

/// Returns true if the client is closed since memory ran out for its reply.
fn wants_memory(core: &Core, client: u64) -> bool {
    match core.client(client) {
        Some(client) => {
            client.state() == ConnState::Closed(CloseCause::Server(ServerCause::NoMemory))
        }
        None => false,
    }
}

/// Returns whether a request is answered; none if memory for its reply was refused. Where nothing
/// changed by a refusal the same is done again.
fn is_answered(alloc: Global) -> Option<bool> {
    let mut core = Core::new(alloc);
    let client = accepts(&mut core)?;
    let server = opens(&mut core)?;
    let given = comes(&mut core, client)
        && passes(&mut core, client, server)
        && core.server_output(server) == PASSED_1
        && replies(&mut core, server)
        && gives(&mut core, client, server);
    if wants_memory(&core, client) {
        return None;
    }
    Some(given && core.output(client) == GIVEN_1)
}

/// Returns true if the request is answered behind a refused allocation, at the second try at last.
fn goes_on(alloc: Global) -> bool {
    match is_answered(alloc) {
        Some(holds) => holds,
        None => is_answered(alloc) == Some(true),
    }
}

#[test]
fn a_refused_allocation_loses_no_client(rt: HostRuntime) {
    assert!(rt; goes_on(rt.alloc()));
}
