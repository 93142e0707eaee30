//! A test of keys that are due where memory is refused. `scripts/checks/try-refusals` runs it with
//! each of its allocations refused in turn. Only one is refused in a run, so a second try succeeds.

use sockets::Due;
use std::alloc::Global;

/// Notes a key, at the second try if memory runs out. Returns true if it is the last one then.
fn is_noted_at_last(due: &mut Due, key: usize) -> bool {
    let before = due.len();
    if due.push(key).is_err() && (due.len() != before || due.push(key).is_err()) {
        return false;
    }
    due.len() == before + 1 && due.push(key).is_ok() && due.len() == before + 1
}

/// Makes a list with this room, at the second try if memory runs out.
fn made_at_last(alloc: Global, room: usize) -> Option<Due> {
    match Due::with_room(alloc, room) {
        Ok(due) => Some(due),
        Err(_) => Due::with_room(alloc, room).ok(),
    }
}

/// Returns true if a list with this room takes two keys, each once, and gives them in order.
fn gives_two(alloc: Global, room: usize) -> bool {
    let Some(mut due) = made_at_last(alloc, room) else {
        return false;
    };
    let noted = is_noted_at_last(&mut due, 7) && is_noted_at_last(&mut due, 3);
    noted && due.pop() == Some(7) && due.pop() == Some(3) && due.is_empty()
}

#[test]
fn what_is_due_is_given_in_order(rt: HostRuntime) {
    assert!(rt; gives_two(rt.alloc(), 0));
    assert!(rt; gives_two(rt.alloc(), 2));
}
