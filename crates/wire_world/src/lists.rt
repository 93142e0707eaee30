//! Finds connections by their numbers, and changes lists of connections and of records.

ghost use Rattle.std.specs.Prelude.{◌≡◌, map, option_map};
ghost use Rattle.wire_model.specs.{all_cut, conn_at, cut_at, restarted, settled_record};
ghost use Rattle.wire_world.specs.Records.{record_of};

use crate::connections::Connection;
use crate::records::CallRecord;
use std::collections::VecDeque;

/// Returns the connection of this number, counted from 1, if there is one.
pub(crate) fn connection_at(connections: &[Connection], number: u64) -> Option<&Connection>
    ensures { option_map (λ k. k.now) result ≡ conn_at connections.now number }
{
    if number == 0 {
        return None;
    }
    connections.get((number - 1) as usize)
}

/// Cuts both ways of the connection of this number, if there is one.
pub(crate) fn cut_at(connections: &mut [Connection], number: u64)
    ensures { connections.new ≡ cut_at number connections.old }
{
    if number == 0 || number as usize > connections.len() {
        return;
    }
    let connection = &mut connections[(number - 1) as usize];
    connection.cut_both();
}

/// Cuts both ways of each connection of these numbers.
pub(crate) fn cut_all(connections: &mut [Connection], numbers: &VecDeque<u64>)
    ensures { connections.new ≡ all_cut numbers.now.items connections.old }
{
    for number in numbers.iter() {
        cut_at(connections, *number);
    }
}

/// Cuts the way down of each connection, unless it is cut or the connection is raw.
pub(crate) fn restart_all(connections: &mut [Connection])
    ensures { connections.new ≡ map restarted connections.old }
{
    for connection in connections.iter_mut() {
        connection.restart();
    }
}

/// Marks the call as lost, if it is pending and its client is closed.
fn settle_one(call: &mut CallRecord, connections: &[Connection])
    ensures { record_of call.new ≡ settled_record connections.now (record_of call.old) }
{
    if let Some(connection) = connection_at(connections, call.connection)
        && connection.is_closed()
    {
        call.lose();
    }
}

/// Marks each pending call whose client is closed as lost.
pub(crate) fn settle(calls: &mut [CallRecord], connections: &[Connection])
    ensures { map record_of calls.new
        ≡ map (settled_record connections.now) (map record_of calls.old) }
{
    for call in calls.iter_mut() {
        settle_one(call, connections);
    }
}
