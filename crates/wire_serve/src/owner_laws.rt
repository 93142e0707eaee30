//! The laws of connections. The contract of a function is the law.

ghost use Rattle.std.specs.Prelude.{◌≡◌, Bool, List, [], false, ℕ};
ghost use Rattle.wire_model.specs.{AreMade, Arrive, ClientEnd, ClientRun, Made, PairsKnow, Turn};
ghost use Rattle.wire_model.specs.{acts_at, deeds_beside, deeds_of, first_end, opened_in};
ghost use Rattle.wire_model.specs.{server_turns};
ghost use Rattle.wire_msg.specs.declared.header.TheConstants.{MAX_MESSAGE_LEN};
ghost use Rattle.wire_serve.specs.Connections.{AreNewConns, ConnsAct, ConnsRun, ConnsSeen};
ghost use Rattle.wire_serve.specs.Slots.{tells};
ghost use Rattle.wire_serve.specs.Owning.{OwnsServers};

use wire_model::pair_laws::{servers_may_come, strangers_disturb_none};
use wire_peer::Handler;
use wire_stream::Link;

/// Proves that whatever is done with connections, in any order, and whatever its links do, is what
/// an owner of servers does who makes them as connections come. So `wire_model::pair_laws` hold of
/// its connections, and its log is one run of the handler.
pub fn connections_own_servers<L: Link, H: Handler>()
    ensures { (made : ℕ → Made) (first : H) (acts : List (ConnsAct L)) (old new : ConnsSeen H L)
        → ((c : ℕ) → (made c).server_window ≡ 1) → AreNewConns first old
        → ConnsRun H.does H.stops (tells L.received L.sent L.ends L.waits L.failures) old acts new
        → OwnsServers H.does H.stops (tells L.received L.sent L.ends L.waits L.failures)
        made first acts new }
{}

/// Proves that the clients of connections know what their calls got, whoever else is connected.
///
/// Strangers are connections whose client ends may be anything. Where the acts of the other clients
/// can be put among what was done with the servers, in one order in which bytes arrive in order,
/// the records of these clients keep the headline, over the entries that were forgotten and then
/// those that are there, without those of strangers.
pub fn clients_know<L: Link, H: Handler>()
    ensures { (made : ℕ → Made) (first : H) (acts : List (ConnsAct L)) (conns : ConnsSeen H L)
        (owned : OwnsServers H.does H.stops (tells L.received L.sent L.ends L.waits L.failures)
        made first acts conns) (strange : ℕ → Bool) (turns : List Turn) (ends : ℕ → ClientEnd)
        → AreMade made → server_turns turns ≡ server_turns owned.turns
        → ((c : ℕ) → strange c ≡ false
        → ClientRun c (first_end MAX_MESSAGE_LEN made c) (acts_at c (deeds_of turns)) (ends c))
        → Arrive (λ _. []) (λ _. []) (deeds_beside strange (deeds_of turns))
        → PairsKnow H.does H.stops strange (opened_in turns) first (deeds_of turns) ends
        owned.servers }
{
    servers_may_come::<H>();
    strangers_disturb_none::<H>();
}
