//! The law of slots. The contract of the function is the law.

ghost use Rattle.std.specs.Prelude.{List, ℕ};
ghost use Rattle.wire_serve.specs.Slots.{SlotAct, SlotSeen, SlotTurns, new_slot, tells};
ghost use Rattle.wire_serve.specs.Serving.{SlotServed, made_by, of_turns, received_by, sent_by};

use wire_peer::Handler;
use wire_stream::Link;

/// Proves that a connection's requests are answered in order, each once, and that what is put out
/// for it are their replies, whatever others do between its turns.
pub fn connections_are_served_in_order<L: Link, H: Handler>()
    ensures { (connection : ℕ) (link : L) (turns : List (List SlotAct)) (now : SlotSeen L)
        → SlotTurns H.does H.stops (tells L.received L.sent L.ends L.waits L.failures)
        (new_slot connection link) turns now
        → SlotServed (tells L.received L.sent L.ends L.waits L.failures) connection link
        (of_turns received_by turns) (of_turns made_by turns) (of_turns sent_by turns) now }
{}
