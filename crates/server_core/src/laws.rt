//! The law of the transcript. The contract of a function is the law.

ghost use Rattle.std.specs.Prelude.{List, ℕ};
ghost use Rattle.slab.specs.Slab.{Slab};
ghost use Rattle.script_rules.specs.{RuleView};
ghost use Rattle.wire_peer.specs.declared.log.Logged.{Logged};
ghost use Rattle.wire_serve.specs.{SlotSeen, conns_seen, tells};
ghost use Rattle.server_core.specs.Serving.{Serves};
ghost use Rattle.server_core.specs.Written.{IsTranscript};

use wire_peer::Handler;
use wire_serve::Gated;
use wire_serve::owner_laws::connections_own_servers;

/// Proves that what a server wrote is the transcript of what it did with its connections: acts of an
/// owner of servers, whose log is one run of the handler.
pub fn what_is_written_was_done<L: Gated, H: Handler>()
    ensures { (first : H) (script : List RuleView) (ended : ℕ) (slots : Slab (SlotSeen L))
        (logged : Logged H) (next : ℕ) (rules : List RuleView) (text : List ℕ)
        → Serves H.does H.stops (tells L.received L.sent L.ends L.waits L.failures) L.gate first
        script ended slots logged next rules text
        → IsTranscript H.does H.stops (tells L.received L.sent L.ends L.waits L.failures) first
        (conns_seen slots logged next) text }
{
    connections_own_servers::<L, H>();
}
