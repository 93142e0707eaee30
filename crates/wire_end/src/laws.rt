//! The laws of ends. The contract of a function is the law.

ghost use Rattle.std.specs.Prelude.{◌≡◌, ◌++◌, [], ℕ, ℤ, List, length, suc};
ghost use Rattle.wire_peer.specs.{IsLimit, log_of, new_client, new_server};
ghost use Rattle.wire_peer.specs.declared.log.Logged.{Logged as LoggedBy};
ghost use Rattle.wire_model.specs.{AreMade, Arrive, ClientAct, Deed, HoldsAlone, Made, OwnersKnow};
ghost use Rattle.wire_model.specs.{ServerAct, ServerEnds, ServersGrow, Turn, acts_at, among};
ghost use Rattle.wire_model.specs.{deeds_of, first_servers_of, opened_in, served_turns, server_set};
ghost use Rattle.wire_model.specs.{server_turns};
ghost use Rattle.wire_model.specs.Deeds.{opened};
ghost use Rattle.wire_end.specs.Ends.{EndRuns, EndSeen, first_client, new_end};
ghost use Rattle.wire_end.specs.OnePair.{AreAnswered, AreInOrder, PairKnows};
ghost use Rattle.wire_end.specs.ServerEnds.{ServerEndMoves, ServerEndRuns, ServerEndSeen};
ghost use Rattle.wire_end.specs.ServerEnds.{new_server_end, with_logged};

use wire_model::pair_laws::a_client_holds_alone;
use wire_peer::Handler;
use wire_stream::Link;

/// Proves that what an end did, and then did from there on, is what it did.
pub fn ends_go_on<L: Link>()
    ensures { (old mid new : EndSeen L) (acts more : List ClientAct)
        → EndRuns L.sent L.received old acts mid → EndRuns L.sent L.received mid more new
        → EndRuns L.sent L.received old (acts ++ more) new }
{}

/// Proves what holds of a client that is kept at an end, whoever answers it, with any bytes.
///
/// What it took of those that came over its link splits into messages and a rest, in exactly one
/// way. The replies that the end handed out, and the one that is ready, are these messages in order,
/// each once, each to the call that owns it, and none after a call's last one; only a message that
/// closes the client is no reply. The records have the contents of those that were handed out.
pub fn an_end_holds_alone<L: Link>()
    ensures { (connection limit window : ℕ) (first_id : ℤ) (link : L) (acts : List ClientAct)
        (new : EndSeen L)
        → EndRuns L.sent L.received
        (new_end connection (new_client first_id window limit) link) acts new
        → HoldsAlone limit acts new.own }
{
    a_client_holds_alone();
}

/// Proves that what the end of a server did with a handler and its log, and then did from there
/// on, is what it did.
pub fn server_ends_go_on<L: Link, H: Handler>()
    ensures { (old mid new : ServerEndSeen L) (a b c : LoggedBy H) (acts more : List ServerAct)
        → ServerEndRuns H.does H.stops L.sent L.received old a acts mid b
        → ServerEndRuns H.does H.stops L.sent L.received mid b more new c
        → ServerEndRuns H.does H.stops L.sent L.received old a (acts ++ more) new c }
{}

/// Proves that what the end of a server did without an answer is a run with any handler and its
/// log, which stay.
pub fn moves_are_runs<L: Link, H: Handler>()
    ensures { (old new : ServerEndSeen L) (acts : List ServerAct) (logged : LoggedBy H)
        → ServerEndMoves L.sent L.received old acts new
        → ServerEndRuns H.does H.stops L.sent L.received old logged acts new logged }
{}

/// Proves that where servers were made, and something was done with them, and one more is made with
/// the log and the handler that they left, at whose end these acts are done, all of that is what an
/// owner does who makes servers one after the other.
pub fn one_more_is_served<L: Link, H: Handler>()
    ensures { (limit : ℕ) (made : ℕ → Made) (turns : List Turn) (acts : List ServerAct)
        (old mid : ServerEnds H) (link : L) (new : ServerEndSeen L) (from to : LoggedBy H)
        → ServersGrow H.does H.stops limit made old turns mid
        → mid.log ≡ log_of from.entries.items → mid.handler ≡ from.handler
        → let c = suc (length mid.servers) in
        ServerEndRuns H.does H.stops L.sent L.received
        (new_server_end (new_server c (made c).server_window limit) link) from acts new to
        → ServersGrow H.does H.stops limit made old (turns ++ served_turns c acts)
        (among (server_set (opened limit made mid).servers c new.server)
        (with_logged new.server to)) }
{}

/// Proves the headline of programs. Each client is kept at an end, over a link of its own; servers
/// come one after the other, and what is done with them is what their owner tells. Where the acts
/// of all can be put into one order in which bytes arrive in order, the records that the clients'
/// ends have keep the headline, over the log of the servers.
pub fn programs_know<L: Link, H: Handler>()
    ensures { (limit : ℕ) (first : H) (made : ℕ → Made) (turns : List Turn) (links : ℕ → L)
        (clients : ℕ → EndSeen L) (servers : ServerEnds H)
        → IsLimit limit → AreMade made
        → ((c : ℕ) → EndRuns L.sent L.received (first_client limit made c (links c))
        (acts_at c (deeds_of turns)) (clients c))
        → ServersGrow H.does H.stops limit made (first_servers_of limit made 0 first)
        (server_turns turns) servers
        → Arrive (λ _. []) (λ _. []) (deeds_of turns)
        → OwnersKnow H.does H.stops (opened_in turns) first (deeds_of turns)
        (λ c. (clients c).own) servers }
{}

/// Proves the headline of one client and one server, each kept at an end over a link of its own.
/// Where the log is empty at first, and the acts of both can be put into one order in which bytes
/// arrive in order, the records of the client's end keep the headline, over the log of the server's
/// handler. So each call that is
/// done has an entry of its own, with its payload, and holds exactly the answers of that.
pub fn one_pair_knows<L: Link, H: Handler>()
    ensures { (limit : ℕ) (made : Made) (near far : L) (acts : List ClientAct)
        (served : List ServerAct) (client : EndSeen L) (server : ServerEndSeen L)
        (from to : LoggedBy H) (deeds : List Deed)
        → IsLimit limit → AreMade (λ _. made) → log_of from.entries.items ≡ []
        → EndRuns L.sent L.received (first_client limit (λ _. made) 1 near) acts client
        → ServerEndRuns H.does H.stops L.sent L.received
        (new_server_end (new_server 1 made.server_window limit) far) from served server to
        → AreInOrder acts served deeds → Arrive (λ _. []) (λ _. []) deeds
        → PairKnows H.does H.stops limit made from.handler deeds client.own
        (with_logged server.server to)
        × AreAnswered client.own.records (log_of to.entries.items) }
{}
