//! Proves the laws of pairs. The contract of each function is the law.

ghost use Rattle.std.specs.Prelude.{◌≡◌, ◌≤◌, [], ◌++◌, ℕ, ℤ, Bool, false, length, List, Some, suc};
ghost use Rattle.bson_elem.specs.{IsBytes};
ghost use Rattle.wire_msg.specs.{message_len};
ghost use Rattle.wire_msg.specs.declared.payloads.Payload.{Payload as Carried};
ghost use Rattle.wire_peer.specs.{IsLimit, LogEntry, ServerView, content_of, new_client};
ghost use Rattle.wire_peer.specs.{new_server};
ghost use Rattle.wire_model.specs.Alone.{HoldsAlone};
ghost use Rattle.wire_model.specs.Channels.{Pair, Step, System, Trace, no_pairs, pair_at};
ghost use Rattle.wire_model.specs.Deeds.{Arrive, Common, Deed, ServersGrow, ServersRun, Turn};
ghost use Rattle.wire_model.specs.Deeds.{acts_at, at_server, deeds_of, opened, opened_in};
ghost use Rattle.wire_model.specs.Deeds.{served_turns, server_acts_at};
ghost use Rattle.wire_model.specs.Owners.{AreMade, ClientAct, ClientEnd, ClientRun, Made};
ghost use Rattle.wire_model.specs.Owners.{ServerAct, ServerEnd, ServerEnds, ServerMovesOn};
ghost use Rattle.wire_model.specs.Owners.{ServerRun, among, bytes_sent, bytes_sent_down};
ghost use Rattle.wire_model.specs.Owners.{bytes_taken, bytes_taken_up, first_end, first_servers_of};
ghost use Rattle.wire_model.specs.Owners.{server_at, server_set};
ghost use Rattle.wire_model.specs.Knowing.{OwnersKnow};
ghost use Rattle.wire_model.specs.Limits.{servers_with_limits};
ghost use Rattle.wire_model.specs.Seen.{Channelled, IsQuietPair};
ghost use Rattle.wire_model.specs.Strangers.{OwnEntries, PairsKnow, deeds_beside};
ghost use Rattle.wire_model.specs.Witness.{GetDone};
ghost use Rattle.wire_model.specs.Work.{CanGoOn, Falls, IsLive, IsWork};

use wire_peer::Handler;

/// Proves that the other laws speak of something: for any payload whose message is within the limit
/// there is a run in which a plain call and an exhaust call with two replies get done, and an
/// unacknowledged call is sent.
pub fn calls_get_done()
    ensures { (limit : ℕ) (payload : Carried) → IsLimit limit
        → message_len (content_of payload) ≤ limit → ∥ GetDone limit payload ∥₁ }
{}

/// Proves that whatever public calls are made at the ends of pairs, and however many of the bytes
/// in flight arrive, the headline holds.
pub fn channels_hold<H: Handler>()
    ensures { (limit : ℕ) (first : H) (s : System H)
        → IsLimit limit → Trace H.does H.stops limit (no_pairs first) s
        → Channelled H.does H.stops first s }
{}

/// Proves that the owners of clients and the owner of their servers have one run of pairs in
/// common, if there is an order of all that they did in which each end takes the first bytes in
/// flight to it.
pub fn halves_meet<H: Handler>()
    ensures { (limit k : ℕ) (first : H) (made : ℕ → Made) (deeds : List Deed)
        (ends : ℕ → ClientEnd) (servers : ServerEnds H)
        → IsLimit limit → AreMade made
        → ((c : ℕ) → ClientRun c (first_end limit made c) (acts_at c deeds) (ends c))
        → ServersRun H.does H.stops (first_servers_of limit made k first) deeds servers
        → Arrive (λ _. []) (λ _. []) deeds
        → Common H.does H.stops limit k first ends servers }
{}

/// Proves that after all that the owners did the headline holds of the records that the owners of
/// the clients have, with the log of the servers, and that on a connection whose ends are quiet
/// every acknowledged call is done.
pub fn owners_know<H: Handler>()
    ensures { (limit k : ℕ) (first : H) (made : ℕ → Made) (deeds : List Deed)
        (ends : ℕ → ClientEnd) (servers : ServerEnds H)
        → IsLimit limit → AreMade made
        → ((c : ℕ) → ClientRun c (first_end limit made c) (acts_at c deeds) (ends c))
        → ServersRun H.does H.stops (first_servers_of limit made k first) deeds servers
        → Arrive (λ _. []) (λ _. []) deeds
        → OwnersKnow H.does H.stops k first deeds ends servers }
{}

/// Proves that a run of a client's owner, and one that goes on from where it ended, are one run,
/// which sends and takes the bytes of both.
pub fn runs_go_on()
    ensures { (c : ℕ) (acts more : List ClientAct) (old mid new : ClientEnd)
        → ClientRun c old acts mid → ClientRun c mid more new
        → ClientRun c old (acts ++ more) new
        × (bytes_sent (acts ++ more) ≡ bytes_sent acts ++ bytes_sent more)
        × (bytes_taken (acts ++ more) ≡ bytes_taken acts ++ bytes_taken more) }
{}

/// Proves that a run of the servers' owner, and one that goes on from where it ended, are one run.
pub fn servers_go_on<H: Handler>()
    ensures { (deeds more : List Deed) (old mid new : ServerEnds H)
        → ServersRun H.does H.stops old deeds mid → ServersRun H.does H.stops mid more new
        → ServersRun H.does H.stops old (deeds ++ more) new }
{}

/// Proves that what is done with one server, and then from there on, is one run, and so are the
/// bytes.
pub fn a_server_goes_on<H: Handler>()
    ensures { (acts more : List ServerAct) (old mid new : ServerEnd H)
        → ServerRun H.does H.stops old acts mid → ServerRun H.does H.stops mid more new
        → ServerRun H.does H.stops old (acts ++ more) new
        × (bytes_sent_down (acts ++ more) ≡ bytes_sent_down acts ++ bytes_sent_down more)
        × (bytes_taken_up (acts ++ more) ≡ bytes_taken_up acts ++ bytes_taken_up more) }
{}

/// Proves that what a server does by itself is a run with any handler and any log, which stay.
pub fn moves_ask_nobody<H: Handler>()
    ensures { (acts : List ServerAct) (old new : ServerView) (log : List LogEntry) (handler : H)
        → ServerMovesOn old acts new
        → ServerRun H.does H.stops (record { server = old; log = log; handler = handler }) acts
        (record { server = new; log = log; handler = handler }) }
{}

/// Proves that what is done with one server is done with the servers that it is one of, and that
/// the others stay.
pub fn a_server_is_one_of_many<H: Handler>()
    ensures { (c : ℕ) (acts : List ServerAct) (servers : List ServerView) (old new : ServerEnd H)
        → server_at servers c ≡ Some old.server → ServerRun H.does H.stops old acts new
        → ServersRun H.does H.stops (among servers old) (at_server c acts)
        (among (server_set servers c new.server) new) }
{}

/// Proves that where the owner of the servers made some, and did what it did, and then makes one
/// more and does these acts with it, all of that is what an owner does who makes them one after the
/// other.
pub fn one_more_is_served<H: Handler>()
    ensures { (limit : ℕ) (made : ℕ → Made) (turns : List Turn) (acts : List ServerAct)
        (old mid : ServerEnds H) (new : ServerEnd H)
        → ServersGrow H.does H.stops limit made old turns mid
        → let c = suc (length mid.servers) in
        ServerRun H.does H.stops (record {
          server = new_server c (made c).server_window limit;
          log = mid.log;
          handler = mid.handler;
        }) acts new
        → ServersGrow H.does H.stops limit made old (turns ++ served_turns c acts)
        (among (server_set (opened limit made mid).servers c new.server) new) }
{}

/// Proves that if the owner of the servers makes them one after another, as connections come, what
/// it does is also a run in which all of them are there from the start.
pub fn servers_may_come<H: Handler>()
    ensures { (limit : ℕ) (first : H) (made : ℕ → Made) (turns : List Turn) (new : ServerEnds H)
        → ServersGrow H.does H.stops limit made (first_servers_of limit made 0 first) turns new
        → ServersRun H.does H.stops (first_servers_of limit made (opened_in turns) first)
        (deeds_of turns) new }
{}

/// Proves what holds of a client alone, whoever answers it, for any calls and any pieces of any
/// bytes.
///
/// What it received splits into messages and a rest, in exactly one way. The replies that it handed
/// out, and the one that is ready, are these messages in order, each once, each to the call that
/// owns it, and none after a call's last one; only a message that closes the client is no reply.
/// The record of a call has the contents of the replies that were handed out to it, and is done
/// exactly if the last one was. The first message that is bad, that belongs to no call, or that
/// announces more replies than its call allows closes the client, with that cause, and is the last
/// one.
pub fn a_client_holds_alone()
    ensures { (c limit window : ℕ) (first_id : ℤ) (acts : List ClientAct) (new : ClientEnd)
        → IsBytes (bytes_taken acts)
        → ClientRun c (record { client = new_client first_id window limit; records = [] }) acts new
        → HoldsAlone limit acts new }
{}

/// Proves that if both ends of a pair are open, neither way is cut and the server's window is at
/// least 1, there is something to do until the pair is quiet: a step that sends bytes, feeds an end or collects a reply, or a request
/// to answer.
pub fn pairs_go_on<H: Handler>()
    ensures { (limit : ℕ) (first : H) (s : System H) (c : ℕ) (p : Pair)
        → IsLimit limit → Trace H.does H.stops limit (no_pairs first) s
        → pair_at s.pairs c ≡ Some p → IsLive p → (IsQuietPair s.pairs c → ⊥)
        → CanGoOn H H.does H.stops limit s c p }
{}

/// Proves that each step that does some of the work at a pair leaves less of it, and leaves the
/// other pairs as they were. So such steps come to an end if no more calls are made.
pub fn work_falls<H: Handler>()
    ensures { (limit : ℕ) (first : H) (s s' : System H) (c : ℕ) (p : Pair)
        → IsLimit limit → Trace H.does H.stops limit (no_pairs first) s
        → pair_at s.pairs c ≡ Some p → (step : Step H H.does H.stops limit s s')
        → IsWork H H.does H.stops limit c s s' step
        → Falls H H.does H.stops limit s s' c p }
{}

/// Proves that strangers disturb no pair: whatever bytes they send, the headline of the pairs holds
/// as it does without them. Strangers are connections whose client ends may be anything. For the
/// pairs, what strangers ask only changes the handler's state.
pub fn strangers_disturb_none<H: Handler>()
    ensures { (limit k : ℕ) (first : H) (made : ℕ → Made) (strange : ℕ → Bool) (deeds : List Deed)
        (ends : ℕ → ClientEnd) (servers : ServerEnds H)
        → IsLimit limit → AreMade made
        → ((c : ℕ) → strange c ≡ false
        → ClientRun c (first_end limit made c) (acts_at c deeds) (ends c))
        → ServersRun H.does H.stops (first_servers_of limit made k first) deeds servers
        → Arrive (λ _. []) (λ _. []) (deeds_beside strange deeds)
        → PairsKnow H.does H.stops strange k first deeds ends servers }
{}

/// Proves what holds of the servers alone, whoever asks them, with any bytes. What the server of a
/// connection took splits into messages and a rest, in exactly one way. Each entry of the
/// connection has the payload of one of these messages, and no two entries are of the same message.
pub fn servers_hold_alone<H: Handler>()
    ensures { (limit k c : ℕ) (first : H) (made : ℕ → Made) (deeds : List Deed)
        (servers : ServerEnds H)
        → ServersRun H.does H.stops (first_servers_of limit made k first) deeds servers
        → IsBytes (bytes_taken_up (server_acts_at c deeds))
        → OwnEntries limit c (bytes_taken_up (server_acts_at c deeds)) servers.log }
{}

/// Proves that each end of a connection may have its own limit on messages: what `owners_know` says
/// holds of such ends, too. But an end closes at a message that is too long for it.
pub fn limits_may_differ<H: Handler>()
    ensures { (client_limit server_limit : ℕ → ℕ) (k : ℕ) (first : H) (made : ℕ → Made)
        (deeds : List Deed) (ends : ℕ → ClientEnd) (servers : ServerEnds H)
        → ((c : ℕ) → IsLimit (client_limit c)) → ((c : ℕ) → IsLimit (server_limit c))
        → AreMade made
        → ((c : ℕ) → ClientRun c (first_end (client_limit c) made c) (acts_at c deeds) (ends c))
        → ServersRun H.does H.stops (servers_with_limits server_limit made k first) deeds servers
        → Arrive (λ _. []) (λ _. []) deeds
        → OwnersKnow H.does H.stops k first deeds ends servers }
{}
