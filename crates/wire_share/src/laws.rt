//! The laws of sharing. The contract of each function is the law.

ghost use Rattle.std.specs.Prelude.{◌≡◌, [], List, ℕ};
ghost use Rattle.bson_elem.specs.{IsBytes};
ghost use Rattle.wire_msg.specs.declared.header.TheConstants.{MAX_MESSAGE_LEN};
ghost use Rattle.wire_peer.specs.{IsLimit};
ghost use Rattle.wire_model.specs.{Arrive, ClientEnd, ClientRun, Deed, Made, ServerEnds};
ghost use Rattle.wire_model.specs.{ServersRun, bytes_taken, first_end, servers_with_limits};
ghost use Rattle.wire_model.specs.Deeds as at_ends;
ghost use Rattle.wire_share.specs.Acts.{AreFit, DownAct, DownRun, ShareAct, acts_at, acts_of};
ghost use Rattle.wire_share.specs.Answering.{IsAnswered};
ghost use Rattle.wire_share.specs.Mixing.{AnswersAreTheServers, IsMadeSo, NeverMixed};
ghost use Rattle.wire_share.specs.Sharing.{DownSeen, new_downstream};

use wire_model::pair_laws::{a_client_holds_alone, limits_may_differ};
use wire_peer::Handler;

/// Proves that answers are never mixed, whatever is done with any downstreams and upstreams, and
/// whatever bytes come: each request that is answered gets the reply to a call of its own payload,
/// and no other request gets the reply to that call. Each upstream has a number of its own.
pub fn answers_are_never_mixed()
    ensures { (acts : List ShareAct) (downs : ℕ → DownSeen) (made : ℕ → Made)
        (ends : ℕ → ClientEnd)
        → AreFit acts → ((u : ℕ) → IsMadeSo (made u))
        → ((d : ℕ) → DownRun (new_downstream d) (acts_at acts d) (downs d))
        → ((u : ℕ) → ClientRun u (first_end MAX_MESSAGE_LEN made u) (acts_of acts u) (ends u))
        → ((u : ℕ) → IsBytes (bytes_taken (acts_of acts u)))
        → NeverMixed acts ends }
{
    a_client_holds_alone();
}

/// Proves the same with the log of a server at the other ends of the upstreams: what a request is
/// answered with is the answer that an entry of the log has for the request's own payload, and no
/// other request is answered with that of the same entry.
pub fn each_answer_is_the_servers<H: Handler>()
    ensures { (acts : List ShareAct) (downs : ℕ → DownSeen) (made : ℕ → Made)
        (ends : ℕ → ClientEnd) (limit : ℕ → ℕ) (k : ℕ) (first : H) (deeds : List Deed)
        (servers : ServerEnds H)
        → AreFit acts → ((u : ℕ) → IsMadeSo (made u))
        → ((d : ℕ) → DownRun (new_downstream d) (acts_at acts d) (downs d))
        → ((u : ℕ) → at_ends.acts_at u deeds ≡ acts_of acts u)
        → ((u : ℕ) → ClientRun u (first_end MAX_MESSAGE_LEN made u) (acts_of acts u) (ends u))
        → ((u : ℕ) → IsBytes (bytes_taken (acts_of acts u)))
        → ((u : ℕ) → IsLimit (limit u))
        → ServersRun H.does H.stops (servers_with_limits limit made k first) deeds servers
        → Arrive (λ _. []) (λ _. []) deeds
        → AnswersAreTheServers acts k servers.log }
{
    answers_are_never_mixed();
    limits_may_differ::<H>();
}

/// Proves that the requests of a connection are answered in order, each once, whatever others do
/// in between: what it took is requests one after another, as messages or as queries, and a rest;
/// each but maybe the last has one entry, with the answer that it was given; and what was put out
/// are the replies with these answers, under the ids that the requests have. A request that wants no
/// reply is given no answer, and its entry has its own payload in the place of one.
pub fn connections_are_answered_in_order()
    ensures { (connection : ℕ) (acts : List DownAct) (now : DownSeen)
        → DownRun (new_downstream connection) acts now → IsAnswered connection acts now }
{}
