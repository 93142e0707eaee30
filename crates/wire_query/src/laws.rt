//! Proves the laws of queries and replies. The contract of each function is the law.

ghost use Rattle.std.specs.Prelude.{◌≡◌, ◌<◌, ◌≤◌, ℕ, List, length, true};
ghost use Rattle.bson_elem.specs.{IsBytes, Tree};
ghost use Rattle.wire_msg.specs.{canonical, Message, SpellsMsg};
ghost use Rattle.wire_query.specs.declared.fault.QueryFault.{QueryFault};
ghost use Rattle.wire_query.specs.declared.reply.ReplyHead.{ReplyHead};
ghost use Rattle.wire_query.specs.Database.{names_database};
ghost use Rattle.wire_query.specs.Queries.{message_of, Query};
ghost use Rattle.wire_query.specs.Spelling.{SpellsQuery};
ghost use Rattle.wire_query.specs.Faults.{FaultQuery};
ghost use Rattle.wire_query.specs.Replies.{IsReply, reply_bytes, reply_len};

/// Proves that a byte list spells at most one query.
pub fn one_query()
    ensures { (q r : Query) (bytes : List ℕ) → SpellsQuery q bytes → SpellsQuery r bytes → q ≡ r }
{}

/// Proves that no byte list spells both a query and a message.
pub fn no_query_is_a_message()
    ensures { (q : Query) (m : Message) (bytes : List ℕ) → SpellsQuery q bytes
        → SpellsMsg m bytes → ⊥ }
{}

/// Proves that bytes have at most one fault under a limit.
pub fn one_fault()
    ensures { (limit : ℕ) (bytes : List ℕ) (f g : QueryFault) → IsBytes bytes
        → FaultQuery bytes limit f → FaultQuery bytes limit g → f ≡ g }
{}

/// Proves that a query within the limit has no fault.
pub fn no_fault_of_a_query()
    ensures { (limit : ℕ) (q : Query) (bytes : List ℕ) (f : QueryFault) → IsBytes bytes
        → SpellsQuery q bytes → length bytes ≤ limit → FaultQuery bytes limit f → ⊥ }
{}

/// Proves that the message of a query is spelled by its canonical spelling, which is shorter than
/// the query, and that its body names a database.
pub fn message_of_a_query()
    ensures spelled { (q : Query) (bytes : List ℕ) → SpellsQuery q bytes
        → SpellsMsg (message_of q) (canonical (message_of q))
        × (length (canonical (message_of q)) < length bytes) }
    ensures named { (q : Query) → names_database (message_of q).content.body ≡ true }
{}

/// Proves that a byte list is at most one reply, and what the length of a reply is.
pub fn one_reply()
    ensures one { (h k : ReplyHead) (t u : Tree) → IsReply h t → IsReply k u
        → reply_bytes h t ≡ reply_bytes k u → (h ≡ k) × (t ≡ u) }
    ensures long { (h : ReplyHead) (t : Tree) → length (reply_bytes h t) ≡ reply_len t }
{}
