//! Proves the laws of the format, which everything that cuts bytes into messages needs. The
//! contract of each function is the law.

ghost use Rattle.std.specs.Prelude.{◌≡◌, ◌≢◌, ◌<◌, ◌≤◌, ◌^◌, ◌++◌, ◌∷◌, ◌⊎◌, [], ℕ, FitsSigned};
ghost use Rattle.std.specs.Prelude.{List, length, take};
ghost use Rattle.std.specs.Int.{w32};
ghost use Rattle.bson_elem.specs.{IsBytes};
ghost use Rattle.wire_msg.specs.declared.fault.MsgFault.{MsgFault};
ghost use Rattle.wire_msg.specs.declared.header.MsgHeader.{MsgHeader};
ghost use Rattle.wire_msg.specs.declared.header.TheConstants.{MAX_MESSAGE_LEN};
ghost use Rattle.wire_msg.specs.declared.payloads.Payload.{Payload};
ghost use Rattle.wire_msg.specs.declared.payload_buf.PayloadBuf.{PayloadBuf};
ghost use Rattle.wire_msg.specs.Buf.{BufCarries};
ghost use Rattle.wire_msg.specs.Carrying.{Carries};
ghost use Rattle.wire_msg.specs.Header.{header_of, HeaderFault, IsGoodHeader, number_at};
ghost use Rattle.wire_msg.specs.Messages.{Content, IsContent, Message};
ghost use Rattle.wire_msg.specs.Spelling.{canonical, message_len, SpellsMsg};
ghost use Rattle.wire_msg.specs.Faults.{FaultMsg};
ghost use Rattle.wire_msg.specs.Standing.{IsBad, IsOpen, IsWhole, Stands};
ghost use Rattle.wire_msg.specs.Splits.{AreSpelled, Split};

use crate::front::MsgFront;
use crate::msg::RawMsg;

/// Proves that a byte list spells at most one message.
pub fn one_message()
    ensures { (m n : Message) (bytes : List ℕ) → IsBytes bytes
        → SpellsMsg m bytes → SpellsMsg n bytes → m ≡ n }
{}

/// Proves that the canonical spelling of a message spells it.
pub fn canonical_spells()
    ensures { (m : Message) → FitsSigned w32 m.id → FitsSigned w32 m.response_to
        → IsContent m.content → message_len m.content < 2 ^ 31 → SpellsMsg m (canonical m) }
{}

/// Proves that if two spellings are at the front of the same bytes, they are the same spelling of
/// the same message.
pub fn one_front()
    ensures { (m n : Message) (a b rest after : List ℕ) → IsBytes a
        → SpellsMsg m a → SpellsMsg n b → a ++ rest ≡ b ++ after
        → (m ≡ n) × (a ≡ b) × (rest ≡ after) }
{}

/// Proves that no spelling is a proper beginning of another one.
pub fn no_spelling_begins_another()
    ensures { (m n : Message) (a rest : List ℕ) → SpellsMsg m a → SpellsMsg n (a ++ rest)
        → rest ≡ [] }
{}

/// Proves that bytes have at most one fault under a limit.
pub fn one_fault()
    ensures { (limit : ℕ) (bytes : List ℕ) (f g : MsgFault) → IsBytes bytes
        → FaultMsg bytes limit f → FaultMsg bytes limit g → f ≡ g }
{}

/// Proves that a message within the limit has no fault.
pub fn no_fault_of_a_message()
    ensures { (limit : ℕ) (m : Message) (bytes : List ℕ) (f : MsgFault) → IsBytes bytes
        → SpellsMsg m bytes → length bytes ≤ limit → FaultMsg bytes limit f → ⊥ }
{}

/// Proves that open bytes have no message in front.
pub fn open_is_not_whole()
    ensures { (limit : ℕ) (bytes rest : List ℕ) (m : Message)
        → IsOpen limit bytes → IsWhole limit bytes m rest → ⊥ }
{}

/// Proves that open bytes aren't bad.
pub fn open_is_not_bad()
    ensures { (limit : ℕ) (bytes : List ℕ) (f : MsgFault)
        → IsOpen limit bytes → IsBad limit bytes f → ⊥ }
{}

/// Proves that bad bytes have no message in front.
pub fn bad_is_not_whole()
    ensures { (limit : ℕ) (bytes rest : List ℕ) (m : Message) (f : MsgFault) → IsBytes bytes
        → IsBad limit bytes f → IsWhole limit bytes m rest → ⊥ }
{}

/// Proves that bytes are bad with at most one fault.
pub fn bad_once()
    ensures { (limit : ℕ) (bytes : List ℕ) (f g : MsgFault) → IsBytes bytes
        → IsBad limit bytes f → IsBad limit bytes g → f ≡ g }
{}

/// Proves that the empty list is open.
pub fn nothing_is_open()
    ensures { (limit : ℕ) → IsOpen limit [] }
{}

/// Proves that the empty list spells no message.
pub fn nothing_is_no_message()
    ensures { (m : Message) → SpellsMsg m [] → ⊥ }
{}

/// Proves that if a header is bad, its 16 bytes are bad with that fault, whatever follows them.
pub fn bad_after_16_bytes()
    ensures { (limit : ℕ) (header more : List ℕ) (f : MsgFault) → length header ≡ 16
        → HeaderFault limit (header_of header) f → IsBad limit (header ++ more) f }
{}

/// Proves that a header depends on the first 16 bytes alone.
pub fn header_of_16_bytes()
    ensures { (bytes : List ℕ) → header_of bytes ≡ header_of (take 16 bytes) }
{}

/// Proves that a header's fault is at offset 12 or before.
pub fn header_fault_offset()
    ensures { (limit : ℕ) (header : MsgHeader) (f : MsgFault) → HeaderFault limit header f
        → f.at ≤ 12 }
{}

/// Proves that a message within the limit begins with a good header, which announces the message's
/// length.
pub fn whole_has_good_header()
    ensures { (limit : ℕ) (bytes rest : List ℕ) (m : Message) (w : IsWhole limit bytes m rest)
        → IsGoodHeader limit (header_of bytes) × (number_at bytes 0 ≡ length w.front) }
{}

/// Proves that a message has at least 26 bytes.
pub fn least_length()
    ensures { (m : Message) (bytes : List ℕ) → SpellsMsg m bytes → 26 ≤ length bytes }
{}

/// Proves that the length of the canonical spelling depends on the content alone.
pub fn canonical_length()
    ensures { (m : Message) → length (canonical m) ≡ message_len m.content }
{}

/// Proves that each spelling of a message is as long as the canonical one.
pub fn spelled_length()
    ensures { (m : Message) (bytes : List ℕ) → SpellsMsg m bytes
        → length bytes ≡ message_len m.content }
{}

/// Proves that the bytes of a message, and of messages joined, are numbers below 256.
pub fn spelled_bytes_are_bytes()
    ensures one { (m : Message) (bytes : List ℕ) → SpellsMsg m bytes → IsBytes bytes }
    ensures joined { (limit : ℕ) (messages : List Message) (bytes : List ℕ)
        → AreSpelled limit messages bytes → IsBytes bytes }
{}

/// Proves that a payload, borrowed or owned, carries one content.
pub fn one_content()
    ensures lent { (p : Payload) (c d : Content) → Carries p c → Carries p d → c ≡ d }
    ensures owned { (p : PayloadBuf) (c d : Content) → BufCarries p c → BufCarries p d → c ≡ d }
{}

/// Proves that bad bytes stay bad, with the same fault, when more bytes follow.
pub fn bad_stays_bad()
    ensures { (limit : ℕ) (bytes more : List ℕ) (f : MsgFault) → IsBad limit bytes f
        → IsBad limit (bytes ++ more) f }
{}

/// Proves that a beginning of open bytes is open.
pub fn beginning_of_open_is_open()
    ensures { (limit : ℕ) (front rest : List ℕ) → IsOpen limit (front ++ rest)
        → IsOpen limit front }
{}

/// Proves that a proper beginning of a message within the limit is open.
pub fn beginning_of_a_message_is_open()
    ensures { (limit : ℕ) (m : Message) (front rest : List ℕ) → SpellsMsg m (front ++ rest)
        → length (front ++ rest) ≤ limit → rest ≢ [] → IsOpen limit front }
{}

/// Proves that a message within the limit is a list of one message, and that lists of messages can
/// be joined.
pub fn joined_are_spelled()
    ensures one { (limit : ℕ) (m : Message) (bytes : List ℕ) → SpellsMsg m bytes
        → length bytes ≤ limit → AreSpelled limit (m ∷ []) bytes }
    ensures more { (limit : ℕ) (messages others : List Message) (front after : List ℕ)
        → AreSpelled limit messages front → AreSpelled limit others after
        → AreSpelled limit (messages ++ others) (front ++ after) }
{}

/// Proves that bytes split into messages and a rest in at most one way.
pub fn one_split()
    ensures { (limit : ℕ) (bytes : List ℕ) (messages others : List Message) (rest after : List ℕ)
        → IsBytes bytes → Split limit bytes messages rest → Split limit bytes others after
        → (messages ≡ others) × (rest ≡ after) }
{}

/// Proves that bytes split into messages and the open bytes that follow them.
pub fn split_before_open()
    ensures { (limit : ℕ) (messages : List Message) (joined rest : List ℕ)
        → AreSpelled limit messages joined → IsOpen limit rest
        → Split limit (joined ++ rest) messages rest }
{}

/// Proves that bytes split into messages and the bad bytes that follow them.
pub fn split_before_bad()
    ensures { (limit : ℕ) (messages : List Message) (joined rest : List ℕ) (f : MsgFault)
        → IsBytes rest → AreSpelled limit messages joined → IsBad limit rest f
        → Split limit (joined ++ rest) messages rest }
{}

/// Proves that a message before split bytes becomes the first of their messages.
pub fn split_after_a_message()
    ensures { (limit : ℕ) (bytes after rest : List ℕ) (m : Message) (messages : List Message)
        → IsWhole limit bytes m after → Split limit after messages rest
        → Split limit bytes (m ∷ messages) rest }
{}

/// Proves that messages before split bytes become the first of their messages.
pub fn split_after_messages()
    ensures { (limit : ℕ) (joined after rest : List ℕ) (messages others : List Message)
        → AreSpelled limit messages joined → Split limit after others rest
        → Split limit (joined ++ after) (messages ++ others) rest }
{}

/// Proves that when more bytes follow split bytes, they are split together with the rest.
pub fn split_goes_on()
    ensures { (limit : ℕ) (bytes more rest after : List ℕ) (messages others : List Message)
        → Split limit bytes messages rest → Split limit (rest ++ more) others after
        → Split limit (bytes ++ more) (messages ++ others) after }
{}

/// Proves that when more bytes follow split bytes with a bad rest, they belong to the rest.
pub fn split_stays_bad()
    ensures { (limit : ℕ) (bytes more rest : List ℕ) (messages : List Message) (f : MsgFault)
        → IsBytes (rest ++ more) → Split limit bytes messages rest → IsBad limit rest f
        → Split limit (bytes ++ more) messages (rest ++ more) }
{}

/// Proves that bytes are open, begin with a message, or are bad. Reads `bytes` to find out which.
pub fn open_whole_or_bad(bytes: &[u8], limit: u32)
    requires { limit ≤ MAX_MESSAGE_LEN }
    ensures { Stands limit bytes.now }
{
    let _ = RawMsg::front(bytes, limit);
}

/// Splits `bytes` into messages of at most `limit` bytes and a rest, which is open or bad. Returns
/// the rest.
pub fn split_of(bytes: &[u8], limit: u32) -> &[u8]
    requires { limit ≤ MAX_MESSAGE_LEN }
    ensures split { (messages : List Message) × Split limit bytes.now messages result.now }
    ensures only { (messages : List Message) (rest : List ℕ)
        → Split limit bytes.now messages rest → rest ≡ result.now }
    ensures ends { IsOpen limit result.now ⊎ ((f : MsgFault) × IsBad limit result.now f) }
{
    let mut rest = bytes;
    while let MsgFront::Whole { rest: after, .. } = RawMsg::front(rest, limit) {
        rest = after;
    }
    rest
}
