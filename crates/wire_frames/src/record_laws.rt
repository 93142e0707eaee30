//! Proves the laws of records, which everything that cuts bytes into records needs. The contract of
//! each function is the law.

ghost use Rattle.std.specs.Prelude.{◌≡◌, ◌≤◌, ◌++◌, ◌⊎◌, ℕ, List, [], length, map};
ghost use Rattle.std.specs.List.{concat};
ghost use Rattle.wire_frames.specs.Frames.{IsFrame};
ghost use Rattle.wire_msg.specs.declared.header.TheConstants.{MAX_MESSAGE_LEN};
ghost use Rattle.wire_msg.specs.{number_at};
ghost use Rattle.wire_frames.specs.declared.fault.RecordFault.{RecordFault};
ghost use Rattle.wire_frames.specs.declared.head.Direction.{Direction};
ghost use Rattle.wire_frames.specs.declared.head.RecordHead.{RecordHead};
ghost use Rattle.wire_frames.specs.Heads.{HasHead, IsHead, signature};
ghost use Rattle.wire_frames.specs.Records.{IsAtFault, IsRecord, IsWholeRecord, RecordSplit};
ghost use Rattle.wire_frames.specs.Records.{StandsAs, WantsMore, head_of, message_of};
ghost use Rattle.wire_frames.specs.Written.{AreEntries, Entry, entry_bytes, messages_on, record_of};
ghost use Rattle.wire_frames.specs.Written.{written_on};

use crate::record::RawRecord;
use crate::records::WireRecords;

/// Proves that at most one record is at the front of bytes, that open bytes want one number of
/// bytes, and that bytes have at most one fault.
pub fn one_front()
    ensures whole { (limit : ℕ) (bytes one other rest after : List ℕ)
        → IsWholeRecord limit bytes one rest → IsWholeRecord limit bytes other after
        → (one ≡ other) × (rest ≡ after) }
    ensures too_few { (limit : ℕ) (bytes : List ℕ) (n m : ℕ) → WantsMore limit bytes n
        → WantsMore limit bytes m → n ≡ m }
    ensures bad { (limit : ℕ) (bytes : List ℕ) (f g : RecordFault) → IsAtFault limit bytes f
        → IsAtFault limit bytes g → f ≡ g }
{}

/// Proves that no bytes are two of open, a record and a rest, and bytes at fault.
pub fn one_standing()
    ensures open_or_whole { (limit : ℕ) (bytes one rest : List ℕ) (n : ℕ)
        → WantsMore limit bytes n → IsWholeRecord limit bytes one rest → ⊥ }
    ensures open_or_bad { (limit : ℕ) (bytes : List ℕ) (n : ℕ) (f : RecordFault)
        → WantsMore limit bytes n → IsAtFault limit bytes f → ⊥ }
    ensures bad_or_whole { (limit : ℕ) (bytes one rest : List ℕ) (f : RecordFault)
        → IsAtFault limit bytes f → IsWholeRecord limit bytes one rest → ⊥ }
{}

/// Proves that bytes are one of these. Reads `bytes` to find out which.
pub fn open_whole_or_bad(bytes: &[u8], limit: u32)
    requires { limit ≤ MAX_MESSAGE_LEN }
    ensures { StandsAs limit bytes.now }
{
    let _ = RawRecord::front(bytes, limit);
}

/// Proves that bytes at fault have the same fault when more bytes follow.
pub fn bad_stays_bad()
    ensures { (limit : ℕ) (bytes more : List ℕ) (f : RecordFault) → IsAtFault limit bytes f
        → IsAtFault limit (bytes ++ more) f }
{}

/// Proves that bytes split into records and a rest in at most one way.
pub fn one_split()
    ensures { (limit : ℕ) (bytes : List ℕ) (records others : List (List ℕ))
        (rest after : List ℕ) → RecordSplit limit bytes records rest
        → RecordSplit limit bytes others after → (records ≡ others) × (rest ≡ after) }
{}

/// Splits `bytes` into records and a rest, which is open or at fault. Returns the rest.
pub fn split_of(bytes: &[u8], limit: u32) -> &[u8]
    requires { limit ≤ MAX_MESSAGE_LEN }
    ensures split { (records : List (List ℕ)) × RecordSplit limit bytes.now records result.now }
    ensures ends { ((n : ℕ) × WantsMore limit result.now n)
        ⊎ ((f : RecordFault) × IsAtFault limit result.now f) }
{
    framing::laws::split_of(&WireRecords { limit }, bytes)
}

/// Proves that what is written of a message is a record, which is read as the same head and the
/// same message.
pub fn reads_back()
    ensures { (limit : ℕ) (h : RecordHead) (message : List ℕ) → IsHead h → IsFrame limit message
        → IsRecord limit (record_of h message) × HasHead (head_of (record_of h message)) h
        × (message_of (record_of h message) ≡ message) }
{}

/// Proves that the records that were written one after another are those that are read, each, in
/// order, and nothing behind them; and so that the messages of each connection and direction are
/// those that were written.
pub fn reads_all_back()
    ensures records { (limit : ℕ) (entries : List Entry) → AreEntries limit entries
        → RecordSplit limit (concat (map entry_bytes entries)) (map entry_bytes entries) [] }
    ensures messages { (limit : ℕ) (entries : List Entry) (records : List (List ℕ))
        (rest : List ℕ) (connection : ℕ) (direction : Direction) → AreEntries limit entries
        → RecordSplit limit (concat (map entry_bytes entries)) records rest
        → messages_on connection direction records ≡ written_on connection direction entries }
{}

/// Proves that no message within the greatest limit begins as a file of records does.
pub fn no_message_begins_so()
    ensures { (more frame : List ℕ) → signature ++ more ≡ frame
        → IsFrame MAX_MESSAGE_LEN frame → ⊥ }
{}
