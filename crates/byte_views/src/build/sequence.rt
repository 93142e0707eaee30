//! The document sequences of a message, which are put one behind the other (MongoDB Wire Protocol
//! manual: OP_MSG, sections of kind 1).

ghost use Rattle.std.specs.Prelude.{◌≡◌, ◌≤◌, ◌<◌, ◌+◌, ◌^◌, List, MatchOption, length};
ghost use Rattle.bson_elem.specs.{Tree};
ghost use Rattle.bson_raw.specs.{AreDocuments, documents_bytes};
ghost use Rattle.wire_msg.specs.Messages.{Sequence};
ghost use Rattle.byte_views.specs.Placing.{placed};
ghost use Rattle.byte_views.specs.Sequences.{HoldsSequences, IsSequencePut, section_of};
ghost use Rattle.byte_views.specs.Sequences.{with_sequence};

use crate::build::built::Built;
use crate::build::given::is_name;
use crate::build::place::put;
use crate::build::refusal::BuildRefusal;
use bson_elem::MAX_LEN;

/// Returns the number of bytes of a document sequence, or `None` if its identifier, or its
/// documents together, have more than a document may.
fn section_len(identifier: &[u8], documents: &[u8]) -> Option<usize>
    ensures { MatchOption result (2 ^ 31 ≤ length (section_of identifier.now documents.now))
        (λ n. (n ≡ length (section_of identifier.now documents.now)) × (n < 2 ^ 32 + 6)) }
{
    if identifier.len() > MAX_LEN {
        return None;
    }
    if documents.len() > MAX_LEN {
        return None;
    }
    Some(identifier.len() + documents.len() + 6)
}

/// Writes a document sequence to offset `at` of `room`.
fn put_section(room: &mut [u8], at: usize, identifier: &[u8], documents: &[u8])
    requires within { at + length (section_of identifier.now documents.now) ≤ length room.old }
    requires short { length (section_of identifier.now documents.now) < 2 ^ 31 }
    ensures { room.new ≡ placed at (section_of identifier.now documents.now) room.old }
{
    let size = (identifier.len() + documents.len()) as u32 + 5;
    let at = put(room, at, &[1]);
    let at = put(room, at, &size.to_le_bytes());
    let at = put(room, at, identifier);
    let at = put(room, at, &[0]);
    put(room, at, documents);
}

/// Appends a document sequence, as `append_sequence` does.
fn put_sequence(room: &mut [u8], end: &mut usize, identifier: &[u8], documents: &[u8]) -> Built
    ensures { IsSequencePut room.old end.old identifier.now documents.now room.new end.new result }
{
    let start = *end;
    if start > room.len() {
        return Built::refused(BuildRefusal::OutOfRange);
    }
    if !is_name(identifier) {
        return Built::refused(BuildRefusal::Name);
    }
    let size = match section_len(identifier, documents) {
        Some(size) => size,
        None => return Built::refused(BuildRefusal::TooLarge),
    };
    if start > MAX_LEN {
        return Built::refused(BuildRefusal::TooLarge);
    }
    let wanted = start + size;
    if wanted > MAX_LEN {
        return Built::refused(BuildRefusal::TooLarge);
    }
    if wanted > room.len() {
        return Built::no_room(wanted);
    }
    put_section(room, start, identifier, documents);
    *end = wanted;
    Built::done(wanted)
}

/// Appends a document sequence of this `identifier` to those in the first `end` bytes of `room`,
/// and moves `end` behind it. `documents` are its documents, one behind the other. They aren't
/// checked here, nor what stands before: what reads or writes a message with the sequences does so.
pub fn append_sequence(
    room: &mut [u8],
    end: &mut usize,
    identifier: &[u8],
    documents: &[u8],
) -> Built
    ensures put { IsSequencePut room.old end.old identifier.now documents.now
        room.new end.new result }
    ensures sequences { (qs : List Sequence) (ts : List Tree) → HoldsSequences room.old end.old qs
        → AreDocuments ts → documents.now ≡ documents_bytes ts → result.refusal ≡ 0
        → HoldsSequences room.new end.new (with_sequence qs identifier.now ts) }
{
    put_sequence(room, end, identifier, documents)
}
