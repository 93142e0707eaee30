//! Appends a document sequence after others, and a document to the last of them (MongoDB Wire
//! Protocol manual: OP_MSG, sections of kind 1).

ghost use Rattle.std.specs.Prelude.{◌≡◌, ◌+◌, ◌-◌, ◌≤◌, ◌<◌, ◌^◌, ◌++◌, [], length, take, drop};
ghost use Rattle.std.specs.Prelude.{vec_len, OnOk, OnErr};
ghost use Rattle.bson_elem.specs.{little};
ghost use Rattle.wire_msg.specs.Spelling.{sequence_section};
ghost use Rattle.wire_msg.specs.Buf.{empty_sequence};

use crate::sequence::SEQUENCE;
use byteorder::{ByteOrder, LittleEndian};
use std::alloc::AllocError;

/// Writes the size of the last document sequence, which begins at offset `last`.
fn put_size(last: usize, sequences: &mut Vec<u8>)
    requires begun { last + 5 ≤ vec_len sequences.old }
    requires short { vec_len sequences.old < 2 ^ 32 }
    ensures { sequences.new.items ≡ take (last + 1) sequences.old.items
        ++ (little (vec_len sequences.old - (last + 1)) ++ drop (last + 5) sequences.old.items) }
{
    let size = sequences.len() - (last + 1);
    LittleEndian::write_u32(&mut sequences[last + 1..last + 5], size as u32);
}

/// Appends an empty document sequence. If memory runs out, `sequences` doesn't change.
pub(crate) fn append_sequence(identifier: &str, sequences: &mut Vec<u8>) -> Result<(), AllocError>
    requires { vec_len sequences.old + length identifier.now + 6 < 2 ^ 32 }
    ensures added { OnOk result (sequences.new.items
        ≡ sequences.old.items ++ sequence_section (empty_sequence identifier.now)) }
    ensures unchanged { OnErr result (sequences.new.items ≡ sequences.old.items) }
{
    let last = sequences.len();
    sequences.try_reserve(6 + identifier.len())?;
    // there is room, so none of these fails
    sequences.extend_from_slice(&[SEQUENCE, 0, 0, 0, 0])?;
    sequences.extend_from_slice(identifier.as_bytes())?;
    sequences.push(0)?;
    put_size(last, sequences);
    Ok(())
}

/// Appends a document to the last document sequence, which begins at offset `last`. If memory runs
/// out, `sequences` doesn't change.
pub(crate) fn append_document(
    document: &[u8],
    last: usize,
    sequences: &mut Vec<u8>,
) -> Result<(), AllocError>
    requires begun { last + 5 ≤ vec_len sequences.old }
    requires short { vec_len sequences.old + length document.now < 2 ^ 32 }
    ensures added { let size = vec_len sequences.old + length document.now - (last + 1) in
        OnOk result (sequences.new.items ≡ take (last + 1) sequences.old.items
        ++ (little size ++ (drop (last + 5) sequences.old.items ++ document.now))) }
    ensures unchanged { OnErr result (sequences.new.items ≡ sequences.old.items) }
{
    sequences.extend_from_slice(document)?;
    put_size(last, sequences);
    Ok(())
}
