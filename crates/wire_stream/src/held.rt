//! Collects the bytes of the current message for a reader.

ghost use Rattle.std.specs.Prelude.{◌≡◌, ◌<◌, ◌≤◌, ◌+◌, ◌-◌, ◌++◌, IfOk, List, length, min, take};
ghost use Rattle.std.specs.Prelude.{vec_capacity, ℕ};
ghost use Rattle.wire_msg.specs.declared.header.TheConstants.{MAX_MESSAGE_LEN};
ghost use Rattle.wire_msg.specs.{IsGoodHeader, header_of, number_at};
ghost use Rattle.wire_stream.specs.Holding.{IsBegun};
ghost use Rattle.wire_stream.specs.Readers.{Feeds, StandsAt};

use crate::reader_state::{Fed, ReadRefusal, ReaderState};
use bson_elem::little_u32;
use std::alloc::Global;
use wire_msg::{HEADER_LEN, RawMsg};

/// Copies bytes from the front of `piece` into `header`, which has `len` already, until it is full
/// or the piece is used up. Returns how many were copied.
pub(crate) fn fill_header(header: &mut [u8; 16], len: usize, piece: &[u8]) -> usize
    requires { len ≤ 16 }
    ensures count { result ≡ min (length piece.now) (16 - len) }
    ensures whole { length header.new ≡ 16 }
    ensures filled { take (len + result) header.new ≡ take len header.old ++ take result piece.now }
{
    let n = piece.len().min(HEADER_LEN as usize - len);
    header[len..len + n].copy_from_slice(&piece[..n]);
    n
}

/// Takes memory for the message that a good `header` announces, and begins it with the header.
///
/// # Errors
///
/// Returns `OutOfMemory` if memory runs out.
pub(crate) fn begin_message(
    alloc: Global,
    header: &[u8; 16],
    limit: u32,
) -> Result<Vec<u8>, ReadRefusal>
    requires { IsGoodHeader limit (header_of header.now) }
    ensures items { IfOk result (λ message. message.items ≡ header.now) }
    ensures begun { IfOk result (λ message. IsBegun limit message) }
    ensures room { IfOk result (λ message. vec_capacity message ≡ number_at header.now 0) }
{
    let announced = little_u32(header) as usize;
    let Ok(mut message) = Vec::with_capacity(alloc, announced) else {
        return Err(ReadRefusal::OutOfMemory);
    };
    for byte in header {
        message.push_reserved(*byte);
    }
    Ok(message)
}

/// Returns the reader's state. `message` is the first part of a message of `announced` bytes.
fn state_of(alloc: Global, message: &[u8], announced: usize, limit: u32) -> ReaderState
    requires limit { limit ≤ MAX_MESSAGE_LEN }
    requires header { 16 ≤ length message.now }
    requires good { IsGoodHeader limit (header_of message.now) }
    requires announced { announced ≡ number_at message.now 0 }
    requires within { length message.now ≤ announced }
    ensures stands { StandsAt limit message.now result }
    ensures all { result ≡ ReaderState.Need → length message.now < announced }
{
    if message.len() < announced {
        return ReaderState::Need;
    }
    match RawMsg::parse_with(alloc, message, limit) {
        Ok(_) => ReaderState::Ready,
        Err(fault) => ReaderState::Bad(fault),
    }
}

/// Appends bytes from the front of `piece`, until the message is whole or the piece is used up.
pub(crate) fn append_piece(alloc: Global, message: &mut Vec<u8>, limit: u32, piece: &[u8]) -> Fed
    requires limit { limit ≤ MAX_MESSAGE_LEN }
    requires begun { IsBegun limit message.old }
    ensures fed { Feeds limit message.old.items piece.now message.new.items result }
    ensures begun { IsBegun limit message.new }
{
    let announced = little_u32(message) as usize;
    let n = piece.len().min(announced - message.len());
    let Ok(()) = message.extend_from_slice(&piece[..n]) else {
        unreachable!()
    };
    Fed {
        taken: n,
        state: state_of(alloc, message, announced, limit),
    }
}
