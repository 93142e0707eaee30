//! Gathers the bytes of the current document.

ghost use Rattle.std.specs.Prelude.{◌≡◌, ◌+◌, ◌*◌, ◌<◌, ◌≤◌, ◌^◌, ◌++◌, IfErr, IfOk};
ghost use Rattle.std.specs.Prelude.{MatchOption, OnErr, OnOk};
ghost use Rattle.std.specs.Prelude.{◌↔◌, IfSome, IsSome, IsTrue, length, max, take, ℕ};
ghost use Rattle.bson_stream.specs.Holding.{IsGathered, IsWanted, IsWhole};
ghost use Rattle.bson_stream.specs.Readers.{AnnouncesMore, HoldsNoMore, StandsAt};
ghost use Rattle.bson_stream.specs.Standing.{IsLength, IsOpen, announced};

use crate::reader_state::{ReadRefusal, ReaderState};
use bson_elem::{BsonFault, MAX_LEN, little_u32};
use bson_raw::RawDocument;

/// Returns true if a document can have `n` bytes.
pub(crate) fn is_length(n: u32) -> bool
    ensures { IsTrue result ↔ IsLength n }
{
    n >= 5 && n <= MAX_LEN as u32
}

/// Copies `piece` into `bytes`, from offset `len` on.
pub(crate) fn put(bytes: &mut [u8], len: usize, piece: &[u8])
    requires { len + length piece.now ≤ length bytes.old }
    ensures whole { length bytes.new ≡ length bytes.old }
    ensures filled { take (len + length piece.now) bytes.new ≡ take len bytes.old ++ piece.now }
{
    bytes[len..len + piece.len()].copy_from_slice(piece);
}

/// Returns the length in the first four bytes of `held` and, behind these, `piece`, if there are
/// four.
fn length_in_front(held: &[u8], piece: &[u8]) -> Option<u32>
    ensures { MatchOption result (length (held.now ++ piece.now) < 4)
        (λ n. (4 ≤ length (held.now ++ piece.now)) × (n ≡ announced (held.now ++ piece.now))) }
{
    let mut front = [0u8; 4];
    let n = held.len().min(4);
    put(&mut front, 0, &held[..n]);
    if piece.len() < 4 - n {
        return None;
    }
    put(&mut front, n, &piece[..4 - n]);
    Some(little_u32(&front))
}

/// Returns how many bytes of the current document to gather before they are looked at: the four of
/// a length that isn't there yet or is bad, or as many as a good one announces.
///
/// # Errors
///
/// Returns `TooLong` if a good length is above `limit`.
pub(crate) fn wanted(held: &[u8], piece: &[u8], limit: u32) -> Result<usize, ReadRefusal>
    requires { IsOpen held.now }
    ensures wanted { IfOk result (λ n. IsWanted limit (held.now ++ piece.now) n) }
    ensures more { IfOk result (λ n. length held.now ≤ n) }
    ensures small { IfOk result (λ n. n < 2 ^ 31) }
    ensures refused { IfErr result
        (λ e. (e ≡ ReadRefusal.TooLong) × AnnouncesMore limit (held.now ++ piece.now)) }
{
    let Some(announced) = length_in_front(held, piece) else {
        return Ok(4);
    };
    if !is_length(announced) {
        return Ok(4);
    }
    if announced > limit {
        return Err(ReadRefusal::TooLong);
    }
    Ok(announced as usize)
}

/// Makes `bytes` `size` long, unless it is longer.
///
/// # Errors
///
/// Returns `OutOfMemory` if memory runs out. `bytes` is unchanged then.
pub(crate) fn grow(bytes: &mut Vec<u8>, size: usize) -> Result<(), ReadRefusal>
    ensures kept { take (length bytes.old.items) bytes.new.items ≡ bytes.old.items }
    ensures grown { OnOk result (length bytes.new.items ≡ max (length bytes.old.items) size) }
    ensures unchanged { OnErr result (bytes.new.items ≡ bytes.old.items) }
    ensures refused { IfErr result
        (λ e. (e ≡ ReadRefusal.OutOfMemory) × (length bytes.old.items < size)) }
{
    let len = bytes.len();
    if size <= len {
        return Ok(());
    }
    let Ok(()) = bytes.reserve_exact(size - len) else {
        return Err(ReadRefusal::OutOfMemory);
    };
    let Ok(()) = bytes.resize(size, 0) else {
        unreachable!()
    };
    Ok(())
}

/// Makes `bytes` at least `least` long, and at most twice that or `most`, unless it is longer.
///
/// # Errors
///
/// Returns `OutOfMemory` if memory runs out. `bytes` is unchanged then.
fn make_room(bytes: &mut Vec<u8>, least: usize, most: usize) -> Result<(), ReadRefusal>
    requires order { least ≤ most }
    requires small { most < 2 ^ 31 }
    ensures kept { take (length bytes.old.items) bytes.new.items ≡ bytes.old.items }
    ensures least { OnOk result (least ≤ length bytes.new.items) }
    ensures grown { length bytes.old.items ≤ length bytes.new.items }
    ensures most { length bytes.new.items ≤ max (length bytes.old.items) (2 * least) }
    ensures unchanged { OnErr result (bytes.new.items ≡ bytes.old.items) }
    ensures refused { IfErr result
        (λ e. (e ≡ ReadRefusal.OutOfMemory) × (length bytes.old.items < least)) }
{
    if least <= bytes.len() {
        return Ok(());
    }
    grow(bytes, (2 * least).min(most))
}

/// Puts `piece` behind the first `len` of `bytes`. Makes `bytes` longer where it is too short for
/// that: at most twice as long as it has to be, or `most`.
///
/// # Errors
///
/// Returns `OutOfMemory` if memory runs out. `bytes` is unchanged then.
pub(crate) fn put_behind(
    bytes: &mut Vec<u8>,
    len: usize,
    piece: &[u8],
    most: usize,
) -> Result<(), ReadRefusal>
    requires within { len ≤ length bytes.old.items }
    requires order { len + length piece.now ≤ most }
    requires small { most < 2 ^ 31 }
    ensures filled { OnOk result (take (len + length piece.now) bytes.new.items
        ≡ take len bytes.old.items ++ piece.now) }
    ensures there { OnOk result (len + length piece.now ≤ length bytes.new.items) }
    ensures grown { length bytes.old.items ≤ length bytes.new.items }
    ensures most { length bytes.new.items
        ≤ max (length bytes.old.items) (2 * (len + length piece.now)) }
    ensures unchanged { OnErr result (bytes.new.items ≡ bytes.old.items) }
    ensures refused { IfErr result (λ e. (e ≡ ReadRefusal.OutOfMemory)
        × (length bytes.old.items < len + length piece.now)) }
{
    make_room(bytes, len + piece.len(), most)?;
    put(bytes, len, piece);
    Ok(())
}

/// Returns the state of a reader that holds `held`, which begins at offset `start`. `wanted` is how
/// many bytes are to be gathered before they are looked at.
pub(crate) fn state_of(start: usize, held: &[u8], wanted: usize) -> ReaderState
    requires gathered { IsGathered wanted held.now }
    requires offset { start + length held.now < 2 ^ 64 }
    ensures stands { StandsAt start held.now result }
    ensures all { result ≡ ReaderState.Need → length held.now < wanted }
{
    if held.len() < wanted {
        return ReaderState::Need;
    }
    match RawDocument::front_with_form(held) {
        Ok(front) => ReaderState::Ready {
            canonical: front.canonical,
        },
        Err(fault) => ReaderState::Bad(BsonFault {
            at: start + fault.at,
            cause: fault.cause,
        }),
    }
}

/// Returns the length of the document in front of `piece`, if that is good and within `limit`, and
/// as many bytes are there.
pub(crate) fn whole_len(piece: &[u8], limit: u32) -> Option<usize>
    ensures some { IfSome result (λ n. (n ≡ announced piece.now) × IsWhole limit piece.now) }
    ensures there { IsWhole limit piece.now → IsSome result }
{
    if piece.len() < 4 {
        return None;
    }
    let announced = little_u32(piece);
    if is_length(announced) && announced <= limit && announced as usize <= piece.len() {
        Some(announced as usize)
    } else {
        None
    }
}
