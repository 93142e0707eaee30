//! Looks for the next document in bytes of which some are damaged.

ghost use Rattle.std.specs.Prelude.{◌≡◌, ◌+◌, ◌<◌, ◌^◌, false, length};
ghost use Rattle.bson_stream.specs.Readers.{AnnouncesMore};
ghost use Rattle.bson_stream.specs.Salvagers.{IsFront, IsSought, IsUndecided, gap_on};
ghost use Rattle.bson_stream.specs.Standing.{IsOpen};

use crate::gap::{GapFault, GapStart};
use crate::gather::is_length;
use bson_elem::{BsonFault, little_u32};
use bson_raw::RawDocument;

/// What the length in front of some bytes says of them.
#[derive(Clone, Copy)]
enum Lead {
    /// More bytes decide whether a document is in front.
    Open,
    /// A document that begins here is longer than the limit.
    TooLong,
    /// The bytes decide.
    Decided,
}

/// What stands in front of some bytes.
#[derive(Clone, Copy)]
enum Ahead {
    /// More bytes decide.
    Open,
    /// A document of `len` bytes.
    Document { len: usize, canonical: bool },
    /// No document, for this reason.
    Fault(GapFault),
}

/// What stands behind the bytes that were passed over.
#[derive(Clone, Copy)]
pub(crate) enum Stand {
    /// Bytes of which more decide whether a document is in front.
    Open,
    /// A document of `len` bytes.
    Document { len: usize, canonical: bool },
    /// Nothing.
    End,
}

/// Where the search for a document stopped.
#[derive(Clone, Copy)]
pub(crate) struct Sought {
    /// The number of bytes that were passed over.
    pub passed: usize,
    /// The gap in which they are, if there is one.
    pub gap: Option<GapStart>,
    /// What stands behind them.
    pub stand: Stand,
}

/// Returns what the length in front of `bytes` says of them.
fn lead_of(bytes: &[u8], limit: u32) -> Lead
    ensures open { result ≡ Lead.Open → IsUndecided limit bytes.now }
    ensures long { result ≡ Lead.TooLong → AnnouncesMore limit bytes.now }
    ensures decided { result ≡ Lead.Decided
        → (IsOpen bytes.now → ⊥) × (AnnouncesMore limit bytes.now → ⊥) }
{
    if bytes.len() < 4 {
        return Lead::Open;
    }
    let announced = little_u32(bytes);
    if !is_length(announced) {
        return Lead::Decided;
    }
    if announced > limit {
        return Lead::TooLong;
    }
    if bytes.len() < announced as usize {
        return Lead::Open;
    }
    Lead::Decided
}

/// Returns what stands in front of `bytes`, of which none is longer than the limit. The first of
/// them is at offset `start`. If `ended` is true, no more bytes follow.
fn checked(bytes: &[u8], start: usize, limit: u32, ended: bool) -> Ahead
    requires offset { start + length bytes.now < 2 ^ 64 }
    requires within { AnnouncesMore limit bytes.now → ⊥ }
    requires decided { ended ≡ false → IsOpen bytes.now → ⊥ }
    ensures { IsFront limit ended start bytes.now result }
{
    match RawDocument::front_with_form(bytes) {
        Ok(front) => Ahead::Document {
            len: front.document.as_bytes().len(),
            canonical: front.canonical,
        },
        Err(fault) => Ahead::Fault(GapFault::Bson(BsonFault {
            at: start + fault.at,
            cause: fault.cause,
        })),
    }
}

/// Returns what stands in front of `bytes`, whatever follows them. The first of them is at offset
/// `start`. If `ended` is true, nothing follows.
fn front_of(bytes: &[u8], start: usize, limit: u32, ended: bool) -> Ahead
    requires { start + length bytes.now < 2 ^ 64 }
    ensures { IsFront limit ended start bytes.now result }
{
    match lead_of(bytes, limit) {
        Lead::Open => {
            if ended {
                return checked(bytes, start, limit, ended);
            }
            Ahead::Open
        }
        Lead::TooLong => Ahead::Fault(GapFault::TooLong),
        Lead::Decided => checked(bytes, start, limit, ended),
    }
}

/// Returns the gap that goes on here, or the one that begins at `from` with this fault.
fn gap_on(gap: Option<GapStart>, from: usize, fault: GapFault) -> Option<GapStart>
    ensures { result ≡ gap_on gap from fault }
{
    match gap {
        Some(_) => gap,
        None => Some(GapStart { from, fault }),
    }
}

/// Passes over the bytes of `held` at which no document begins, up to one or to where more bytes
/// decide. The first byte is at offset `start`, and in `gap`, if there is one. If `ended` is true,
/// nothing follows.
pub(crate) fn seek(
    held: &[u8],
    start: usize,
    limit: u32,
    ended: bool,
    gap: Option<GapStart>,
) -> Sought
    requires { start + length held.now < 2 ^ 64 }
    ensures { IsSought limit ended start held.now gap result }
{
    let mut passed = 0;
    let mut behind = gap;
    while passed < held.len() {
        match front_of(&held[passed..], start + passed, limit, ended) {
            Ahead::Open => {
                return Sought {
                    passed,
                    gap: behind,
                    stand: Stand::Open,
                };
            }
            Ahead::Document { len, canonical } => {
                return Sought {
                    passed,
                    gap: behind,
                    stand: Stand::Document { len, canonical },
                };
            }
            Ahead::Fault(fault) => {
                behind = gap_on(behind, start + passed, fault);
                passed += 1;
            }
        }
    }
    Sought {
        passed,
        gap: behind,
        stand: Stand::End,
    }
}
