//! Finds all documents in bytes that come in pieces, of which some are damaged.

ghost use Rattle.std.specs.Prelude.{◌≡◌, ◌^◌, ◌<◌, IfErr, IfOk, OnOk, flat_map};
ghost use Rattle.bson_stream.specs.SalvagedParts.{FindsParts, HaveParts, IsUnsalvaged};

use crate::document_buf::DocumentBuf;
use crate::gap::{Find, Gap};
use crate::reader_state::ReadRefusal;
use crate::salvager::Salvager;
use std::alloc::Global;

/// A part of bytes of which some are damaged.
#[derive(Drop)]
pub enum SalvagedPart {
    /// A document that begins at this offset.
    Document { at: usize, document: DocumentBuf },
    /// A gap.
    Gap(Gap),
}

/// Finds the documents of at most `limit` bytes in the bytes of `pieces`, however these are cut,
/// and the gaps between them.
///
/// # Errors
///
/// - `OutOfMemory` if memory runs out.
/// - `TooFar` if the pieces have more than 2 ^ 64 - 1 bytes.
pub fn salvage_pieces(
    alloc: Global,
    limit: u32,
    pieces: &[&[u8]],
) -> Result<Vec<SalvagedPart>, ReadRefusal>
    requires { limit < 2 ^ 31 }
    ensures cuts { IfOk result (λ found.
        HaveParts limit (flat_map (λ piece. piece.now) pieces.now) found.items) }
    ensures refused { IfErr result
        (λ e. IsUnsalvaged (flat_map (λ piece. piece.now) pieces.now) e) }
{
    let mut salvager = Salvager::new(alloc, limit);
    let mut found = Vec::new(alloc);
    for piece in pieces {
        salvager.feed(piece)?;
        take_parts(alloc, &mut salvager, false, &mut found)?;
    }
    take_parts(alloc, &mut salvager, true, &mut found)?;
    Ok(found)
}

/// Puts each part that `salvager` finds behind those of `found`, with a copy of each document. If
/// `ended` is true, no more bytes come.
///
/// # Errors
///
/// Returns `OutOfMemory` if memory runs out.
fn take_parts(
    alloc: Global,
    salvager: &mut Salvager,
    ended: bool,
    found: &mut Vec<SalvagedPart>,
) -> Result<(), ReadRefusal>
    ensures finds { OnOk result (FindsParts ended salvager.old found.old.items
        salvager.new found.new.items) }
    ensures refused { IfErr result (λ e. e ≡ ReadRefusal.OutOfMemory) }
{
    loop {
        match salvager.find(ended) {
            Find::Nothing => return Ok(()),
            Find::Gap(gap) => {
                let Ok(()) = found.push(SalvagedPart::Gap(gap)) else {
                    return Err(ReadRefusal::OutOfMemory);
                };
                continue;
            }
            Find::Document { len, .. } => {
                let at = salvager.start();
                let Ok(document) = DocumentBuf::copy_of(alloc, salvager.document(len)) else {
                    return Err(ReadRefusal::OutOfMemory);
                };
                let Ok(()) = found.push(SalvagedPart::Document { at, document }) else {
                    return Err(ReadRefusal::OutOfMemory);
                };
                salvager.release(len);
                continue;
            }
        }
    }
}
