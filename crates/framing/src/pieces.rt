//! Reads all items of bytes that come in pieces.

ghost use Rattle.std.specs.Prelude.{◌≡◌, IfOk, flat_map};
ghost use Rattle.framing.specs.Cutting.{Cuts};
ghost use Rattle.framing.specs.Gathering.{Gathers, IsHeld};

use crate::first_item::FirstItem;
use crate::framing::Framing;
use crate::item_buf::ItemBuf;
use crate::reader::Reader;
use std::alloc::{AllocError, Global};

/// The items of some bytes, and the reader that holds what follows them.
#[derive(Drop)]
pub struct PiecesRead<F> {
    /// The items, in order.
    pub items: Vec<ItemBuf>,
    /// The reader, which wants more bytes or has met a lead or a header that no item has.
    pub reader: Reader<F>,
}

/// Reads all items in the bytes of `pieces`, however these are cut. Returns them, and a reader that
/// holds the rest: all of it if it is open, and otherwise the lead or the header that no item has.
///
/// # Errors
///
/// Returns an error if memory runs out.
pub fn read_pieces<F: Framing + Drop>(
    alloc: Global,
    framing: F,
    pieces: &[&[u8]],
) -> Result<PiecesRead<F>, AllocError>
    ensures framing { IfOk result (λ read. read.reader.framing ≡ framing) }
    ensures cuts { IfOk result (λ read.
        Cuts (F.rule framing) (flat_map
        (λ piece. piece.now) pieces.now) read.items.items read.reader.held) }
{
    let mut reader = Reader::new(alloc, framing);
    let mut items = Vec::new(alloc);
    for piece in pieces {
        let taken = read_piece(alloc, &mut reader, &mut items, piece)?;
        if taken < piece.len() {
            return Ok(PiecesRead { items, reader });
        }
    }
    Ok(PiecesRead { items, reader })
}

/// Feeds the piece to a reader, and copies each item that becomes whole to the end of `items`.
/// Returns how many bytes of the piece were taken: all of them, unless no item has a lead or a
/// header in it.
///
/// # Errors
///
/// Returns an error if memory runs out.
fn read_piece<F: Framing>(
    alloc: Global,
    reader: &mut Reader<F>,
    items: &mut Vec<ItemBuf>,
    piece: &[u8],
) -> Result<usize, AllocError>
    requires { IsHeld (F.rule reader.old.framing) reader.old.held }
    ensures framing { reader.new.framing ≡ reader.old.framing }
    ensures gathers { IfOk result
        (λ taken. Gathers (F.rule reader.old.framing) items.old.items reader.old.held piece.now
        items.new.items reader.new.held taken) }
{
    let mut taken = 0;
    loop {
        taken += reader.feed(&piece[taken..])?;
        match reader.first() {
            FirstItem::Whole { item, rest: _ } => {
                let copy = ItemBuf::copy_of(alloc, item)?;
                items.push(copy)?;
                reader.release();
            }
            FirstItem::Open { wanted: _ } => {
                if taken == piece.len() {
                    return Ok(taken);
                }
            }
            FirstItem::Bad(_) => return Ok(taken),
        }
    }
}
