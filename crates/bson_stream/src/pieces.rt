//! Reads all documents of bytes that come in pieces.

ghost use Rattle.std.specs.Prelude.{◌^◌, ◌<◌, ◌++◌, IfErr, IfOk, List, flat_map, ℕ};
ghost use Rattle.bson_stream.specs.Cutting.{Cuts, IsUnread};
ghost use Rattle.bson_stream.specs.Gathering.{Gathered, Gathers};
ghost use Rattle.bson_stream.specs.Standing.{IsOpen};

use crate::document_buf::DocumentBuf;
use crate::reader::DocumentReader;
use crate::reader_state::{Fed, ReadRefusal, ReaderState};
use bson_elem::BsonFault;
use std::alloc::Global;

/// The documents of some bytes, and the fault of what follows them.
#[derive(Drop)]
pub struct PiecesRead {
    /// The documents, in order.
    pub documents: Vec<DocumentBuf>,
    /// The first fault, at its offset in the bytes, if they aren't documents to their end.
    pub fault: Option<BsonFault>,
}

/// Reads all documents in the bytes of `pieces`, however these are cut, up to the first fault.
///
/// # Errors
///
/// - `OutOfMemory` if memory runs out.
/// - `TooLong` if a good length is above `limit`.
/// - `TooFar` if the pieces have more than 2 ^ 64 - 1 bytes.
pub fn read_pieces(alloc: Global, limit: u32, pieces: &[&[u8]]) -> Result<PiecesRead, ReadRefusal>
    requires { limit < 2 ^ 31 }
    ensures cuts { IfOk result (λ read.
        Cuts limit (flat_map (λ piece. piece.now) pieces.now) read.documents.items read.fault) }
    ensures refused { IfErr result
        (λ e. IsUnread limit (flat_map (λ piece. piece.now) pieces.now) e) }
{
    let mut reader = DocumentReader::new(alloc, limit);
    let mut documents = Vec::new(alloc);
    for piece in pieces {
        let fed = read_piece(alloc, &mut reader, &mut documents, piece)?;
        match fed.state {
            ReaderState::Need => {}
            ReaderState::Ready { canonical: _ } => unreachable!(),
            ReaderState::Bad(fault) => {
                return Ok(PiecesRead {
                    documents,
                    fault: Some(fault),
                });
            }
        }
    }
    match reader.end() {
        Ok(()) => Ok(PiecesRead {
            documents,
            fault: None,
        }),
        Err(fault) => Ok(PiecesRead {
            documents,
            fault: Some(fault),
        }),
    }
}

/// Feeds the piece to a reader that needs more, and copies each document that becomes whole to the
/// end of `documents`. Returns how many bytes of the piece were taken, and the reader's state after
/// them.
///
/// # Errors
///
/// Returns the reader's refusal, and `OutOfMemory` if memory runs out.
fn read_piece(
    alloc: Global,
    reader: &mut DocumentReader,
    documents: &mut Vec<DocumentBuf>,
    piece: &[u8],
) -> Result<Fed, ReadRefusal>
    requires { IsOpen reader.old.held }
    ensures gathers { IfOk result (λ fed. Gathers documents.old.items reader.old piece.now
        documents.new.items reader.new fed) }
    ensures refused { IfErr result (λ e. (bytes : List ℕ)
        → Gathered bytes documents.old.items reader.old
        → IsUnread reader.old.limit (bytes ++ piece.now) e) }
{
    let mut taken = 0;
    loop {
        let fed = reader.feed(&piece[taken..])?;
        taken += fed.taken;
        let Some(document) = reader.document() else {
            return Ok(Fed {
                taken,
                state: fed.state,
            });
        };
        let Ok(copy) = DocumentBuf::copy_of(alloc, document) else {
            return Err(ReadRefusal::OutOfMemory);
        };
        let Ok(()) = documents.push(copy) else {
            return Err(ReadRefusal::OutOfMemory);
        };
        reader.release();
    }
}
