//! Reads all messages of bytes that come in pieces.

ghost use Rattle.std.specs.Prelude.{◌≡◌, ◌≤◌, ◌++◌, IfOk, List, OnErr, flat_map, ℕ};
ghost use Rattle.wire_msg.specs.declared.header.TheConstants.{MAX_MESSAGE_LEN};
ghost use Rattle.wire_msg.specs.{IsOpen};
ghost use Rattle.wire_stream.specs.Cutting.{AnnouncesMore, Cuts};
ghost use Rattle.wire_stream.specs.Gathering.{Gathered, Gathers};

use crate::msg_buf::MsgBuf;
use crate::reader::MsgReader;
use crate::reader_state::{Fed, ReadRefusal, ReaderState};
use std::alloc::Global;

/// The messages of some bytes, and the reader that holds what follows them.
#[derive(Drop)]
pub struct PiecesRead {
    /// The messages, in order.
    pub messages: Vec<MsgBuf>,
    /// The reader, which needs more bytes or has met bad ones.
    pub reader: MsgReader,
}

/// Reads all messages of at most `limit` bytes in the bytes of `pieces`, however these are cut.
/// Returns them, and a reader that holds the rest. Of a bad rest it holds the 16 bytes of a bad
/// header, or the bytes that a good header announces, and takes none of those after them.
///
/// # Errors
///
/// Returns `OutOfMemory` if memory runs out: for a message that a good header announces, or for the
/// list of messages.
pub fn read_pieces(alloc: Global, limit: u32, pieces: &[&[u8]]) -> Result<PiecesRead, ReadRefusal>
    requires { limit ≤ MAX_MESSAGE_LEN }
    ensures limit { IfOk result (λ read. read.reader.limit ≡ limit) }
    ensures cuts { IfOk result (λ read.
        Cuts limit (flat_map
        (λ piece. piece.now) pieces.now) read.messages.items read.reader.held) }
    ensures refused { OnErr result
        (AnnouncesMore limit (flat_map (λ piece. piece.now) pieces.now)) }
{
    let mut reader = MsgReader::new(alloc, limit);
    let mut messages = Vec::new(alloc);
    for piece in pieces {
        let fed = read_piece(&mut reader, &mut messages, piece)?;
        let ReaderState::Need = fed.state else {
            return Ok(PiecesRead { messages, reader });
        };
    }
    Ok(PiecesRead { messages, reader })
}

/// Feeds the piece to a reader that needs more, and moves each message that becomes whole out of
/// it, to the end of `messages`. Returns how many bytes of the piece were taken, and the reader's
/// state after them.
///
/// # Errors
///
/// Returns `OutOfMemory` if memory runs out.
fn read_piece(
    reader: &mut MsgReader,
    messages: &mut Vec<MsgBuf>,
    piece: &[u8],
) -> Result<Fed, ReadRefusal>
    requires { IsOpen reader.old.limit reader.old.held }
    ensures limit { reader.new.limit ≡ reader.old.limit }
    ensures gathers { IfOk result
        (λ fed. Gathers reader.old.limit messages.old.items reader.old.held piece.now
        messages.new.items reader.new.held fed) }
    ensures refused { OnErr result
        ((bytes : List ℕ) → Gathered reader.old.limit bytes messages.old.items reader.old.held
        → AnnouncesMore reader.old.limit (bytes ++ piece.now)) }
{
    let mut taken = 0;
    loop {
        let fed = reader.feed(&piece[taken..])?;
        taken += fed.taken;
        let Some(message) = reader.take() else {
            return Ok(Fed {
                taken,
                state: fed.state,
            });
        };
        let Ok(()) = messages.push(message) else {
            return Err(ReadRefusal::OutOfMemory);
        };
    }
}
