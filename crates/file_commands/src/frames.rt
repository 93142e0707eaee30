//! Messages of any opCode out of an input, and the text of each.

ghost use Rattle.std.specs.Prelude.{◌≡◌, IfOk};
ghost use Rattle.file_commands.specs.Any.{IsOpenFrame, frames_of};
ghost use Rattle.file_commands.specs.FrameWalk.{any_reading, any_tells};
ghost use Rattle.file_commands.specs.ItemWalk.{GoesOverItems};
ghost use Rattle.file_commands.specs.Walk.{Tells};

use crate::input_fault::InputFault;
use crate::walk::{Stop, Walk};
use std::alloc::Global;
use std::io;
use std::io::Write;
use wire_frames::{FrameFront, FrameReader};
use wire_msg::{MAX_MESSAGE_LEN, MsgFault};
use wire_text::write_frame;

/// Reads the messages of an input, of any opCode.
#[derive(Drop)]
pub struct AnyReader {
    /// Looks the names of messages up.
    alloc: Global,
    /// Holds the frame that isn't whole yet.
    frames: FrameReader,
    /// The offset at which it begins.
    start: usize,
}

/// Feeds `piece` to `reader`, and writes the text of each frame that becomes whole. Returns why no
/// more frames are read, if none are: then the reader stands where that is. Errs if the writer
/// does.
fn write_each<W: Write>(
    reader: &mut AnyReader,
    piece: &[u8],
    out: &mut W,
) -> io::Result<Option<Stop>>
    requires { IsOpenFrame reader.old.frames.limit reader.old.frames.held }
    ensures { IfOk result (λ stop. GoesOverItems frames_of (any_reading reader.old)
        piece.now (any_reading reader.new) stop (W.contents out.old) (W.contents out.new)) }
{
    let mut rest = piece;
    loop {
        let Ok(taken) = reader.frames.feed(rest) else {
            return Ok(Some(Stop::OutOfMemory));
        };
        rest = &rest[taken..];
        match reader.frames.front() {
            FrameFront::Open { .. } => {
                if rest.is_empty() {
                    return Ok(None);
                }
            }
            FrameFront::Bad(fault) => {
                let at = reader.start;
                let cause = fault.cause;
                return Ok(Some(Stop::Fault(InputFault::Msg(MsgFault { at, cause }))));
            }
            FrameFront::Whole { frame, .. } => {
                // No offset above 2 ^ 64 - 1 is told: an input of so many bytes isn't read to its
                // end.
                let Some(behind) = reader.start.checked_add(frame.as_bytes().len()) else {
                    return Ok(Some(Stop::OutOfMemory));
                };
                write_frame(reader.alloc, frame, reader.start, out)?;
                reader.frames.release();
                reader.start = behind;
            }
        }
    }
}

/// The messages of an input, of any opCode.
#[derive(Drop)]
pub struct Frames;

impl Walk for Frames {
    type Reader = AnyReader;

    ghost tells = { λ f. any_tells };

    fn start(&self, alloc: Global) -> AnyReader {
        let frames = FrameReader::new(alloc, MAX_MESSAGE_LEN);
        AnyReader {
            alloc,
            frames,
            start: 0,
        }
    }

    fn write_piece<W: Write>(
        &self,
        reader: &mut AnyReader,
        piece: &[u8],
        out: &mut W,
    ) -> io::Result<Option<Stop>> {
        write_each(reader, piece, out)
    }

    fn fault_at_end(&self, reader: &AnyReader) -> Option<InputFault> {
        if reader.frames.held() == 0 {
            return None;
        }
        let offset = reader.start;
        Some(InputFault::EndedInside { offset })
    }

    fn write_closing<W: Write>(&self, _reader: &AnyReader, _out: &mut W) -> io::Result<()> {
        Ok(())
    }
}
