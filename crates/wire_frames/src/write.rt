//! Writes records.

ghost use Rattle.std.specs.Prelude.{◌≡◌, ◌++◌, OnOk, OnErr};
ghost use Rattle.wire_frames.specs.RawFrame.{frame_bytes};
ghost use Rattle.wire_frames.specs.Heads.{IsConnection};
ghost use Rattle.wire_frames.specs.Written.{record_of};

use crate::frame::RawFrame;
use crate::head::RecordHead;
use std::alloc::AllocError;

/// Appends the record of a message to `out`.
///
/// # Errors
///
/// Returns an error if there is no memory for it. Then `out` is unchanged.
pub fn write_record(
    head: RecordHead,
    frame: RawFrame<'_>,
    out: &mut Vec<u8>,
) -> Result<(), AllocError>
    requires { IsConnection head.connection }
    ensures written { OnOk result
        (out.new.items ≡ out.old.items ++ record_of head (frame_bytes frame.entry)) }
    ensures unchanged { OnErr result (out.new.items ≡ out.old.items) }
{
    let start = out.len();
    out.extend_from_slice(&head.to_bytes())?;
    match out.extend_from_slice(frame.as_bytes()) {
        Ok(()) => Ok(()),
        Err(error) => {
            out.truncate(start);
            Err(error)
        }
    }
}
