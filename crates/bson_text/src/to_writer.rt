//! Writes numbers, quoted text and hexadecimal digits, for texts that contain documents.

ghost use Rattle.std.specs.Prelude.{OnOk};
ghost use Rattle.hex.specs.Hex.{encode_lower};
ghost use Rattle.bson_text.specs.Text.{quoted};
ghost use Rattle.text_writer.specs.{WritesOut};

use crate::text::write_quoted;
use core::mem::replace_with;
use itoa::{Buffer, Integer};
use std::io;
use std::io::Write;
use text_writer::{TextWriter, write_hex};

/// Writes a number in decimal, with `-` if it is negative.
pub fn number_to<I: Integer, W: Write>(number: I, out: &mut W) -> io::Result<()>
    ensures { OnOk result (WritesOut W.contents out.old out.new (I.text number)) }
{
    let mut digits = Buffer::new();
    out.write_all(digits.format(number).as_bytes())
}

/// Like `quoted_to`, but takes the writer by value and returns it.
fn quoted_through<W: Write>(out: W, text: &str) -> (W, io::Result<()>)
    ensures { OnOk result.1 (WritesOut W.contents out result.0 (quoted text.now)) }
{
    let mut waiting = TextWriter::new(out);
    let written = write_quoted(text, &mut waiting);
    waiting.finish(written)
}

/// Writes a text between quotes. In it `"` and `\` follow a backslash, and 00 to 1F and 7F are
/// `\x` and two digits.
pub fn quoted_to<W: Write>(text: &str, out: &mut W) -> io::Result<()>
    ensures { OnOk result (WritesOut W.contents out.old out.new (quoted text.now)) }
{
    replace_with(out, text, quoted_through)
}

/// Like `hex_to`, but takes the writer by value and returns it.
fn hex_through<W: Write>(out: W, bytes: &[u8]) -> (W, io::Result<()>)
    ensures { OnOk result.1 (WritesOut W.contents out result.0 (encode_lower bytes.now)) }
{
    let mut waiting = TextWriter::new(out);
    let written = write_hex(bytes, &mut waiting);
    waiting.finish(written)
}

/// Writes bytes as lower-case hexadecimal digits.
pub fn hex_to<W: Write>(bytes: &[u8], out: &mut W) -> io::Result<()>
    ensures { OnOk result (WritesOut W.contents out.old out.new (encode_lower bytes.now)) }
{
    replace_with(out, bytes, hex_through)
}
