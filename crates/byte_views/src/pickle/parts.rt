//! Writes the parts that pickles are put together of.

ghost use Rattle.std.specs.Prelude.{◌<◌, ◌∷◌, OnOk, length};
ghost use Rattle.std.specs.Int.{to_le_bytes, w64};
ghost use Rattle.text_writer.specs.{WritesOut, text_contents};
ghost use Rattle.byte_views.specs.Pickles as spec;

use crate::pickle::opcodes::{
    BINBYTES8, BINUNICODE8, EXT4, LONG1, MARK, REDUCE, SHORT_BINBYTES, SHORT_BINUNICODE, TUPLE,
    TUPLE1,
};
use bson_elem::Kind;
use std::io::Write;
use text_writer::{Failed, TextWriter};

/// Writes an opcode and a length of eight bytes.
fn write_head<W: Write>(opcode: u8, length: usize, out: &mut TextWriter<W>) -> Result<(), Failed>
    ensures { OnOk result (WritesOut (text_contents W.contents) out.old out.new
        (opcode ∷ to_le_bytes w64 length)) }
{
    let [a, b, c, d, e, f, g, h] = length.to_le_bytes();
    out.write_all(&[opcode, a, b, c, d, e, f, g, h])
}

/// Writes an opcode, the number of the bytes that follow, and these.
fn write_counted<W: Write>(opcode: u8, bytes: &[u8], out: &mut TextWriter<W>) -> Result<(), Failed>
    ensures { OnOk result (WritesOut (text_contents W.contents) out.old out.new
        (spec.counted opcode bytes.now)) }
{
    write_head(opcode, bytes.len(), out)?;
    out.write_all(bytes)
}

/// Writes an opcode, the number of the bytes that follow as one byte, and these.
fn write_short<W: Write>(opcode: u8, bytes: &[u8], out: &mut TextWriter<W>) -> Result<(), Failed>
    requires { length bytes.now < 256 }
    ensures { OnOk result (WritesOut (text_contents W.contents) out.old out.new
        (spec.short_counted opcode bytes.now)) }
{
    out.write_all(&[opcode, bytes.len() as u8])?;
    out.write_all(bytes)
}

/// Writes a text.
pub(crate) fn write_text<W: Write>(text: &str, out: &mut TextWriter<W>) -> Result<(), Failed>
    ensures { OnOk result (WritesOut (text_contents W.contents) out.old out.new
        (spec.text_pickle text.now)) }
{
    if text.len() < 256 {
        return write_short(SHORT_BINUNICODE, text.as_bytes(), out);
    }
    write_counted(BINUNICODE8, text.as_bytes(), out)
}

/// Writes bytes.
pub(crate) fn write_bytes<W: Write>(bytes: &[u8], out: &mut TextWriter<W>) -> Result<(), Failed>
    ensures { OnOk result (WritesOut (text_contents W.contents) out.old out.new
        (spec.bytes_pickle bytes.now)) }
{
    if bytes.len() < 256 {
        return write_short(SHORT_BINBYTES, bytes, out);
    }
    write_counted(BINBYTES8, bytes, out)
}

/// Writes a number of 64 bits, which are those of a signed one.
pub(crate) fn write_long<W: Write>(bits: u64, out: &mut TextWriter<W>) -> Result<(), Failed>
    ensures { OnOk result (WritesOut (text_contents W.contents) out.old out.new
        (spec.long_pickle bits)) }
{
    let [a, b, c, d, e, f, g, h] = bits.to_le_bytes();
    out.write_all(&[LONG1, 8, a, b, c, d, e, f, g, h])
}

/// Writes what stands before the one part of a value that a function of Python's module makes.
pub(crate) fn begin_one<W: Write>(kind: Kind, out: &mut TextWriter<W>) -> Result<(), Failed>
    ensures { OnOk result (WritesOut (text_contents W.contents) out.old out.new
        (spec.function_of kind)) }
{
    out.write_all(&[EXT4, kind.byte(), b'G', b'U', b'L'])
}

/// Writes what stands behind it.
pub(crate) fn end_one<W: Write>(out: &mut TextWriter<W>) -> Result<(), Failed>
    ensures { OnOk result (WritesOut (text_contents W.contents) out.old out.new spec.one_end) }
{
    out.write_all(&[TUPLE1, REDUCE])
}

/// Writes what stands before the parts of a value that is made of another number of them.
pub(crate) fn begin_made<W: Write>(kind: Kind, out: &mut TextWriter<W>) -> Result<(), Failed>
    ensures { OnOk result (WritesOut (text_contents W.contents) out.old out.new
        (spec.made_front kind)) }
{
    out.write_all(&[EXT4, kind.byte(), b'G', b'U', b'L', MARK])
}

/// Writes what stands behind them.
pub(crate) fn end_made<W: Write>(out: &mut TextWriter<W>) -> Result<(), Failed>
    ensures { OnOk result (WritesOut (text_contents W.contents) out.old out.new spec.made_end) }
{
    out.write_all(&[TUPLE, REDUCE])
}
