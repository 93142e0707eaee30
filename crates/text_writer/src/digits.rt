//! Writes numbers in decimal, and bytes as hexadecimal digits.

ghost use Rattle.std.specs.Prelude.{◌*◌, ◌≤◌, OnOk, length};
ghost use Rattle.hex.specs.Hex.{encode_lower};
ghost use Rattle.text_writer.specs.Contents.{text_contents};
ghost use Rattle.text_writer.specs.Writing.{WritesOut};

use crate::writer::{Failed, TextWriter};
use itoa::{Buffer, Integer};
use std::io::Write;

/// The most bytes that are written as digits in one call.
const HEX_CHUNK: usize = 128;

/// The most bytes that a number or an id has.
const HEX_FEW: usize = 16;

/// Writes a number in decimal, with `-` if it is negative.
pub fn write_number<I: Integer, W: Write>(number: I, out: &mut TextWriter<W>) -> Result<(), Failed>
    ensures { OnOk result (WritesOut (text_contents W.contents) out.old out.new (I.text number)) }
{
    let mut digits = Buffer::new();
    out.write_all(digits.format(number).as_bytes())
}

/// Writes at most 16 bytes as lower-case hexadecimal digits.
fn write_hex_few<W: Write>(few: &[u8], out: &mut TextWriter<W>) -> Result<(), Failed>
    requires { length few.now ≤ HEX_FEW }
    ensures { OnOk result (WritesOut (text_contents W.contents) out.old out.new
        (encode_lower few.now)) }
{
    let mut buffer = [0u8; 2 * HEX_FEW];
    let digits = &mut buffer[..2 * few.len()];
    // Can't fail: the digits just fill the slice.
    let _ = hex::encode_to_slice(few, digits);
    out.write_all(digits)
}

/// Writes at most 128 bytes as lower-case hexadecimal digits.
fn write_hex_chunk<W: Write>(chunk: &[u8], out: &mut TextWriter<W>) -> Result<(), Failed>
    requires { length chunk.now ≤ HEX_CHUNK }
    ensures { OnOk result (WritesOut (text_contents W.contents) out.old out.new
        (encode_lower chunk.now)) }
{
    let mut buffer = [0u8; 2 * HEX_CHUNK];
    let digits = &mut buffer[..2 * chunk.len()];
    // Can't fail: the digits just fill the slice.
    let _ = hex::encode_to_slice(chunk, digits);
    out.write_all(digits)
}

/// Writes any count of bytes as lower-case hexadecimal digits.
pub fn write_hex<W: Write>(bytes: &[u8], out: &mut TextWriter<W>) -> Result<(), Failed>
    ensures { OnOk result (WritesOut (text_contents W.contents) out.old out.new
        (encode_lower bytes.now)) }
{
    if bytes.len() <= HEX_FEW {
        return write_hex_few(bytes, out);
    }
    let mut rest = bytes;
    while !rest.is_empty() {
        let (chunk, after) = rest.split_at(rest.len().min(HEX_CHUNK));
        write_hex_chunk(chunk, out)?;
        rest = after;
    }
    Ok(())
}
