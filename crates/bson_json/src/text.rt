//! Writes text as a JSON string (RFC 8259, section 7), and bytes as base64 (RFC 4648, section 4).

ghost use Rattle.std.specs.Prelude.{◌≡◌, ◌++◌, ◌*◌, ◌/◌, ◌≤◌, OnOk, flat_map, length};
ghost use Rattle.base64.specs.Engines.{standard};
ghost use Rattle.base64.specs.GeneralPurpose.{encode_of, encoded_size_of};
ghost use Rattle.json.specs.Print.{escape_byte, escape_letter, quoted};
ghost use Rattle.text_writer.specs.{WritesOut, text_contents};

use base64::engine::general_purpose::{GeneralPurpose, STANDARD};
use core::mem::replace_with;
use std::io;
use std::io::Write;
use text_writer::{Failed, TextWriter, first_escaped, write_hex};

/// The most bytes that are written as base64 in one call, a whole number of groups of three.
const BASE64_CHUNK: usize = 768;

/// The most bytes that are written by way of a small buffer, a whole number of groups of three.
const BASE64_FEW: usize = 48;

/// Writes one byte as it appears in a JSON string, if its escape has no letter.
fn write_unnamed<W: Write>(b: u8, out: &mut TextWriter<W>) -> Result<(), Failed>
    ensures { escape_letter b ≡ 0 → OnOk result
        (WritesOut (text_contents W.contents) out.old out.new (escape_byte b)) }
{
    if b < 32 {
        out.write_all(b"\\u00")?;
        return write_hex(&[b], out);
    }
    out.write_all(&[b])
}

/// Writes one byte as it appears in a JSON string.
pub(crate) fn write_escaped<W: Write>(b: u8, out: &mut TextWriter<W>) -> Result<(), Failed>
    ensures { OnOk result (WritesOut (text_contents W.contents) out.old out.new (escape_byte b)) }
{
    match b {
        b'"' => out.write_all(b"\\\""),
        b'\\' => out.write_all(b"\\\\"),
        8 => out.write_all(b"\\b"),
        12 => out.write_all(b"\\f"),
        b'\n' => out.write_all(b"\\n"),
        b'\r' => out.write_all(b"\\r"),
        b'\t' => out.write_all(b"\\t"),
        _ => write_unnamed(b, out),
    }
}

/// Writes bytes as they appear in a JSON string, each run of bytes that need no escape in one
/// call.
#[inline(never)]
fn write_runs<W: Write>(bytes: &[u8], out: &mut TextWriter<W>) -> Result<(), Failed>
    ensures { OnOk result (WritesOut (text_contents W.contents) out.old out.new
        (flat_map escape_byte bytes.now)) }
{
    let mut rest = bytes;
    while let Some(at) = first_escaped(rest) {
        let (run, from) = rest.split_at(at);
        out.write_all(run)?;
        write_escaped(from[0], out)?;
        rest = &from[1..];
    }
    out.write_all(rest)
}

/// Writes a text as a JSON string. In it `"` and `\` follow a backslash, 00 to 1F are `\b`, `\f`,
/// `\n`, `\r`, `\t` or `\u` and four digits, and all other characters are as they are.
pub(crate) fn write_quoted<W: Write>(text: &str, out: &mut TextWriter<W>) -> Result<(), Failed>
    ensures { OnOk result (WritesOut (text_contents W.contents) out.old out.new (quoted text.now)) }
{
    let bytes = text.as_bytes();
    out.write_all(b"\"")?;
    // Most texts have no byte to escape.
    match first_escaped(bytes) {
        None => out.write_all(bytes)?,
        Some(_) => write_runs(bytes, out)?,
    }
    out.write_all(b"\"")
}

/// Like `write_json_string`, but takes the writer by value and returns it.
fn string_through<W: Write>(out: W, string: &str) -> (W, io::Result<()>)
    ensures { OnOk result.1 (WritesOut W.contents out result.0 (quoted string.entry.now)) }
{
    let mut text = TextWriter::new(out);
    let written = write_quoted(string, &mut text);
    text.finish(written)
}

/// Writes a text as a JSON string (RFC 8259, section 7). In it `"` and `\` follow a backslash, 00 to
/// 1F are `\b`, `\f`, `\n`, `\r`, `\t` or `\u` and four digits, and all other characters are as they
/// are.
///
/// # Errors
///
/// Returns the error of the writer, which may have taken a part of the text.
pub fn write_json_string<W: Write>(string: &str, out: &mut W) -> io::Result<()>
    ensures { OnOk result (WritesOut W.contents out.old out.new (quoted string.now)) }
{
    replace_with(out, string, string_through)
}

/// Writes bytes as base64, by way of `buffer`.
fn write_base64_by<W: Write>(
    engine: &GeneralPurpose,
    bytes: &[u8],
    buffer: &mut [u8],
    out: &mut TextWriter<W>,
) -> Result<(), Failed>
    requires { encoded_size_of engine.now (length bytes.now) ≤ length buffer.old }
    ensures written { OnOk result (WritesOut (text_contents W.contents) out.old out.new
        (encode_of engine.now bytes.now)) }
    ensures size { length buffer.new ≡ length buffer.old }
{
    let Ok(len) = engine.encode_slice(bytes, buffer) else {
        unreachable!();
    };
    out.write_all(&buffer[..len])
}

/// Writes any count of bytes as base64.
pub(crate) fn write_base64<W: Write>(bytes: &[u8], out: &mut TextWriter<W>) -> Result<(), Failed>
    ensures { OnOk result (WritesOut (text_contents W.contents) out.old out.new
        (encode_of standard bytes.now)) }
{
    // One engine for all chunks: it holds two tables, which a use of the constant writes anew.
    let engine = &STANDARD;
    if bytes.len() <= BASE64_FEW {
        return write_base64_by(engine, bytes, &mut [0u8; BASE64_FEW / 3 * 4], out);
    }
    let mut buffer = [0u8; BASE64_CHUNK / 3 * 4];
    let mut rest = bytes;
    while rest.len() > BASE64_CHUNK {
        let (chunk, after) = rest.split_at(BASE64_CHUNK);
        write_base64_by(engine, chunk, &mut buffer, out)?;
        rest = after;
    }
    write_base64_by(engine, rest, &mut buffer, out)
}
