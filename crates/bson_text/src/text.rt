//! Writes the parts of the text of documents: indentation and quoted text.

ghost use Rattle.std.specs.Prelude.{OnOk, flat_map};
ghost use Rattle.bson_text.specs.Text.{escaped, indent, quoted};
ghost use Rattle.text_writer.specs.{WritesOut, text_contents};

use std::io::Write;
use text_writer::{Failed, TextWriter, first_escaped, write_hex};

/// Writes two spaces `deep` times.
pub(crate) fn write_indent<W: Write>(deep: u32, out: &mut TextWriter<W>) -> Result<(), Failed>
    ensures { OnOk result (WritesOut (text_contents W.contents) out.old out.new (indent deep)) }
{
    for _ in 0..deep {
        out.write_all(b"  ")?;
    }
    Ok(())
}

/// Writes one byte as it appears in quoted text.
fn write_escaped<W: Write>(b: u8, out: &mut TextWriter<W>) -> Result<(), Failed>
    ensures { OnOk result (WritesOut (text_contents W.contents) out.old out.new (escaped b)) }
{
    match b {
        b'"' => out.write_all(b"\\\""),
        b'\\' => out.write_all(b"\\\\"),
        0..=31 | 127 => {
            out.write_all(b"\\x")?;
            write_hex(&[b], out)
        }
        _ => out.write_all(&[b]),
    }
}

/// Writes bytes as they appear in quoted text, each run of bytes that need no escape in one call.
#[inline(never)]
fn write_runs<W: Write>(bytes: &[u8], out: &mut TextWriter<W>) -> Result<(), Failed>
    ensures { OnOk result (WritesOut (text_contents W.contents) out.old out.new
        (flat_map escaped bytes.now)) }
{
    let mut rest = bytes;
    while let Some(at) = first_escaped(rest) {
        let (run, from) = rest.split_at(at);
        out.write_all(run)?;
        write_escaped(from[0], out)?;
        rest = &from[1..];
    }
    out.write_all(rest)
}

/// Writes a text between quotes.
pub(crate) fn write_quoted<W: Write>(text: &str, out: &mut TextWriter<W>) -> Result<(), Failed>
    ensures { OnOk result (WritesOut (text_contents W.contents) out.old out.new (quoted text.now)) }
{
    let bytes = text.as_bytes();
    out.write_all(b"\"")?;
    // Most texts have no byte to escape.
    match first_escaped(bytes) {
        None => out.write_all(bytes)?,
        Some(_) => write_runs(bytes, out)?,
    }
    out.write_all(b"\"")
}
