//! Writes the options of a regular expression, in alphabetical order.

ghost use Rattle.std.specs.Prelude.{◌≡◌, ◌≢◌, ◌==◌, true, IsTrue, MatchBool, OnOk, filter};
ghost use Rattle.std.specs.Prelude.{flat_map};
ghost use Rattle.std.specs.Char.{is_ascii};
ghost use Rattle.std.specs.List.{list_all};
ghost use Rattle.json.specs.Print.{escape_byte, quoted};
ghost use Rattle.text_writer.specs.{WritesOut, text_contents};
ghost use Rattle.bson_json.specs.Options.{alphabetical, in_order};

use crate::text::{write_escaped, write_quoted};
use std::io::Write;
use text_writer::{Failed, TextWriter};

/// Returns true if these options are characters of ASCII, but not in alphabetical order. All others
/// stay as they are.
pub fn is_out_of_order(options: &[u8]) -> bool
    ensures cases { MatchBool result (list_all is_ascii options.now ≡ true)
        (alphabetical options.now ≡ options.now) }
    ensures moved { IsTrue result → alphabetical options.now ≢ options.now }
{
    let mut last = 0;
    for c in options {
        if *c < last {
            return options.is_ascii();
        }
        last = *c;
    }
    false
}

/// Writes the characters of this code, as they appear in a JSON string.
fn write_each<W: Write>(code: u8, options: &[u8], out: &mut TextWriter<W>) -> Result<(), Failed>
    ensures { OnOk result (WritesOut (text_contents W.contents) out.old out.new
        (flat_map escape_byte (filter (λ c. c == code) options.now))) }
{
    for c in options {
        if *c == code {
            write_escaped(*c, out)?;
        }
    }
    Ok(())
}

/// Writes the characters of ASCII in order of their codes, as they appear in a JSON string.
fn write_in_order<W: Write>(options: &[u8], out: &mut TextWriter<W>) -> Result<(), Failed>
    ensures { OnOk result (WritesOut (text_contents W.contents) out.old out.new
        (flat_map escape_byte (in_order 128 options.now))) }
{
    for code in 0..128 {
        write_each(code, options, out)?;
    }
    Ok(())
}

/// Writes options in alphabetical order, as a JSON string.
pub(crate) fn write_options<W: Write>(options: &str, out: &mut TextWriter<W>) -> Result<(), Failed>
    ensures { OnOk result (WritesOut (text_contents W.contents) out.old out.new
        (quoted (alphabetical options.now))) }
{
    let bytes = options.as_bytes();
    if !is_out_of_order(bytes) {
        return write_quoted(options, out);
    }
    out.write_all(b"\"")?;
    write_in_order(bytes, out)?;
    out.write_all(b"\"")
}
