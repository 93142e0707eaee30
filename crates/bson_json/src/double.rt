//! Writes the number of a double.

ghost use Rattle.std.specs.Prelude.{◌++◌, IsFalse, OnOk, codes};
ghost use Rattle.std.specs.Float.{float_is_finite};
ghost use Rattle.std.specs.Fmt.{signed_decimal};
ghost use Rattle.bson_raw.specs.{double_of};
ghost use Rattle.text_writer.specs.{WritesOut, text_contents};
ghost use Rattle.bson_json.specs.Json.{IsNumberText, double_json, number_named};
ghost use Rattle.bson_json.specs.Json.{IsDoubleJson};
ghost use Rattle.bson_json.specs.Walks.{WritesOne};

use crate::mode::Mode;
use bson_raw::double_from_bytes;
use ryu::Buffer;
use std::io::Write;
use text_writer::{Failed, TextWriter};

/// Writes `{"$number`, the name, and the number's text as a text.
pub(crate) fn write_named<W: Write>(
    name: &[u8],
    text: &[u8],
    out: &mut TextWriter<W>,
) -> Result<(), Failed>
    ensures { OnOk result (WritesOut (text_contents W.contents) out.old out.new
        (number_named name.now text.now)) }
{
    out.write_all(b"{\"$number")?;
    out.write_all(name)?;
    out.write_all(b"\":\"")?;
    out.write_all(text)?;
    out.write_all(b"\"}")
}

/// Writes an integer under a name, as text.
pub(crate) fn write_named_integer<W: Write>(
    name: &[u8],
    number: i64,
    out: &mut TextWriter<W>,
) -> Result<(), Failed>
    ensures { OnOk result (WritesOut (text_contents W.contents) out.old out.new
        (number_named name.now (signed_decimal number))) }
{
    let mut digits = itoa::Buffer::new();
    write_named(name, digits.format(number).as_bytes(), out)
}

/// Returns the name of a number that isn't finite.
fn special_name(number: f64) -> &'static str
    requires { IsFalse (float_is_finite number) }
    ensures { IsNumberText number result.now }
{
    if number.is_nan() {
        "NaN"
    } else if number.is_sign_negative() {
        "-Infinity"
    } else {
        "Infinity"
    }
}

/// Returns the text of a number.
fn number_text(number: f64, buffer: &mut Buffer) -> &str
    ensures { IsNumberText number result.now }
{
    if number.is_finite() {
        buffer.format_finite_with_plus(number)
    } else {
        special_name(number)
    }
}

/// Writes a double whose number has this text.
fn write_text<W: Write>(
    number: f64,
    text: &[u8],
    mode: Mode,
    out: &mut TextWriter<W>,
) -> Result<(), Failed>
    ensures { OnOk result (WritesOut (text_contents W.contents) out.old out.new
        (double_json mode number text.now)) }
{
    match mode {
        Mode::Canonical => write_named(b"Double", text, out),
        Mode::Relaxed if number.is_finite() => out.write_all(text),
        Mode::Relaxed => write_named(b"Double", text, out),
    }
}

/// Writes a double, by its 8 bytes.
pub(crate) fn write_double<W: Write>(
    bytes: [u8; 8],
    mode: Mode,
    out: &mut TextWriter<W>,
) -> Result<(), Failed>
    ensures { OnOk result (WritesOne (text_contents W.contents) out.old out.new
        (IsDoubleJson mode (double_of bytes))) }
{
    let number = double_from_bytes(bytes);
    let mut buffer = Buffer::new();
    let text = number_text(number, &mut buffer);
    write_text(number, text.as_bytes(), mode, out)
}
