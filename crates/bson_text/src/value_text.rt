//! Writes what follows an element's name: a space, the word of the kind, and the value if the kind
//! has one.
//!
//! No function here writes the name or the line feed. A kind without a value is its word alone, as
//! ` null`, and has no function here. Kinds whose values are plain bytes share `write_raw`.

ghost use Rattle.std.specs.Prelude.{◌++◌, OnOk};
ghost use Rattle.hex.specs.Hex.{encode_lower};
ghost use Rattle.bson_text.specs.ValueText.{array_text, binary_text, boolean_text, code_text};
ghost use Rattle.bson_text.specs.ValueText.{codescope_text, datetime_text, dbpointer_text};
ghost use Rattle.bson_text.specs.ValueText.{inner_document_text, int32_text, int64_text};
ghost use Rattle.bson_text.specs.ValueText.{regex_text, string_text, symbol_text, timestamp_text};
ghost use Rattle.text_writer.specs.{WritesOut, text_contents};

use crate::text::write_quoted;
use std::io::Write;
use text_writer::{Failed, TextWriter, write_hex, write_number};

/// Writes `word`, which has a space before and after it, and the digits of the bytes in file order.
#[inline(always)]
pub(crate) fn write_raw<W: Write>(
    word: &[u8],
    bytes: &[u8],
    out: &mut TextWriter<W>,
) -> Result<(), Failed>
    ensures { OnOk result (WritesOut (text_contents W.contents) out.old out.new
        (word.now ++ encode_lower bytes.now)) }
{
    out.write_all(word)?;
    write_hex(bytes, out)
}

/// Writes ` string ` and the quoted text.
pub(crate) fn write_string<W: Write>(text: &str, out: &mut TextWriter<W>) -> Result<(), Failed>
    ensures { OnOk result (WritesOut (text_contents W.contents) out.old out.new
        (string_text text.now)) }
{
    out.write_all(b" string ")?;
    write_quoted(text, out)
}

/// Writes ` document ` and its size in bytes.
pub(crate) fn write_inner_document<W: Write>(
    size: usize,
    out: &mut TextWriter<W>,
) -> Result<(), Failed>
    ensures { OnOk result (WritesOut (text_contents W.contents) out.old out.new
        (inner_document_text size)) }
{
    out.write_all(b" document ")?;
    write_number(size, out)
}

/// Writes ` array ` and its size in bytes.
pub(crate) fn write_array<W: Write>(size: usize, out: &mut TextWriter<W>) -> Result<(), Failed>
    ensures { OnOk result (WritesOut (text_contents W.contents) out.old out.new (array_text size)) }
{
    out.write_all(b" array ")?;
    write_number(size, out)
}

/// Writes ` binary `, the subtype, the number of data bytes and, if there are any, the data.
pub(crate) fn write_binary<W: Write>(
    subtype: u8,
    bytes: &[u8],
    out: &mut TextWriter<W>,
) -> Result<(), Failed>
    ensures { OnOk result (WritesOut (text_contents W.contents) out.old out.new
        (binary_text subtype bytes.now)) }
{
    out.write_all(b" binary ")?;
    write_hex(&[subtype], out)?;
    out.write_all(b" ")?;
    write_number(bytes.len(), out)?;
    if bytes.is_empty() {
        return Ok(());
    }
    out.write_all(b" ")?;
    write_hex(bytes, out)
}

/// Writes ` boolean true` or ` boolean false`.
pub(crate) fn write_boolean<W: Write>(value: bool, out: &mut TextWriter<W>) -> Result<(), Failed>
    ensures { OnOk result (WritesOut (text_contents W.contents) out.old out.new
        (boolean_text value)) }
{
    let text = if value {
        " boolean true"
    } else {
        " boolean false"
    };
    out.write_all(text.as_bytes())
}

/// Writes ` datetime ` and the milliseconds since 1970 in UTC.
pub(crate) fn write_datetime<W: Write>(
    milliseconds: i64,
    out: &mut TextWriter<W>,
) -> Result<(), Failed>
    ensures { OnOk result (WritesOut (text_contents W.contents) out.old out.new
        (datetime_text milliseconds)) }
{
    out.write_all(b" datetime ")?;
    write_number(milliseconds, out)
}

/// Writes ` regex `, the quoted pattern and the quoted options.
pub(crate) fn write_regex<W: Write>(
    pattern: &str,
    options: &str,
    out: &mut TextWriter<W>,
) -> Result<(), Failed>
    ensures { OnOk result (WritesOut (text_contents W.contents) out.old out.new
        (regex_text pattern.now options.now)) }
{
    out.write_all(b" regex ")?;
    write_quoted(pattern, out)?;
    out.write_all(b" ")?;
    write_quoted(options, out)
}

/// Writes ` dbpointer `, the quoted name and the 24 digits of the id.
pub(crate) fn write_dbpointer<W: Write>(
    name: &str,
    id: &[u8; 12],
    out: &mut TextWriter<W>,
) -> Result<(), Failed>
    ensures { OnOk result (WritesOut (text_contents W.contents) out.old out.new
        (dbpointer_text name.now id.now)) }
{
    out.write_all(b" dbpointer ")?;
    write_quoted(name, out)?;
    out.write_all(b" ")?;
    write_hex(id, out)
}

/// Writes ` code ` and the quoted code.
pub(crate) fn write_code<W: Write>(text: &str, out: &mut TextWriter<W>) -> Result<(), Failed>
    ensures { OnOk result (WritesOut (text_contents W.contents) out.old out.new
        (code_text text.now)) }
{
    out.write_all(b" code ")?;
    write_quoted(text, out)
}

/// Writes ` symbol ` and the quoted text.
pub(crate) fn write_symbol<W: Write>(text: &str, out: &mut TextWriter<W>) -> Result<(), Failed>
    ensures { OnOk result (WritesOut (text_contents W.contents) out.old out.new
        (symbol_text text.now)) }
{
    out.write_all(b" symbol ")?;
    write_quoted(text, out)
}

/// Writes ` codescope `, the quoted code and the scope's size in bytes.
pub(crate) fn write_codescope<W: Write>(
    code: &str,
    size: usize,
    out: &mut TextWriter<W>,
) -> Result<(), Failed>
    ensures { OnOk result (WritesOut (text_contents W.contents) out.old out.new
        (codescope_text code.now size)) }
{
    out.write_all(b" codescope ")?;
    write_quoted(code, out)?;
    out.write_all(b" ")?;
    write_number(size, out)
}

/// Writes ` int32 ` and the number.
pub(crate) fn write_int32<W: Write>(value: i32, out: &mut TextWriter<W>) -> Result<(), Failed>
    ensures { OnOk result (WritesOut (text_contents W.contents) out.old out.new
        (int32_text value)) }
{
    out.write_all(b" int32 ")?;
    write_number(value, out)
}

/// Writes ` timestamp `, the seconds and the increment.
pub(crate) fn write_timestamp<W: Write>(
    seconds: u32,
    increment: u32,
    out: &mut TextWriter<W>,
) -> Result<(), Failed>
    ensures { OnOk result (WritesOut (text_contents W.contents) out.old out.new
        (timestamp_text seconds increment)) }
{
    out.write_all(b" timestamp ")?;
    write_number(seconds, out)?;
    out.write_all(b" ")?;
    write_number(increment, out)
}

/// Writes ` int64 ` and the number.
pub(crate) fn write_int64<W: Write>(value: i64, out: &mut TextWriter<W>) -> Result<(), Failed>
    ensures { OnOk result (WritesOut (text_contents W.contents) out.old out.new
        (int64_text value)) }
{
    out.write_all(b" int64 ")?;
    write_number(value, out)
}
