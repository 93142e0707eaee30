//! Writes the value of a pair, up to the pairs that it holds.

ghost use Rattle.std.specs.Prelude.{◌≡◌, ◌++◌, ◌∷◌, [], OnOk, codes};
ghost use Rattle.std.specs.Fmt.{signed_decimal};
ghost use Rattle.json.specs.Print.{quoted};
ghost use Rattle.bson_raw.specs.{Shows, TreeValue};
ghost use Rattle.text_writer.specs.{WritesOut, text_contents};
ghost use Rattle.bson_json.specs.Json as spec;
ghost use Rattle.bson_json.specs.Walks.{IsFrontJson, WritesOne, front_json};

use crate::date::write_date;
use crate::decimal128::write_decimal128;
use crate::double::{write_double, write_named_integer};
use crate::mode::Mode;
use crate::options::write_options;
use crate::text::{write_base64, write_quoted};
use bson_raw::RawBson;
use std::io::Write;
use text_writer::{Failed, TextWriter, write_hex, write_number};

/// Writes a word, a text as a JSON string, and what closes them.
fn write_worded<W: Write>(
    word: &[u8],
    text: &str,
    end: &[u8],
    out: &mut TextWriter<W>,
) -> Result<(), Failed>
    ensures { OnOk result (WritesOut (text_contents W.contents) out.old out.new
        (word.now ++ (quoted text.now ++ end.now))) }
{
    out.write_all(word)?;
    write_quoted(text, out)?;
    out.write_all(end)
}

/// Writes an integer, under this name in canonical JSON.
fn write_integer<W: Write>(
    name: &[u8],
    number: i64,
    mode: Mode,
    out: &mut TextWriter<W>,
) -> Result<(), Failed>
    ensures { OnOk result (WritesOut (text_contents W.contents) out.old out.new
        (spec.integer_json mode name.now number)) }
{
    match mode {
        Mode::Canonical => write_named_integer(name, number, out),
        Mode::Relaxed => write_number(number, out),
    }
}

/// Writes the data of a binary as base64, and its subtype in hexadecimal.
fn write_binary<W: Write>(subtype: u8, bytes: &[u8], out: &mut TextWriter<W>) -> Result<(), Failed>
    ensures { OnOk result (WritesOut (text_contents W.contents) out.old out.new
        (spec.binary_json subtype bytes.now)) }
{
    out.write_all(b"{\"$binary\":{\"base64\":\"")?;
    write_base64(bytes, out)?;
    out.write_all(b"\",\"subType\":\"")?;
    write_hex(&[subtype], out)?;
    out.write_all(b"\"}}")
}

/// Writes the digits of an ObjectId.
fn write_object_id<W: Write>(id: &[u8; 12], out: &mut TextWriter<W>) -> Result<(), Failed>
    ensures { OnOk result (WritesOut (text_contents W.contents) out.old out.new
        (spec.object_id_json id.now)) }
{
    out.write_all(b"{\"$oid\":\"")?;
    write_hex(id, out)?;
    out.write_all(b"\"}")
}

/// Writes a regular expression: the pattern, and the options in alphabetical order.
fn write_regex<W: Write>(
    pattern: &str,
    options: &str,
    out: &mut TextWriter<W>,
) -> Result<(), Failed>
    ensures { OnOk result (WritesOut (text_contents W.contents) out.old out.new
        (spec.regex_json pattern.now options.now)) }
{
    out.write_all(b"{\"$regularExpression\":{\"pattern\":")?;
    write_quoted(pattern, out)?;
    out.write_all(b",\"options\":")?;
    write_options(options, out)?;
    out.write_all(b"}}")
}

/// Writes a DBPointer: the namespace and the ObjectId.
fn write_db_pointer<W: Write>(
    namespace: &str,
    id: &[u8; 12],
    out: &mut TextWriter<W>,
) -> Result<(), Failed>
    ensures { OnOk result (WritesOut (text_contents W.contents) out.old out.new
        (spec.db_pointer_json namespace.now id.now)) }
{
    out.write_all(b"{\"$dbPointer\":{\"$ref\":")?;
    write_quoted(namespace, out)?;
    out.write_all(b",\"$id\":")?;
    write_object_id(id, out)?;
    out.write_all(b"}}")
}

/// Writes a timestamp.
fn write_timestamp<W: Write>(
    seconds: u32,
    increment: u32,
    out: &mut TextWriter<W>,
) -> Result<(), Failed>
    ensures { OnOk result (WritesOut (text_contents W.contents) out.old out.new
        (spec.timestamp_json seconds increment)) }
{
    out.write_all(b"{\"$timestamp\":{\"t\":")?;
    write_number(seconds, out)?;
    out.write_all(b",\"i\":")?;
    write_number(increment, out)?;
    out.write_all(b"}}")
}

/// Writes a decimal128 under its name.
fn write_decimal<W: Write>(bytes: [u8; 16], out: &mut TextWriter<W>) -> Result<(), Failed>
    ensures { OnOk result (WritesOut (text_contents W.contents) out.old out.new
        (spec.decimal_json bytes)) }
{
    out.write_all(b"{\"$numberDecimal\":\"")?;
    write_decimal128(bytes, out)?;
    out.write_all(b"\"}")
}

/// Writes `true` or `false`.
fn write_boolean<W: Write>(value: bool, out: &mut TextWriter<W>) -> Result<(), Failed>
    ensures { OnOk result (WritesOut (text_contents W.contents) out.old out.new
        (spec.boolean_json value)) }
{
    let word = if value { "true" } else { "false" };
    out.write_all(word.as_bytes())
}

/// Writes a value that is neither a double nor a date, up to the pairs that it holds. Of those two
/// it writes nothing.
fn write_other<W: Write>(
    value: RawBson<'_>,
    mode: Mode,
    out: &mut TextWriter<W>,
) -> Result<(), Failed>
    ensures { (v : TreeValue) → Shows value.entry v → OnOk result
        (WritesOut (text_contents W.contents) out.old out.new (front_json mode v)) }
{
    match value {
        RawBson::Double(_) | RawBson::DateTime(_) => Ok(()),
        RawBson::String(text) => write_quoted(text, out),
        RawBson::Document(_) => out.write_all(b"{"),
        RawBson::Array(_) => out.write_all(b"["),
        RawBson::Binary { subtype, bytes } => write_binary(subtype, bytes, out),
        RawBson::Undefined => out.write_all(b"{\"$undefined\":true}"),
        RawBson::ObjectId(id) => write_object_id(&id, out),
        RawBson::Boolean(value) => write_boolean(value, out),
        RawBson::Null => out.write_all(b"null"),
        RawBson::Regex { pattern, options } => write_regex(pattern, options, out),
        RawBson::DbPointer { namespace, id } => write_db_pointer(namespace, &id, out),
        RawBson::Code(text) => write_worded(b"{\"$code\":", text, b"}", out),
        RawBson::Symbol(text) => write_worded(b"{\"$symbol\":", text, b"}", out),
        RawBson::CodeWithScope { code, .. } => {
            write_worded(b"{\"$code\":", code, b",\"$scope\":{", out)
        }
        RawBson::Int32(number) => write_integer(b"Int", i64::from(number), mode, out),
        RawBson::Timestamp { increment, seconds } => write_timestamp(seconds, increment, out),
        RawBson::Int64(number) => write_integer(b"Long", number, mode, out),
        RawBson::Decimal128(bytes) => write_decimal(bytes, out),
        RawBson::MinKey => out.write_all(b"{\"$minKey\":1}"),
        RawBson::MaxKey => out.write_all(b"{\"$maxKey\":1}"),
    }
}

/// Writes a value, up to the pairs that it holds.
pub(crate) fn write_front<W: Write>(
    value: RawBson<'_>,
    mode: Mode,
    out: &mut TextWriter<W>,
) -> Result<(), Failed>
    ensures { (v : TreeValue) → Shows value.entry v → OnOk result
        (WritesOne (text_contents W.contents) out.old out.new (IsFrontJson mode v)) }
{
    match value {
        RawBson::Double(bytes) => write_double(bytes, mode, out),
        RawBson::DateTime(milliseconds) => write_date(milliseconds, mode, out),
        other => write_other(other, mode, out),
    }
}
