//! Writes values that hold no documents.

ghost use Rattle.std.specs.Prelude.{◌≡◌, ◌++◌, ◌∷◌, [], OnOk};
ghost use Rattle.bson_elem.specs.declared.kinds.Kind.TheVariants as kinds;
ghost use Rattle.bson_raw.specs.{Shows, TreeValue};
ghost use Rattle.text_writer.specs.{WritesOut, text_contents};
ghost use Rattle.byte_views.specs.Pickles as spec;
ghost use Rattle.byte_views.specs.PickleParts.{leaf_part};

use crate::pickle::opcodes::{BINFLOAT, BININT, BININT1, LONG1, NEWFALSE, NEWTRUE, NONE};
use crate::pickle::parts::{
    begin_made, begin_one, end_made, end_one, write_bytes, write_long, write_text,
};
use bson_elem::Kind;
use bson_raw::RawBson;
use std::io::Write;
use text_writer::{Failed, TextWriter};

/// Writes a double.
fn write_double<W: Write>(bytes: [u8; 8], out: &mut TextWriter<W>) -> Result<(), Failed>
    ensures { OnOk result (WritesOut (text_contents W.contents) out.old out.new
        (71 ∷ spec.highest_first bytes)) }
{
    let [a, b, c, d, e, f, g, h] = u64::from_le_bytes(bytes).to_be_bytes();
    out.write_all(&[BINFLOAT, a, b, c, d, e, f, g, h])
}

/// Writes an int32.
fn write_int32<W: Write>(bits: u32, out: &mut TextWriter<W>) -> Result<(), Failed>
    ensures { OnOk result (WritesOut (text_contents W.contents) out.old out.new
        (spec.int32_pickle bits)) }
{
    let [a, b, c, d] = bits.to_le_bytes();
    out.write_all(&[BININT, a, b, c, d])
}

/// Writes a number without a sign.
fn write_unsigned<W: Write>(number: u32, out: &mut TextWriter<W>) -> Result<(), Failed>
    ensures { OnOk result (WritesOut (text_contents W.contents) out.old out.new
        (spec.unsigned_pickle number)) }
{
    let [a, b, c, d] = number.to_le_bytes();
    out.write_all(&[LONG1, 5, a, b, c, d, 0])
}

/// Writes a boolean.
fn write_boolean<W: Write>(value: bool, out: &mut TextWriter<W>) -> Result<(), Failed>
    ensures { OnOk result (WritesOut (text_contents W.contents) out.old out.new
        (spec.boolean_pickle value)) }
{
    let opcode = if value { NEWTRUE } else { NEWFALSE };
    out.write_all(&[opcode])
}

/// Writes a value that is made of nothing but its kind.
fn write_made<W: Write>(kind: Kind, out: &mut TextWriter<W>) -> Result<(), Failed>
    ensures { OnOk result (WritesOut (text_contents W.contents) out.old out.new
        (spec.made kind [])) }
{
    begin_made(kind, out)?;
    end_made(out)
}

/// Writes a value that is made of bytes.
fn write_made_bytes<W: Write>(
    kind: Kind,
    bytes: &[u8],
    out: &mut TextWriter<W>,
) -> Result<(), Failed>
    ensures { OnOk result (WritesOut (text_contents W.contents) out.old out.new
        (spec.made_of_one kind (spec.bytes_pickle bytes.now))) }
{
    begin_one(kind, out)?;
    write_bytes(bytes, out)?;
    end_one(out)
}

/// Writes a value that is made of a text.
fn write_made_text<W: Write>(kind: Kind, text: &str, out: &mut TextWriter<W>) -> Result<(), Failed>
    ensures { OnOk result (WritesOut (text_contents W.contents) out.old out.new
        (spec.made_of_one kind (spec.text_pickle text.now))) }
{
    begin_one(kind, out)?;
    write_text(text, out)?;
    end_one(out)
}

/// Writes a date.
fn write_date<W: Write>(milliseconds: u64, out: &mut TextWriter<W>) -> Result<(), Failed>
    ensures { OnOk result (WritesOut (text_contents W.contents) out.old out.new
        (spec.made_of_one kinds.DateTime (spec.long_pickle milliseconds))) }
{
    begin_one(Kind::DateTime, out)?;
    write_long(milliseconds, out)?;
    end_one(out)
}

/// Writes a binary of this subtype.
fn write_made_binary<W: Write>(
    subtype: u8,
    bytes: &[u8],
    out: &mut TextWriter<W>,
) -> Result<(), Failed>
    ensures { OnOk result (WritesOut (text_contents W.contents) out.old out.new
        (spec.made kinds.Binary (spec.small_pickle subtype ++ spec.bytes_pickle bytes.now))) }
{
    begin_made(Kind::Binary, out)?;
    out.write_all(&[BININT1, subtype])?;
    write_bytes(bytes, out)?;
    end_made(out)
}

/// Writes a binary.
fn write_binary<W: Write>(subtype: u8, bytes: &[u8], out: &mut TextWriter<W>) -> Result<(), Failed>
    ensures { OnOk result (WritesOut (text_contents W.contents) out.old out.new
        (spec.binary_pickle subtype bytes.now)) }
{
    if subtype == 0 {
        return write_bytes(bytes, out);
    }
    write_made_binary(subtype, bytes, out)
}

/// Writes a regular expression.
fn write_regex<W: Write>(
    pattern: &str,
    options: &str,
    out: &mut TextWriter<W>,
) -> Result<(), Failed>
    ensures { OnOk result (WritesOut (text_contents W.contents) out.old out.new
        (spec.made kinds.Regex (spec.text_pickle pattern.now ++ spec.text_pickle options.now))) }
{
    begin_made(Kind::Regex, out)?;
    write_text(pattern, out)?;
    write_text(options, out)?;
    end_made(out)
}

/// Writes a DBPointer.
fn write_db_pointer<W: Write>(
    namespace: &str,
    id: &[u8],
    out: &mut TextWriter<W>,
) -> Result<(), Failed>
    ensures { OnOk result (WritesOut (text_contents W.contents) out.old out.new
        (spec.made kinds.DbPointer (spec.text_pickle namespace.now ++ spec.bytes_pickle id.now))) }
{
    begin_made(Kind::DbPointer, out)?;
    write_text(namespace, out)?;
    write_bytes(id, out)?;
    end_made(out)
}

/// Writes a timestamp.
fn write_timestamp<W: Write>(
    seconds: u32,
    increment: u32,
    out: &mut TextWriter<W>,
) -> Result<(), Failed>
    ensures { OnOk result (WritesOut (text_contents W.contents) out.old out.new
        (spec.made kinds.Timestamp
        (spec.unsigned_pickle seconds ++ spec.unsigned_pickle increment))) }
{
    begin_made(Kind::Timestamp, out)?;
    write_unsigned(seconds, out)?;
    write_unsigned(increment, out)?;
    end_made(out)
}

/// Writes a value, or nothing of one that holds a document.
pub(crate) fn write_leaf<W: Write>(
    value: RawBson<'_>,
    out: &mut TextWriter<W>,
) -> Result<(), Failed>
    ensures { (v : TreeValue) → Shows value.entry v → OnOk result
        (WritesOut (text_contents W.contents) out.old out.new (leaf_part v)) }
{
    match value {
        RawBson::Double(bytes) => write_double(bytes, out),
        RawBson::String(text) => write_text(text, out),
        RawBson::Binary { subtype, bytes } => write_binary(subtype, bytes, out),
        RawBson::Undefined => write_made(Kind::Undefined, out),
        RawBson::ObjectId(id) => write_made_bytes(Kind::ObjectId, &id, out),
        RawBson::Boolean(value) => write_boolean(value, out),
        RawBson::DateTime(milliseconds) => write_date(milliseconds.cast_unsigned(), out),
        RawBson::Null => out.write_all(&[NONE]),
        RawBson::Regex { pattern, options } => write_regex(pattern, options, out),
        RawBson::DbPointer { namespace, id } => write_db_pointer(namespace, &id, out),
        RawBson::Code(text) => write_made_text(Kind::Code, text, out),
        RawBson::Symbol(text) => write_made_text(Kind::Symbol, text, out),
        RawBson::Int32(number) => write_int32(number.cast_unsigned(), out),
        RawBson::Timestamp { increment, seconds } => write_timestamp(seconds, increment, out),
        RawBson::Int64(number) => write_long(number.cast_unsigned(), out),
        RawBson::Decimal128(bytes) => write_made_bytes(Kind::Decimal128, &bytes, out),
        RawBson::MinKey => write_made(Kind::MinKey, out),
        RawBson::MaxKey => write_made(Kind::MaxKey, out),
        RawBson::Document(_) | RawBson::Array(_) | RawBson::CodeWithScope { .. } => Ok(()),
    }
}
