//! Borrows a value from the bytes of its document.

ghost use Rattle.std.specs.Prelude.{◌≡◌};

use crate::array::RawArray;
use crate::document::RawDocument;
use crate::double::{double_from_bytes, double_to_bytes};
use bson_elem::{Item, Kind};

/// A borrowed value, with one variant for each kind. Its texts, bytes, documents and arrays borrow
/// the document's bytes.
#[derive(Clone, Copy, Debug, PartialEq, Eq)]
pub enum RawBson<'a> {
    /// The 8 bytes of the number, exactly as in the document.
    Double([u8; 8]),
    String(&'a str),
    Document(RawDocument<'a>),
    Array(RawArray<'a>),
    /// For subtype 2, `bytes` is the data alone, without the inner length.
    Binary {
        subtype: u8,
        bytes: &'a [u8],
    },
    Undefined,
    ObjectId([u8; 12]),
    Boolean(bool),
    /// Milliseconds since the beginning of 1970 in UTC.
    DateTime(i64),
    Null,
    Regex {
        pattern: &'a str,
        options: &'a str,
    },
    DbPointer {
        namespace: &'a str,
        id: [u8; 12],
    },
    Code(&'a str),
    Symbol(&'a str),
    CodeWithScope {
        code: &'a str,
        scope: RawDocument<'a>,
    },
    Int32(i32),
    Timestamp {
        increment: u32,
        seconds: u32,
    },
    Int64(i64),
    /// The 16 bytes of the number, exactly as in the document.
    Decimal128([u8; 16]),
    MinKey,
    MaxKey,
}

impl<'a> RawBson<'a> {
    ghost use Rattle.bson_raw.specs.Pairs.{TreeValue};
    ghost use Rattle.bson_raw.specs.Held.{IsItemOf, HoldsSpelled};
    ghost use Rattle.bson_raw.specs.RawBson.{Shows};

    /// Returns the value of an item of a checked document.
    pub fn of_item(item: Item<'a>) -> RawBson<'a>
        requires { HoldsSpelled item }
        ensures { (v : TreeValue) → IsItemOf item.entry v → Shows result v }
    {
        match item {
            Item::Double(bytes) => RawBson::Double(bytes),
            Item::String(text) => RawBson::String(text),
            Item::Document(bytes) => RawBson::Document(RawDocument::from_spelled(bytes)),
            Item::Array(bytes) => RawBson::Array(RawArray::of_spelled(bytes)),
            Item::Binary { subtype, bytes } => RawBson::Binary { subtype, bytes },
            Item::Undefined => RawBson::Undefined,
            Item::ObjectId(bytes) => RawBson::ObjectId(bytes),
            Item::Boolean(truth) => RawBson::Boolean(truth),
            Item::DateTime(millis) => RawBson::DateTime(millis),
            Item::Null => RawBson::Null,
            Item::Regex { pattern, options } => RawBson::Regex { pattern, options },
            Item::DbPointer { namespace, id } => RawBson::DbPointer { namespace, id },
            Item::Code(text) => RawBson::Code(text),
            Item::Symbol(text) => RawBson::Symbol(text),
            Item::CodeWithScope { code, scope } => RawBson::CodeWithScope {
                code,
                scope: RawDocument::from_spelled(scope),
            },
            Item::Int32(n) => RawBson::Int32(n),
            Item::Timestamp { increment, seconds } => RawBson::Timestamp { increment, seconds },
            Item::Int64(n) => RawBson::Int64(n),
            Item::Decimal128(bytes) => RawBson::Decimal128(bytes),
            Item::MinKey => RawBson::MinKey,
            Item::MaxKey => RawBson::MaxKey,
        }
    }
}

impl<'a> RawBson<'a> {
    ghost use Rattle.bson_raw.specs.RawBson.{kind_of_value};
    ghost use Rattle.bson_raw.specs.RawBson as shown;

    /// Returns the kind of the value.
    pub fn kind(self) -> Kind
        ensures { result ≡ kind_of_value self.entry }
    {
        match self {
            RawBson::Double(_) => Kind::Double,
            RawBson::String(_) => Kind::String,
            RawBson::Document(_) => Kind::Document,
            RawBson::Array(_) => Kind::Array,
            RawBson::Binary { .. } => Kind::Binary,
            RawBson::Undefined => Kind::Undefined,
            RawBson::ObjectId(_) => Kind::ObjectId,
            RawBson::Boolean(_) => Kind::Boolean,
            RawBson::DateTime(_) => Kind::DateTime,
            RawBson::Null => Kind::Null,
            RawBson::Regex { .. } => Kind::Regex,
            RawBson::DbPointer { .. } => Kind::DbPointer,
            RawBson::Code(_) => Kind::Code,
            RawBson::Symbol(_) => Kind::Symbol,
            RawBson::CodeWithScope { .. } => Kind::CodeWithScope,
            RawBson::Int32(_) => Kind::Int32,
            RawBson::Timestamp { .. } => Kind::Timestamp,
            RawBson::Int64(_) => Kind::Int64,
            RawBson::Decimal128(_) => Kind::Decimal128,
            RawBson::MinKey => Kind::MinKey,
            RawBson::MaxKey => Kind::MaxKey,
        }
    }

    /// Returns the text, if the value is a string.
    pub fn as_str(self) -> Option<&'a str>
        ensures { result ≡ shown.as_str self.entry }
    {
        match self {
            RawBson::String(text) => Some(text),
            _ => None,
        }
    }

    /// Returns the number, if the value is a double: for each NaN, `f64::NAN`.
    pub fn as_f64(self) -> Option<f64>
        ensures { result ≡ shown.as_f64 self.entry }
    {
        match self {
            RawBson::Double(bytes) => Some(double_from_bytes(bytes)),
            _ => None,
        }
    }

    /// Returns the number, if the value is an int32.
    pub fn as_i32(self) -> Option<i32>
        ensures { result ≡ shown.as_i32 self.entry }
    {
        match self {
            RawBson::Int32(n) => Some(n),
            _ => None,
        }
    }

    /// Returns the number, if the value is an int64.
    pub fn as_i64(self) -> Option<i64>
        ensures { result ≡ shown.as_i64 self.entry }
    {
        match self {
            RawBson::Int64(n) => Some(n),
            _ => None,
        }
    }

    /// Returns the truth value, if the value is a boolean.
    pub fn as_bool(self) -> Option<bool>
        ensures { result ≡ shown.as_bool self.entry }
    {
        match self {
            RawBson::Boolean(truth) => Some(truth),
            _ => None,
        }
    }

    /// Returns the document, if the value is one.
    pub fn as_document(self) -> Option<RawDocument<'a>>
        ensures { result ≡ shown.as_document self.entry }
    {
        match self {
            RawBson::Document(document) => Some(document),
            _ => None,
        }
    }

    /// Returns the array, if the value is one.
    pub fn as_array(self) -> Option<RawArray<'a>>
        ensures { result ≡ shown.as_array self.entry }
    {
        match self {
            RawBson::Array(array) => Some(array),
            _ => None,
        }
    }

    /// Returns the subtype and the data, if the value is a binary.
    pub fn as_binary(self) -> Option<(u8, &'a [u8])>
        ensures { result ≡ shown.as_binary self.entry }
    {
        match self {
            RawBson::Binary { subtype, bytes } => Some((subtype, bytes)),
            _ => None,
        }
    }
}

impl From<f64> for RawBson<'_> {
    ghost use Rattle.bson_raw.specs.declared.value.RawBson.TheVariants.{Double};
    ghost use Rattle.bson_raw.specs.Doubles.{double_bytes};

    ghost from_gives = { λ number value. value ≡ Double (double_bytes number) };

    fn from(number: f64) -> Self {
        RawBson::Double(double_to_bytes(number))
    }
}
