//! The kinds of values, and the type byte of each (bsonspec.org, version 1.1: `element`).

ghost use Rattle.std.specs.Prelude.{◌≡◌};
ghost use Rattle.bson_elem.specs.Extents.{fixed_size};
ghost use Rattle.bson_elem.specs.Kinds.{byte_of, form_of, kind_of};

/// The kind of a value.
#[derive(Clone, Copy, Debug, PartialEq, Eq)]
pub enum Kind {
    Double,
    String,
    Document,
    Array,
    Binary,
    Undefined,
    ObjectId,
    Boolean,
    DateTime,
    Null,
    Regex,
    DbPointer,
    Code,
    Symbol,
    CodeWithScope,
    Int32,
    Timestamp,
    Int64,
    Decimal128,
    MinKey,
    MaxKey,
}

impl Kind {
    /// Returns the kind with this type byte, or `None` if no kind has it.
    #[inline(always)]
    pub fn from_byte(byte: u8) -> Option<Kind>
        ensures { result ≡ kind_of byte }
    {
        // The two high bytes come first, so that the `match` on the low ones becomes a table.
        if byte > 0x13 {
            return match byte {
                0xff => Some(Kind::MinKey),
                0x7f => Some(Kind::MaxKey),
                _ => None,
            };
        }
        match byte {
            0x01 => Some(Kind::Double),
            0x02 => Some(Kind::String),
            0x03 => Some(Kind::Document),
            0x04 => Some(Kind::Array),
            0x05 => Some(Kind::Binary),
            0x06 => Some(Kind::Undefined),
            0x07 => Some(Kind::ObjectId),
            0x08 => Some(Kind::Boolean),
            0x09 => Some(Kind::DateTime),
            0x0a => Some(Kind::Null),
            0x0b => Some(Kind::Regex),
            0x0c => Some(Kind::DbPointer),
            0x0d => Some(Kind::Code),
            0x0e => Some(Kind::Symbol),
            0x0f => Some(Kind::CodeWithScope),
            0x10 => Some(Kind::Int32),
            0x11 => Some(Kind::Timestamp),
            0x12 => Some(Kind::Int64),
            0x13 => Some(Kind::Decimal128),
            _ => None,
        }
    }

    /// Returns the type byte of the kind.
    pub fn byte(self) -> u8
        ensures { result ≡ byte_of self }
    {
        match self {
            Kind::Double => 0x01,
            Kind::String => 0x02,
            Kind::Document => 0x03,
            Kind::Array => 0x04,
            Kind::Binary => 0x05,
            Kind::Undefined => 0x06,
            Kind::ObjectId => 0x07,
            Kind::Boolean => 0x08,
            Kind::DateTime => 0x09,
            Kind::Null => 0x0a,
            Kind::Regex => 0x0b,
            Kind::DbPointer => 0x0c,
            Kind::Code => 0x0d,
            Kind::Symbol => 0x0e,
            Kind::CodeWithScope => 0x0f,
            Kind::Int32 => 0x10,
            Kind::Timestamp => 0x11,
            Kind::Int64 => 0x12,
            Kind::Decimal128 => 0x13,
            Kind::MinKey => 0xff,
            Kind::MaxKey => 0x7f,
        }
    }

    /// Returns the size in bytes of each value of this kind, if all have the same size and any
    /// bytes of that size are one.
    // Not inlined, so that it stays a table: inlined where its result is tested, it becomes a jump
    // for each kind.
    #[inline(never)]
    pub(crate) fn fixed_len(self) -> Option<usize>
        ensures { result ≡ fixed_size (form_of self) }
    {
        match self {
            Kind::Undefined | Kind::Null | Kind::MinKey | Kind::MaxKey => Some(0),
            Kind::Int32 => Some(4),
            Kind::Double | Kind::DateTime | Kind::Timestamp | Kind::Int64 => Some(8),
            Kind::ObjectId => Some(12),
            Kind::Decimal128 => Some(16),
            _ => None,
        }
    }
}
