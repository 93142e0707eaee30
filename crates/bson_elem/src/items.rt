//! The values of elements.

/// A value, borrowed from the bytes that it was read from, with one variant for each kind
/// (bsonspec.org, version 1.1: `element`). A document, an array or a scope is the bytes of a
/// document whose elements are not yet checked.
#[derive(Clone, Copy, Debug, PartialEq, Eq)]
pub enum Item<'a> {
    /// The 8 bytes of an IEEE 754 number, the lowest first.
    Double([u8; 8]),
    String(&'a str),
    Document(&'a [u8]),
    Array(&'a [u8]),
    /// A subtype and its data. For subtype 02, `bytes` is without the inner count.
    Binary { subtype: u8, bytes: &'a [u8] },
    Undefined,
    ObjectId([u8; 12]),
    Boolean(bool),
    /// Milliseconds since the Unix epoch.
    DateTime(i64),
    Null,
    Regex { pattern: &'a str, options: &'a str },
    /// A namespace and the bytes of an ObjectId.
    DbPointer { namespace: &'a str, id: [u8; 12] },
    Code(&'a str),
    Symbol(&'a str),
    CodeWithScope { code: &'a str, scope: &'a [u8] },
    Int32(i32),
    Timestamp { increment: u32, seconds: u32 },
    Int64(i64),
    /// The 16 bytes of an IEEE 754-2008 decimal number, the lowest first.
    Decimal128([u8; 16]),
    MinKey,
    MaxKey,
}
