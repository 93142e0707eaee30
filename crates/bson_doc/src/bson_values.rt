//! Values that own what they hold.

ghost use Rattle.std.specs.Prelude.{◌≡◌, IfOk, string_bytes};
ghost use Rattle.bson_elem.specs.{regex_value, with_code};
ghost use Rattle.bson_elem.specs.declared.kinds.Kind.TheVariants as kinds;
ghost use Rattle.bson_raw.specs.{document_value, leaf_value};
ghost use Rattle.bson_doc.specs.Bson.{value_of};
ghost use Rattle.bson_doc.specs.Document.{tree_of};

use crate::arrays::Array;
use crate::documents::Document;
use crate::lent::{Lent, lend_binary, same_bytes};
use bson_elem::Kind;
use bson_raw::{RawBson, double_from_bytes, double_to_bytes};
use std::alloc::AllocError;
use std::fmt;

/// A value: one variant for each kind.
#[derive(Drop)]
#[cycle(bson)]
pub enum Bson {
    /// The 8 bytes of the number, as they stand in a document.
    Double([u8; 8]),
    String(String),
    Document(Document),
    Array(Array),
    /// In subtype 2 `bytes` are the data alone, without the inner count.
    Binary { subtype: u8, bytes: Vec<u8> },
    Undefined,
    ObjectId([u8; 12]),
    Boolean(bool),
    /// Milliseconds since the beginning of 1970, in UTC.
    DateTime(i64),
    Null,
    Regex { pattern: String, options: String },
    DbPointer { namespace: String, id: [u8; 12] },
    Code(String),
    Symbol(String),
    CodeWithScope { code: String, scope: Document },
    Int32(i32),
    Timestamp { increment: u32, seconds: u32 },
    Int64(i64),
    /// The 16 bytes of the number, as they stand in a document.
    Decimal128([u8; 16]),
    MinKey,
    MaxKey,
}

/// Returns the code and scope of a copy of this code.
fn with_code(code: &String, scope: Document) -> Result<Bson, AllocError>
    ensures { IfOk result (λ value. value_of value
        ≡ document_value kinds.CodeWithScope (with_code (string_bytes code.now)) (tree_of scope)) }
{
    let code = code.clone()?;
    Ok(Bson::CodeWithScope { code, scope })
}

/// Returns the regular expression of a copy of these options.
fn with_options(pattern: String, options: &String) -> Result<Bson, AllocError>
    ensures { IfOk result (λ value. value_of value
        ≡ leaf_value kinds.Regex (regex_value (string_bytes pattern) (string_bytes options.now))) }
{
    let options = options.clone()?;
    Ok(Bson::Regex { pattern, options })
}

impl Bson {
    ghost use Rattle.bson_doc.specs.Bson.{value_of};
    ghost use Rattle.bson_doc.specs.Leaves.{IsOwnedLeaf};

    /// Returns a copy of the value.
    ///
    /// # Errors
    ///
    /// Returns `AllocError` if memory is refused.
    #[cycle(copy)]
    pub fn try_clone(&self) -> Result<Bson, AllocError>
        ensures { IfOk result (λ copy. value_of copy ≡ value_of self.now) }
    {
        match self {
            Bson::Document(document) => Ok(Bson::Document(document.try_clone()?)),
            Bson::Array(array) => Ok(Bson::Array(array.try_clone()?)),
            Bson::CodeWithScope { code, scope } => with_code(code, scope.try_clone()?),
            leaf => leaf.try_clone_leaf(),
        }
    }

    /// Returns a copy of a value that holds no document.
    fn try_clone_leaf(&self) -> Result<Bson, AllocError>
        requires { IsOwnedLeaf self.now }
        ensures { IfOk result (λ copy. value_of copy ≡ value_of self.now) }
    {
        match self {
            Bson::Double(bytes) => Ok(Bson::Double(*bytes)),
            Bson::String(text) => Ok(Bson::String(text.clone()?)),
            Bson::Binary { subtype, bytes } => Ok(Bson::Binary {
                subtype: *subtype,
                bytes: bytes.clone()?,
            }),
            Bson::Undefined => Ok(Bson::Undefined),
            Bson::ObjectId(bytes) => Ok(Bson::ObjectId(*bytes)),
            Bson::Boolean(truth) => Ok(Bson::Boolean(*truth)),
            Bson::DateTime(millis) => Ok(Bson::DateTime(*millis)),
            Bson::Null => Ok(Bson::Null),
            Bson::Regex { pattern, options } => with_options(pattern.clone()?, options),
            Bson::DbPointer { namespace, id } => Ok(Bson::DbPointer {
                namespace: namespace.clone()?,
                id: *id,
            }),
            Bson::Code(text) => Ok(Bson::Code(text.clone()?)),
            Bson::Symbol(text) => Ok(Bson::Symbol(text.clone()?)),
            Bson::Int32(n) => Ok(Bson::Int32(*n)),
            Bson::Timestamp { increment, seconds } => Ok(Bson::Timestamp {
                increment: *increment,
                seconds: *seconds,
            }),
            Bson::Int64(n) => Ok(Bson::Int64(*n)),
            Bson::Decimal128(bytes) => Ok(Bson::Decimal128(*bytes)),
            Bson::MinKey => Ok(Bson::MinKey),
            Bson::MaxKey => Ok(Bson::MaxKey),
            Bson::Document(_) | Bson::Array(_) | Bson::CodeWithScope { .. } => unreachable!(),
        }
    }
}

impl Bson {
    ghost use Rattle.bson_doc.specs.Bson.{value_of};
    ghost use Rattle.bson_doc.specs.Values.{value_kind};

    /// Returns the kind of the value.
    pub fn kind(&self) -> Kind
        ensures { result ≡ value_kind (value_of self.now) }
    {
        match self {
            Bson::Double(_) => Kind::Double,
            Bson::String(_) => Kind::String,
            Bson::Document(_) => Kind::Document,
            Bson::Array(_) => Kind::Array,
            Bson::Binary { .. } => Kind::Binary,
            Bson::Undefined => Kind::Undefined,
            Bson::ObjectId(_) => Kind::ObjectId,
            Bson::Boolean(_) => Kind::Boolean,
            Bson::DateTime(_) => Kind::DateTime,
            Bson::Null => Kind::Null,
            Bson::Regex { .. } => Kind::Regex,
            Bson::DbPointer { .. } => Kind::DbPointer,
            Bson::Code(_) => Kind::Code,
            Bson::Symbol(_) => Kind::Symbol,
            Bson::CodeWithScope { .. } => Kind::CodeWithScope,
            Bson::Int32(_) => Kind::Int32,
            Bson::Timestamp { .. } => Kind::Timestamp,
            Bson::Int64(_) => Kind::Int64,
            Bson::Decimal128(_) => Kind::Decimal128,
            Bson::MinKey => Kind::MinKey,
            Bson::MaxKey => Kind::MaxKey,
        }
    }
}

impl Bson {
    ghost use Rattle.bson_doc.specs.Bson.{value_of};
    ghost use Rattle.bson_doc.specs.Leaves.{Lends};

    /// Returns the value, lent.
    pub(crate) fn lend(&self) -> Lent<'_>
        ensures { Lends result (value_of self.now) }
    {
        match self {
            Bson::Double(bytes) => Lent::Leaf(RawBson::Double(same_bytes(bytes))),
            Bson::String(text) => Lent::Leaf(RawBson::String(text.as_str())),
            Bson::Document(document) => Lent::Document(document),
            Bson::Array(array) => Lent::Array(array),
            Bson::Binary { subtype, bytes } => Lent::Leaf(lend_binary(*subtype, bytes)),
            Bson::Undefined => Lent::Leaf(RawBson::Undefined),
            Bson::ObjectId(bytes) => Lent::Leaf(RawBson::ObjectId(same_bytes(bytes))),
            Bson::Boolean(truth) => Lent::Leaf(RawBson::Boolean(*truth)),
            Bson::DateTime(millis) => Lent::Leaf(RawBson::DateTime(*millis)),
            Bson::Null => Lent::Leaf(RawBson::Null),
            Bson::Regex { pattern, options } => Lent::Leaf(RawBson::Regex {
                pattern: pattern.as_str(),
                options: options.as_str(),
            }),
            Bson::DbPointer { namespace, id } => Lent::Leaf(RawBson::DbPointer {
                namespace: namespace.as_str(),
                id: same_bytes(id),
            }),
            Bson::Code(text) => Lent::Leaf(RawBson::Code(text.as_str())),
            Bson::Symbol(text) => Lent::Leaf(RawBson::Symbol(text.as_str())),
            Bson::CodeWithScope { code, scope } => Lent::CodeWithScope {
                code: code.as_str(),
                scope,
            },
            Bson::Int32(n) => Lent::Leaf(RawBson::Int32(*n)),
            Bson::Timestamp { increment, seconds } => Lent::Leaf(RawBson::Timestamp {
                increment: *increment,
                seconds: *seconds,
            }),
            Bson::Int64(n) => Lent::Leaf(RawBson::Int64(*n)),
            Bson::Decimal128(bytes) => Lent::Leaf(RawBson::Decimal128(same_bytes(bytes))),
            Bson::MinKey => Lent::Leaf(RawBson::MinKey),
            Bson::MaxKey => Lent::Leaf(RawBson::MaxKey),
        }
    }
}

impl PartialEq for Bson {
    ghost use Rattle.std.specs.Cmp.{partial_equiv_from_equiv};
    ghost use Rattle.bson_doc.specs.Bson.{value_of};
    ghost use Rattle.bson_doc.specs.Codes.{coded_value};
    ghost use Rattle.bson_doc.specs.Same.{same_seen, same_seen_equiv};

    ghost eq = { same_seen coded_value value_of };

    ghost laws = { partial_equiv_from_equiv (same_seen_equiv coded_value value_of) };

    #[cycle(same)]
    fn eq(&self, other: &Bson) -> bool {
        match (self.lend(), other.lend()) {
            (Lent::Document(a), Lent::Document(b)) => a.eq(b),
            (Lent::Array(a), Lent::Array(b)) => a.eq(b),
            (
                Lent::CodeWithScope { code, scope },
                Lent::CodeWithScope {
                    code: other_code,
                    scope: other_scope,
                },
            ) => code == other_code && scope.eq(other_scope),
            (Lent::Leaf(a), Lent::Leaf(b)) => a == b,
            _ => false,
        }
    }
}

impl fmt::Debug for Bson {
    #[cycle(show)]
    fn fmt<W: fmt::Write>(&self, f: &mut fmt::Formatter<W>) -> fmt::Result {
        match self.lend() {
            Lent::Document(document) => f.debug_tuple("Document").field(document).finish(),
            Lent::Array(array) => f.debug_tuple("Array").field(array).finish(),
            Lent::CodeWithScope { code, scope } => f
                .debug_struct("CodeWithScope")
                .field("code", &code)
                .field("scope", scope)
                .finish(),
            Lent::Leaf(leaf) => leaf.fmt(f),
        }
    }
}

impl Bson {
    ghost use Rattle.bson_doc.specs.Bson.{as_f64};

    /// Returns the number, if the value is a double. For each NaN that is `f64::NAN`.
    pub fn as_f64(&self) -> Option<f64>
        ensures { result ≡ as_f64 self.now }
    {
        match self {
            Bson::Double(bytes) => Some(double_from_bytes(*bytes)),
            _ => None,
        }
    }
}

impl From<f64> for Bson {
    ghost use Rattle.bson_raw.specs.{double_bytes};
    ghost use Rattle.bson_doc.specs.declared.bson_values.Bson.TheVariants.{Double};

    ghost from_gives = { λ number value. value ≡ Double (double_bytes number) };

    fn from(number: f64) -> Bson {
        Bson::Double(double_to_bytes(number))
    }
}

impl From<bool> for Bson {
    ghost use Rattle.bson_doc.specs.declared.bson_values.Bson.TheVariants.{Boolean};

    ghost from_gives = { λ truth value. value ≡ Boolean truth };

    fn from(truth: bool) -> Bson {
        Bson::Boolean(truth)
    }
}

impl From<i32> for Bson {
    ghost use Rattle.bson_doc.specs.declared.bson_values.Bson.TheVariants.{Int32};

    ghost from_gives = { λ n value. value ≡ Int32 n };

    fn from(n: i32) -> Bson {
        Bson::Int32(n)
    }
}

impl From<i64> for Bson {
    ghost use Rattle.bson_doc.specs.declared.bson_values.Bson.TheVariants.{Int64};

    ghost from_gives = { λ n value. value ≡ Int64 n };

    fn from(n: i64) -> Bson {
        Bson::Int64(n)
    }
}

impl From<String> for Bson {
    ghost use Rattle.bson_doc.specs.declared.bson_values.Bson.TheVariants as values;

    ghost from_gives = { λ text value. value ≡ values.String text };

    fn from(text: String) -> Bson {
        Bson::String(text)
    }
}

impl From<Document> for Bson {
    ghost use Rattle.bson_doc.specs.declared.bson_values.Bson.TheVariants as values;

    ghost from_gives = { λ document value. value ≡ values.Document document };

    fn from(document: Document) -> Bson {
        Bson::Document(document)
    }
}

impl From<Array> for Bson {
    ghost use Rattle.bson_doc.specs.declared.bson_values.Bson.TheVariants as values;

    ghost from_gives = { λ array value. value ≡ values.Array array };

    fn from(array: Array) -> Bson {
        Bson::Array(array)
    }
}
