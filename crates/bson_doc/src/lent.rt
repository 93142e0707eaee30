//! What an owned value lends.

ghost use Rattle.std.specs.Prelude.{◌≡◌, ◌<◌};
ghost use Rattle.bson_elem.specs.{AreBytes, IsBytes, binary_value};
ghost use Rattle.bson_elem.specs.declared.kinds.Kind.TheVariants.{Binary};
ghost use Rattle.bson_raw.specs.{Shows, leaf_value};
ghost use Rattle.bson_doc.specs.Leaves.{IsLeaf};

use crate::arrays::Array;
use crate::documents::Document;
use bson_raw::RawBson;

/// An owned value, lent: the container that it holds, or else the value as one that is borrowed
/// from bytes.
#[derive(Clone, Copy)]
pub(crate) enum Lent<'a> {
    Document(&'a Document),
    Array(&'a Array),
    CodeWithScope { code: &'a str, scope: &'a Document },
    /// A value that holds no document.
    Leaf(RawBson<'a>),
}

/// Returns a subtype and data, lent.
pub(crate) fn lend_binary(subtype: u8, bytes: &[u8]) -> RawBson<'_>
    ensures leaf { IsLeaf result }
    ensures shown { Shows result (leaf_value Binary (binary_value subtype bytes.now)) }
    ensures subtype { subtype < 256 }
    ensures bytes { IsBytes bytes.now }
{
    RawBson::Binary { subtype, bytes }
}

/// Returns the bytes.
fn same_slice(bytes: &[u8]) -> &[u8]
    ensures same { result.now ≡ bytes.now }
    ensures bytes { IsBytes bytes.now }
{
    bytes
}

/// Returns the `N` bytes.
pub(crate) fn same_bytes<const N: usize>(bytes: &[u8; N]) -> [u8; N]
    ensures same { result ≡ bytes.now }
    ensures bytes { AreBytes N bytes.now }
{
    let _bytes = same_slice(bytes);
    *bytes
}
