//! The pairs that a value holds.

use bson_elem::Kind;
use bson_raw::RawDocument;

/// The pairs that a value holds, and the kind of that value: a document, an array or a code with
/// its scope.
#[derive(Clone, Copy)]
pub(crate) struct Held<'a> {
    pub(crate) kind: Kind,
    pub(crate) document: RawDocument<'a>,
}
