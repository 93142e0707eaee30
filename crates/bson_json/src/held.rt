//! The pairs that a value holds.

ghost use Rattle.std.specs.Prelude.{◌≡◌, IfSome, MatchOption, length};
ghost use Rattle.bson_elem.specs.{Tree};
ghost use Rattle.bson_raw.specs.{Shows, TreeValue, document_bytes, held_len};

use bson_elem::Kind;
use bson_raw::{RawBson, RawDocument};

/// The pairs that a value holds, and the kind of that value: a document, an array or a code with
/// its scope.
#[derive(Clone, Copy)]
pub(crate) struct Held<'a> {
    pub(crate) kind: Kind,
    pub(crate) document: RawDocument<'a>,
}

impl<'a> Held<'a> {
    ghost use Rattle.bson_json.specs.Walks.{HoldsNone, IsHeld};

    /// Returns what the value holds, if it holds pairs.
    pub(crate) fn of(value: RawBson<'a>) -> Option<Held<'a>>
        ensures tree { (v : TreeValue) → Shows value.entry v → MatchOption result (HoldsNone v)
            (λ h. (inner : Tree) × IsHeld v h inner) }
        ensures size { IfSome result (λ h. length (document_bytes h.document)
            ≡ held_len value.entry) }
    {
        let document = match value {
            RawBson::Document(document) => document,
            RawBson::Array(array) => array.as_document(),
            RawBson::CodeWithScope { scope, .. } => scope,
            _ => return None,
        };
        Some(Held {
            kind: value.kind(),
            document,
        })
    }
}
