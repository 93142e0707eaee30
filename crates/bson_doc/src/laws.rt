//! Laws of the canonical form, of equality, and of writing and reading. The contract of each
//! function is the law; those about definitions alone do nothing.

ghost use Rattle.std.specs.Prelude.{◌≡◌, ◌↔◌, ◌<◌, ◌^◌, ℕ, IsTrue, List, length, slice_get, Some};
ghost use Rattle.std.specs.Prelude.{option_map, IfOk, IfErr};
ghost use Rattle.std.specs.Fmt.{decimal};
ghost use Rattle.bson_elem.specs.{Spells, Tree, document, elements};
ghost use Rattle.bson_raw.specs.{TreeValue, names_of, nth_value};
ghost use Rattle.bson_doc.specs.Codes.{coded_pairs, coded_values};
ghost use Rattle.bson_doc.specs.Document.{tree_of};
ghost use Rattle.bson_doc.specs.Plain.{plain, numbered, canonical_len};
ghost use Rattle.bson_doc.specs.Same.{same};
ghost use Rattle.bson_doc.specs.Unwritable.{IsUnwritable};
ghost use Rattle.bson_doc.specs.Values.{plain_value};

use crate::documents::Document;
use crate::refusal::DocRefusal;
use std::alloc::Global;

/// Proves that the canonical tree of a tree is in canonical form.
pub fn plain_is_plain()
    ensures { (t : Tree) → plain (plain t) ≡ plain t }
{}

/// Proves that trees with the same canonical bytes have the same canonical tree.
pub fn same_bytes_same_plain_tree()
    ensures { (t u : Tree) (bytes : List ℕ) → Spells (plain t) bytes → Spells (plain u) bytes
        → plain t ≡ plain u }
{}

/// Proves that trees with the same canonical tree have the same canonical bytes.
pub fn same_plain_tree_same_bytes()
    ensures { (t u : Tree) (a b : List ℕ) → plain t ≡ plain u → Spells (plain t) a
        → Spells (plain u) b → a ≡ b }
{}

/// Proves that the canonical form of a canonical document is that document.
pub fn canonical_of_canonical()
    ensures { (t u : Tree) (a b : List ℕ) → Spells (plain t) a → Spells u a
        → Spells (plain u) b → a ≡ b }
{}

/// Proves that a document is canonical exactly where its tree is in canonical form.
pub fn canonical_where_plain()
    ensures { (t : Tree) (bytes : List ℕ) → Spells t bytes
        → (Spells (plain t) bytes ↔ (plain t ≡ t)) }
{}

/// Proves that the outermost document keeps its names.
pub fn plain_keeps_names()
    ensures { (t : Tree) → names_of (plain t) ≡ names_of t }
{}

/// Proves that in the canonical form of an array the name of each value is its index in decimal,
/// counted from 0.
pub fn array_names_are_indexes()
    ensures { (t : Tree) (k : ℕ) → k < length (names_of t)
        → slice_get (names_of (numbered 0 t)) k ≡ Some (decimal k) }
{}

/// Proves that the values of a document keep their indexes, their kinds and what they hold, but for
/// the names in arrays inside.
pub fn plain_keeps_values()
    ensures { (t : Tree) (k : ℕ) → nth_value k (plain t) ≡ option_map plain_value (nth_value k t) }
{}

/// Proves that the values of an array keep them, too.
pub fn numbered_keeps_values()
    ensures { (t : Tree) (k : ℕ)
        → nth_value k (numbered 0 t) ≡ option_map plain_value (nth_value k t) }
{}

/// Proves that a document has a canonical form where that isn't longer than a document may be.
pub fn canonical_form_is_there()
    ensures { (t : Tree) (bytes : List ℕ) → Spells t bytes → canonical_len t < 2 ^ 31
        → Spells (plain t) (document (elements (plain t))) }
{}

/// Proves that two lists of pairs are equal documents (`==`) exactly where they are the same list,
/// and two lists of values equal arrays.
pub fn equal_where_same()
    ensures documents { (a b : List (List ℕ × TreeValue))
        → (IsTrue (same coded_pairs a b) ↔ (a ≡ b)) }
    ensures arrays { (a b : List TreeValue) → (IsTrue (same coded_values a b) ↔ (a ≡ b)) }
{}

/// Writes a document and reads it back, which gives the same document.
///
/// # Errors
///
/// Returns the errors of `Document::to_raw`.
pub fn round_trip(alloc: Global, document: &Document) -> Result<Document, DocRefusal>
    ensures same { IfOk result (λ again. again ≡ document.now) }
    ensures refused { IfErr result (λ e. IsUnwritable (tree_of document.now) e) }
{
    let raw = document.to_raw()?;
    Document::from_raw(alloc, raw.as_raw())
}
