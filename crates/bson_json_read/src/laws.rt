//! Laws of reading what was written. The contract of each function is the law.

ghost use Rattle.std.specs.Prelude.{◌≡◌, ℕ, IfOk, List, MatchResult, Ok, Some};
ghost use Rattle.std.specs.Float.{Float};
ghost use Rattle.bson_elem.specs.{Spells, Tree};
ghost use Rattle.bson_elem.specs.Spelling.{AreBytes};
ghost use Rattle.bson_doc.specs.{tree_of};
ghost use Rattle.bson_json.specs.{IsJson};
ghost use Rattle.bson_json.specs.Decimals.{bits_of, decimal128_text};
ghost use Rattle.bson_json.specs.Json.{IsNumberText};
ghost use Rattle.bson_json.specs.declared.mode.Mode.TheVariants.{Canonical};
ghost use Rattle.bson_json_read.specs.DecimalText.{decimal128_of};
ghost use Rattle.bson_json_read.specs.Lossless.{IsCanonicalDecimal, IsLossless};
ghost use Rattle.bson_json_read.specs.Numbers.{double_of_text};
ghost use Rattle.bson_json_read.specs.Reads.{and_map};
ghost use Rattle.bson_json_read.specs.Texts.{document_in};
ghost use Rattle.bson_raw.specs.{document_bytes};

use crate::fault::{Cause, JsonFault};
use crate::text::from_json;
use bson_doc::Document;
use bson_json::{Mode, write_json};
use bson_raw::RawDocument;
use std::alloc::Global;

/// Writes a document as canonical JSON and reads it back, which gives the same document where JSON
/// loses nothing of it.
///
/// # Errors
///
/// Returns `OutOfMemory` if memory is refused, and the fault of the JSON where that loses something
/// so that it isn't read.
pub fn round_trip(alloc: Global, document: RawDocument<'_>) -> Result<Document, JsonFault>
    ensures same { (t : Tree) → Spells t (document_bytes document.entry) → IsLossless t
        → MatchResult result (λ d. tree_of d ≡ t) (λ e. e.cause ≡ Cause.OutOfMemory) }
    ensures read { (t : Tree) → Spells t (document_bytes document.entry) → IfOk result (λ d.
        (text : List ℕ) × IsJson Canonical t text × (document_in text ≡ Ok d)) }
{
    let mut json = Vec::new(alloc);
    if write_json(document, Mode::Canonical, &mut json).is_err() {
        return Err(JsonFault::here(alloc, Cause::OutOfMemory));
    }
    match str::from_utf8(&json) {
        Ok(text) => from_json(alloc, text),
        Err(_) => Err(JsonFault::here(alloc, Cause::NotJson)),
    }
}

/// Proves that canonical JSON of a document, where it loses nothing of it, is read as that document.
#[tactic(auto, using(crate::proofs::DocumentBack::document_back))]
pub fn document_reads_back()
    ensures { (t : Tree) (bytes text : List ℕ) → Spells t bytes → IsLossless t
        → IsJson Canonical t text → and_map tree_of (document_in text) ≡ Ok t }
{}

/// Proves that a decimal128 is read of its text, where it is canonical.
pub fn decimal128_reads_back()
    ensures { (bytes : List ℕ) → AreBytes 16 bytes → IsCanonicalDecimal (bits_of bytes)
        → decimal128_of (decimal128_text bytes) ≡ Some bytes }
{}

/// Proves that a number is read of each text that is written of it, NaN and the infinities too.
#[tactic(auto, using(crate::proofs::ReadBack::double_back))]
pub fn double_reads_back()
    ensures { (x : Float) (text : List ℕ) → IsNumberText x text → double_of_text text ≡ Some x }
{}
