//! The law that makes what is found in damaged bytes exact. The contract of the function is the
//! law; the function does nothing.

ghost use Rattle.std.specs.Prelude.{◌≡◌, List, ℕ};
ghost use Rattle.bson_elem.specs.{IsBytes};
ghost use Rattle.bson_stream.specs.Salvage.{AreParts, Part};

/// Proves that bytes have at most one list of parts: the documents in them, and the gaps.
pub fn one_salvage()
    ensures same { (limit : ℕ) (bytes : List ℕ) (parts others : List Part) → IsBytes bytes
        → AreParts limit bytes parts → AreParts limit bytes others → parts ≡ others }
{}
