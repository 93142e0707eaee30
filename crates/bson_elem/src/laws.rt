//! Laws of the definitions of trees, spellings, elements and faults. Each law is the contract of a
//! function that does nothing.

ghost use Rattle.std.specs.Prelude.{◌≡◌, ◌++◌, [], ℕ, List, Ok};
ghost use Rattle.bson_elem.specs.declared.fault.BsonFault.{BsonFault};
ghost use Rattle.bson_elem.specs.Trees.{Tree};
ghost use Rattle.bson_elem.specs.Spelling.{IsBytes, Spells};
ghost use Rattle.bson_elem.specs.Checks.{ElementRead, element_at};
ghost use Rattle.bson_elem.specs.Elements.{element_bytes, IsElement};
ghost use Rattle.bson_elem.specs.Faults.{FrontFault};

/// Proves that bytes spell at most one tree.
pub fn one_tree()
    ensures { (t u : Tree) (bytes : List ℕ) → Spells t bytes → Spells u bytes → t ≡ u }
{}

/// Proves that a tree has at most one spelling.
pub fn one_spelling()
    ensures { (t : Tree) (a b : List ℕ) → Spells t a → Spells t b → a ≡ b }
{}

/// Proves that no spelling is a proper beginning of another.
pub fn no_spelling_begins_another()
    ensures { (t u : Tree) (a rest : List ℕ) → Spells t a → Spells u (a ++ rest) → rest ≡ [] }
{}

/// Proves that bytes have at most one fault.
pub fn one_fault()
    ensures { (bytes : List ℕ) (f g : BsonFault) → IsBytes bytes
        → FrontFault bytes f → FrontFault bytes g → f ≡ g }
{}

/// Proves that bytes that begin with the spelling of a tree have no fault.
pub fn no_fault_before_a_tree()
    ensures { (t : Tree) (a rest : List ℕ) (f : BsonFault) → IsBytes (a ++ rest)
        → Spells t a → FrontFault (a ++ rest) f → ⊥ }
{}

/// Proves that an element that is read has a spelling, and that the bytes begin with it.
pub fn element_read_was_spelled()
    ensures { (depth s p : ℕ) (bytes : List ℕ) (e : ElementRead) → IsBytes bytes
        → element_at depth s p bytes ≡ Ok e
        → (bytes ≡ element_bytes e ++ e.rest) × IsElement depth p e }
{}

/// Proves that the spelling of an element is read as that element, whatever follows it.
pub fn element_spelled_is_read()
    ensures { (depth s p : ℕ) (e : ElementRead) → IsElement depth p e
        → element_at depth s p (element_bytes e ++ e.rest) ≡ Ok e }
{}
