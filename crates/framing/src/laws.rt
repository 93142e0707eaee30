//! Proves the laws of items, which everything that cuts bytes into items needs. The contract of
//! each function is the law.

ghost use Rattle.std.specs.Prelude.{◌≡◌, ◌++◌, ℕ, List};
ghost use Rattle.framing.specs.Cutting.{Cuts};
ghost use Rattle.framing.specs.Items.{IsEnd, IsRefused, IsWholeItem, ItemSplit, StandsAs};
ghost use Rattle.framing.specs.Items.{WantsMore};

use crate::first_item::{FirstItem, read_item};
use crate::framing::Framing;

/// Proves that at most one item is at the front of bytes, that open bytes want one number of bytes,
/// and that bytes are refused for one reason.
pub fn one_item<F: Framing>(_framing: &F)
    ensures whole { (bytes item other rest after : List ℕ)
        → IsWholeItem (F.rule _framing.now) bytes item rest
        → IsWholeItem (F.rule _framing.now) bytes other after
        → (item ≡ other) × (rest ≡ after) }
    ensures too_few { (bytes : List ℕ) (n m : ℕ) → WantsMore (F.rule _framing.now) bytes n
        → WantsMore (F.rule _framing.now) bytes m → n ≡ m }
    ensures refused { (bytes : List ℕ) (fault other : F.Fault)
        → IsRefused (F.rule _framing.now) bytes fault
        → IsRefused (F.rule _framing.now) bytes other → fault ≡ other }
{}

/// Proves that no bytes are two of open, an item and a rest, and bytes that no item begins with.
pub fn one_standing<F: Framing>(_framing: &F)
    ensures open_or_whole { (bytes item rest : List ℕ) (n : ℕ)
        → WantsMore (F.rule _framing.now) bytes n
        → IsWholeItem (F.rule _framing.now) bytes item rest → ⊥ }
    ensures open_or_refused { (bytes : List ℕ) (n : ℕ) (fault : F.Fault)
        → WantsMore (F.rule _framing.now) bytes n
        → IsRefused (F.rule _framing.now) bytes fault → ⊥ }
    ensures refused_or_whole { (bytes item rest : List ℕ) (fault : F.Fault)
        → IsRefused (F.rule _framing.now) bytes fault
        → IsWholeItem (F.rule _framing.now) bytes item rest → ⊥ }
{}

/// Proves that bytes are one of these. Reads `bytes` to find out which.
pub fn open_whole_or_refused<F: Framing>(framing: &F, bytes: &[u8])
    ensures { StandsAs (F.rule framing.now) bytes.now }
{
    let _ = read_item(framing, bytes);
}

/// Proves that bytes which no item begins with are refused when more bytes follow, for the same
/// reason.
pub fn refused_stays_refused<F: Framing>(_framing: &F)
    ensures { (bytes more : List ℕ) (fault : F.Fault)
        → IsRefused (F.rule _framing.now) bytes fault
        → IsRefused (F.rule _framing.now) (bytes ++ more) fault }
{}

/// Proves that bytes split into items and a rest in at most one way.
pub fn one_split<F: Framing>(_framing: &F)
    ensures { (bytes : List ℕ) (items others : List (List ℕ)) (rest after : List ℕ)
        → ItemSplit (F.rule _framing.now) bytes items rest
        → ItemSplit (F.rule _framing.now) bytes others after
        → (items ≡ others) × (rest ≡ after) }
{}

/// Proves that the items of bytes, and what a reader holds after them, are the same however the
/// bytes are cut.
pub fn one_cut<F: Framing>(_framing: &F)
    ensures { (bytes : List ℕ) (found others : List (List ℕ)) (held kept : List ℕ)
        → Cuts (F.rule _framing.now) bytes found held
        → Cuts (F.rule _framing.now) bytes others kept
        → (found ≡ others) × (held ≡ kept) }
{}

/// Splits `bytes` into items and a rest, which is open or begins as no item does. Returns the rest.
pub fn split_of<'a, F: Framing>(framing: &F, bytes: &'a [u8]) -> &'a [u8]
    ensures split { (items : List (List ℕ))
        × ItemSplit (F.rule framing.now) bytes.now items result.now }
    ensures ends { IsEnd (F.rule framing.now) result.now }
{
    let mut rest = bytes;
    while let FirstItem::Whole { rest: after, .. } = read_item(framing, rest) {
        rest = after;
    }
    rest
}
