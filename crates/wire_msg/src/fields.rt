//! Looks identifiers up among the top-level names of a body: in the body itself, or in a list of them
//! that was sorted in memory.

ghost use Rattle.std.specs.Prelude.{◌≡◌, [], IfOk, is_some};
ghost use Rattle.bson_elem.specs.{Spells, Tree};
ghost use Rattle.bson_raw.specs.{document_bytes, first_repeated};
ghost use Rattle.wire_msg.specs.Fields.{AreFields, AreSorted};
ghost use Rattle.wire_msg.specs.Messages.{is_field};

use bson_raw::RawDocument;
use std::alloc::{AllocError, Global};

/// Returns the top-level names of `body` in ascending order.
///
/// # Errors
///
/// Returns `AllocError` if memory runs out.
fn sorted_names<'a>(alloc: Global, body: RawDocument<'a>) -> Result<Vec<&'a str>, AllocError>
    ensures { (t : Tree) → Spells t (document_bytes body.entry)
        → IfOk result (λ names. AreSorted names.items t) }
{
    let mut names = Vec::new(alloc);
    for (name, _) in body.iter() {
        names.push(name)?;
    }
    names.sort()?;
    Ok(names)
}

/// What the top-level names of a body are looked up in.
pub(crate) trait Names {
    // these are the top-level names of the body
    ghost are: { Self → Tree → Type 0 };

    /// Returns true if a name is repeated.
    fn has_repeated(&self) -> bool
        ensures { (t : Tree) → are self.now t → result ≡ is_some (first_repeated [] t) };

    /// Returns true if `name` is one of the names.
    fn contains(&self, name: &str) -> bool
        ensures { (t : Tree) → are self.now t → result ≡ is_field name.now t };
}

/// The body itself, whose pairs are compared for each name.
impl<'a> Names for RawDocument<'a> {
    ghost are = { λ body t. Spells t (document_bytes body) };

    fn has_repeated(&self) -> bool {
        self.first_repeated_name().is_some()
    }

    fn contains(&self, name: &str) -> bool {
        self.get(name).is_some()
    }
}

/// The top-level names of a body, looked up in its pairs or in a sorted list.
#[derive(Drop)]
pub(crate) enum Fields<'a> {
    /// The body. All its pairs are compared for each name.
    Pairs(RawDocument<'a>),
    /// The names in ascending order.
    Sorted(Vec<&'a str>),
}

impl<'a> Fields<'a> {
    /// Returns the names of `body`: sorted if there is memory for that, and otherwise in its
    /// pairs.
    pub(crate) fn of(alloc: Global, body: RawDocument<'a>) -> Fields<'a>
        ensures { (t : Tree) → Spells t (document_bytes body.entry) → AreFields result t }
    {
        match sorted_names(alloc, body) {
            Ok(names) => Fields::Sorted(names),
            Err(_) => Fields::Pairs(body),
        }
    }
}

/// Returns true if a top-level name of `body` is repeated. Sorts the names in memory from `alloc`,
/// so no choice of names makes it slow; if memory runs out, compares them in pairs.
pub fn has_repeated_name(alloc: Global, body: RawDocument<'_>) -> bool
    ensures { (t : Tree) → Spells t (document_bytes body.entry)
        → result ≡ is_some (first_repeated [] t) }
{
    Fields::of(alloc, body).has_repeated()
}

impl<'a> Names for Fields<'a> {
    ghost are = { AreFields };

    fn has_repeated(&self) -> bool {
        match self {
            Fields::Pairs(body) => body.has_repeated(),
            Fields::Sorted(names) => !names.is_sorted_by(|a, b| a < b),
        }
    }

    fn contains(&self, name: &str) -> bool {
        match self {
            Fields::Pairs(body) => body.contains(name),
            Fields::Sorted(names) => names.binary_search(&name).is_ok(),
        }
    }
}
