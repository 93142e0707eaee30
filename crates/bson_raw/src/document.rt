//! Borrows a document from its bytes, after a check of all of them.

ghost use Rattle.std.specs.Prelude.{◌≡◌, ◌≤◌, ◌<◌, ◌^◌, List, ℕ, ◌++◌, IfOk, IfErr, IsOkAnd};
ghost use Rattle.std.specs.Prelude.{IsErrOf, length, MatchResult, MatchOption, IsTrue, IsOk, ◌↔◌};
ghost use Rattle.std.specs.Prelude.{Some, None, [], take, false};
ghost use Rattle.bson_elem.specs.declared.fault.BsonFault.{BsonFault};
ghost use Rattle.bson_elem.specs.{FrontFault, Spells, Tree};
ghost use Rattle.bson_raw.specs.Naming.{is_plain};
ghost use Rattle.bson_raw.specs.Spelled.{IsSpelled, FrontIs, IsLengthOf, WholeFault};

use crate::check::check;
use crate::iter::RawIter;
use crate::value::RawBson;
use bson_elem::{BsonCause, BsonFault, little_u32, read_document};
use std::convert::AsSlice;

/// Checks the document at the front. Returns its bytes, whether its names are canonical, and what
/// follows it.
fn front_parts(bytes: &[u8]) -> Result<(&[u8], bool, &[u8]), BsonFault>
    ensures parts { MatchResult result (λ x. FrontIs bytes.now x.0.now x.2.now)
        (λ f. FrontFault bytes.now f) }
    ensures canonical { IfOk result
        (λ x. (t : Tree) → Spells t x.0.now → x.1 ≡ is_plain false 0 t) }
    ensures bound { IfErr result (λ f. f.at ≤ length bytes.now) }
{
    let (whole, rest) = read_document(0, 0, bytes)?;
    let canonical = check(whole, 0, whole.len() - 1, 1, false)?;
    Ok((whole, canonical, rest))
}

/// Returns true if the names in the document that the bytes spell are canonical.
fn spells_canonical(bytes: &[u8]) -> bool
    requires { ∥ IsSpelled bytes.now ∥₁ }
    ensures { (t : Tree) → Spells t bytes.now → result ≡ is_plain false 0 t }
{
    match check(bytes, 0, bytes.len() - 1, 1, false) {
        Ok(canonical) => canonical,
        Err(_) => unreachable!(),
    }
}

/// Returns true if the length at the front is the number of the bytes, or if there are fewer than
/// four bytes.
fn is_length_of(bytes: &[u8]) -> bool
    ensures { IsTrue result ↔ IsLengthOf bytes.now }
{
    if bytes.len() < 4 {
        return true;
    }
    little_u32(bytes) as usize == bytes.len()
}

/// A borrowed document, checked whole when it was made.
#[derive(Clone, Copy, Debug, PartialEq, Eq)]
pub struct RawDocument<'a> {
    bytes: &'a [u8],
    pub ghost spelled: { ∥ IsSpelled bytes.now ∥₁ },
}

/// A document at the front of some bytes, and what follows it.
#[derive(Clone, Copy, Debug, PartialEq, Eq)]
pub struct Front<'a> {
    /// The document.
    pub document: RawDocument<'a>,
    /// Whether it is in canonical form: whether the names of each array in it are "0", "1" and so
    /// on.
    pub canonical: bool,
    /// What follows it.
    pub rest: &'a [u8],
}

impl<'a> RawDocument<'a> {
    ghost use Rattle.bson_raw.specs.RawDocument.{document_bytes};

    /// Checks the document at the front of `bytes`, and returns it and the bytes after it.
    ///
    /// # Errors
    ///
    /// Returns the first fault of the bytes, in the order of the checks.
    pub fn front(bytes: &'a [u8]) -> Result<(RawDocument<'a>, &'a [u8]), BsonFault>
        ensures found { IfOk result (λ x.
            (bytes.now ≡ document_bytes x.0 ++ x.1.now) × IsSpelled (document_bytes x.0)) }
        ensures only { (t : Tree) (b rest : List ℕ) → Spells t b → bytes.now ≡ b ++ rest
            → IsOkAnd result (λ x. (document_bytes x.0 ≡ b) × (x.1.now ≡ rest)) }
        ensures fault { IfErr result (λ f. FrontFault bytes.now f) }
        ensures exact { (f : BsonFault) → FrontFault bytes.now f → IsErrOf result f }
        ensures bound { IfErr result (λ f. f.at ≤ length bytes.now) }
    {
        match RawDocument::front_with_form(bytes) {
            Ok(front) => Ok((front.document, front.rest)),
            Err(fault) => Err(fault),
        }
    }

    /// Checks the document at the front of `bytes`, as `front` does. Finds out in the same pass
    /// whether it is in canonical form.
    ///
    /// # Errors
    ///
    /// Returns the same fault as `front`.
    pub fn front_with_form(bytes: &'a [u8]) -> Result<Front<'a>, BsonFault>
        ensures found { IfOk result (λ x.
            (bytes.now ≡ document_bytes x.document ++ x.rest.now)
            × IsSpelled (document_bytes x.document)) }
        ensures canonical { IfOk result (λ x. (t : Tree) → Spells t (document_bytes x.document)
            → x.canonical ≡ is_plain false 0 t) }
        ensures only { (t : Tree) (b rest : List ℕ) → Spells t b → bytes.now ≡ b ++ rest
            → IsOkAnd result (λ x. (document_bytes x.document ≡ b) × (x.rest.now ≡ rest)) }
        ensures fault { IfErr result (λ f. FrontFault bytes.now f) }
        ensures exact { (f : BsonFault) → FrontFault bytes.now f → IsErrOf result f }
        ensures bound { IfErr result (λ f. f.at ≤ length bytes.now) }
    {
        match front_parts(bytes) {
            Ok((whole, canonical, rest)) => {
                let document = RawDocument { bytes: whole };
                Ok(Front {
                    document,
                    canonical,
                    rest,
                })
            }
            Err(fault) => Err(fault),
        }
    }

    /// Checks that `bytes` is one document, and returns it.
    ///
    /// # Errors
    ///
    /// Returns `Length` at 0 if the length in the first four bytes isn't the number of `bytes`, and
    /// otherwise the fault that `front` returns.
    pub fn from_bytes(bytes: &'a [u8]) -> Result<RawDocument<'a>, BsonFault>
        ensures found { IfOk result (λ d. (document_bytes d ≡ bytes.now) × IsSpelled bytes.now) }
        ensures only { IsSpelled bytes.now → IsOk result }
        ensures fault { IfErr result (λ f. WholeFault bytes.now f) }
        ensures exact { (f : BsonFault) → WholeFault bytes.now f → IsErrOf result f }
        ensures bound { IfErr result (λ f. f.at ≤ length bytes.now) }
    {
        if !is_length_of(bytes) {
            return Err(BsonFault {
                at: 0,
                cause: BsonCause::Length,
            });
        }
        match front_parts(bytes) {
            Ok((whole, _, _)) => Ok(RawDocument { bytes: whole }),
            Err(fault) => Err(fault),
        }
    }

    /// Returns the document that `bytes` is known to spell, without a check.
    pub fn from_spelled(bytes: &'a [u8]) -> RawDocument<'a>
        requires { ∥ IsSpelled bytes.now ∥₁ }
        ensures { document_bytes result ≡ bytes.now }
    {
        RawDocument { bytes }
    }

    /// Returns the bytes of the document.
    pub fn as_bytes(self) -> &'a [u8]
        ensures bytes { result.now ≡ document_bytes self.entry }
        ensures short { length result.now < 2 ^ 31 }
    {
        self.bytes
    }

    /// Returns true if the document is in canonical form: if the names of each array in it are "0",
    /// "1" and so on. Reads the whole document again.
    pub fn is_canonical(self) -> bool
        ensures { (t : Tree) → Spells t (document_bytes self.entry) → result ≡ is_plain false 0 t }
    {
        spells_canonical(self.bytes)
    }
}

impl<'a> RawDocument<'a> {
    ghost use Rattle.bson_raw.specs.RawDocument.{document_bytes};
    ghost use Rattle.bson_raw.specs.Pairs.{first_named, names_of, is_among, first_repeated};
    ghost use Rattle.bson_raw.specs.RawBson.{ShowsFound};
    ghost use Rattle.bson_raw.specs.RawIter.{PairsLeft, walked_len};

    /// Returns an iterator over the pairs of names and values, in order.
    pub fn iter(self) -> RawIter<'a>
        ensures pairs { (t : Tree) → Spells t (document_bytes self.entry) → PairsLeft result t }
        ensures walked { walked_len result ≡ length (document_bytes self.entry) }
    {
        RawIter::of_spelled(self.bytes)
    }

    /// Returns the value of the first pair named `name`, if there is one.
    pub fn get(self, name: &str) -> Option<RawBson<'a>>
        ensures { (t : Tree) → Spells t (document_bytes self.entry)
            → MatchOption result (first_named name.now t ≡ None)
            (λ value. ShowsFound value (first_named name.now t)) }
    {
        for (n, value) in self.iter() {
            if n == name {
                return Some(value);
            }
        }
        None
    }

    /// Returns true if any of the first `count` pairs has this name.
    fn is_among_first(self, count: usize, name: &str) -> bool
        ensures { (t : Tree) → Spells t (document_bytes self.entry)
            → result ≡ is_among name.now (take count (names_of t)) }
    {
        let mut left = count;
        for (n, _) in self.iter() {
            if left == 0 {
                return false;
            }
            if n == name {
                return true;
            }
            left -= 1;
        }
        false
    }

    /// Returns the first name that an earlier pair has too.
    pub fn first_repeated_name(self) -> Option<&'a str>
        ensures { (t : Tree) → Spells t (document_bytes self.entry)
            → MatchOption result (first_repeated [] t ≡ None)
            (λ name. first_repeated [] t ≡ Some name.now) }
    {
        let mut before = 0;
        for (name, _) in self.iter() {
            if self.is_among_first(before, name) {
                return Some(name);
            }
            before += 1;
        }
        None
    }
}

impl<'a> AsSlice<u8> for RawDocument<'a> {
    ghost use Rattle.bson_raw.specs.RawDocument.{document_bytes};

    ghost items = { document_bytes };

    fn as_slice(&self) -> &[u8] {
        self.as_bytes()
    }
}
