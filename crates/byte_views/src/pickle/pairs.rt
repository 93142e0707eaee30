//! Writes the pairs of a document, and of those inside it.

ghost use Rattle.std.specs.Prelude.{◌≡◌, ◌<◌, ◌≤◌, IfOk, IfSome, List, MatchOption, OnOk};
ghost use Rattle.std.specs.Prelude.{ℕ, length};
ghost use Rattle.bson_elem.specs.{Spells, Tree};
ghost use Rattle.bson_raw.specs.{PairsLeft, Shows, TreeValue, document_bytes, held_len};
ghost use Rattle.bson_raw.specs.{pairs_bound, walked_len};
ghost use Rattle.text_writer.specs.{WritesOut, text_contents};
ghost use Rattle.byte_views.specs.Pickles as spec;
ghost use Rattle.byte_views.specs.Pickles.{names_in, names_of_one, pairs_pickle};
ghost use Rattle.byte_views.specs.PickleParts.{IsFront, StopsAt};

use crate::pickle::held::Held;
use crate::pickle::leaf::write_leaf;
use crate::pickle::opcodes::{
    APPEND, APPENDS, BINGET, BINPUT, EMPTY_DICT, EMPTY_LIST, MARK, POP, SETITEMS,
};
use crate::pickle::parts::{begin_made, end_made, write_text};
use bson_elem::Kind;
use bson_raw::{RawBson, RawDocument, RawIter};
use std::io::Write;
use text_writer::{Failed, TextWriter};

/// Returns how many names a pair has: none in an array.
fn names_of_one(holder: Kind) -> usize
    ensures { result ≡ spec.names_of_one holder }
{
    if holder == Kind::Array { 0 } else { 1 }
}

/// Writes the name of a pair, unless it is in an array.
fn write_label<W: Write>(holder: Kind, name: &str, out: &mut TextWriter<W>) -> Result<(), Failed>
    ensures { OnOk result (WritesOut (text_contents W.contents) out.old out.new
        (spec.label holder name.now)) }
{
    if holder == Kind::Array {
        return Ok(());
    }
    write_text(name, out)
}

/// Writes what stands before the pairs of a dict.
fn begin_dict<W: Write>(out: &mut TextWriter<W>) -> Result<(), Failed>
    ensures { OnOk result (WritesOut (text_contents W.contents) out.old out.new spec.dict_front) }
{
    out.write_all(&[
        EMPTY_DICT, BINPUT, 1, BINGET, 0, BINGET, 1, APPEND, POP, MARK,
    ])
}

/// Writes what stands before the pairs of a scope.
fn begin_scope<W: Write>(code: &str, out: &mut TextWriter<W>) -> Result<(), Failed>
    ensures { OnOk result (WritesOut (text_contents W.contents) out.old out.new
        (spec.scope_front code.now)) }
{
    begin_made(Kind::CodeWithScope, out)?;
    write_text(code, out)?;
    begin_dict(out)
}

/// Writes what stands behind the pairs of a scope.
fn end_scope<W: Write>(out: &mut TextWriter<W>) -> Result<(), Failed>
    ensures { OnOk result (WritesOut (text_contents W.contents) out.old out.new spec.scope_end) }
{
    out.write_all(&[SETITEMS])?;
    end_made(out)
}

/// Writes what stands behind the pairs that a value of this kind holds.
fn write_closing<W: Write>(kind: Kind, out: &mut TextWriter<W>) -> Result<(), Failed>
    ensures { OnOk result (WritesOut (text_contents W.contents) out.old out.new
        (spec.closing kind)) }
{
    match kind {
        Kind::Array => out.write_all(&[APPENDS]),
        Kind::CodeWithScope => end_scope(out),
        _ => out.write_all(&[SETITEMS]),
    }
}

/// Writes a value, up to the pairs that it holds. Returns those, if it holds any.
#[inline(always)]
fn write_front<'a, W: Write>(
    value: RawBson<'a>,
    out: &mut TextWriter<W>,
) -> Result<Option<Held<'a>>, Failed>
    ensures front { (v : TreeValue) → Shows value.entry v → IfOk result (λ held.
        (text : List ℕ) × IsFront v held text
        × WritesOut (text_contents W.contents) out.old out.new text) }
    ensures size { IfOk result (λ held. IfSome held
        (λ h. length (document_bytes h.document) ≡ held_len value.entry)) }
{
    let (kind, document) = match value {
        RawBson::Document(document) => {
            begin_dict(out)?;
            (Kind::Document, document)
        }
        RawBson::Array(array) => {
            out.write_all(&[EMPTY_LIST, MARK])?;
            (Kind::Array, array.as_document())
        }
        RawBson::CodeWithScope { code, scope } => {
            begin_scope(code, out)?;
            (Kind::CodeWithScope, scope)
        }
        leaf => {
            write_leaf(leaf, out)?;
            return Ok(None);
        }
    };
    Ok(Some(Held { kind, document }))
}

/// Writes the next pairs, up to the pairs of the first value that holds some. Returns how many
/// names they have, and those pairs, or `None` after the last pair. Not inlined, so that each level
/// of nesting takes little stack.
#[inline(never)]
fn write_to_held<'a, W: Write>(
    pairs: &mut RawIter<'a>,
    holder: Kind,
    out: &mut TextWriter<W>,
) -> Result<(usize, Option<Held<'a>>), Failed>
    ensures pairs { (t : Tree) → PairsLeft pairs.old t → IfOk result (λ r. MatchOption r.1
        (WritesOut (text_contents W.contents) out.old out.new (pairs_pickle holder t)
        × (names_in holder t ≡ r.0))
        (λ h. StopsAt holder t r.0 h (PairsLeft pairs.new)
        (WritesOut (text_contents W.contents) out.old out.new))) }
    ensures fewer { (t : Tree) → PairsLeft pairs.old t
        → IfOk result (λ r. r.0 ≤ names_in holder t) }
    ensures inside { IfOk result (λ r. IfSome r.1
        (λ h. length (document_bytes h.document) < walked_len pairs.old)) }
    ensures goes { IfOk result (λ r. IfSome r.1
        (λ _. pairs_bound pairs.new < pairs_bound pairs.old)) }
    ensures same { walked_len pairs.new ≡ walked_len pairs.old }
{
    let each = names_of_one(holder);
    let mut names = 0;
    while let Some((name, value)) = pairs.next_inlined() {
        names += each;
        write_label(holder, name, out)?;
        if let Some(held) = write_front(value, out)? {
            return Ok((names, Some(held)));
        }
    }
    Ok((names, None))
}

/// Writes the pairs that a value of this kind holds, and those inside them. Returns how many names
/// they have.
pub(crate) fn write_pairs<W: Write>(
    holder: Kind,
    document: RawDocument<'_>,
    out: &mut TextWriter<W>,
) -> Result<usize, Failed>
    ensures { (t : Tree) → Spells t (document_bytes document.entry) → IfOk result (λ n.
        (n ≡ names_in holder t)
        × WritesOut (text_contents W.contents) out.old out.new (pairs_pickle holder t)) }
{
    let mut pairs = document.iter();
    let mut names = 0;
    loop {
        let (passed, held) = write_to_held(&mut pairs, holder, out)?;
        names += passed;
        let held = match held {
            Some(held) => held,
            None => return Ok(names),
        };
        names += write_pairs(held.kind, held.document, out)?;
        write_closing(held.kind, out)?;
    }
}
