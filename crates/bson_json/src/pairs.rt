//! Writes the pairs of a document, and of those inside it.

ghost use Rattle.std.specs.Prelude.{◌≡◌, ◌<◌, IfOk, IfSome, MatchOption, OnOk, length, true};
ghost use Rattle.bson_elem.specs.{Spells, Tree};
ghost use Rattle.bson_raw.specs.{PairsLeft, Shows, TreeValue, document_bytes};
ghost use Rattle.bson_raw.specs.{pairs_bound, walked_len};
ghost use Rattle.text_writer.specs.{WritesOut, text_contents};
ghost use Rattle.bson_json.specs.Json as spec;
ghost use Rattle.bson_json.specs.Json.{IsPairsJson};
ghost use Rattle.bson_json.specs.Walks.{IsPairFront, StopsAt, WritesOne, pair_front};

use crate::held::Held;
use crate::mode::Mode;
use crate::text::write_quoted;
use crate::value::write_front;
use bson_elem::Kind;
use bson_raw::{RawBson, RawDocument, RawIter};
use std::io::Write;
use text_writer::{Failed, TextWriter};

/// Writes what stands before the value of a pair: a comma, unless the pair is the first, and its
/// name, unless it is in an array.
fn write_label<W: Write>(
    holder: Kind,
    first: bool,
    name: &str,
    out: &mut TextWriter<W>,
) -> Result<(), Failed>
    ensures { OnOk result (WritesOut (text_contents W.contents) out.old out.new
        (pair_front holder first name.now)) }
{
    if !first {
        out.write_all(b",")?;
    }
    if holder == Kind::Array {
        return Ok(());
    }
    write_quoted(name, out)?;
    out.write_all(b":")
}

/// Writes what stands behind the pairs that a value of this kind holds.
fn write_closing<W: Write>(kind: Kind, out: &mut TextWriter<W>) -> Result<(), Failed>
    ensures { OnOk result (WritesOut (text_contents W.contents) out.old out.new
        (spec.closing kind)) }
{
    match kind {
        Kind::Array => out.write_all(b"]"),
        Kind::CodeWithScope => out.write_all(b"}}"),
        _ => out.write_all(b"}"),
    }
}

/// Writes a pair, up to the pairs that its value holds.
#[inline(always)]
fn write_pair<W: Write>(
    holder: Kind,
    first: bool,
    name: &str,
    value: RawBson<'_>,
    mode: Mode,
    out: &mut TextWriter<W>,
) -> Result<(), Failed>
    ensures { (v : TreeValue) → Shows value.entry v → OnOk result
        (WritesOne (text_contents W.contents) out.old out.new
        (IsPairFront mode holder first name.now v)) }
{
    write_label(holder, first, name, out)?;
    write_front(value, mode, out)
}

/// Writes the next pairs, up to the pairs of the first value that holds some. Returns those, or
/// `None` after the last pair. Not inlined, so that each level of nesting takes little stack.
#[inline(never)]
fn write_to_held<'a, W: Write>(
    pairs: &mut RawIter<'a>,
    holder: Kind,
    mut first: bool,
    mode: Mode,
    out: &mut TextWriter<W>,
) -> Result<Option<Held<'a>>, Failed>
    ensures pairs { (t : Tree) → PairsLeft pairs.old t → IfOk result (λ held. MatchOption held
        (WritesOne (text_contents W.contents) out.old out.new (IsPairsJson mode holder first t))
        (λ h. StopsAt mode holder first t h (PairsLeft pairs.new)
        (WritesOut (text_contents W.contents) out.old out.new))) }
    ensures inside { IfOk result (λ held. IfSome held
        (λ h. length (document_bytes h.document) < walked_len pairs.old)) }
    ensures goes { IfOk result (λ held. IfSome held
        (λ _. pairs_bound pairs.new < pairs_bound pairs.old)) }
    ensures same { walked_len pairs.new ≡ walked_len pairs.old }
{
    while let Some((name, value)) = pairs.next() {
        write_pair(holder, first, name, value, mode, out)?;
        if let Some(held) = Held::of(value) {
            return Ok(Some(held));
        }
        first = false;
    }
    Ok(None)
}

/// Writes the pairs that a value of this kind holds, and those inside them.
pub(crate) fn write_pairs<W: Write>(
    holder: Kind,
    document: RawDocument<'_>,
    mode: Mode,
    out: &mut TextWriter<W>,
) -> Result<(), Failed>
    ensures { (t : Tree) → Spells t (document_bytes document.entry) → OnOk result
        (WritesOne (text_contents W.contents) out.old out.new (IsPairsJson mode holder true t)) }
{
    let mut pairs = document.iter();
    let mut first = true;
    while let Some(held) = write_to_held(&mut pairs, holder, first, mode, out)? {
        write_pairs(held.kind, held.document, mode, out)?;
        write_closing(held.kind, out)?;
        first = false;
    }
    Ok(())
}
