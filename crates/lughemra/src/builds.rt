//! Exports what builds a document, and the document sequences of a message, in the caller's room.

ghost use Rattle.std.specs.Prelude.{◌≡◌, ◌≤◌, List, ℕ, length, take};
ghost use Rattle.bson_elem.specs.declared.kinds.Kind.{Kind};
ghost use Rattle.bson_elem.specs.{Spells, Tree, no_code, no_pairs};
ghost use Rattle.bson_raw.specs.{AreDocuments, document_value, documents_bytes};
ghost use Rattle.bson_doc.specs.Appended.{with_pair_appended};
ghost use Rattle.byte_views.specs.Appends.{AppendsLeaf, IsAppended};
ghost use Rattle.byte_views.specs.Builders.{Builds, next_name};
ghost use Rattle.byte_views.specs.Nesting.{IsBegun, IsEnded, IsFinished, StandsBehind};
ghost use Rattle.byte_views.specs.Nesting.{first_builder};
ghost use Rattle.byte_views.specs.Sequences.{HoldsSequences, IsSequencePut, with_sequence};
ghost use Rattle.wire_msg.specs.{Sequence};

use byte_views::build::{Builder, Built, ValueNumbers};

/// Returns the builder of a document that begins at the front of a room, with no pairs.
#[unsafe(no_mangle)]
pub extern "C" fn lughemra_build() -> Builder
    ensures first { result ≡ first_builder }
    ensures empty { (room : List ℕ) → 5 ≤ length room → Builds room result no_pairs }
{
    byte_views::build::first()
}

/// Appends a pair to what `builder` builds in `room`, as `byte_views::build::append` does.
#[unsafe(no_mangle)]
pub extern "C" fn lughemra_append_nonnull(
    room: &mut [u8],
    builder: &mut Builder,
    name: &[u8],
    value: &ValueNumbers,
    text: &[u8],
    bytes: &[u8],
) -> Built
    ensures appended { IsAppended room.old builder.old name.now value.now text.now bytes.now
        room.new builder.new result }
    ensures pairs { (t : Tree) → Builds room.old builder.old t → result.refusal ≡ 0
        → AppendsLeaf room.new builder.old name.now value.now text.now bytes.now builder.new t }
{
    byte_views::build::append(room, builder, name, value, text, bytes)
}

/// Opens a document or an array inside `outer`, as `byte_views::build::begin` does.
#[unsafe(no_mangle)]
pub extern "C" fn lughemra_begin_nonnull(
    room: &mut [u8],
    outer: &Builder,
    name: &[u8],
    kind: u32,
    inner: &mut Builder,
) -> Built
    ensures begun { IsBegun room.old outer.now name.now kind inner.old room.new inner.new result }
    ensures empty { (t : Tree) → Builds room.old outer.now t → result.refusal ≡ 0
        → Builds room.new outer.now t × Builds room.new inner.new no_pairs
        × ((k : Kind) × StandsBehind room.new outer.now inner.new k
        (next_name outer.now name.now)) }
{
    byte_views::build::begin(room, outer, name, kind, inner)
}

/// Ends the document or the array `inner`, as `byte_views::build::end` does.
#[unsafe(no_mangle)]
pub extern "C" fn lughemra_end_nonnull(
    room: &mut [u8],
    outer: &mut Builder,
    inner: &Builder,
) -> Built
    ensures ended { IsEnded room.old outer.old inner.now room.new outer.new result }
    ensures pairs { (t u : Tree) (k : Kind) (name : List ℕ) → Builds room.old outer.old t
        → Builds room.old inner.now u → StandsBehind room.old outer.old inner.now k name
        → result.refusal ≡ 0
        → Builds room.new outer.new (with_pair_appended name (document_value k no_code u) t) }
{
    byte_views::build::end(room, outer, inner)
}

/// Ends the outermost document, as `byte_views::build::finish` does.
#[unsafe(no_mangle)]
pub extern "C" fn lughemra_finish_nonnull(room: &mut [u8], builder: &Builder) -> Built
    ensures finished { IsFinished room.old builder.now room.new result }
    ensures document { (t : Tree) → Builds room.old builder.now t → builder.now.start ≡ 0
        → builder.now.depth ≡ 1 → result.refusal ≡ 0
        → Spells t (take result.wanted room.new) }
{
    byte_views::build::finish(room, builder)
}

/// Appends a document sequence to those in the first `end` bytes of `room`, as
/// `byte_views::build::append_sequence` does.
#[unsafe(no_mangle)]
pub extern "C" fn lughemra_append_sequence_nonnull(
    room: &mut [u8],
    end: &mut usize,
    identifier: &[u8],
    documents: &[u8],
) -> Built
    ensures put { IsSequencePut room.old end.old identifier.now documents.now
        room.new end.new result }
    ensures sequences { (qs : List Sequence) (ts : List Tree) → HoldsSequences room.old end.old qs
        → AreDocuments ts → documents.now ≡ documents_bytes ts → result.refusal ≡ 0
        → HoldsSequences room.new end.new (with_sequence qs identifier.now ts) }
{
    byte_views::build::append_sequence(room, end, identifier, documents)
}
