//! Containers that are opened inside others, and ended; and the outermost document.

ghost use Rattle.std.specs.Prelude.{◌≡◌, ◌≤◌, ◌<◌, ◌+◌, ◌^◌, List, ℕ, length, take};
ghost use Rattle.std.specs.Prelude.{MatchOption};
ghost use Rattle.bson_elem.specs.declared.kinds.Kind.{Kind};
ghost use Rattle.bson_elem.specs.{Spells, Tree, no_code, no_pairs};
ghost use Rattle.bson_raw.specs.{document_value};
ghost use Rattle.bson_doc.specs.Appended.{with_pair_appended};
ghost use Rattle.byte_views.specs.Builders.{Builds, next_name};
ghost use Rattle.byte_views.specs.Nesting.{CanEnd, IsBegun, IsClosable, IsEnded, IsFinished};
ghost use Rattle.byte_views.specs.Nesting.{StandsBehind, closed, container_of, first_builder};

use crate::build::builder::Builder;
use crate::build::built::Built;
use crate::build::place::put;
use crate::build::refusal::BuildRefusal;
use crate::build::value::Value;
use bson_elem::{Kind, MAX_DEPTH, MAX_LEN};

/// Returns the builder of a document that begins at the front of a room, with no pairs.
pub fn first() -> Builder
    ensures first { result ≡ first_builder }
    ensures empty { (room : List ℕ) → 5 ≤ length room → Builds room result no_pairs }
{
    Builder {
        start: 0,
        end: 4,
        count: 0,
        depth: 1,
        kind: 3,
    }
}

/// Returns the kind of a container with this type byte.
fn container(number: u32) -> Option<Kind>
    ensures { result ≡ container_of number }
{
    match number {
        3 => Some(Kind::Document),
        4 => Some(Kind::Array),
        _ => None,
    }
}

/// Opens a container, as `begin` does.
fn open(room: &mut [u8], outer: &Builder, name: &[u8], kind: u32, inner: &mut Builder) -> Built
    ensures { IsBegun room.old outer.now name.now kind inner.old room.new inner.new result }
{
    if !outer.is_in_range() {
        return Built::refused(BuildRefusal::OutOfRange);
    }
    let container = match container(kind) {
        Some(container) => container,
        None => return Built::refused(BuildRefusal::Kind),
    };
    if outer.depth >= MAX_DEPTH {
        return Built::refused(BuildRefusal::Depth);
    }
    let mut behind = Builder {
        depth: outer.depth + 1,
        ..*outer
    };
    let built = behind.push_named(room, container, name, &Value::Four(0));
    if built.refusal == 0 {
        *inner = Builder {
            start: behind.end - 4,
            end: behind.end,
            count: 0,
            depth: behind.depth,
            kind,
        };
    }
    built
}

/// Opens a document or an array, of `kind` 3 or 4, as the value of the next pair of `outer`, with
/// `inner` as its builder. Until it is ended nothing else is appended to `outer`.
pub fn begin(room: &mut [u8], outer: &Builder, name: &[u8], kind: u32, inner: &mut Builder) -> Built
    ensures begun { IsBegun room.old outer.now name.now kind inner.old room.new inner.new result }
    ensures empty { (t : Tree) → Builds room.old outer.now t → result.refusal ≡ 0
        → Builds room.new outer.now t × Builds room.new inner.new no_pairs
        × ((k : Kind) × StandsBehind room.new outer.now inner.new k
        (next_name outer.now name.now)) }
{
    open(room, outer, name, kind, inner)
}

/// Returns how long the room has to be for the ends of all containers that are open, if the
/// numbers are in range with them.
fn closing_len(builder: &Builder) -> Option<usize>
    ensures { MatchOption result (IsClosable builder.now → ⊥)
        (λ n. IsClosable builder.now × (n ≡ builder.now.end + builder.now.depth)) }
{
    if !builder.is_in_range() {
        return None;
    }
    let wanted = builder.end + builder.depth as usize;
    if wanted > MAX_LEN {
        return None;
    }
    Some(wanted)
}

/// Returns how long the room has to be to end the inner container, if it stands behind the outer
/// one and is one deeper.
fn ending_len(outer: &Builder, inner: &Builder) -> Option<usize>
    ensures { MatchOption result (CanEnd outer.now inner.now → ⊥)
        (λ n. CanEnd outer.now inner.now × (n ≡ inner.now.end + inner.now.depth)) }
{
    if !outer.is_in_range() {
        return None;
    }
    let wanted = closing_len(inner)?;
    if outer.end >= inner.start || inner.depth != outer.depth + 1 {
        return None;
    }
    Some(wanted)
}

/// Writes the length and the last 00 of a container.
fn close(room: &mut [u8], start: usize, end: usize)
    requires begun { start + 4 ≤ end }
    requires has_room { end < length room.old }
    requires short { end + 1 < 2 ^ 31 }
    ensures { room.new ≡ closed start end room.old }
{
    let size = (end + 1 - start) as u32;
    put(room, start, &size.to_le_bytes());
    put(room, end, &[0]);
}

/// Ends a container, as `end` does.
fn end_inner(room: &mut [u8], outer: &mut Builder, inner: &Builder) -> Built
    ensures { IsEnded room.old outer.old inner.now room.new outer.new result }
{
    let wanted = match ending_len(outer, inner) {
        Some(wanted) => wanted,
        None => return Built::refused(BuildRefusal::OutOfRange),
    };
    if wanted > room.len() {
        return Built::no_room(wanted);
    }
    close(room, inner.start, inner.end);
    outer.end = inner.end + 1;
    outer.count += 1;
    Built::done(wanted)
}

/// Ends the document or the array `inner`, which `begin` opened in `outer`. It is a pair of `outer`
/// then.
pub fn end(room: &mut [u8], outer: &mut Builder, inner: &Builder) -> Built
    ensures ended { IsEnded room.old outer.old inner.now room.new outer.new result }
    ensures pairs { (t u : Tree) (k : Kind) (name : List ℕ) → Builds room.old outer.old t
        → Builds room.old inner.now u → StandsBehind room.old outer.old inner.now k name
        → result.refusal ≡ 0
        → Builds room.new outer.new (with_pair_appended name (document_value k no_code u) t) }
{
    end_inner(room, outer, inner)
}

/// Ends the outermost document, as `finish` does.
fn finish_document(room: &mut [u8], builder: &Builder) -> Built
    ensures { IsFinished room.old builder.now room.new result }
{
    let wanted = match closing_len(builder) {
        Some(wanted) => wanted,
        None => return Built::refused(BuildRefusal::OutOfRange),
    };
    if wanted > room.len() {
        return Built::no_room(wanted);
    }
    close(room, builder.start, builder.end);
    Built::done(builder.end + 1)
}

/// Ends the outermost document, whose number of bytes is `wanted` of the answer.
pub fn finish(room: &mut [u8], builder: &Builder) -> Built
    ensures finished { IsFinished room.old builder.now room.new result }
    ensures document { (t : Tree) → Builds room.old builder.now t → builder.now.start ≡ 0
        → builder.now.depth ≡ 1 → result.refusal ≡ 0
        → Spells t (take result.wanted room.new) }
{
    finish_document(room, builder)
}
