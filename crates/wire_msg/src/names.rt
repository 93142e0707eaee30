//! Checks the names of a message: no top-level name of the body is repeated, and no identifier is
//! one of them.

ghost use Rattle.std.specs.Prelude.{◌≡◌, ◌+◌, ◌<◌, ◌^◌, length, [], List, MatchResult, Some, None};
ghost use Rattle.bson_elem.specs.{Spells, Tree};
ghost use Rattle.bson_raw.specs.{document_bytes, first_repeated};
ghost use Rattle.wire_msg.specs.Messages.{AreSequences, Sequence};
ghost use Rattle.wire_msg.specs.Spelling.{sequences_bytes};
ghost use Rattle.wire_msg.specs.Faults.{first_in_body, names_fault};
ghost use Rattle.wire_msg.specs.Checks.{HasSequences};

use crate::fault::{MsgCause, MsgFault};
use crate::fields::{Fields, Names};
use crate::sections::SECTIONS;
use crate::sequence::fault_at;
use crate::sequence_iter::split_sequence;
use bson_raw::RawDocument;
use std::alloc::Global;

/// Returns the offset of the first sequence whose identifier is one of `fields`. `sequences` begin
/// at offset `start`.
fn offset_in_body<N: Names>(fields: &N, sequences: &[u8], start: usize) -> Option<usize>
    requires known { ∥ HasSequences sequences.now ∥₁ }
    requires room { start + length sequences.now < 2 ^ 64 }
    ensures { (t : Tree) (qs : List Sequence) → N.are fields.now t
        → AreSequences qs → sequences.now ≡ sequences_bytes qs
        → result ≡ first_in_body t start qs }
{
    let mut rest = sequences;
    while !rest.is_empty() {
        let (identifier, _, next) = split_sequence(rest);
        if fields.contains(identifier) {
            return Some(start + (sequences.len() - rest.len()));
        }
        rest = next;
    }
    None
}

/// Checks that no identifier of the sequences `before` and `after` the body is one of `fields`,
/// none of which is repeated.
fn check_identifiers<N: Names>(
    fields: &N,
    before: &[u8],
    body: RawDocument<'_>,
    after: &[u8],
) -> Result<(), MsgFault>
    requires first { ∥ HasSequences before.now ∥₁ }
    requires last { ∥ HasSequences after.now ∥₁ }
    requires room { length before.now + length after.now < 2 ^ 32 }
    ensures { (first : List Sequence) (t : Tree) (last : List Sequence)
        → AreSequences first → before.now ≡ sequences_bytes first
        → Spells t (document_bytes body.entry) → N.are fields.now t
        → AreSequences last → after.now ≡ sequences_bytes last
        → first_repeated [] t ≡ None
        → MatchResult result
        (λ _. names_fault first t last ≡ None)
        (λ f. names_fault first t last ≡ Some f) }
{
    if let Some(offset) = offset_in_body(fields, before, SECTIONS) {
        return Err(fault_at(offset, MsgCause::SequenceInBody));
    }
    let next = SECTIONS + before.len() + 1 + body.as_bytes().len();
    match offset_in_body(fields, after, next) {
        Some(offset) => Err(fault_at(offset, MsgCause::SequenceInBody)),
        None => Ok(()),
    }
}

/// Checks the names of a message whose sections are known. Looks them up in `fields`.
fn check_names_in<N: Names>(
    fields: &N,
    before: &[u8],
    body: RawDocument<'_>,
    after: &[u8],
) -> Result<(), MsgFault>
    requires first { ∥ HasSequences before.now ∥₁ }
    requires last { ∥ HasSequences after.now ∥₁ }
    requires room { length before.now + length after.now < 2 ^ 32 }
    ensures { (first : List Sequence) (t : Tree) (last : List Sequence)
        → AreSequences first → before.now ≡ sequences_bytes first
        → Spells t (document_bytes body.entry) → N.are fields.now t
        → AreSequences last → after.now ≡ sequences_bytes last
        → MatchResult result
        (λ _. names_fault first t last ≡ None)
        (λ f. names_fault first t last ≡ Some f) }
{
    if fields.has_repeated() {
        return Err(fault_at(SECTIONS + before.len(), MsgCause::RepeatedField));
    }
    check_identifiers(fields, before, body, after)
}

/// Says whether names are sorted for looking them up. It is a type and no value, so that what reads
/// messages without memory reaches nothing that takes some.
pub(crate) trait Memory: Copy {
    /// Checks the names of a message whose sections are known.
    fn check_names(self, before: &[u8], body: RawDocument<'_>, after: &[u8]) -> Result<(), MsgFault>
        requires first { ∥ HasSequences before.now ∥₁ }
        requires last { ∥ HasSequences after.now ∥₁ }
        requires room { length before.now + length after.now < 2 ^ 32 }
        ensures { (first : List Sequence) (t : Tree) (last : List Sequence)
            → AreSequences first → before.now ≡ sequences_bytes first
            → Spells t (document_bytes body.entry)
            → AreSequences last → after.now ≡ sequences_bytes last
            → MatchResult result
            (λ _. names_fault first t last ≡ None)
            (λ f. names_fault first t last ≡ Some f) };
}

/// Takes no memory: each name is compared with all others.
#[derive(Clone, Copy)]
pub(crate) struct InPlace;

impl Memory for InPlace {
    fn check_names(
        self,
        before: &[u8],
        body: RawDocument<'_>,
        after: &[u8],
    ) -> Result<(), MsgFault> {
        check_names_in(&body, before, body, after)
    }
}

/// Takes memory to sort the names, if there is some.
impl Memory for Global {
    fn check_names(
        self,
        before: &[u8],
        body: RawDocument<'_>,
        after: &[u8],
    ) -> Result<(), MsgFault> {
        check_names_in(&Fields::of(self, body), before, body, after)
    }
}
