//! Applies the stages of a pipeline to documents, each to what the one before left.

ghost use Rattle.std.specs.Prelude.{◌≡◌, ◌<◌, ◌^◌, ◌∷◌, [], IfErr, IfOk, Ok, drop, map, take};
ghost use Rattle.bson_doc.specs.{coded_value, same, tree_of, value_of};
ghost use Rattle.doc_query.specs.{IsFailure, inner};
ghost use Rattle.doc_stages.specs.Pipelines.{after_stage, after_stages, counted, cut, group_count};
ghost use Rattle.doc_stages.specs.Pipelines.{group_key, grouped, is_count_group, matched, skipped};
ghost use Rattle.doc_stages.specs.Pipelines.{stage_in, total};

use crate::batches::take_batch;
use bson_doc::{Bson, Document};
use doc_query::{
    CommandError, Failure, applicable, copies, count_value, field, found_in, is_same, set, whole_of,
};
use std::alloc::{AllocError, Global};

/// Makes what the one `$group` that is carried out computes: `{$sum: 1}`.
fn sum(alloc: Global) -> Result<Bson, AllocError>
    ensures { IfOk result (λ v. value_of v ≡ group_count.1) }
{
    let mut sum = Document::new(alloc);
    set(alloc, &mut sum, "$sum", Bson::Int32(1))?;
    Ok(Bson::Document(sum))
}

/// Makes the operand of that `$group`: `{_id: 1, n: {$sum: 1}}`.
fn key_first(alloc: Global) -> Result<Document, AllocError>
    ensures { IfOk result (λ d. inner d ≡ inner (group_key ∷ group_count ∷ [])) }
{
    let mut group = Document::new(alloc);
    set(alloc, &mut group, "_id", Bson::Int32(1))?;
    set(alloc, &mut group, "n", sum(alloc)?)?;
    Ok(group)
}

/// Makes the same operand with its fields the other way round.
fn key_last(alloc: Global) -> Result<Document, AllocError>
    ensures { IfOk result (λ d. inner d ≡ inner (group_count ∷ group_key ∷ [])) }
{
    let mut group = Document::new(alloc);
    set(alloc, &mut group, "n", sum(alloc)?)?;
    set(alloc, &mut group, "_id", Bson::Int32(1))?;
    Ok(group)
}

/// Makes the document with the number of documents.
fn total(alloc: Global, count: usize) -> Result<Document, AllocError>
    requires { count < 2 ^ 63 }
    ensures { IfOk result (λ d. inner d ≡ total count) }
{
    let mut total = Document::new(alloc);
    set(alloc, &mut total, "_id", Bson::Int32(1))?;
    set(alloc, &mut total, "n", count_value(count))?;
    Ok(total)
}

/// Returns the documents that match a filter.
fn matched(alloc: Global, filter: &Bson, documents: &[Bson]) -> Result<Vec<Bson>, Failure>
    ensures ok { IfOk result (λ vs. matched (value_of filter.now) (map value_of documents.now)
        ≡ Ok (map value_of vs.items)) }
    ensures refused { IfErr result (λ e. IsFailure
        (matched (value_of filter.now) (map value_of documents.now)) e) }
{
    let Bson::Document(filter) = filter else {
        return Err(Failure::Refused(CommandError::Filter));
    };
    applicable(filter)?;
    found_in(alloc, filter, documents)
}

/// Returns copies of the documents after the first ones.
fn after_first(alloc: Global, documents: &[Bson], count: usize) -> Result<Vec<Bson>, AllocError>
    ensures { IfOk result (λ vs. map value_of vs.items ≡ drop count (map value_of documents.now)) }
{
    let mut left = copies(alloc, documents)?;
    let first = take_batch(&mut left, count)?;
    drop(first);
    Ok(left)
}

/// Returns copies of the first documents, at most `count`.
fn first_ones(alloc: Global, documents: &[Bson], count: usize) -> Result<Vec<Bson>, AllocError>
    ensures { IfOk result (λ vs. map value_of vs.items ≡ take count (map value_of documents.now)) }
{
    let mut all = copies(alloc, documents)?;
    let first = take_batch(&mut all, count)?;
    Ok(first)
}

/// Returns true if an operand of `$group` is `{_id: 1, n: {$sum: 1}}`.
fn has_key_first(alloc: Global, group: &Bson) -> Result<bool, AllocError>
    ensures { IfOk result (λ b. b
        ≡ same coded_value (value_of group.now) (inner (group_key ∷ group_count ∷ []))) }
{
    let known = Bson::Document(key_first(alloc)?);
    Ok(is_same(group, &known))
}

/// Returns true if an operand of `$group` is `{n: {$sum: 1}, _id: 1}`.
fn has_key_last(alloc: Global, group: &Bson) -> Result<bool, AllocError>
    ensures { IfOk result (λ b. b
        ≡ same coded_value (value_of group.now) (inner (group_count ∷ group_key ∷ []))) }
{
    let known = Bson::Document(key_last(alloc)?);
    Ok(is_same(group, &known))
}

/// Returns true if an operand of `$group` is the one that counts documents.
fn is_count_group(alloc: Global, group: &Bson) -> Result<bool, AllocError>
    ensures { IfOk result (λ b. b ≡ is_count_group (value_of group.now)) }
{
    let first = has_key_first(alloc, group)?;
    let last = has_key_last(alloc, group)?;
    Ok(first || last)
}

/// Returns the documents after the first ones.
fn skipped(alloc: Global, count: &Bson, documents: &[Bson]) -> Result<Vec<Bson>, Failure>
    ensures ok { IfOk result (λ vs. skipped (value_of count.now) (map value_of documents.now)
        ≡ Ok (map value_of vs.items)) }
    ensures refused { IfErr result (λ e. IsFailure
        (skipped (value_of count.now) (map value_of documents.now)) e) }
{
    let Some(count) = whole_of(count) else {
        return Err(Failure::Refused(CommandError::Stage));
    };
    Ok(after_first(alloc, documents, count)?)
}

/// Returns the first documents.
fn cut(alloc: Global, count: &Bson, documents: &[Bson]) -> Result<Vec<Bson>, Failure>
    ensures ok { IfOk result (λ vs. cut (value_of count.now) (map value_of documents.now)
        ≡ Ok (map value_of vs.items)) }
    ensures refused { IfErr result (λ e. IsFailure
        (cut (value_of count.now) (map value_of documents.now)) e) }
{
    match whole_of(count) {
        Some(count) if count > 0 => Ok(first_ones(alloc, documents, count)?),
        _ => Err(Failure::Refused(CommandError::Stage)),
    }
}

/// Returns one document with the number of documents, or none if there are none.
fn counted(alloc: Global, documents: &[Bson]) -> Result<Vec<Bson>, AllocError>
    ensures { IfOk result (λ vs. map value_of vs.items ≡ counted (map value_of documents.now)) }
{
    let mut totals = Vec::new(alloc);
    if !documents.is_empty() {
        totals.push(Bson::Document(total(alloc, documents.len())?))?;
    }
    Ok(totals)
}

/// Returns what `$group` makes of documents, if it counts them.
fn grouped(alloc: Global, group: &Bson, documents: &[Bson]) -> Result<Vec<Bson>, Failure>
    ensures ok { IfOk result (λ vs. grouped (value_of group.now) (map value_of documents.now)
        ≡ Ok (map value_of vs.items)) }
    ensures refused { IfErr result (λ e. IsFailure
        (grouped (value_of group.now) (map value_of documents.now)) e) }
{
    if is_count_group(alloc, group)? {
        Ok(counted(alloc, documents)?)
    } else {
        Err(Failure::Refused(CommandError::Stage))
    }
}

/// Returns what a stage makes of documents.
#[tactic(auto, using(crate::proofs::Owning::names_count))]
fn stage_in(alloc: Global, stage: &Document, documents: &[Bson]) -> Result<Vec<Bson>, Failure>
    ensures ok { IfOk result (λ vs. stage_in (tree_of stage.now) (map value_of documents.now)
        ≡ Ok (map value_of vs.items)) }
    ensures refused { IfErr result (λ e. IsFailure
        (stage_in (tree_of stage.now) (map value_of documents.now)) e) }
{
    if stage.len() != 1 {
        return Err(Failure::Refused(CommandError::Stage));
    }
    if let Some(filter) = field(stage, "$match") {
        matched(alloc, filter, documents)
    } else if let Some(count) = field(stage, "$skip") {
        skipped(alloc, count, documents)
    } else if let Some(count) = field(stage, "$limit") {
        cut(alloc, count, documents)
    } else if let Some(group) = field(stage, "$group") {
        grouped(alloc, group, documents)
    } else {
        Err(Failure::Refused(CommandError::Stage))
    }
}

/// Returns what a value makes of documents, which must be a stage.
fn after_stage(alloc: Global, stage: &Bson, documents: &[Bson]) -> Result<Vec<Bson>, Failure>
    ensures ok { IfOk result (λ vs. after_stage (value_of stage.now) (map value_of documents.now)
        ≡ Ok (map value_of vs.items)) }
    ensures refused { IfErr result (λ e. IsFailure
        (after_stage (value_of stage.now) (map value_of documents.now)) e) }
{
    match stage {
        Bson::Document(stage) => stage_in(alloc, stage, documents),
        _ => Err(Failure::Refused(CommandError::Stage)),
    }
}

/// Returns what the stages make of documents, one after another.
///
/// # Errors
///
/// Returns the error of the first stage that isn't carried out, and `OutOfMemory` if memory runs
/// out.
pub fn after_stages(
    alloc: Global,
    stages: &[Bson],
    documents: &[Bson],
) -> Result<Vec<Bson>, Failure>
    ensures ok { IfOk result (λ vs.
        after_stages (map value_of stages.now) (map value_of documents.now)
        ≡ Ok (map value_of vs.items)) }
    ensures refused { IfErr result (λ e. IsFailure
        (after_stages (map value_of stages.now) (map value_of documents.now)) e) }
{
    let mut left = copies(alloc, documents)?;
    for stage in stages {
        left = after_stage(alloc, stage, left.as_slice())?;
    }
    Ok(left)
}
