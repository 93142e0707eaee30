//! Tells which paths an update may have, and which two of them conflict.

ghost use Rattle.std.specs.Prelude.{◌≡◌, ◌++◌, IfOk, OnOk, length, map, nat_lt};
ghost use Rattle.std.specs.Cmp.Lexicographic.{slice_cmp};
ghost use Rattle.std.specs.Ordering.{nat_cmp};
ghost use Rattle.doc_query.specs.{steps, steps_left};
ghost use Rattle.doc_update.specs.Paths.{overlap, overlap_within, path_fault, paths_fault};
ghost use Rattle.doc_update.specs.Paths.{paths_of, step_fault, steps_fault};

use bson_doc::Document;
use doc_query::{CommandError, first_step, is_operator};
use std::alloc::AllocError;
use std::cmp::Ordering;

/// Returns true if a path has more than 200 steps.
fn has_many_steps(path: &str) -> bool
    ensures { result ≡ nat_lt 200 (length (steps path.now)) }
{
    let mut dots: usize = 0;
    for byte in path.as_bytes() {
        if *byte == b'.' {
            dots += 1;
        }
    }
    dots >= 200
}

/// Returns why a step of a path isn't carried out.
fn step_fault(step: &str) -> Option<CommandError>
    ensures { result ≡ step_fault step.now }
{
    if step == "" {
        Some(CommandError::EmptyStep)
    } else if is_operator(step) {
        Some(CommandError::Path)
    } else {
        None
    }
}

/// Returns the fault of the first step of a path that has one.
fn steps_fault(path: &str) -> Option<CommandError>
    ensures { result ≡ steps_fault (steps path.now) }
{
    let mut rest = Some(path);
    while let Some(path) = rest {
        let (step, left) = first_step(path);
        if let Some(fault) = step_fault(step) {
            return Some(fault);
        }
        rest = left;
    }
    None
}

/// Returns why a path isn't carried out.
fn path_fault(path: &str) -> Option<CommandError>
    ensures { result ≡ path_fault path.now }
{
    if has_many_steps(path) {
        return Some(CommandError::Steps);
    }
    steps_fault(path)
}

/// Returns the fault of the first of these paths that has one: `Steps` if it has more than 200 steps,
/// and otherwise `EmptyStep` or `Path`.
pub fn paths_fault(fields: &Document) -> Option<CommandError>
    ensures { result ≡ paths_fault fields.now }
{
    for (path, _) in fields {
        if let Some(fault) = path_fault(path) {
            return Some(fault);
        }
    }
    None
}

/// Returns true if the steps of two paths are the same, as far as both go.
fn overlap(a: Option<&str>, b: Option<&str>) -> bool
    ensures { result ≡ overlap (steps_left a.entry) (steps_left b.entry) }
{
    let Some(a) = a else {
        return true;
    };
    let (step, a_rest) = first_step(a);
    let Some(b) = b else {
        return true;
    };
    let (other, b_rest) = first_step(b);
    step == other && overlap(a_rest, b_rest)
}

/// Returns the order of two paths, by the first step in which they differ. A path comes right before
/// those that it is the beginning of.
fn steps_order(a: &str, b: &str) -> Ordering
    ensures { result ≡ slice_cmp (slice_cmp nat_cmp) (steps a.now) (steps b.now) }
{
    a.split('.').cmp(b.split('.'))
}

/// Returns true if two of these paths overlap: if the steps of both are the same, as far as both go.
/// Sorts them, so that two of them that are neighbours overlap then.
///
/// # Errors
///
/// Returns `AllocError` if memory runs out.
pub fn overlap_within(mut paths: Vec<&str>) -> Result<bool, AllocError>
    ensures { IfOk result (λ b. b ≡ overlap_within (map (λ p. p.now) paths.entry.items)) }
{
    paths.sort_by(|a, b| steps_order(*a, *b))?;
    Ok(!paths.is_sorted_by(|a, b| !overlap(Some(*a), Some(*b))))
}

/// Appends the names of fields, which are paths.
pub fn push_paths<'a>(fields: &'a Document, paths: &mut Vec<&'a str>) -> Result<(), AllocError>
    ensures { OnOk result (map (λ p. p.now) paths.new.items
        ≡ map (λ p. p.now) paths.old.items ++ paths_of fields.now) }
{
    for (path, _) in fields {
        paths.push(path)?;
    }
    Ok(())
}
