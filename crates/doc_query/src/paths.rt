//! Reaches values in a document by a path: the names of fields and the indexes of elements, with
//! dots between them.

ghost use Rattle.std.specs.Prelude.{◌≡◌, ◌∷◌, ◌≤◌, length, map, option_map, Some};
ghost use Rattle.std.specs.Fmt.{decimal};
ghost use Rattle.std.specs.List.{list_any};
ghost use Rattle.std.specs.Str.{bytes_eq};
ghost use Rattle.bson_doc.specs.{value_of};
ghost use Rattle.doc_query.specs.Criteria.{fits};
ghost use Rattle.doc_query.specs.Paths.{at_end, by_index, by_name, in_each, in_element};
ghost use Rattle.doc_query.specs.Paths.{is_container, left_len, own_values, reached, single_at};
ghost use Rattle.doc_query.specs.Paths.{steps, steps_left};

use crate::conditions::elements;
use crate::criteria::{Criterion, fits};
use crate::owned::field;
use bson_doc::{Bson, Document};
use itoa::Buffer;

/// The values that a path reaches in a document.
#[derive(Clone, Copy)]
pub struct OwnValues<'a> {
    pub document: &'a Document,
    pub path: &'a str,
}

/// Returns the first step of a path, and the path after it, if there is one.
pub fn first_step(path: &str) -> (&str, Option<&str>)
    ensures first { steps path.now ≡ result.0.now ∷ steps_left result.1 }
    ensures shorter { left_len result.1 ≤ length path.now }
{
    match path.split_once('.') {
        Some((step, rest)) => (step, Some(rest)),
        None => (path, None),
    }
}

/// Returns true if a step is the index of an element.
pub fn is_index(step: &str, index: usize) -> bool
    ensures { result ≡ bytes_eq step.now (decimal index) }
{
    let mut digits = Buffer::new();
    step == digits.format(index)
}

/// Returns true if a value is a document or an array.
fn is_container(value: &Bson) -> bool
    ensures { result ≡ is_container (value_of value.now) }
{
    matches!(value, Bson::Document(_) | Bson::Array(_))
}

/// Returns true if one of these values is as is asked.
fn any_fits(criterion: Criterion<'_>, values: &[Bson]) -> bool
    ensures { result ≡ list_any (fits criterion.entry) (map Some (map value_of values.now)) }
{
    for value in values {
        if fits(criterion, Some(value)) {
            return true;
        }
    }
    false
}

/// Returns true if a value in which a path ends, or an element of it, is as is asked.
fn fits_at_end(criterion: Criterion<'_>, own: Option<&Bson>) -> bool
    ensures { result
        ≡ list_any (fits criterion.entry) (at_end (option_map (λ v. value_of v.now) own.entry)) }
{
    match own {
        Some(value) => fits(criterion, own) || any_fits(criterion, elements(value)),
        None => fits(criterion, None),
    }
}

/// Returns true if a value that the rest of a path reaches from this one is as is asked.
#[cycle(reaching)]
fn reaches(criterion: Criterion<'_>, rest: Option<&str>, own: Option<&Bson>) -> bool
    ensures { result ≡ list_any (fits criterion.entry)
        (reached (steps_left rest.entry) (option_map (λ v. value_of v.now) own.entry)) }
{
    let Some(path) = rest else {
        return fits_at_end(criterion, own);
    };
    let (step, rest) = first_step(path);
    match own {
        Some(Bson::Document(document)) => reaches(criterion, rest, field(document, step)),
        Some(Bson::Array(array)) => reaches_in_each(criterion, step, rest, array.as_slice()),
        _ => fits(criterion, None),
    }
}

/// Returns true if a value that the path reaches from one of these elements is as is asked.
#[cycle(reaching)]
fn reaches_in_each(
    criterion: Criterion<'_>,
    step: &str,
    rest: Option<&str>,
    elements: &[Bson],
) -> bool
    ensures { result ≡ list_any (fits criterion.entry)
        (in_each (in_element step.now (steps_left rest.entry)) 0 (map value_of elements.now)) }
{
    for (index, element) in elements.iter().enumerate() {
        if reaches_in_element(criterion, step, rest, index, element) {
            return true;
        }
    }
    false
}

/// Returns true if a value that the path reaches from an element is as is asked.
#[cycle(reaching)]
fn reaches_in_element(
    criterion: Criterion<'_>,
    step: &str,
    rest: Option<&str>,
    index: usize,
    element: &Bson,
) -> bool
    ensures { result ≡ list_any (fits criterion.entry)
        (in_element step.now (steps_left rest.entry) index (value_of element.now)) }
{
    reaches_by_name(criterion, step, rest, element)
        || (is_index(step, index) && reaches_by_index(criterion, rest, element))
}

/// Returns true if a value that the path reaches from a field of an element is as is asked.
#[cycle(reaching)]
fn reaches_by_name(criterion: Criterion<'_>, step: &str, rest: Option<&str>, element: &Bson) -> bool
    ensures { result ≡ list_any (fits criterion.entry)
        (by_name step.now (reached (steps_left rest.entry)) (value_of element.now)) }
{
    match element {
        Bson::Document(document) => reaches(criterion, rest, field(document, step)),
        _ => false,
    }
}

/// Returns true if a value that the rest of the path reaches from an element is as is asked.
#[cycle(reaching)]
fn reaches_by_index(criterion: Criterion<'_>, rest: Option<&str>, element: &Bson) -> bool
    ensures { result ≡ list_any (fits criterion.entry)
        (by_index (steps_left rest.entry) (reached (steps_left rest.entry))
        (value_of element.now)) }
{
    if rest.is_none() {
        return fits(criterion, Some(element));
    }
    is_container(element) && reaches(criterion, rest, Some(element))
}

/// Returns the value that the rest of a path reaches from this one through documents alone, if
/// there is one. An array on the way stands for it.
pub fn single_from<'a>(rest: Option<&str>, own: Option<&'a Bson>) -> Option<&'a Bson>
    ensures { option_map (λ v. value_of v.now) result
        ≡ single_at (steps_left rest.entry) (option_map (λ v. value_of v.now) own.entry) }
{
    let Some(path) = rest else {
        return own;
    };
    let (step, rest) = first_step(path);
    match own {
        Some(Bson::Document(document)) => single_from(rest, field(document, step)),
        Some(Bson::Array(_)) => own,
        _ => None,
    }
}

impl<'a> OwnValues<'a> {
    /// Returns true if one of the values is as is asked.
    pub fn any(self, criterion: Criterion<'_>) -> bool
        ensures { result ≡ list_any (fits criterion.entry) (own_values self.entry) }
    {
        let (step, rest) = first_step(self.path);
        reaches(criterion, rest, field(self.document, step))
    }
}
