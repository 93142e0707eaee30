//! What is asked of one value that a path reaches.

ghost use Rattle.std.specs.Prelude.{◌≡◌, option_map};
ghost use Rattle.bson_doc.specs.{value_of};
ghost use Rattle.doc_query.specs.Criteria.{fits, has_decimal};

use crate::conditions::{Operator, passes};
use crate::decimals::holds_decimal;
use bson_doc::Bson;

/// What is asked of a value.
#[derive(Clone, Copy)]
pub enum Criterion<'a> {
    /// That it is ordered against this operand as the operator asks. A missing value is as null.
    Passes(Operator, &'a Bson),
    /// That it isn't missing.
    IsThere,
    /// That it is a decimal128, or holds one at any depth, so that it isn't compared.
    HasDecimal,
}

/// Returns true if a value is there, and is or holds a decimal128.
fn has_decimal(own: Option<&Bson>) -> bool
    ensures { result ≡ has_decimal (option_map (λ v. value_of v.now) own.entry) }
{
    match own {
        Some(value) => holds_decimal(value),
        None => false,
    }
}

/// Returns true if a value is as is asked.
pub fn fits(criterion: Criterion<'_>, own: Option<&Bson>) -> bool
    ensures { result ≡ fits criterion.entry (option_map (λ v. value_of v.now) own.entry) }
{
    match criterion {
        Criterion::Passes(operator, operand) => {
            passes(operator, own.unwrap_or(&Bson::Null), operand)
        }
        Criterion::IsThere => own.is_some(),
        Criterion::HasDecimal => has_decimal(own),
    }
}
