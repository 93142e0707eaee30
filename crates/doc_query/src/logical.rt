//! The logical operators of filters, which join filters in an array.

ghost use Rattle.std.specs.Prelude.{◌≡◌};
ghost use Rattle.doc_query.specs.Filters.{joined_none, joining, logical_of, no_array};

use crate::failure::CommandError;

/// A logical operator, which is named as in a filter.
#[derive(Clone, Copy)]
pub enum Logical {
    And,
    Or,
}

/// What a filter is applied for.
#[derive(Clone, Copy)]
pub enum Purpose {
    /// To tell if a document matches.
    Match,
    /// To tell if all values that it asks for are compared.
    Compare,
}

/// Returns the logical operator with this name.
pub fn logical_of(name: &str) -> Option<Logical>
    ensures { result ≡ logical_of name.now }
{
    match name {
        "$and" => Some(Logical::And),
        "$or" => Some(Logical::Or),
        _ => None,
    }
}

/// Returns why an operator isn't carried out that has no array.
pub fn no_array(logical: Logical) -> CommandError
    ensures { result ≡ no_array logical }
{
    match logical {
        Logical::And => CommandError::AndArray,
        Logical::Or => CommandError::OrArray,
    }
}

/// Returns how the clauses of an operator are joined.
pub fn joining(purpose: Purpose, logical: Logical) -> Logical
    ensures { result ≡ joining purpose logical }
{
    match purpose {
        Purpose::Match => logical,
        Purpose::Compare => Logical::And,
    }
}

/// Returns what an operator asks for if there are no clauses: nothing, or what nothing can be.
pub fn joined_none(logical: Logical) -> bool
    ensures { result ≡ joined_none logical }
{
    match logical {
        Logical::And => true,
        Logical::Or => false,
    }
}
