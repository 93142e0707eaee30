//! Queries of documents: the filters that say which documents match.
//!
//! What is carried out of MongoDB's own query language is a stated part of it, and all else is
//! refused by a `CommandError`. Values are compared by their place in a stated order, and numbers of
//! all kinds by value, exactly, also inside documents and arrays.
//!
//! Stands on bson_doc. doc_stages, doc_update, test_store and test_script stand on it. Read first:
//! `comparing`, `equality`, `conditions`, `paths` and `filters`.
#![tactic(auto)]

mod comparing;
mod conditions;
mod criteria;
mod decimals;
mod equality;
mod failure;
mod filters;
mod logical;
mod making;
mod meeting;
mod numbers;
mod owned;
mod paths;

pub use comparing::{field_order, has_place};
pub use conditions::is_number;
pub use equality::is_equal;
pub use failure::{CommandError, Failure};
pub use filters::{
    applicable, begins_with_operator, compared, filter_field, found_in, has_operators, is_match,
    is_operator, is_plain_name, matching,
};
pub use making::{count_value, set};
pub use owned::{array_field, copies, field, is_same, owned_body, whole_of};
pub use paths::{first_step, is_index, single_from};
