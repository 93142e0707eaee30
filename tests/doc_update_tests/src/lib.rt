//! Tests of what no contract of queries and updates says: how long one of many paths takes, and that
//! the definitions are MongoDB's.
//!
//! Uses doc_query and doc_update. Read first: `equality`, `ids`, and then `many_paths`.
#![tactic(auto)]

#[cfg(test)]
mod equality;
#[cfg(test)]
mod ids;
#[cfg(test)]
mod many_paths;
