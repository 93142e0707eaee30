//! Tests of what no contract of texts of documents says: texts that were worked out by hand, and
//! writers that fail.
//!
//! Uses bson_text and bson_raw_tests. Read first: `dumps`.
#![tactic(auto)]

#[cfg(test)]
mod dumps;
#[cfg(test)]
mod text_parts;
