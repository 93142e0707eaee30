//! Tests of what no contract of borrowed documents says: rows that were worked out by hand from the
//! standard.
//!
//! Uses bson_raw. Used by bson_text_tests, bson_doc_tests and wire_msg_tests, for `hex_bytes` and
//! `each_kind`. Read first: `each_kind`.
#![tactic(auto)]

#[cfg(test)]
mod altered;
#[cfg(test)]
mod doubles;
pub mod each_kind;
pub mod hex_bytes;
#[cfg(test)]
mod raw_documents;
