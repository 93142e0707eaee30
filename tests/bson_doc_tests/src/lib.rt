//! Tests of what no contract of documents says, owned ones, those of a stream, and those in Extended
//! JSON: rows that were worked out by hand from the standard, that calls succeed if there is memory,
//! and that nothing changes if it is refused. Streams of each end, damaged ones, the specification's
//! own examples of Extended JSON, and texts that aren't read, are tried by the program that is built
//! (`scripts/checks/try-tables`, `scripts/checks/try-json`).
//!
//! Uses bson_doc, bson_json_read, bson_stream and bson_raw_tests. Read first: `documents`.
#![tactic(auto)]

#[cfg(test)]
mod appends;
#[cfg(test)]
mod canonical_forms;
#[cfg(test)]
mod document_reader_refusals;
#[cfg(test)]
mod document_readers;
#[cfg(test)]
mod document_refusals;
#[cfg(test)]
mod documents;
#[cfg(test)]
mod json_failures;
#[cfg(test)]
mod json_refusals;
#[cfg(test)]
mod streams;
#[cfg(test)]
mod text_reader_refusals;
