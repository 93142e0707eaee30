//! What commands and their answers share: the name of a command, the documents that it brings, and
//! the parts of answers.
//!
//! A request's command is named by the first field of its body. It brings documents in an array of
//! the body, or in a sequence. An answer says whether a command was carried out, or which error there
//! was. `hello` and `build_info` are the answers that any server gives.
//!
//! Stands on doc_query, wire_msg and wire_peer. test_store, test_script and test_server stand on it.
//! Read first: `answers` and `answering`, and then `brought`.
#![tactic(auto)]

mod answering;
mod answers;
mod brought;
mod build_info_answer;
mod hello_answer;
mod names;

pub use answering::put_answer;
pub use answers::{error_answer, ok_alone, refusal_answer, set_ok, set_text};
pub use brought::{brought_documents, push_sequence};
pub use build_info_answer::build_info;
pub use hello_answer::hello;
pub use names::name_of;
