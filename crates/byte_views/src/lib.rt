//! Checks documents and messages, walks over them, writes their texts, builds documents, and writes
//! messages, by numbers and by views of their bytes alone.
//!
//! What crosses the border of Rattle can't be an enum, a borrowed value or a slice that a struct
//! keeps. Each function here takes bytes, and gives a struct of numbers: what is whole there, and
//! the first fault after it; what stands in front of bytes that more may follow; an element, as
//! numbers and as views of the bytes; or what became of a text or a message in the caller's room.
//! None of those has a `requires`: any number in a struct that is handed in has an answer. Bytes
//! are read in place. What reads whole messages does it by a `Reading`: the names of a body are
//! sorted in memory, or each is compared with all others in place. What writes texts takes memory
//! for them, or is for short texts, and what writes messages takes memory. `spell_content` is for
//! Rattle: it makes a message of the bytes of a body and of document sequences.
//!
//! Uses bson_raw, bson_doc, bson_text, bson_json and wire_msg. Used by core_handles
//! and lughemra, for programs in C, and by page, for a browser. Read first: `documents` and `iter`.
#![tactic(auto)]

pub mod build;
mod content;
mod documents;
mod element;
mod fault;
mod form;
mod front;
mod header;
mod iter;
pub mod laws;
mod messages;
mod parts;
mod pickle;
mod quick;
mod reading;
mod span;
mod split;
mod text;
mod value;
mod view;
mod walk;
mod write;

pub use content::{ContentRefusal, spell_content};
pub use documents::{DocumentsCheck, check_document, check_documents, is_canonical};
pub use element::Element;
pub use fault::FirstFault;
pub use form::{FormPlace, form_place};
pub use front::{MessageFront, message_front};
pub use header::{FrontNumbers, front_numbers};
pub use iter::{
    ElementIter, FirstElement, walk_enter, walk_find, walk_first, walk_get, walk_next,
    walk_next_elements,
};
pub use messages::{MessageCheck, MessagesCheck, check_message, check_messages};
pub use parts::{MessageParts, Section, message_parts, section_at};
pub use reading::{InPlace, Reading};
pub use span::{message_span, span_at};
pub use split::next_document;
pub use text::{
    TextWritten, put_canonical, put_dump, put_json, put_pickle, put_short_dump, put_short_json,
};
pub use value::put_value;
pub use view::View;
pub use walk::{DocumentsWalk, walk_documents};
pub use write::{MessageNumbers, MessageWritten, write_message};
