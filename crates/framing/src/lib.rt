//! Cuts bytes into items that stand back to back, each of which tells its own length in a header.
//!
//! A type that implements `Framing` says how long a header is, and what length one announces; and
//! which first bytes of it, the lead, are checked before the others are there. `read_item` returns
//! the item in front of bytes, and a `Reader` makes items of bytes that come in pieces. However
//! these are cut, they give the same items (`read_pieces`).
//!
//! What items back to back are, whatever an item is and however it is spelled, is defined once in
//! `specs/Splits.antt`: bson_raw says so of documents, and wire_msg of messages.
//!
//! Stands on std alone. Used by bson_raw, wire_msg, their streams and wire_frames. Read first:
//! `specs/Splits.antt`, `specs/Rules.antt`, `specs/Items.antt`, and then `framing`.
#![tactic(auto)]

mod first_item;
mod framing;
mod item_buf;
pub mod laws;
mod pieces;
mod reader;

pub use first_item::{FirstItem, read_item};
pub use framing::Framing;
pub use item_buf::ItemBuf;
pub use pieces::{PiecesRead, read_pieces};
pub use reader::Reader;
