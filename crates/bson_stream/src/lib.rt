//! Cuts documents out of bytes that come in pieces.
//!
//! A `DocumentReader` holds the document that isn't whole yet, and no more. It takes bytes from the
//! front of a piece (`feed`), lends the document that became whole (`document`), and lets go of it
//! (`release`). A document that is whole in a piece is lent from there (`front`), and passed
//! (`pass`). Where no document begins, the reader tells the first fault at its offset in the stream,
//! as soon as no more bytes can change it. However the bytes are cut, they give the same documents
//! and the same fault (`read_pieces`).
//!
//! A `Salvager` goes on behind a fault. In bytes of which some are damaged it finds the documents
//! and the gaps of one definition (`specs/Salvage.antt`), however the bytes are cut
//! (`salvage_pieces`).
//!
//! Stands on bson_raw and framing. file_commands stands on it. Read first: `reader`, and then
//! `specs/Readers.antt`.
#![tactic(auto)]

mod document_buf;
mod gap;
mod gather;
pub mod laws;
mod pieces;
mod reader;
mod reader_state;
mod salvage;
mod salvager;
mod seek;

pub use document_buf::DocumentBuf;
pub use gap::{Find, Gap, GapFault, GapStart};
pub use pieces::{PiecesRead, read_pieces};
pub use reader::DocumentReader;
pub use reader_state::{Fed, ReadRefusal, ReaderState};
pub use salvage::{SalvagedPart, salvage_pieces};
pub use salvager::Salvager;
