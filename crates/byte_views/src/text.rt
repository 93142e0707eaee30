//! Writes the text of a document, its Extended JSON, its pickle or its canonical form into the
//! caller's room.

ghost use Rattle.std.specs.Prelude.{◌≡◌, IfSome};
ghost use Rattle.bson_elem.specs.{Spells, Tree};
ghost use Rattle.bson_raw.specs.{document_bytes};
ghost use Rattle.bson_json.specs.{IsJson};
ghost use Rattle.byte_views.specs.Texts.{IsCanonicalWritten, IsDump, IsPickle, IsPut};
ghost use Rattle.byte_views.specs.Texts.{IsTextWritten, json_mode, memory_fault, no_form, no_text};
ghost use Rattle.byte_views.specs.Texts.{text_put, too_large_fault};

use crate::fault::FirstFault;
use crate::pickle::write_pickle;
use arrayvec::ArrayVec;
use bson_doc::{DocRefusal, to_canonical};
use bson_json::{Mode, write_json};
use bson_raw::RawDocument;
use bson_text::dump_to;
use std::alloc::Global;

/// The most bytes of a text that is written without memory.
pub const SHORT: usize = 65536;

/// What became of a text.
#[derive(Clone, Copy)]
#[repr(C)]
pub struct TextWritten {
    /// The first fault of the document, by the number of its cause, from 1 to 11. The number is
    /// 254 if there was no memory for the text, 253 if a canonical form would have more than
    /// 2,147,483,647 bytes, and 255 if no element stands where the text of a value was asked.
    pub fault: FirstFault,
    /// The number of bytes of the text, whether it was written or not. If there is a fault, 0.
    pub length: usize,
    /// Whether the text was written. It wasn't if there is a fault, or if it has no room.
    pub written: bool,
}

impl TextWritten {
    /// Returns that there is no text, by this fault.
    pub(crate) fn none(fault: FirstFault) -> TextWritten
        ensures { result ≡ no_text fault }
    {
        TextWritten {
            fault,
            length: 0,
            written: false,
        }
    }

    /// Returns that there is no memory for the text.
    pub(crate) fn no_memory() -> TextWritten
        ensures { result ≡ no_text memory_fault }
    {
        TextWritten::none(FirstFault {
            number: 254,
            offset: 0,
        })
    }

    /// Returns that a canonical form would be longer than a document may be.
    fn too_large() -> TextWritten
        ensures { result ≡ no_text too_large_fault }
    {
        TextWritten::none(FirstFault {
            number: 253,
            offset: 0,
        })
    }

    /// Returns that there is no canonical form, since it was refused so.
    fn of_refusal(refusal: DocRefusal) -> TextWritten
        ensures { result ≡ no_form refusal }
    {
        match refusal {
            DocRefusal::TooLarge => TextWritten::too_large(),
            _ => TextWritten::no_memory(),
        }
    }

    /// Returns that there is a text of this `length`, and whether it was written.
    fn of_length(length: usize, written: bool) -> TextWritten
        ensures { result ≡ text_put length written }
    {
        TextWritten {
            fault: FirstFault::none(),
            length,
            written,
        }
    }
}

/// Puts a text to the front of `room`, if it has as many bytes.
pub(crate) fn put(text: &[u8], room: &mut [u8]) -> TextWritten
    ensures { IsPut text.now room.old room.new result }
{
    let length = text.len();
    if length > room.len() {
        return TextWritten::of_length(length, false);
    }
    room[..length].copy_from_slice(text);
    TextWritten::of_length(length, true)
}

/// Returns the text of a document, or `None` if memory runs out.
fn dumped(alloc: Global, document: RawDocument<'_>) -> Option<Vec<u8>>
    ensures { (t : Tree) → Spells t (document_bytes document.entry)
        → IfSome result (λ text. IsDump t text.items) }
{
    let mut text = Vec::new(alloc);
    match dump_to(document, &mut text) {
        Ok(()) => Some(text),
        Err(_) => None,
    }
}

/// Returns the form of Extended JSON that is asked for.
fn mode_of(relaxed: bool) -> Mode
    ensures { result ≡ json_mode relaxed }
{
    if relaxed {
        Mode::Relaxed
    } else {
        Mode::Canonical
    }
}

/// Returns the Extended JSON of a document, or `None` if memory runs out.
fn as_json(alloc: Global, document: RawDocument<'_>, mode: Mode) -> Option<Vec<u8>>
    ensures { (t : Tree) → Spells t (document_bytes document.entry)
        → IfSome result (λ text. IsJson mode t text.items) }
{
    let mut text = Vec::new(alloc);
    match write_json(document, mode, &mut text) {
        Ok(()) => Some(text),
        Err(_) => None,
    }
}

/// Returns the pickle of a document, or `None` if memory runs out.
fn pickled(alloc: Global, document: RawDocument<'_>) -> Option<Vec<u8>>
    ensures { (t : Tree) → Spells t (document_bytes document.entry)
        → IfSome result (λ text. IsPickle t text.items) }
{
    // Most pickles are about as long as their documents; the room grows for others.
    let Ok(mut text) = Vec::with_capacity(alloc, document.as_bytes().len()) else {
        return None;
    };
    match write_pickle(document, &mut text) {
        Ok(()) => Some(text),
        Err(_) => None,
    }
}

/// Returns the text of a document, or `None` if it has more bytes than a short one.
fn short_dump(document: RawDocument<'_>) -> Option<ArrayVec<u8, SHORT>>
    ensures { (t : Tree) → Spells t (document_bytes document.entry)
        → IfSome result (λ text. IsDump t text.items) }
{
    let mut text = ArrayVec::new();
    match dump_to(document, &mut text) {
        Ok(()) => Some(text),
        Err(_) => None,
    }
}

/// Returns the Extended JSON of a document, or `None` if it has more bytes than a short one.
fn short_json(document: RawDocument<'_>, mode: Mode) -> Option<ArrayVec<u8, SHORT>>
    ensures { (t : Tree) → Spells t (document_bytes document.entry)
        → IfSome result (λ text. IsJson mode t text.items) }
{
    let mut text = ArrayVec::new();
    match write_json(document, mode, &mut text) {
        Ok(()) => Some(text),
        Err(_) => None,
    }
}

/// Writes the text of the document that `bytes` are to the front of `room`: a line with its size,
/// and one for each element, at all depths. If the text has no room, nothing is written, and its
/// length is told.
pub fn put_dump(alloc: Global, bytes: &[u8], room: &mut [u8]) -> TextWritten
    ensures { IsTextWritten bytes.now IsDump room.old room.new result }
{
    let document = match RawDocument::from_bytes(bytes) {
        Ok(document) => document,
        Err(fault) => return TextWritten::none(FirstFault::of_document(0, fault)),
    };
    match dumped(alloc, document) {
        Some(text) => put(text.as_slice(), room),
        None => TextWritten::no_memory(),
    }
}

/// Writes the document that `bytes` are as Extended JSON to the front of `room`, canonical or
/// `relaxed`. If the text has no room, nothing is written, and its length is told.
pub fn put_json(alloc: Global, bytes: &[u8], relaxed: bool, room: &mut [u8]) -> TextWritten
    ensures { IsTextWritten bytes.now (IsJson (json_mode relaxed)) room.old room.new result }
{
    let document = match RawDocument::from_bytes(bytes) {
        Ok(document) => document,
        Err(fault) => return TextWritten::none(FirstFault::of_document(0, fault)),
    };
    match as_json(alloc, document, mode_of(relaxed)) {
        Some(text) => put(text.as_slice(), room),
        None => TextWritten::no_memory(),
    }
}

/// Writes the document that `bytes` are as a pickle to the front of `room`, from which Python makes
/// a dict. If it has no room, nothing is written, and its length is told.
pub fn put_pickle(alloc: Global, bytes: &[u8], room: &mut [u8]) -> TextWritten
    ensures { IsTextWritten bytes.now IsPickle room.old room.new result }
{
    let document = match RawDocument::from_bytes(bytes) {
        Ok(document) => document,
        Err(fault) => return TextWritten::none(FirstFault::of_document(0, fault)),
    };
    match pickled(alloc, document) {
        Some(text) => put(text.as_slice(), room),
        None => TextWritten::no_memory(),
    }
}

/// Writes the text that `put_dump` does, but takes no memory: for one of more than 64 KiB it tells
/// that there is no memory.
pub fn put_short_dump(bytes: &[u8], room: &mut [u8]) -> TextWritten
    ensures { IsTextWritten bytes.now IsDump room.old room.new result }
{
    let document = match RawDocument::from_bytes(bytes) {
        Ok(document) => document,
        Err(fault) => return TextWritten::none(FirstFault::of_document(0, fault)),
    };
    match short_dump(document) {
        Some(text) => put(text.as_slice(), room),
        None => TextWritten::no_memory(),
    }
}

/// Writes the text that `put_json` does, but takes no memory: for one of more than 64 KiB it tells
/// that there is no memory.
pub fn put_short_json(bytes: &[u8], relaxed: bool, room: &mut [u8]) -> TextWritten
    ensures { IsTextWritten bytes.now (IsJson (json_mode relaxed)) room.old room.new result }
{
    let document = match RawDocument::from_bytes(bytes) {
        Ok(document) => document,
        Err(fault) => return TextWritten::none(FirstFault::of_document(0, fault)),
    };
    match short_json(document, mode_of(relaxed)) {
        Some(text) => put(text.as_slice(), room),
        None => TextWritten::no_memory(),
    }
}

/// Writes the canonical form of the document that `bytes` are to the front of `room`: the names in
/// each array are "0", "1" and so on there. If it has no room, nothing is written, and its length
/// is told.
pub fn put_canonical(alloc: Global, bytes: &[u8], room: &mut [u8]) -> TextWritten
    ensures { IsCanonicalWritten bytes.now room.old room.new result }
{
    let document = match RawDocument::from_bytes(bytes) {
        Ok(document) => document,
        Err(fault) => return TextWritten::none(FirstFault::of_document(0, fault)),
    };
    match to_canonical(alloc, document) {
        Ok(form) => put(form.as_raw().as_bytes(), room),
        Err(refusal) => TextWritten::of_refusal(refusal),
    }
}
