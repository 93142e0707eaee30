//! The document of the bytes of one text, and its bytes.

ghost use Rattle.std.specs.Prelude.{◌≡◌, ◌≤◌, ◌⊎◌, ℕ, List, Err, IfErr, IfOk, MatchResult, None};
ghost use Rattle.std.specs.Prelude.{Ok, false, length, true};
ghost use Rattle.std.specs.Str.{is_utf8};
ghost use Rattle.bson_json_read.specs.Sequences.{IsWritten, utf8_read};
ghost use Rattle.bson_json_read.specs.Values.{Pair};

use crate::direct::write_text;
use crate::fault::Cause;
use crate::seen::Seen;
use crate::text::from_json_in;
use bson_doc::{DocRefusal, Document};
use json::Scratch;
use std::alloc::Global;

/// Why a text isn't read, and at which offset of it.
#[derive(Clone, Copy)]
pub(crate) struct FaultAt {
    pub(crate) cause: Cause,
    pub(crate) offset: usize,
}

/// Memory was refused.
const OUT_OF_MEMORY: FaultAt = FaultAt {
    cause: Cause::OutOfMemory,
    offset: 0,
};

/// Returns `bytes` as a text. Errs with the offset from which on they aren't UTF-8.
fn text_of(bytes: &[u8]) -> Result<&str, usize>
    ensures cases { MatchResult result (λ s. (s.now ≡ bytes.now) × (is_utf8 bytes.now ≡ true))
        (λ _. is_utf8 bytes.now ≡ false) }
    ensures offset { IfErr result (λ n. n ≤ length bytes.now) }
{
    match simdutf8::compat::from_utf8(bytes) {
        Ok(text) => Ok(text),
        Err(error) => Err(error.valid_up_to().min(bytes.len())),
    }
}

/// Returns the document of the bytes of a text.
#[tactic(auto, using(crate::proofs::TextBytes::of_text, crate::proofs::TextBytes::of_others))]
fn read_bytes(alloc: Global, bytes: &[u8], scratch: &mut Scratch) -> Result<Document, FaultAt>
    ensures ok { IfOk result (λ d. utf8_read bytes.now ≡ Ok d) }
    ensures err { IfErr result (λ e. (e.cause ≡ Cause.OutOfMemory)
        ⊎ ((path : List ℕ) × (utf8_read bytes.now ≡ Err (e.cause, path)))) }
    ensures offset { IfErr result (λ e. e.offset ≤ length bytes.now) }
{
    let text = match text_of(bytes) {
        Ok(text) => text,
        Err(offset) => {
            return Err(FaultAt {
                cause: Cause::NotJson,
                offset,
            });
        }
    };
    let fault = match from_json_in(alloc, text, scratch) {
        Ok(document) => return Ok(document),
        Err(fault) => fault,
    };
    let cause = fault.cause;
    if cause == Cause::OutOfMemory {
        return Err(OUT_OF_MEMORY);
    }
    match fault.offset(alloc, text) {
        Ok(offset) => Err(FaultAt { cause, offset }),
        Err(_) => Err(OUT_OF_MEMORY),
    }
}

/// Puts the bytes of a document into `out`, in place of what that holds. Returns why it has none, if
/// it has none.
fn write_raw(document: &Document, out: &mut Vec<u8>) -> Result<Option<DocRefusal>, FaultAt>
    ensures ok { IfOk result (λ refusal. IsWritten document.now refusal out.new.items) }
    ensures err { IfErr result (λ e. (e.cause ≡ Cause.OutOfMemory) × (e.offset ≡ 0)) }
{
    match document.to_raw() {
        Ok(raw) => {
            out.clear();
            match out.extend_from_slice(raw.as_raw().as_bytes()) {
                Ok(()) => Ok(None),
                Err(_) => Err(OUT_OF_MEMORY),
            }
        }
        Err(DocRefusal::OutOfMemory) => Err(OUT_OF_MEMORY),
        Err(refusal) => Ok(Some(refusal)),
    }
}

/// Puts the bytes of a text's document into `out`, in place of what that holds, by way of an owned
/// document. Returns why it has none, if it has none.
fn write_owned(
    alloc: Global,
    bytes: &[u8],
    scratch: &mut Scratch,
    out: &mut Vec<u8>,
) -> Result<Option<DocRefusal>, FaultAt>
    ensures ok { IfOk result (λ refusal. (d : List Pair) × (utf8_read bytes.now ≡ Ok d)
        × IsWritten d refusal out.new.items) }
    ensures err { IfErr result (λ e. (e.cause ≡ Cause.OutOfMemory)
        ⊎ ((path : List ℕ) × (utf8_read bytes.now ≡ Err (e.cause, path)))) }
    ensures offset { IfErr result (λ e. e.offset ≤ length bytes.now) }
{
    match read_bytes(alloc, bytes, scratch) {
        Ok(document) => {
            let written = write_raw(&document, out);
            drop(document);
            written
        }
        Err(fault) => Err(fault),
    }
}

/// Puts the bytes of a text's document into `out`, in place of what that holds, straight from its
/// JSON. Returns true if it did, which it does of usual texts.
pub(crate) fn write_direct(
    alloc: Global,
    bytes: &[u8],
    scratch: &mut Scratch,
    seen: &mut Seen,
    out: &mut Vec<u8>,
) -> bool
    ensures { result ≡ true → (d : List Pair) × (utf8_read bytes.now ≡ Ok d)
        × IsWritten d None out.new.items }
{
    match text_of(bytes) {
        Ok(text) => write_text(alloc, text, scratch, seen, out),
        Err(_) => false,
    }
}

/// Puts the bytes of a text's document into `out`, in place of what that holds. Returns why it has
/// none, if it has none.
pub(crate) fn write_document(
    alloc: Global,
    bytes: &[u8],
    scratch: &mut Scratch,
    seen: &mut Seen,
    out: &mut Vec<u8>,
) -> Result<Option<DocRefusal>, FaultAt>
    ensures ok { IfOk result (λ refusal. (d : List Pair) × (utf8_read bytes.now ≡ Ok d)
        × IsWritten d refusal out.new.items) }
    ensures err { IfErr result (λ e. (e.cause ≡ Cause.OutOfMemory)
        ⊎ ((path : List ℕ) × (utf8_read bytes.now ≡ Err (e.cause, path)))) }
    ensures offset { IfErr result (λ e. e.offset ≤ length bytes.now) }
{
    if write_direct(alloc, bytes, scratch, seen, out) {
        return Ok(None);
    }
    write_owned(alloc, bytes, scratch, out)
}
