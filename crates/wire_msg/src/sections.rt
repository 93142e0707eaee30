//! Checks the sections of a message (MongoDB Wire Protocol manual: OP_MSG, sections).

ghost use Rattle.std.specs.Prelude.{◌≡◌, ◌<◌, ◌≤◌, ◌^◌, length, drop, MatchResult};
ghost use Rattle.bson_raw.specs.{document_bytes};
ghost use Rattle.wire_msg.specs.Faults.{SectionsFault};
ghost use Rattle.wire_msg.specs.Checks.{HasSections};

use crate::fault::{MsgCause, MsgFault};
use crate::sequence::{check_sequences, fault_at};
use bson_raw::RawDocument;

/// The kind byte of a body.
const BODY: u8 = 0;

/// The offset of the sections, after the header and the flags.
pub(crate) const SECTIONS: usize = 20;

/// Checks the sections of a message, which are one body and any number of document sequences, but
/// not their names. Returns the offset of the body's kind byte, the body, and the offset after it.
pub(crate) fn split_sections(bytes: &[u8]) -> Result<(usize, RawDocument<'_>, usize), MsgFault>
    requires short { length bytes.now < 2 ^ 31 }
    requires inside { 20 ≤ length bytes.now }
    ensures { MatchResult result
        (λ x. HasSections bytes.now x.0 (document_bytes x.1) x.2)
        (λ f. SectionsFault (drop 20 bytes.now) f) }
{
    let at = check_sequences(bytes, SECTIONS)?;
    if at == bytes.len() {
        return Err(fault_at(at, MsgCause::NoBody));
    }
    if bytes[at] != BODY {
        return Err(fault_at(at, MsgCause::SectionKind));
    }
    let (body, rest) = match RawDocument::front(&bytes[at + 1..]) {
        Ok(read) => read,
        Err(inner) => return Err(fault_at(at + 1, MsgCause::Document(inner))),
    };
    let next = bytes.len() - rest.len();
    let end = check_sequences(bytes, next)?;
    if end == bytes.len() {
        return Ok((at, body, next));
    }
    if bytes[end] == BODY {
        Err(fault_at(end, MsgCause::TwoBodies))
    } else {
        Err(fault_at(end, MsgCause::SectionKind))
    }
}
