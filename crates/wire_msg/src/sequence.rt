//! Checks document sequences (MongoDB Wire Protocol manual: OP_MSG, sections of kind 1).

ghost use Rattle.std.specs.Prelude.{◌≡◌, ◌+◌, ◌<◌, ◌≤◌, ◌^◌, length, drop, MatchOption};
ghost use Rattle.std.specs.Prelude.{MatchResult, IfErr};
ghost use Rattle.wire_msg.specs.Header.{number_at};
ghost use Rattle.wire_msg.specs.Causes.{msg_fault};
ghost use Rattle.wire_msg.specs.Faults.{DocumentsFault, IsSized, SequenceFault};
ghost use Rattle.wire_msg.specs.Checks.{HasDocuments, IsBadRun, IsRun, IsSequenceAt};

use crate::fault::{MsgCause, MsgFault};
use bson_elem::{little_u32, read_cstring};
use bson_raw::RawDocument;

/// The kind byte of a document sequence.
pub(crate) const SEQUENCE: u8 = 1;

/// Makes the fault of this cause, at offset `at`.
pub(crate) fn fault_at(at: usize, cause: MsgCause) -> MsgFault
    ensures { result ≡ msg_fault at cause }
{
    MsgFault { at, cause }
}

/// Checks documents one after another, which begin at offset `start` of the message.
fn check_documents(bytes: &[u8], start: usize) -> Result<(), MsgFault>
    requires { start + length bytes.now < 2 ^ 64 }
    ensures { MatchResult result
        (λ _. HasDocuments bytes.now)
        (λ f. DocumentsFault start bytes.now f) }
{
    let mut rest = bytes;
    while !rest.is_empty() {
        match RawDocument::front(rest) {
            Ok((_, after)) => rest = after,
            Err(inner) => {
                let at = start + (bytes.len() - rest.len());
                return Err(fault_at(at, MsgCause::Document(inner)));
            }
        }
    }
    Ok(())
}

/// Reads the size at the front of `bytes`. Returns `None` if no document sequence of that size
/// fits in them.
fn size_of(bytes: &[u8]) -> Option<usize>
    ensures { MatchOption result
        (IsSized bytes.now → ⊥)
        (λ size. (size ≡ number_at bytes.now 0) × IsSized bytes.now) }
{
    if bytes.len() < 4 {
        return None;
    }
    let size = little_u32(bytes) as usize;
    if size < 5 || size > bytes.len() {
        return None;
    }
    Some(size)
}

/// Checks the document sequence at the front of `bytes`, which follow its kind byte, at offset
/// `at`. Returns its size.
fn check_sequence(bytes: &[u8], at: usize) -> Result<usize, MsgFault>
    requires short { length bytes.now < 2 ^ 31 }
    requires room { at + length bytes.now + 1 < 2 ^ 64 }
    ensures { MatchResult result
        (λ size. IsSequenceAt bytes.now size)
        (λ f. SequenceFault at bytes.now f) }
{
    let Some(size) = size_of(bytes) else {
        return Err(fault_at(at, MsgCause::SectionSize));
    };
    match read_cstring(&bytes[4..size]) {
        Ok((identifier, documents)) => {
            check_documents(documents, at + 6 + identifier.len())?;
            Ok(size)
        }
        Err(_) => Err(fault_at(at, MsgCause::SequenceName)),
    }
}

/// Checks the document sequences from offset `start` on. Returns the offset after the last one.
pub(crate) fn check_sequences(bytes: &[u8], start: usize) -> Result<usize, MsgFault>
    requires short { length bytes.now < 2 ^ 31 }
    requires inside { start ≤ length bytes.now }
    ensures { MatchResult result
        (λ end. IsRun bytes.now start end)
        (λ f. IsBadRun bytes.now start f) }
{
    let mut at = start;
    while at < bytes.len() && bytes[at] == SEQUENCE {
        at += 1 + check_sequence(&bytes[at + 1..], at)?;
    }
    Ok(at)
}
