//! Reads documents, as payloads.

ghost use Rattle.std.specs.Prelude.{◌≡◌, Err, IfOk};
ghost use Rattle.bson_elem.specs.{Tree};
ghost use Rattle.wire_msg.specs.{BufCarries, Carries, body_alone};
ghost use Rattle.wire_msg.specs.declared.payloads.Payload.{Payload};
ghost use Rattle.wire_play.specs.Words.{IsDocumentHex};

use bson_raw::RawDocument;
use script_lines::{LineError, bytes_of};
use std::alloc::Global;
use wire_msg::{MsgRefusal, PayloadBuf};

/// Returns the payload whose body is the document that the word spells.
pub(crate) fn payload_of(alloc: Global, word: &[u8]) -> Result<PayloadBuf, LineError>
    ensures carried { IfOk result
        (λ payload. (t : Tree) × IsDocumentHex word.now t × BufCarries payload (body_alone t)) }
    ensures nothing { result ≡ Err LineError.Malformed → (t : Tree) (payload : Payload)
        → IsDocumentHex word.now t → Carries payload (body_alone t) → ⊥ }
{
    let bytes = bytes_of(alloc, word)?;
    let Ok(body) = RawDocument::from_bytes(&bytes) else {
        return Err(LineError::Malformed);
    };
    match PayloadBuf::new(alloc, body) {
        Ok(payload) => Ok(payload),
        Err(MsgRefusal::OutOfMemory) => Err(LineError::OutOfMemory),
        Err(_) => Err(LineError::Malformed),
    }
}
