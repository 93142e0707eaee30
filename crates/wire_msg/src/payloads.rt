//! Borrows the payload of a message, a body and document sequences, from its bytes.

ghost use Rattle.std.specs.Prelude.{◌≡◌, ◌++◌, [], IfOk, OnOk, OnErr};
ghost use Rattle.std.specs.Io.{StartsWith};
ghost use Rattle.bson_elem.specs.{Spells};
ghost use Rattle.bson_raw.specs.{document_bytes};
ghost use Rattle.wire_msg.specs.Messages.{Content};
ghost use Rattle.wire_msg.specs.Spelling.{message_len, sections_bytes};
ghost use Rattle.wire_msg.specs.Payload.{AreParts, IsPayload};

use crate::payload_buf::PayloadBuf;
use crate::sections::SECTIONS;
use crate::sequence_iter::SequencesIter;
use bson_raw::RawDocument;
use std::alloc::{AllocError, Global};

/// The body and the document sequences of a message. The top-level names of the body are unique,
/// and no identifier is one of them.
#[derive(Clone, Copy, Debug)]
pub struct Payload<'a> {
    /// The sections before the body.
    before: &'a [u8],
    body: RawDocument<'a>,
    /// The sections after the body.
    after: &'a [u8],
    pub ghost valid: { ∥ IsPayload before.now (document_bytes body) after.now ∥₁ },
}

impl<'a> Payload<'a> {
    ghost use Rattle.wire_msg.specs.Buf.{BufCarries};
    ghost use Rattle.wire_msg.specs.Carrying.{Carries};
    ghost use Rattle.wire_msg.specs.Sequences.{SequencesLeft};

    /// Makes a payload of parts that are known to be those of a payload.
    pub(crate) fn of_parts(before: &'a [u8], body: RawDocument<'a>, after: &'a [u8]) -> Payload<'a>
        requires { ∥ IsPayload before.now (document_bytes body) after.now ∥₁ }
        ensures { (c : Content) → AreParts before.now (document_bytes body.entry) after.now c
            → Carries result c }
    {
        Payload {
            before,
            body,
            after,
        }
    }

    /// Returns the body.
    pub fn body(self) -> RawDocument<'a>
        ensures { (c : Content) → Carries self.entry c → Spells c.body (document_bytes result) }
    {
        self.body
    }

    /// Returns the document sequences, in order.
    pub fn sequences(self) -> SequencesIter<'a>
        ensures { (c : Content) → Carries self.entry c → SequencesLeft result c.sequences }
    {
        SequencesIter::of_known(self.before, self.after)
    }

    /// Returns the length of a message with this payload, in bytes.
    pub fn msg_len(self) -> u64
        ensures { (c : Content) → Carries self.entry c → result ≡ message_len c }
    {
        let sections = self.before.len() + 1 + self.body.as_bytes().len() + self.after.len();
        (SECTIONS + sections) as u64
    }

    /// Appends the sections of a message, the body first. If memory runs out, `out` may end with
    /// some of their bytes.
    pub(crate) fn write_sections(self, out: &mut Vec<u8>) -> Result<(), AllocError>
        ensures added { (c : Content) → Carries self.entry c
            → OnOk result (out.new.items
            ≡ out.old.items ++ sections_bytes [] c.body c.sequences) }
        ensures kept { OnErr result (StartsWith out.new.items out.old.items) }
    {
        out.push(0)?;
        out.extend_from_slice(self.body.as_bytes())?;
        out.extend_from_slice(self.before)?;
        out.extend_from_slice(self.after)
    }

    /// Copies the payload into bytes of its own.
    ///
    /// # Errors
    ///
    /// Returns `AllocError` if memory runs out.
    pub fn to_buf(self, alloc: Global) -> Result<PayloadBuf, AllocError>
        ensures { (c : Content) → Carries self.entry c → IfOk result (λ b. BufCarries b c) }
    {
        let body = Vec::from_slice(alloc, self.body.as_bytes())?;
        let mut sequences = Vec::from_slice(alloc, self.before)?;
        sequences.extend_from_slice(self.after)?;
        Ok(PayloadBuf::of_parts(body, sequences))
    }
}
