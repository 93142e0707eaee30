//! Holds the payload of a message in bytes of its own.

ghost use Rattle.std.specs.Prelude.{◌≡◌, ◌≢◌, ◌+◌, ◌^◌, [], IfOk, OnOk, OnErr, IfErr};
ghost use Rattle.bson_elem.specs.{Spells, Tree};
ghost use Rattle.bson_raw.specs.{document_bytes};
ghost use Rattle.wire_msg.specs.Messages.{Content};
ghost use Rattle.wire_msg.specs.Spelling.{message_len};
ghost use Rattle.wire_msg.specs.Payload.{AreParts, IsPayload};
ghost use Rattle.wire_msg.specs.Known.{IsLastOffset};

use crate::append::{append_document, append_sequence};
use crate::fields::{Fields, Names};
use crate::payloads::Payload;
use crate::refusal::MsgRefusal;
use crate::sequence_iter::last_offset;
use bson_raw::RawDocument;
use std::alloc::{AllocError, Global};

/// The greatest length of a message, in bytes: the greatest int32.
const MAX_LEN: u64 = bson_elem::MAX_LEN as u64;

/// The body and the document sequences of a message of at most 2,147,483,647 bytes. The top-level
/// names of the body are unique, and no identifier is one of them.
#[derive(Debug, Drop, PartialEq, Eq)]
pub struct PayloadBuf {
    body: Vec<u8>,
    /// The sections of the document sequences.
    sequences: Vec<u8>,
    /// The offset of the last of them, or 0 if there is none.
    last: usize,
    pub ghost valid: { ∥ IsPayload [] body.items sequences.items ∥₁ },
    pub ghost last_is: { IsLastOffset sequences.items last },
}

impl PayloadBuf {
    ghost use Rattle.wire_msg.specs.Buf.{body_alone, with_sequence, with_document};
    ghost use Rattle.wire_msg.specs.Buf.{BufCarries, HasSameBytes};
    ghost use Rattle.wire_msg.specs.Buf.{IsBodyRefusal, IsSequenceRefusal, IsDocumentRefusal};
    ghost use Rattle.wire_msg.specs.Carrying.{Carries};

    /// Makes a payload of this body and no document sequence. Names are looked up as by
    /// `RawMsg::parse_with`.
    ///
    /// # Errors
    ///
    /// Returns `RepeatedField` if a top-level name of the body is repeated; else `TooLarge` if the
    /// message would have more than 2,147,483,647 bytes; else `OutOfMemory`.
    pub fn new(alloc: Global, body: RawDocument<'_>) -> Result<PayloadBuf, MsgRefusal>
        ensures made { (t : Tree) → Spells t (document_bytes body.entry)
            → IfOk result (λ b. BufCarries b (body_alone t)) }
        ensures refused { (t : Tree) → Spells t (document_bytes body.entry)
            → IfErr result (λ e. IsBodyRefusal t e) }
    {
        if Fields::of(alloc, body).has_repeated() {
            return Err(MsgRefusal::RepeatedField);
        }
        let bytes = body.as_bytes();
        if bytes.len() as u64 + 21 > MAX_LEN {
            return Err(MsgRefusal::TooLarge);
        }
        let Ok(body) = Vec::from_slice(alloc, bytes) else {
            return Err(MsgRefusal::OutOfMemory);
        };
        Ok(PayloadBuf::of_parts(body, Vec::new(alloc)))
    }

    /// Makes a payload of parts that are known to be those of a payload.
    pub(crate) fn of_parts(body: Vec<u8>, sequences: Vec<u8>) -> PayloadBuf
        requires { ∥ IsPayload [] body.items sequences.items ∥₁ }
        ensures { (c : Content) → AreParts [] body.items sequences.items c → BufCarries result c }
    {
        let last = last_offset(&sequences);
        PayloadBuf {
            body,
            sequences,
            last,
        }
    }

    /// Returns a copy of the payload.
    ///
    /// # Errors
    ///
    /// Returns `AllocError` if memory runs out.
    pub fn try_clone(&self) -> Result<PayloadBuf, AllocError>
        ensures { IfOk result (HasSameBytes self.now) }
    {
        let alloc = *self.body.allocator();
        let body = Vec::from_slice(alloc, &self.body)?;
        let sequences = Vec::from_slice(alloc, &self.sequences)?;
        Ok(PayloadBuf {
            body,
            sequences,
            last: self.last,
        })
    }

    /// Borrows the payload.
    pub fn as_payload(&self) -> Payload<'_>
        ensures { (c : Content) → BufCarries self.now c → Carries result c }
    {
        let body = RawDocument::from_spelled(&self.body);
        Payload::of_parts(&[], body, &self.sequences)
    }

    /// Returns the number of bytes that may be added to the message.
    fn room(&self) -> u64
        ensures { (c : Content) → BufCarries self.now c → result + message_len c + 1 ≡ 2 ^ 31 }
    {
        MAX_LEN - self.as_payload().msg_len()
    }

    /// Appends an empty document sequence with this identifier, which may be empty, and may be
    /// that of another sequence. After an error the payload is unchanged.
    ///
    /// # Errors
    ///
    /// Returns `SequenceInBody` if the identifier is a top-level name of the body, or `ZeroInName`
    /// if it has a 00 in it; else `TooLarge` if the message would have more than 2,147,483,647
    /// bytes; else `OutOfMemory`.
    pub fn begin_sequence(&mut self, identifier: &str) -> Result<(), MsgRefusal>
        ensures added { (c : Content) → BufCarries self.old c
            → OnOk result (BufCarries self.new (with_sequence c identifier.now)) }
        ensures refused { (c : Content) → BufCarries self.old c
            → IfErr result (λ e. IsSequenceRefusal c identifier.now e) }
        ensures kept { (c : Content) → BufCarries self.old c
            → OnErr result (BufCarries self.new c) }
        ensures unchanged { OnErr result (HasSameBytes self.old self.new) }
    {
        if self.as_payload().body().get(identifier).is_some() {
            return Err(MsgRefusal::SequenceInBody);
        }
        if identifier.as_bytes().contains(&0) {
            return Err(MsgRefusal::ZeroInName);
        }
        if identifier.len() as u64 + 6 > self.room() {
            return Err(MsgRefusal::TooLarge);
        }
        let last = self.sequences.len();
        append_sequence(identifier, &mut self.sequences)?;
        self.last = last;
        Ok(())
    }

    /// Appends a document to the last document sequence. After an error the payload is unchanged.
    ///
    /// # Errors
    ///
    /// Returns `NoSequence` if the payload has no document sequence; else `TooLarge` if the
    /// message would have more than 2,147,483,647 bytes; else `OutOfMemory`.
    pub fn push_document(&mut self, document: RawDocument<'_>) -> Result<(), MsgRefusal>
        ensures begun { (c : Content) → BufCarries self.old c → OnOk result (c.sequences ≢ []) }
        ensures added { (c : Content) (t : Tree) → BufCarries self.old c
            → Spells t (document_bytes document.entry)
            → OnOk result (BufCarries self.new (with_document c t)) }
        ensures refused { (c : Content) (t : Tree) → BufCarries self.old c
            → Spells t (document_bytes document.entry)
            → IfErr result (λ e. IsDocumentRefusal c t e) }
        ensures kept { (c : Content) → BufCarries self.old c
            → OnErr result (BufCarries self.new c) }
        ensures unchanged { OnErr result (HasSameBytes self.old self.new) }
    {
        if self.sequences.is_empty() {
            return Err(MsgRefusal::NoSequence);
        }
        let bytes = document.as_bytes();
        if bytes.len() as u64 > self.room() {
            return Err(MsgRefusal::TooLarge);
        }
        append_document(bytes, self.last, &mut self.sequences)?;
        Ok(())
    }
}
