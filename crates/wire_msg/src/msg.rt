//! Reads a message, borrowed from its bytes (MongoDB Wire Protocol manual: OP_MSG).

ghost use Rattle.std.specs.Prelude.{◌≡◌, ◌+◌, ◌<◌, ◌≤◌, ◌^◌, ℕ, length, MatchResult, IfOk, IfErr};
ghost use Rattle.std.specs.Prelude.{IsOk, IsErrOf};
ghost use Rattle.bson_elem.specs.{document, elements};
ghost use Rattle.bson_raw.specs.{document_bytes};
ghost use Rattle.wire_msg.specs.declared.fault.MsgFault.{MsgFault};
ghost use Rattle.wire_msg.specs.Header.{header_of};
ghost use Rattle.wire_msg.specs.Messages.{Message};
ghost use Rattle.wire_msg.specs.Spelling.{IsMessage, IsSpelledMsg, sequences_bytes, SpellsMsg};
ghost use Rattle.wire_msg.specs.Checks.{HasParts};
ghost use Rattle.wire_msg.specs.Faults.{FaultMsg, IsFramedMsg, PartsFault};

use crate::fault::{MsgCause, MsgFault};
use crate::flags::MsgFlags;
use crate::header::{MAX_MESSAGE_LEN, MsgHeader};
use crate::names::{InPlace, Memory};
use crate::payloads::Payload;
use crate::sections::{SECTIONS, split_sections};
use crate::sequence::{SEQUENCE, fault_at};
use crate::sequence_iter::known_size;
use bson_elem::little_u32;
use bson_raw::RawDocument;
use std::alloc::Global;
use std::convert::AsSlice;

/// Checks the header, and that the length in it is the number of bytes.
fn check_framed(bytes: &[u8], limit: u32) -> Result<(), MsgFault>
    requires { limit ≤ MAX_MESSAGE_LEN }
    ensures { MatchResult result
        (λ _. IsFramedMsg limit bytes.now)
        (λ f. FaultMsg bytes.now limit f) }
{
    let Some((header, _)) = bytes.split_first_chunk::<16>() else {
        return Err(fault_at(0, MsgCause::Length));
    };
    let header = MsgHeader::read(*header);
    header.check(limit)?;
    if header.length as usize != bytes.len() {
        return Err(fault_at(0, MsgCause::Length));
    }
    Ok(())
}

/// Checks the flags and the sections, but not their names. The header of `bytes` is good and has
/// their length. Returns the offset of the body's kind byte, the body, and the offset after it.
fn split_message(bytes: &[u8]) -> Result<(usize, RawDocument<'_>, usize), MsgFault>
    requires { length bytes.now < 2 ^ 31 }
    ensures { MatchResult result
        (λ x. HasParts bytes.now x.0 (document_bytes x.1) x.2)
        (λ f. PartsFault bytes.now f) }
{
    if bytes.len() < SECTIONS {
        return Err(fault_at(16, MsgCause::Truncated));
    }
    MsgFlags::read(little_u32(&bytes[16..20]))?;
    split_sections(bytes)
}

/// Checks the flags, the sections and their names. The header of `bytes` is good and has their
/// length. Looks names up by `memory`.
pub(crate) fn check_parts<M: Memory>(memory: M, bytes: &[u8]) -> Result<(), MsgFault>
    requires { length bytes.now < 2 ^ 31 }
    ensures { MatchResult result
        (λ _. (limit : ℕ) → IsFramedMsg limit bytes.now → IsMessage limit bytes.now)
        (λ f. PartsFault bytes.now f) }
{
    let (at, body, next) = split_message(bytes)?;
    memory.check_names(&bytes[SECTIONS..at], body, &bytes[next..])
}

/// Checks a whole message. Looks names up by `memory`.
fn check_message<M: Memory>(memory: M, bytes: &[u8], limit: u32) -> Result<(), MsgFault>
    requires { limit ≤ MAX_MESSAGE_LEN }
    ensures { MatchResult result
        (λ _. IsMessage limit bytes.now)
        (λ f. FaultMsg bytes.now limit f) }
{
    check_framed(bytes, limit)?;
    check_parts(memory, bytes)
}

/// Returns the offset of the body's kind byte in a message.
fn body_offset(bytes: &[u8]) -> usize
    requires { ∥ IsSpelledMsg bytes.now ∥₁ }
    ensures inside { (20 ≤ result) × (result + 6 ≤ length bytes.now) }
    ensures offset { (m : Message) (s : SpellsMsg m bytes.now)
        → result ≡ 20 + length (sequences_bytes s.before) }
{
    let mut at = SECTIONS;
    while bytes[at] == SEQUENCE {
        at += 1 + known_size(&bytes[at..]);
    }
    at
}

/// Returns the offset after the body of a message, whose kind byte is at offset `at`.
fn body_end(bytes: &[u8], at: usize) -> usize
    requires known { ∥ IsSpelledMsg bytes.now ∥₁ }
    requires inside { at + 6 ≤ length bytes.now }
    requires offset { (m : Message) (s : SpellsMsg m bytes.now)
        → at ≡ 20 + length (sequences_bytes s.before) }
    ensures inside { (at + 1 ≤ result) × (result ≤ length bytes.now) }
    ensures end { (m : Message) (s : SpellsMsg m bytes.now)
        → result ≡ at + 1 + length (document (elements m.content.body)) }
{
    at + 1 + little_u32(&bytes[at + 1..]) as usize
}

/// A whole message, borrowed from its bytes. They were checked when it was made.
#[derive(Clone, Copy, Debug, PartialEq, Eq)]
pub struct RawMsg<'a> {
    bytes: &'a [u8],
    pub ghost spelled: { ∥ IsSpelledMsg bytes.now ∥₁ },
}

impl<'a> AsSlice<u8> for RawMsg<'a> {
    ghost use Rattle.wire_msg.specs.RawMsg.{msg_bytes};

    ghost items = { msg_bytes };

    fn as_slice(&self) -> &[u8] {
        self.as_bytes()
    }
}

impl<'a> RawMsg<'a> {
    ghost use Rattle.wire_msg.specs.Carrying.{Carries};
    ghost use Rattle.wire_msg.specs.RawMsg.{msg_bytes};

    /// Reads `bytes` as `parse` does. Looks names up by `memory`.
    fn read<M: Memory>(memory: M, bytes: &'a [u8], limit: u32) -> Result<RawMsg<'a>, MsgFault>
        requires { limit ≤ MAX_MESSAGE_LEN }
        ensures { MatchResult result
            (λ m. (msg_bytes m ≡ bytes.now) × IsMessage limit bytes.now)
            (λ f. FaultMsg bytes.now limit f) }
    {
        check_message(memory, bytes, limit)?;
        Ok(RawMsg { bytes })
    }

    /// Reads `bytes` as one message of at most `limit` bytes. Takes no memory. The body's names
    /// are compared in pairs, and each identifier with all of them, so the time grows with the
    /// square of the length. Use `parse_with` for bytes from someone you don't trust.
    ///
    /// # Errors
    ///
    /// Returns the first fault of the bytes and its offset, in the order of the checks.
    pub fn parse(bytes: &'a [u8], limit: u32) -> Result<RawMsg<'a>, MsgFault>
        requires { limit ≤ MAX_MESSAGE_LEN }
        ensures found { IfOk result (λ m.
            (msg_bytes m ≡ bytes.now) × IsMessage limit bytes.now) }
        ensures only { IsMessage limit bytes.now → IsOk result }
        ensures fault { IfErr result (λ f. FaultMsg bytes.now limit f) }
        ensures exact { (f : MsgFault) → FaultMsg bytes.now limit f → IsErrOf result f }
        ensures inside { IfErr result (λ f. f.at ≤ length bytes.now) }
    {
        RawMsg::read(InPlace, bytes, limit)
    }

    /// Reads `bytes` as `parse` does, but sorts the body's names, which takes memory. The time
    /// grows with the length times its logarithm, whatever the names are. If memory runs out,
    /// names are compared as `parse` compares them, in as much time.
    ///
    /// # Errors
    ///
    /// Returns the same fault as `parse`. Running out of memory is not an error.
    pub fn parse_with(alloc: Global, bytes: &'a [u8], limit: u32) -> Result<RawMsg<'a>, MsgFault>
        requires { limit ≤ MAX_MESSAGE_LEN }
        ensures found { IfOk result (λ m.
            (msg_bytes m ≡ bytes.now) × IsMessage limit bytes.now) }
        ensures only { IsMessage limit bytes.now → IsOk result }
        ensures fault { IfErr result (λ f. FaultMsg bytes.now limit f) }
        ensures exact { (f : MsgFault) → FaultMsg bytes.now limit f → IsErrOf result f }
        ensures inside { IfErr result (λ f. f.at ≤ length bytes.now) }
    {
        RawMsg::read(alloc, bytes, limit)
    }

    /// Makes the message that the bytes are known to spell, without checking them.
    pub fn from_spelled(bytes: &'a [u8]) -> RawMsg<'a>
        requires { ∥ IsSpelledMsg bytes.now ∥₁ }
        ensures { msg_bytes result ≡ bytes.now }
    {
        RawMsg { bytes }
    }

    /// Returns the bytes of the message.
    pub fn as_bytes(self) -> &'a [u8]
        ensures { result.now ≡ msg_bytes self.entry }
    {
        self.bytes
    }

    /// Reads the header of the message.
    fn header(self) -> MsgHeader
        ensures { result ≡ header_of (msg_bytes self.entry) }
    {
        let Some((header, _)) = self.bytes.split_first_chunk::<16>() else {
            unreachable!();
        };
        MsgHeader::read(*header)
    }

    /// Returns requestID.
    pub fn id(self) -> i32
        ensures { (m : Message) → SpellsMsg m (msg_bytes self.entry) → result ≡ m.id }
    {
        self.header().id
    }

    /// Returns responseTo.
    pub fn response_to(self) -> i32
        ensures { (m : Message) → SpellsMsg m (msg_bytes self.entry) → result ≡ m.response_to }
    {
        self.header().response_to
    }

    /// Returns the flags.
    pub fn flags(self) -> MsgFlags
        ensures { (m : Message) → SpellsMsg m (msg_bytes self.entry) → result ≡ m.flags }
    {
        MsgFlags::read(little_u32(&self.bytes[16..20])).unwrap()
    }

    /// Returns moreToCome: on a request, no reply is wanted; on a reply, another one follows.
    pub fn more_to_come(self) -> bool
        ensures { (m : Message) → SpellsMsg m (msg_bytes self.entry)
            → result ≡ m.flags.more_to_come }
    {
        self.flags().more_to_come
    }

    /// Returns exhaustAllowed: more than one reply may be sent to this request.
    pub fn exhaust_allowed(self) -> bool
        ensures { (m : Message) → SpellsMsg m (msg_bytes self.entry)
            → result ≡ m.flags.exhaust_allowed }
    {
        self.flags().exhaust_allowed
    }

    /// Returns the payload: the body and the document sequences.
    pub fn payload(self) -> Payload<'a>
        ensures { (m : Message) → SpellsMsg m (msg_bytes self.entry) → Carries result m.content }
    {
        let bytes = self.bytes;
        let at = body_offset(bytes);
        let next = body_end(bytes, at);
        let body = RawDocument::from_spelled(&bytes[at + 1..next]);
        Payload::of_parts(&bytes[SECTIONS..at], body, &bytes[next..])
    }
}
