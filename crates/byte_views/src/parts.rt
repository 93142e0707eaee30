//! Reads the numbers of a message, and its sections one after another, as views of its bytes.

ghost use Rattle.std.specs.Prelude.{◌≡◌, ◌≤◌, ◌<◌, ◌+◌, ◌^◌, drop, length};
ghost use Rattle.wire_msg.specs.{Message, SpellsMsg, number_at};
ghost use Rattle.wire_msg.specs.Faults.{Seen, body_seen};
ghost use Rattle.byte_views.specs.Parts.{IsMessageParts, fault_parts, limit_parts};
ghost use Rattle.byte_views.specs.Sections.{GivesSection, IsBodySection, IsSection};
ghost use Rattle.byte_views.specs.Sections.{IsSequenceSection, SectionsFrom, section};
ghost use Rattle.byte_views.specs.Sections.{wrong_section};

use crate::fault::FirstFault;
use crate::reading::Reading;
use crate::view::View;
use bson_elem::{little_u32, read_cstring, read_document};
use wire_msg::MAX_MESSAGE_LEN;

/// The numbers of a message.
#[derive(Clone, Copy)]
#[repr(C)]
pub struct MessageParts {
    /// The first fault, by the number of its cause, from 1 to 13. The number is 255 if the limit
    /// is too large; then nothing was read.
    pub fault: FirstFault,
    /// If the cause is 7, the fault of the document at that offset. Its own offset is counted from
    /// there.
    pub document_fault: FirstFault,
    /// requestID, or 0 if there is a fault.
    pub id: i32,
    /// responseTo, or 0 if there is a fault.
    pub response_to: i32,
    /// flagBits, or 0 if there is a fault.
    pub flag_bits: u32,
    /// moreToCome, bit 1 of flagBits.
    pub more_to_come: bool,
    /// exhaustAllowed, bit 16 of flagBits.
    pub exhaust_allowed: bool,
    /// The offset of the first section. If there is a fault, it is past all bytes.
    pub sections: usize,
}

impl MessageParts {
    /// Returns that the bytes have this fault.
    fn of_fault(fault: FirstFault, document_fault: FirstFault) -> MessageParts
        ensures { result ≡ fault_parts fault document_fault }
    {
        MessageParts {
            fault,
            document_fault,
            id: 0,
            response_to: 0,
            flag_bits: 0,
            more_to_come: false,
            exhaust_allowed: false,
            sections: usize::MAX,
        }
    }
}

/// Returns flagBits of the message that `bytes` are.
fn flag_bits(bytes: &[u8]) -> u32
    requires { 20 ≤ length bytes.now }
    ensures { result ≡ number_at bytes.now 16 }
{
    little_u32(&bytes[16..20])
}

/// Checks that `bytes` are exactly one message, of at most `limit` bytes, and returns its numbers.
/// Reads it by `reading`.
pub fn message_parts<R: Reading>(reading: R, bytes: &[u8], limit: u32) -> MessageParts
    ensures read { limit ≤ MAX_MESSAGE_LEN → IsMessageParts limit bytes.now result }
    ensures large_limit { MAX_MESSAGE_LEN < limit → result ≡ limit_parts }
    ensures sections { result.fault.number ≡ 0 → (m : Message) (s : SpellsMsg m bytes.now)
        → SectionsFrom bytes.now result.sections (body_seen s.before m.content.body s.after) }
{
    let none = FirstFault::none();
    if limit > MAX_MESSAGE_LEN {
        return MessageParts::of_fault(FirstFault::of_limit(), none);
    }
    match reading.parse(bytes, limit) {
        Ok(message) => {
            let flags = message.flags();
            MessageParts {
                fault: none,
                document_fault: none,
                id: message.id(),
                response_to: message.response_to(),
                flag_bits: flag_bits(bytes),
                more_to_come: flags.more_to_come,
                exhaust_allowed: flags.exhaust_allowed,
                sections: 20,
            }
        }
        Err(found) => MessageParts::of_fault(
            FirstFault::of_message(0, found),
            FirstFault::inside(found.cause),
        ),
    }
}

/// A section of a message, or that there is none.
#[derive(Clone, Copy)]
#[repr(C)]
pub struct Section {
    /// 0 behind the last section, 1 at the body, 2 at a document sequence, and 255 if no section
    /// stands there.
    pub kind: u32,
    /// The identifier of a document sequence.
    pub identifier: View,
    /// The document of the body, or those of the sequence, one after another.
    pub documents: View,
    /// The offset after the section, or its own if there is none.
    pub next: usize,
}

impl Section {
    /// Returns a section of this `kind`, with views of these parts.
    fn new(kind: u32, identifier: View, documents: View, next: usize) -> Section
        ensures { result ≡ section kind identifier documents next }
    {
        Section {
            kind,
            identifier,
            documents,
            next,
        }
    }

    /// Returns that no section stands at offset `at`.
    fn wrong(at: usize) -> Section
        ensures { result ≡ wrong_section at }
    {
        Section::new(255, View::NONE, View::NONE, at)
    }
}

/// Reads the document sequence whose kind byte is at offset `at`. `rest` follows that byte.
fn read_sequence(rest: &[u8], at: usize) -> Section
    requires { at + length rest.now + 1 < 2 ^ 64 }
    ensures { IsSequenceSection rest.now at result }
{
    if rest.len() < 4 {
        return Section::wrong(at);
    }
    let size = little_u32(rest) as usize;
    if size < 5 || size > rest.len() {
        return Section::wrong(at);
    }
    match read_cstring(&rest[4..size]) {
        Ok((identifier, documents)) => Section::new(
            2,
            View::new(at + 5, identifier.len()),
            View::new(at + 6 + identifier.len(), documents.len()),
            at + 1 + size,
        ),
        Err(_) => Section::wrong(at),
    }
}

/// Reads the body whose kind byte is at offset `at`. `rest` follows that byte.
fn read_body(rest: &[u8], at: usize) -> Section
    requires { at + length rest.now + 1 < 2 ^ 64 }
    ensures { IsBodySection rest.now at result }
{
    match read_document(0, 0, rest) {
        Ok((body, _)) => {
            let document = View::new(at + 1, body.len());
            Section::new(1, View::NONE, document, at + 1 + body.len())
        }
        Err(_) => Section::wrong(at),
    }
}

/// Reads the section whose kind byte is at offset `at`.
fn read_section(bytes: &[u8], at: usize) -> Section
    ensures { IsSection bytes.now at result }
{
    if at > bytes.len() {
        return Section::wrong(at);
    }
    if at == bytes.len() {
        return Section::new(0, View::NONE, View::NONE, at);
    }
    let kind = bytes[at];
    let rest = &bytes[at + 1..];
    if kind == 0 {
        return read_body(rest, at);
    }
    if kind == 1 {
        return read_sequence(rest, at);
    }
    Section::wrong(at)
}

/// Reads the section whose kind byte is at offset `at` of a message. No document in it is checked,
/// but for the length and the last byte of a body.
pub fn section_at(bytes: &[u8], at: usize) -> Section
    ensures read { IsSection bytes.now at result }
    ensures sections { (left : Seen) → SectionsFrom bytes.now at left
        → GivesSection bytes.now result left }
{
    read_section(bytes, at)
}
