//! Exports what reads messages, one after another and by their sections, without memory.

ghost use Rattle.std.specs.Prelude.{◌≡◌, ◌≤◌, ◌<◌, length};
ghost use Rattle.wire_msg.specs.declared.header.TheConstants.{MAX_MESSAGE_LEN};
ghost use Rattle.wire_msg.specs.{Message, SpellsMsg, header_of};
ghost use Rattle.wire_msg.specs.Faults.{Seen, body_seen};
ghost use Rattle.byte_views.specs.Front.{IsMessageFront, limit_front};
ghost use Rattle.byte_views.specs.Headers.{front_numbers, header_shown};
ghost use Rattle.byte_views.specs.Parts.{IsMessageParts, limit_parts};
ghost use Rattle.byte_views.specs.Sections.{GivesSection, IsSection, SectionsFrom};
ghost use Rattle.byte_views.specs.Spans.{message_span};

use byte_views::{FrontNumbers, InPlace, MessageFront, MessageParts, Section, View};

/// Tells whether a message stands in front of `bytes`, as `byte_views::message_front` does.
#[unsafe(no_mangle)]
pub extern "C" fn page_message_front(bytes: &[u8], limit: u32) -> MessageFront
    ensures read { limit ≤ MAX_MESSAGE_LEN → IsMessageFront limit bytes.now result }
    ensures large_limit { MAX_MESSAGE_LEN < limit → result ≡ limit_front }
{
    byte_views::message_front(InPlace, bytes, limit)
}

/// Checks that `bytes` are exactly one message, and returns its numbers, as
/// `byte_views::message_parts` does.
#[unsafe(no_mangle)]
pub extern "C" fn page_message_parts(bytes: &[u8], limit: u32) -> MessageParts
    ensures read { limit ≤ MAX_MESSAGE_LEN → IsMessageParts limit bytes.now result }
    ensures large_limit { MAX_MESSAGE_LEN < limit → result ≡ limit_parts }
    ensures sections { result.fault.number ≡ 0 → (m : Message) (s : SpellsMsg m bytes.now)
        → SectionsFrom bytes.now result.sections (body_seen s.before m.content.body s.after) }
{
    byte_views::message_parts(InPlace, bytes, limit)
}

/// Reads the section whose kind byte is at offset `at` of a message, as `byte_views::section_at`
/// does.
#[unsafe(no_mangle)]
pub extern "C" fn page_section(bytes: &[u8], at: usize) -> Section
    ensures read { IsSection bytes.now at result }
    ensures sections { (left : Seen) → SectionsFrom bytes.now at left
        → GivesSection bytes.now result left }
{
    byte_views::section_at(bytes, at)
}

/// Returns the numbers at the front of a message that `bytes` are or begin with, as
/// `byte_views::front_numbers` does.
#[unsafe(no_mangle)]
pub extern "C" fn page_front_numbers(bytes: &[u8]) -> FrontNumbers
    ensures numbers { result ≡ front_numbers bytes.now }
    ensures header { 16 ≤ length bytes.now → header_shown result ≡ header_of bytes.now }
{
    byte_views::front_numbers(bytes)
}

/// Returns the view of what stands at offset `at` of a message, as `byte_views::message_span` does.
#[unsafe(no_mangle)]
pub extern "C" fn page_message_span(bytes: &[u8], at: usize) -> View
    ensures { result ≡ message_span bytes.now at }
{
    byte_views::message_span(bytes, at)
}
