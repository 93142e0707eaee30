//! Exports the checks of messages, what reads them in pieces and by their sections, and what writes
//! one. What reads or writes a whole message takes memory.

ghost use Rattle.std.specs.Prelude.{◌≡◌, ◌≤◌, ◌<◌, None};
ghost use Rattle.wire_msg.specs.declared.header.TheConstants.{MAX_MESSAGE_LEN};
ghost use Rattle.wire_msg.specs.{Message, SpellsMsg};
ghost use Rattle.wire_msg.specs.Faults.{Seen, body_seen};
ghost use Rattle.byte_views.specs.Fault.{first_fault, limit_fault};
ghost use Rattle.byte_views.specs.Front.{IsMessageFront, limit_front};
ghost use Rattle.byte_views.specs.Messages.{IsMessageCheck, IsMessagesCheck};
ghost use Rattle.byte_views.specs.Messages.{limit_message_check, limit_messages_check};
ghost use Rattle.byte_views.specs.Parts.{IsMessageParts, limit_parts};
ghost use Rattle.byte_views.specs.Sections.{GivesSection, IsSection, SectionsFrom};
ghost use Rattle.byte_views.specs.Writing.{IsMessageWritten, no_message};

use byte_views::{
    MessageCheck, MessageFront, MessageNumbers, MessageParts, MessageWritten, MessagesCheck,
    Section,
};
use std::alloc::Global;

/// Checks that `bytes` are exactly one message, as `byte_views::check_message` does.
#[unsafe(no_mangle)]
pub extern "C" fn lughemra_check_message_nonnull(
    alloc: Global,
    bytes: &[u8],
    limit: u32,
) -> MessageCheck
    ensures read { limit ≤ MAX_MESSAGE_LEN → IsMessageCheck limit bytes.now result }
    ensures large_limit { MAX_MESSAGE_LEN < limit → result ≡ limit_message_check }
{
    byte_views::check_message(alloc, bytes, limit)
}

/// Checks the messages that `bytes` hold one after another, as `byte_views::check_messages` does.
#[unsafe(no_mangle)]
pub extern "C" fn lughemra_check_messages_nonnull(
    alloc: Global,
    bytes: &[u8],
    limit: u32,
) -> MessagesCheck
    ensures read { limit ≤ MAX_MESSAGE_LEN → IsMessagesCheck limit bytes.now result }
    ensures large_limit { MAX_MESSAGE_LEN < limit → result ≡ limit_messages_check }
{
    byte_views::check_messages(alloc, bytes, limit)
}

/// Tells whether a message stands in front of `bytes`, as `byte_views::message_front` does.
#[unsafe(no_mangle)]
pub extern "C" fn lughemra_message_front_nonnull(
    alloc: Global,
    bytes: &[u8],
    limit: u32,
) -> MessageFront
    ensures read { limit ≤ MAX_MESSAGE_LEN → IsMessageFront limit bytes.now result }
    ensures large_limit { MAX_MESSAGE_LEN < limit → result ≡ limit_front }
{
    byte_views::message_front(alloc, bytes, limit)
}

/// Checks that `bytes` are exactly one message, and returns its numbers, as
/// `byte_views::message_parts` does.
#[unsafe(no_mangle)]
pub extern "C" fn lughemra_message_parts_nonnull(
    alloc: Global,
    bytes: &[u8],
    limit: u32,
) -> MessageParts
    ensures read { limit ≤ MAX_MESSAGE_LEN → IsMessageParts limit bytes.now result }
    ensures large_limit { MAX_MESSAGE_LEN < limit → result ≡ limit_parts }
    ensures sections { result.fault.number ≡ 0 → (m : Message) (s : SpellsMsg m bytes.now)
        → SectionsFrom bytes.now result.sections (body_seen s.before m.content.body s.after) }
{
    byte_views::message_parts(alloc, bytes, limit)
}

/// Reads the section whose kind byte is at offset `at` of a message, as `byte_views::section_at`
/// does.
#[unsafe(no_mangle)]
pub extern "C" fn lughemra_section_nonnull(bytes: &[u8], at: usize) -> Section
    ensures read { IsSection bytes.now at result }
    ensures sections { (left : Seen) → SectionsFrom bytes.now at left
        → GivesSection bytes.now result left }
{
    byte_views::section_at(bytes, at)
}

/// Writes a message of at most `limit` bytes to the front of `room`, as `byte_views::write_message`
/// does.
#[unsafe(no_mangle)]
pub extern "C" fn lughemra_write_message_nonnull(
    alloc: Global,
    numbers: &MessageNumbers,
    body: &[u8],
    sequences: &[u8],
    limit: u32,
    room: &mut [u8],
) -> MessageWritten
    ensures written { limit ≤ MAX_MESSAGE_LEN
        → IsMessageWritten numbers.now body.now sequences.now limit room.old room.new result }
    ensures large_limit { MAX_MESSAGE_LEN < limit
        → (result ≡ no_message limit_fault (first_fault None)) × (room.new ≡ room.old) }
{
    byte_views::write_message(alloc, numbers, body, sequences, limit, room)
}
