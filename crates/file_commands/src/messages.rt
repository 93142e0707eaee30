//! Messages out of an input, and the text of each.

ghost use Rattle.std.specs.Prelude.{◌≡◌, ◌⊎◌, ◌+◌, IfOk, IfSome, OnOk, false, true};
ghost use Rattle.std.specs.Io.KnownBytes.{IsAtEnd, Keeps};
ghost use Rattle.bson_json.specs.{WritesOne};
ghost use Rattle.file_commands.specs.InputFault.{input_fault_line};
ghost use Rattle.file_commands.specs.ItemWalk.{GoesOverItems};
ghost use Rattle.file_commands.specs.MessageWalk.{message_reading, message_tells};
ghost use Rattle.file_commands.specs.Msg.{MayBeMessage, messages_of};
ghost use Rattle.file_commands.specs.Walk.{Tells};
ghost use Rattle.wire_msg.specs.{IsOpen, Message, SpellsMsg, msg_bytes};
ghost use Rattle.wire_text.specs.{msg_fault_line};

use crate::input_fault::InputFault;
use crate::msg::MessageForm;
use crate::walk::{Stop, Walk};
use std::alloc::Global;
use std::io;
use std::io::Write;
use wire_msg::{MAX_MESSAGE_LEN, MsgFault, RawMsg};
use wire_stream::{MsgReader, ReadEnd, ReaderState};
use wire_text::{write_message, write_message_json};

/// Writes a message in this form.
fn write_in_form<W: Write>(form: MessageForm, message: RawMsg<'_>, out: &mut W) -> io::Result<()>
    ensures { (m : Message) → SpellsMsg m (msg_bytes message.entry) → OnOk result
        (WritesOne W.contents out.old out.new (MayBeMessage form m)) }
{
    match form {
        MessageForm::Text => write_message(message, out),
        MessageForm::Json(mode) => {
            write_message_json(message, mode, out)?;
            out.write_all(b"\n")
        }
    }
}

/// Reads the messages of an input.
#[derive(Drop)]
pub struct MessageReader {
    /// Holds the message that isn't whole yet.
    messages: MsgReader,
    /// The offset at which it begins.
    start: usize,
}

/// Returns the stop at a message that begins at offset `start` and has this fault. No offset above
/// 2 ^ 64 - 1 is told: an input of so many bytes isn't read to its end.
fn stop_at(start: usize, fault: MsgFault) -> Stop
    ensures { (f : InputFault) → result ≡ Stop.Fault f
        → input_fault_line f ≡ msg_fault_line (start + fault.at) fault.cause }
{
    let Some(at) = start.checked_add(fault.at) else {
        return Stop::OutOfMemory;
    };
    let cause = fault.cause;
    Stop::Fault(InputFault::Msg(MsgFault { at, cause }))
}

/// Feeds `piece` to `reader`, and writes the text of each message that becomes whole. Returns why
/// no more messages are read, if none are: then the reader stands where that is. Errs if the writer
/// does.
fn write_each<W: Write>(
    form: MessageForm,
    reader: &mut MessageReader,
    piece: &[u8],
    out: &mut W,
) -> io::Result<Option<Stop>>
    requires { IsOpen reader.old.messages.limit reader.old.messages.held }
    ensures { IfOk result (λ stop. GoesOverItems (messages_of form) (message_reading reader.old)
        piece.now (message_reading reader.new) stop (W.contents out.old) (W.contents out.new)) }
{
    let mut rest = piece;
    loop {
        let Ok(fed) = reader.messages.feed(rest) else {
            return Ok(Some(Stop::OutOfMemory));
        };
        rest = &rest[fed.taken..];
        match fed.state {
            ReaderState::Need => return Ok(None),
            ReaderState::Ready => {}
            ReaderState::Bad(fault) => return Ok(Some(stop_at(reader.start, fault))),
        }
        let Some(message) = reader.messages.message() else {
            unreachable!()
        };
        let Some(behind) = reader.start.checked_add(message.as_bytes().len()) else {
            return Ok(Some(Stop::OutOfMemory));
        };
        write_in_form(form, message, out)?;
        reader.messages.release();
        reader.start = behind;
    }
}

/// The messages of an input, which are written in this form.
#[derive(Drop)]
pub struct Messages {
    pub form: MessageForm,
}

impl Walk for Messages {
    type Reader = MessageReader;

    ghost tells = { λ m. message_tells m.form };

    fn start(&self, alloc: Global) -> MessageReader {
        let messages = MsgReader::new(alloc, MAX_MESSAGE_LEN);
        MessageReader { messages, start: 0 }
    }

    fn write_piece<W: Write>(
        &self,
        reader: &mut MessageReader,
        piece: &[u8],
        out: &mut W,
    ) -> io::Result<Option<Stop>> {
        write_each(self.form, reader, piece, out)
    }

    fn fault_at_end(&self, reader: &MessageReader) -> Option<InputFault> {
        let offset = reader.start;
        match reader.messages.end() {
            ReadEnd::Ended => None,
            ReadEnd::EndedInside => Some(InputFault::EndedInside { offset }),
        }
    }

    fn write_closing<W: Write>(&self, _reader: &MessageReader, _out: &mut W) -> io::Result<()> {
        Ok(())
    }
}
