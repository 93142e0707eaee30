//! Names an input in the messages of a program.

ghost use Rattle.std.specs.Prelude.{◌≡◌};
ghost use Rattle.std.specs.List.{list_any};
ghost use Rattle.std.specs.Str.{chars};
ghost use Rattle.core.specs.Char.{is_control};

use std::fmt;

/// The name of an input, as a message has it.
#[derive(Clone, Copy)]
pub enum InputName<'a> {
    /// Standard input.
    StandardInput,
    /// A file with this name.
    File(&'a str),
    /// A file whose name is empty or has control characters. The name is put in quotes, so that
    /// the message stays one line and names something.
    Quoted(&'a str),
}

/// Returns true if `text` has a control character.
fn has_control(text: &str) -> bool
    ensures { result ≡ list_any is_control (chars text.now) }
{
    text.chars().any(|c| c.is_control())
}

impl InputName<'_> {
    ghost use Rattle.command_words.specs.InputName.{NamesFile};

    /// Returns the name of the input that the operand `file` asks for.
    pub fn of(file: &str) -> InputName<'_>
        ensures { NamesFile result file.now }
    {
        if file == "-" {
            InputName::StandardInput
        } else if file.is_empty() || has_control(file) {
            InputName::Quoted(file)
        } else {
            InputName::File(file)
        }
    }
}

impl fmt::Display for InputName<'_> {
    ghost use Rattle.command_words.specs.InputName.{name_text};

    ghost output = { name_text };

    fn fmt<W: fmt::Write>(&self, f: &mut fmt::Formatter<W>) -> fmt::Result {
        match *self {
            InputName::StandardInput => f.write_str("standard input"),
            InputName::File(file) => f.write_str(file),
            InputName::Quoted(file) => write!(f, "{file:?}"),
        }
    }
}
