//! What is wrong with bytes that are no document, and where.

ghost use Rattle.std.specs.Prelude.{◌≡◌};
ghost use Rattle.bson_elem.specs.Causes.{cause_name, cause_number};

use std::fmt;

/// What is wrong with the bytes. Displays as its name.
#[derive(Clone, Copy, Debug, PartialEq, Eq)]
pub enum BsonCause {
    /// A value reaches past the end of its container, or a cstring has no 00 before it.
    Truncated,
    /// A length is below its least value (5 for a document, 1 for a string, 0 for a binary, 14 for
    /// a code with scope), or the length of a whole document isn't the number of bytes given.
    Length,
    /// The last byte of a container isn't 00, or a type byte before it is 00.
    End,
    /// A type byte is that of no kind.
    Kind,
    /// A name, or the pattern or the options of a regular expression, isn't UTF-8.
    Name,
    /// The text of a string isn't UTF-8.
    Text,
    /// The last byte of a string isn't 00.
    TextEnd,
    /// The byte of a boolean is neither 00 nor 01.
    Boolean,
    /// A binary of subtype 02 has fewer than 4 bytes of data, or its inner count isn't the number
    /// of bytes after it.
    OldBinary,
    /// The code and the scope of a code with scope don't fill its length.
    Scope,
    /// A container is deeper than `MAX_DEPTH`.
    Depth,
}

impl BsonCause {
    /// Returns the number of the cause, from 1 to 11.
    pub fn number(self) -> u8
        ensures { result ≡ cause_number self }
    {
        match self {
            BsonCause::Truncated => 1,
            BsonCause::Length => 2,
            BsonCause::End => 3,
            BsonCause::Kind => 4,
            BsonCause::Name => 5,
            BsonCause::Text => 6,
            BsonCause::TextEnd => 7,
            BsonCause::Boolean => 8,
            BsonCause::OldBinary => 9,
            BsonCause::Scope => 10,
            BsonCause::Depth => 11,
        }
    }

    /// Returns the name of the cause.
    pub fn name(self) -> &'static str
        ensures { result.now ≡ cause_name self }
    {
        match self {
            BsonCause::Truncated => "Truncated",
            BsonCause::Length => "Length",
            BsonCause::End => "End",
            BsonCause::Kind => "Kind",
            BsonCause::Name => "Name",
            BsonCause::Text => "Text",
            BsonCause::TextEnd => "TextEnd",
            BsonCause::Boolean => "Boolean",
            BsonCause::OldBinary => "OldBinary",
            BsonCause::Scope => "Scope",
            BsonCause::Depth => "Depth",
        }
    }
}

impl fmt::Display for BsonCause {
    ghost use Rattle.bson_elem.specs.FaultText.{shown_cause};

    ghost output = { shown_cause };

    fn fmt<W: fmt::Write>(&self, f: &mut fmt::Formatter<W>) -> fmt::Result {
        f.write_str(self.name())
    }
}

impl std::error::Error for BsonCause {}

/// The first fault of some bytes, in the order of the checks. Displays as `fault NUMBER CAUSE at
/// OFFSET`.
#[derive(Clone, Copy, Debug, PartialEq, Eq)]
pub struct BsonFault {
    /// The offset of the fault: of the first byte of a container, if its length or its last byte is
    /// wrong; else of the type byte of the innermost element that is at fault, or 0 outside any
    /// element.
    pub at: usize,
    pub cause: BsonCause,
}

impl fmt::Display for BsonFault {
    ghost use Rattle.bson_elem.specs.FaultText.{shown_fault};

    ghost output = { shown_fault };

    fn fmt<W: fmt::Write>(&self, f: &mut fmt::Formatter<W>) -> fmt::Result {
        let number = self.cause.number();
        let name = self.cause.name();
        let at = self.at;
        write!(f, "fault {number} {name} at {at}")
    }
}

impl std::error::Error for BsonFault {}
