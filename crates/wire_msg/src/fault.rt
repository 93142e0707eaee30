//! Says why bytes are not a message, and at which offset.

ghost use Rattle.std.specs.Prelude.{◌≡◌};
ghost use Rattle.wire_msg.specs.Causes.{cause_name, cause_number};

use bson_elem::BsonFault;
use std::fmt;

/// What is wrong with the bytes. A cause is displayed as its name, and `Opcode` as its name and
/// the opcode.
#[derive(Clone, Copy, Debug, PartialEq, Eq)]
pub enum MsgCause {
    /// The messageLength is below 16, above the limit, or not the number of bytes given; or there
    /// are fewer bytes than a header has.
    Length,
    /// The opCode isn't that of OP_MSG.
    Opcode(i32),
    /// An unknown bit is set among the flag bits 2 to 15.
    Flags,
    /// Flag bit 0, checksumPresent, is set.
    Checksum,
    /// The kind byte of a section is neither 0 nor 1.
    SectionKind,
    /// A document sequence has fewer than four bytes for its size, or the size is below 5 or goes
    /// past the end of the message.
    SectionSize,
    /// A document has this fault. The fault's offset is counted from the document's first byte.
    Document(BsonFault),
    /// No section is a body.
    NoBody,
    /// A second section is a body.
    TwoBodies,
    /// A top-level name of the body is repeated.
    RepeatedField,
    /// The identifier of a document sequence has no 00 in the section, or isn't UTF-8.
    SequenceName,
    /// The identifier of a document sequence is a top-level name of the body.
    SequenceInBody,
    /// There are fewer than four bytes of flags.
    Truncated,
}

impl MsgCause {
    /// Returns the number of the cause in a fault line, from 1 to 13.
    pub fn number(self) -> u8
        ensures { result ≡ cause_number self }
    {
        match self {
            MsgCause::Length => 1,
            MsgCause::Opcode(_) => 2,
            MsgCause::Flags => 3,
            MsgCause::Checksum => 4,
            MsgCause::SectionKind => 5,
            MsgCause::SectionSize => 6,
            MsgCause::Document(_) => 7,
            MsgCause::NoBody => 8,
            MsgCause::TwoBodies => 9,
            MsgCause::RepeatedField => 10,
            MsgCause::SequenceName => 11,
            MsgCause::SequenceInBody => 12,
            MsgCause::Truncated => 13,
        }
    }

    /// Returns the name of the cause in a fault line.
    pub fn name(self) -> &'static str
        ensures { result.now ≡ cause_name self }
    {
        match self {
            MsgCause::Length => "Length",
            MsgCause::Opcode(_) => "Opcode",
            MsgCause::Flags => "Flags",
            MsgCause::Checksum => "Checksum",
            MsgCause::SectionKind => "SectionKind",
            MsgCause::SectionSize => "SectionSize",
            MsgCause::Document(_) => "Document",
            MsgCause::NoBody => "NoBody",
            MsgCause::TwoBodies => "TwoBodies",
            MsgCause::RepeatedField => "RepeatedField",
            MsgCause::SequenceName => "SequenceName",
            MsgCause::SequenceInBody => "SequenceInBody",
            MsgCause::Truncated => "Truncated",
        }
    }
}

impl fmt::Display for MsgCause {
    ghost use Rattle.wire_msg.specs.FaultText.{shown_cause};

    ghost output = { shown_cause };

    #[tactic(auto, using(crate::proofs::FaultTexts::plain_cause))]
    fn fmt<W: fmt::Write>(&self, f: &mut fmt::Formatter<W>) -> fmt::Result {
        match *self {
            MsgCause::Opcode(opcode) => write!(f, "Opcode {opcode}"),
            cause => f.write_str(cause.name()),
        }
    }
}

impl std::error::Error for MsgCause {}

/// The first fault of some bytes, in the order of the checks. It is displayed as its fault line.
#[derive(Clone, Copy, Debug, PartialEq, Eq)]
pub struct MsgFault {
    /// The offset of the fault: 0 for the length, 12 for the opcode, 16 for the flags, the
    /// message's length if there is no body, the first byte of a document at fault, and otherwise
    /// the kind byte of the section at fault.
    pub at: usize,
    /// What is wrong there.
    pub cause: MsgCause,
}

impl fmt::Display for MsgFault {
    ghost use Rattle.wire_msg.specs.FaultText.{shown_fault};

    ghost output = { shown_fault };

    #[tactic(auto, using(crate::proofs::FaultTexts::plain_text))]
    fn fmt<W: fmt::Write>(&self, f: &mut fmt::Formatter<W>) -> fmt::Result {
        let at = self.at;
        match self.cause {
            MsgCause::Opcode(opcode) => write!(f, "fault 2 Opcode {opcode} at {at}"),
            MsgCause::Document(inner) => {
                let number = inner.cause.number();
                let name = inner.cause.name();
                let inner_at = inner.at;
                write!(f, "fault 7 Document at {at}: {number} {name} at {inner_at}")
            }
            cause => {
                let number = cause.number();
                let name = cause.name();
                write!(f, "fault {number} {name} at {at}")
            }
        }
    }
}

impl std::error::Error for MsgFault {}
