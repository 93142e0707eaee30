//! Says why bytes are not a query of a command, and at which offset.

ghost use Rattle.std.specs.Prelude.{◌≡◌};
ghost use Rattle.wire_query.specs.Causes.{cause_name, cause_number, query_fault};

use bson_elem::BsonFault;
use std::fmt;

/// What is wrong with the bytes.
#[derive(Clone, Copy, Debug, PartialEq, Eq)]
pub enum QueryCause {
    /// The messageLength is not the number of bytes given, or is above the limit; or there are
    /// fewer bytes than a header has.
    Length,
    /// The opCode isn't that of OP_QUERY.
    Opcode(i32),
    /// There are fewer than four bytes of flags, or fewer than eight bytes of numberToSkip and
    /// numberToReturn.
    Truncated,
    /// A flag other than SlaveOk is set.
    Flags,
    /// The collection's full name has no 00, or isn't UTF-8.
    Name,
    /// The collection's full name isn't the name of a database followed by `.$cmd`.
    Collection,
    /// numberToSkip isn't 0.
    Skip,
    /// numberToReturn is neither 1 nor -1.
    Count,
    /// The command has this fault. The fault's offset is counted from the command's first byte.
    Document(BsonFault),
    /// Bytes follow the command. They may be a returnFieldsSelector, which no command has.
    TrailingBytes,
    /// A top-level name of the command is repeated.
    RepeatedField,
}

impl QueryCause {
    /// Returns the number of the cause in a fault line, from 1 to 11.
    pub fn number(self) -> u8
        ensures { result ≡ cause_number self }
    {
        match self {
            QueryCause::Length => 1,
            QueryCause::Opcode(_) => 2,
            QueryCause::Truncated => 3,
            QueryCause::Flags => 4,
            QueryCause::Name => 5,
            QueryCause::Collection => 6,
            QueryCause::Skip => 7,
            QueryCause::Count => 8,
            QueryCause::Document(_) => 9,
            QueryCause::TrailingBytes => 10,
            QueryCause::RepeatedField => 11,
        }
    }

    /// Returns the name of the cause in a fault line.
    pub fn name(self) -> &'static str
        ensures { result.now ≡ cause_name self }
    {
        match self {
            QueryCause::Length => "Length",
            QueryCause::Opcode(_) => "Opcode",
            QueryCause::Truncated => "Truncated",
            QueryCause::Flags => "Flags",
            QueryCause::Name => "Name",
            QueryCause::Collection => "Collection",
            QueryCause::Skip => "Skip",
            QueryCause::Count => "Count",
            QueryCause::Document(_) => "Document",
            QueryCause::TrailingBytes => "TrailingBytes",
            QueryCause::RepeatedField => "RepeatedField",
        }
    }
}

/// The first fault of some bytes, in the order of the checks. It is displayed as its fault line.
#[derive(Clone, Copy, Debug, PartialEq, Eq)]
pub struct QueryFault {
    /// The offset of the fault: 0 for the length, 12 for the opcode, 16 for the flags, 20 for the
    /// name, and otherwise that of the number, of the command, or of the bytes after it.
    pub at: usize,
    /// What is wrong there.
    pub cause: QueryCause,
}

/// Returns the fault with this `cause`, at offset `at`.
pub(crate) fn fault_at(at: usize, cause: QueryCause) -> QueryFault
    ensures { result ≡ query_fault at cause }
{
    QueryFault { at, cause }
}

impl fmt::Display for QueryFault {
    ghost use Rattle.wire_query.specs.FaultText.{shown_query_fault};

    ghost output = { shown_query_fault };

    #[tactic(auto, using(crate::proofs::FaultTexts::plain_text))]
    fn fmt<W: fmt::Write>(&self, f: &mut fmt::Formatter<W>) -> fmt::Result {
        let at = self.at;
        match self.cause {
            QueryCause::Opcode(opcode) => write!(f, "fault 2 Opcode {opcode} at {at}"),
            QueryCause::Document(inner) => {
                let number = inner.cause.number();
                let name = inner.cause.name();
                let inner_at = inner.at;
                write!(f, "fault 9 Document at {at}: {number} {name} at {inner_at}")
            }
            cause => {
                let number = cause.number();
                let name = cause.name();
                write!(f, "fault {number} {name} at {at}")
            }
        }
    }
}

impl std::error::Error for QueryFault {}
