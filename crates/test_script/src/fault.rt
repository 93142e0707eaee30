//! Why a script isn't read, and where.

ghost use Rattle.std.specs.Prelude.{◌≡◌};
ghost use Rattle.test_script.specs.Faults.{cause_text};

use bson_json_read::Cause as JsonCause;
use std::fmt;

/// Why a line is no rule.
#[derive(Clone, Copy, Debug, PartialEq, Eq)]
pub enum Cause {
    /// The line doesn't begin with `on` and the name of a command.
    Start,
    /// What follows the command is neither an action nor `times`, and no document; nor does it begin as
    /// Extended JSON that is UTF-8.
    Filter,
    /// The filter, or the document of a reply, begins as Extended JSON and isn't read as that for this
    /// cause, at this character of it, counted from 1.
    Json { cause: JsonCause, column: usize },
    /// The filter asks for what isn't carried out.
    Operator,
    /// There is no number behind `times`.
    Times,
    /// The rest of the line is no action, and no reply whose document begins as Extended JSON.
    Action,
    /// The allocator refused memory.
    OutOfMemory,
}

impl Cause {
    /// Returns the text that displays the cause; of `Json`, what stands before its place.
    fn text(self) -> &'static str
        ensures { result.now ≡ cause_text self }
    {
        match self {
            Cause::Start => "a rule begins with 'on' and the name of a command, or '*'",
            Cause::Filter => {
                "what follows the command is no action, no 'times' and no filter, which is a document as Extended JSON or as hexadecimal text"
            }
            Cause::Json { .. } => "the document is no Extended JSON, at its character ",
            Cause::Operator => {
                "the filter asks for what is not carried out: it takes values, $eq, $ne, $gt, $gte, $lt, $lte, $in, $nin, $exists, $and and $or"
            }
            Cause::Times => "a whole number below 2^64 follows 'times'",
            Cause::Action => {
                "a rule ends with reply DOCUMENT, error CODE \"NAME\", delay MS, hangup, cut BYTES, cutup BYTES, drop or pass, with whole numbers, CODE below 2^31, and nothing behind"
            }
            Cause::OutOfMemory => "out of memory",
        }
    }
}

impl fmt::Display for Cause {
    fn fmt<W: fmt::Write>(&self, f: &mut fmt::Formatter<W>) -> fmt::Result {
        f.write_str(self.text())?;
        match self {
            Cause::Json { cause, column } => write!(f, "{column}: {cause}"),
            _ => Ok(()),
        }
    }
}

impl std::error::Error for Cause {}

/// The first line of a script that is no rule.
#[derive(Clone, Copy, Debug, PartialEq, Eq)]
pub struct ScriptFault {
    /// The number of the line, counted from 1.
    pub line: usize,
    /// Why it is none.
    pub cause: Cause,
}

impl fmt::Display for ScriptFault {
    fn fmt<W: fmt::Write>(&self, f: &mut fmt::Formatter<W>) -> fmt::Result {
        write!(f, "line {}: {}", self.line, self.cause)
    }
}

impl std::error::Error for ScriptFault {}
