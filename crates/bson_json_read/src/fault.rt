//! Why a text isn't read, and where.

ghost use Rattle.std.specs.Prelude.{◌≡◌, ◌⊎◌, [], ◌++◌, ◌∷◌};

use crate::form::Form;
use std::alloc::Global;
use std::fmt;

/// Why a text isn't read.
#[derive(Clone, Copy, PartialEq, Eq)]
pub enum Cause {
    /// The text is no JSON, or nests deeper than any document does.
    NotJson,
    /// The text is JSON, and no object; or among several texts, what begins no object stands where one
    /// has to begin.
    NotAnObject,
    /// A name stands a second time in an object.
    RepeatedName,
    /// A name has a 00 in it.
    ZeroInName,
    /// A document or an array would be deeper than 200.
    Depth,
    /// The double nearest to a number is infinite.
    NumberTooLarge,
    /// An object has the name of this form, and isn't of it.
    WrongForm(Form),
    OutOfMemory,
}

impl Cause {
    ghost use Rattle.bson_json_read.specs.Causes.{cause_number};

    /// Returns the number of the cause.
    pub fn number(self) -> u8
        ensures { result ≡ cause_number self }
    {
        match self {
            Cause::NotJson => 1,
            Cause::NotAnObject => 2,
            Cause::RepeatedName => 3,
            Cause::ZeroInName => 4,
            Cause::Depth => 5,
            Cause::NumberTooLarge => 6,
            Cause::WrongForm(_) => 7,
            Cause::OutOfMemory => 8,
        }
    }
}

impl Cause {
    ghost use Rattle.bson_json_read.specs.Causes.{cause_words};

    /// Returns what the cause displays as, without the name of a form.
    fn words(self) -> &'static str
        ensures { result.now ≡ cause_words self }
    {
        match self {
            Cause::NotJson => "the text is no JSON",
            Cause::NotAnObject => "the text is no object",
            Cause::RepeatedName => "a name is repeated",
            Cause::ZeroInName => "a name has a 00 in it",
            Cause::Depth => "a document or an array is too deep",
            Cause::NumberTooLarge => "a number is too large",
            Cause::WrongForm(_) => "an object is not of the form ",
            Cause::OutOfMemory => "out of memory",
        }
    }
}

impl fmt::Display for Cause {
    ghost use Rattle.bson_json_read.specs.Causes.{shown_cause};

    ghost output = { shown_cause };

    #[tactic(auto, using(crate::proofs::CauseTexts::plain_text))]
    fn fmt<W: fmt::Write>(&self, f: &mut fmt::Formatter<W>) -> fmt::Result {
        f.write_str(self.words())?;
        match *self {
            Cause::WrongForm(form) => f.write_str(form.name()),
            _ => Ok(()),
        }
    }
}

impl fmt::Debug for Cause {
    fn fmt<W: fmt::Write>(&self, f: &mut fmt::Formatter<W>) -> fmt::Result {
        fmt::Display::fmt(self, f)
    }
}

impl std::error::Error for Cause {}

/// Why a text isn't read, and at which of its values.
#[derive(Drop)]
pub struct JsonFault {
    pub cause: Cause,
    /// The indexes of the value at fault and of those that hold it, each in the object or the
    /// array that holds it, the innermost first.
    pub path: Vec<usize>,
}

impl fmt::Debug for JsonFault {
    fn fmt<W: fmt::Write>(&self, f: &mut fmt::Formatter<W>) -> fmt::Result {
        fmt::Display::fmt(&self.cause, f)
    }
}

impl JsonFault {
    /// Returns the fault of the value that is read.
    pub(crate) fn here(alloc: Global, cause: Cause) -> JsonFault
        ensures cause { result.cause ≡ cause }
        ensures path { result.path.items ≡ [] }
    {
        JsonFault {
            cause,
            path: Vec::new(alloc),
        }
    }

    /// Returns the fault, as one of what holds the value at this index.
    pub(crate) fn within(self, index: usize) -> JsonFault
        ensures { (result.cause ≡ Cause.OutOfMemory) ⊎ ((result.cause ≡ self.cause)
            × (result.path.items ≡ self.path.items ++ index ∷ [])) }
    {
        let JsonFault { cause, mut path } = self;
        match path.push(index) {
            Ok(()) => JsonFault { cause, path },
            Err(_) => JsonFault {
                cause: Cause::OutOfMemory,
                path,
            },
        }
    }
}
