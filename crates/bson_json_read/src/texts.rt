//! What reading the next one of several texts comes to.

use crate::fault::Cause;
use crate::place::Place;
use bson_doc::DocRefusal;
use std::fmt;

/// Why an input of several texts isn't read on, and where.
#[derive(Clone, Copy, PartialEq, Eq)]
pub struct TextFault {
    pub cause: Cause,
    /// The place that `JsonFault::place` tells of a text. Of one that isn't UTF-8 it is the first byte
    /// from which on it isn't, and where memory was refused the beginning of the text.
    pub place: Place,
}

impl fmt::Display for TextFault {
    ghost use Rattle.bson_json_read.specs.Causes.{shown_text_fault};

    ghost output = { shown_text_fault };

    fn fmt<W: fmt::Write>(&self, f: &mut fmt::Formatter<W>) -> fmt::Result {
        let TextFault { cause, place } = *self;
        let number = cause.number();
        let Place { line, column } = place;
        write!(f, "fault {number} at line {line}, column {column}: {cause}")
    }
}

impl fmt::Debug for TextFault {
    fn fmt<W: fmt::Write>(&self, f: &mut fmt::Formatter<W>) -> fmt::Result {
        fmt::Display::fmt(self, f)
    }
}

impl std::error::Error for TextFault {}

/// What reading the next text comes to.
#[derive(Clone, Copy, Debug, PartialEq, Eq)]
pub enum NextBytes {
    /// The input ends.
    AtEnd,
    /// The bytes of the text's document are there.
    Document,
    /// The text's document has no bytes, for this reason, which isn't want of memory.
    Refused(DocRefusal),
}
