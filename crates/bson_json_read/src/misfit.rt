//! Finds where a text stops being JSON.
//!
//! The kit's reader checks each token, and the commas before tokens. What it doesn't check as it hands
//! out tokens is checked here: that they nest, and stand where a value or a name may.

ghost use Rattle.std.specs.Prelude.{◌≤◌, IfOk, length};

use crate::text::JSON_DEPTH;
use json::{Reader, Token};
use std::alloc::{AllocError, Global};

/// What holds values.
#[derive(Clone, Copy)]
enum Holder {
    Array,
    Object,
}

/// What may be next.
#[derive(Clone, Copy)]
enum Wanted {
    /// A value.
    Value,
    /// An item of an array, or its end.
    Item,
    /// A name in an object, or its end.
    Name,
}

/// Whether a token fits, and if it doesn't, where the fault is.
#[derive(Clone, Copy)]
enum Fit {
    /// It fits.
    Fits,
    /// The fault is at the token.
    FaultAtIt,
    /// The fault is at what follows it.
    FaultBehindIt,
    OutOfMemory,
}

/// The arrays and objects that are open in a text, the innermost last, and what may be next.
#[derive(Drop)]
struct Nesting {
    open: Vec<Holder>,
    wanted: Wanted,
}

impl Nesting {
    /// Begins an array or an object, which nests no deeper than any document does.
    fn begin(&mut self, holder: Holder) -> Fit {
        if self.open.len() >= JSON_DEPTH {
            return Fit::FaultAtIt;
        }
        if self.open.push(holder).is_err() {
            return Fit::OutOfMemory;
        }
        self.want_in(holder)
    }

    /// Stands behind a value in what holds it.
    fn want_in(&mut self, holder: Holder) -> Fit {
        self.wanted = match holder {
            Holder::Array => Wanted::Item,
            Holder::Object => Wanted::Name,
        };
        Fit::Fits
    }

    /// Ends a value. Behind the outermost one is the fault, since nothing may follow it.
    fn end_value(&mut self) -> Fit {
        let holder = match self.open.last() {
            Some(holder) => *holder,
            None => return Fit::FaultBehindIt,
        };
        self.want_in(holder)
    }

    /// Ends the innermost array or object.
    fn end_holder(&mut self) -> Fit {
        let _ended = self.open.pop();
        self.end_value()
    }

    /// Passes over a token where a value may stand.
    fn pass_value(&mut self, token: Token<'_>) -> Fit {
        match token {
            Token::BeginObject => self.begin(Holder::Object),
            Token::BeginArray => self.begin(Holder::Array),
            Token::String(_) | Token::Number(_) | Token::Bool(_) | Token::Null => self.end_value(),
            // The string is a value, and behind that a colon may not stand.
            Token::Key(_) => Fit::FaultBehindIt,
            Token::EndObject | Token::EndArray | Token::Bad => Fit::FaultAtIt,
        }
    }

    /// Passes over a token where a name may stand, or the end of an object.
    fn pass_name(&mut self, token: Token<'_>) -> Fit {
        match token {
            Token::Key(_) => {
                self.wanted = Wanted::Value;
                Fit::Fits
            }
            Token::EndObject => self.end_holder(),
            // The string is a name, and behind that there is no colon.
            Token::String(_) => Fit::FaultBehindIt,
            _ => Fit::FaultAtIt,
        }
    }

    /// Passes over a token.
    fn pass(&mut self, token: Token<'_>) -> Fit {
        match (self.wanted, token) {
            (Wanted::Name, _) => self.pass_name(token),
            (Wanted::Item, Token::EndArray) => self.end_holder(),
            _ => self.pass_value(token),
        }
    }

    /// Returns the offset of the fault, like `misfit`.
    fn misfit(&mut self, text: &[u8], reader: &mut Reader<'_>) -> Result<usize, AllocError>
        ensures { IfOk result (λ n. n ≤ length text.now) }
    {
        let mut start = reader.offset().min(text.len());
        while let Some(token) = reader.next() {
            let end = reader.offset().min(text.len());
            match self.pass(token) {
                Fit::Fits => start = end,
                Fit::FaultAtIt => return Ok(start),
                Fit::FaultBehindIt => return Ok(mark_before(text, end)),
                Fit::OutOfMemory => return Err(AllocError),
            }
        }
        Ok(start)
    }
}

/// Returns the offset of the comma or the colon that stands last before `end`, if only white space is
/// between, and else `end`.
fn mark_before(text: &[u8], end: usize) -> usize
    requires { end ≤ length text.now }
    ensures { result ≤ length text.now }
{
    let mut at = end;
    while at > 0 {
        at -= 1;
        match text[at] {
            b',' | b':' => return at,
            b' ' | b'\t' | b'\n' | b'\r' => {}
            _ => return end,
        }
    }
    end
}

/// Returns the offset of the first token of a text that doesn't fit, or of the first byte that begins
/// none. That is the text's length where the text ends too early.
pub(crate) fn misfit(
    alloc: Global,
    text: &[u8],
    reader: &mut Reader<'_>,
) -> Result<usize, AllocError>
    ensures { IfOk result (λ n. n ≤ length text.now) }
{
    let mut nesting = Nesting {
        open: Vec::new(alloc),
        wanted: Wanted::Value,
    };
    nesting.misfit(text, reader)
}
