//! Cuts a script into its lines, one at a time.

ghost use Rattle.std.specs.Prelude.{◌≡◌, ◌≢◌, ◌+◌, ◌<◌, ◌^◌, ◌∷◌, length};
ghost use Rattle.std.specs.Iterator.{at_most};
ghost use Rattle.script_lines.specs.Lines.{is_passed_over, lines_of, script_lines, without_cr};

use memchr::memchr;

/// A line of a script, without its end.
#[derive(Clone, Copy, Debug, PartialEq, Eq)]
pub struct NumberedLine<'a> {
    /// Its number among all lines of the script, counted from 1.
    pub number: usize,
    /// Its bytes.
    pub text: &'a [u8],
}

/// Returns the line without the CR at its end, if there is one.
fn without_cr(line: &[u8]) -> &[u8]
    ensures { result.now ≡ without_cr line.now }
{
    match line.last() {
        Some(b'\r') => &line[..line.len() - 1],
        _ => line,
    }
}

/// Cuts off the first line. Returns it without its end, and what follows its end.
fn cut_line(text: &[u8]) -> (&[u8], &[u8])
    requires { 0 < length text.now }
    ensures lines { lines_of text.now ≡ result.0.now ∷ lines_of result.1.now }
    ensures shorter { length result.1.now < length text.now }
{
    match memchr(b'\n', text) {
        Some(at) => (without_cr(&text[..at]), &text[at + 1..]),
        None => (text, &text[text.len()..]),
    }
}

/// Returns true if the line is empty or begins with `#`.
fn is_passed_over(line: &[u8]) -> bool
    ensures { result ≡ is_passed_over line.now }
{
    match line.first() {
        Some(first) => *first == b'#',
        None => true,
    }
}

/// Iterates over the lines of a script. Skips empty lines and those that begin with `#`. After the
/// last line it returns `None` for ever.
#[derive(Debug, Drop)]
pub struct Lines<'a> {
    /// The number of the last line that was cut off, or 0.
    last: usize,
    rest: &'a [u8],
    pub ghost fits: { last + length rest.now < 2 ^ 64 },
}

impl<'a> Lines<'a> {
    ghost use Rattle.script_lines.specs.Left.{lines_left};

    /// Returns an iterator over the lines of `script`.
    pub fn new(script: &'a [u8]) -> Lines<'a>
        ensures { lines_left result ≡ script_lines script.now }
    {
        Lines {
            last: 0,
            rest: script,
        }
    }
}

impl<'a> Iterator for Lines<'a> {
    ghost use Rattle.script_lines.specs.Left.{GivesLine, lines_bound};

    type Item = NumberedLine<'a>;

    ghost remaining = { λ s. at_most (lines_bound s) };

    ghost next_gives = { GivesLine };

    fn next(&mut self) -> Option<NumberedLine<'a>> {
        while !self.rest.is_empty() {
            let (text, rest) = cut_line(self.rest);
            self.rest = rest;
            self.last += 1;
            if !is_passed_over(text) {
                let number = self.last;
                return Some(NumberedLine { number, text });
            }
        }
        None
    }
}
