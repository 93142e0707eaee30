//! The tokens of a JSON text, which are taken from its front on: of a text whose strings have no
//! escape, or of the kit's tape.

ghost use Rattle.std.specs.Prelude.{◌≡◌, ◌∷◌, [], IfSome, IsTrue, MatchOption};
ghost use Rattle.std.specs.Bool.{MatchBool};
ghost use Rattle.std.specs.Str.{IsUtf8};
ghost use Rattle.json.specs.Reads.{token_of};
ghost use Rattle.json.specs.Token as token;
ghost use Rattle.bson_json_read.specs.Brackets.{token_of as bracket_token};
ghost use Rattle.bson_json_read.specs.Sources.{left_of};

use crate::bracket::Bracket;
use crate::cursor::Cursor;
use crate::nodes::Nodes;
use json::Token;

/// The tokens that are left of a text. A method takes some, if they are next.
#[derive(Drop)]
pub(crate) enum Source<'t, 'a> {
    /// Those of a text that is read where it stands.
    Text(Cursor<'a>),
    /// Those of a tape.
    Tape(Nodes<'t, 'a>),
}

impl<'t, 'a> Source<'t, 'a> {
    /// Returns a number that isn't less than how many tokens there were.
    #[inline(always)]
    pub(crate) fn most(&self) -> usize {
        match self {
            Source::Text(text) => text.most(),
            Source::Tape(tape) => tape.most(),
        }
    }

    /// Returns true if nothing is left.
    #[inline(always)]
    pub(crate) fn is_at_end(&self) -> bool
        ensures { IsTrue result → left_of self.now ≡ [] }
    {
        match self {
            Source::Text(text) => text.is_at_end(),
            Source::Tape(tape) => tape.is_at_end(),
        }
    }

    /// Takes this bracket, if it is next. Returns true if it did.
    #[inline(always)]
    pub(crate) fn take(&mut self, bracket: Bracket) -> bool
        ensures { MatchBool result (left_of self.old ≡ bracket_token bracket ∷ left_of self.new)
            (left_of self.new ≡ left_of self.old) }
    {
        match self {
            Source::Text(text) => text.take(bracket),
            Source::Tape(tape) => tape.take(bracket),
        }
    }

    /// Passes over a comma behind a value, which is no token.
    #[inline(always)]
    pub(crate) fn pass_comma(&mut self)
        ensures { left_of self.new ≡ left_of self.old }
    {
        match self {
            Source::Text(text) => text.pass_comma(),
            Source::Tape(tape) => tape.pass_comma(),
        }
    }

    /// Takes a name.
    #[inline(always)]
    pub(crate) fn name(&mut self) -> Option<&'a str>
        ensures token { IfSome result (λ s. left_of self.old ≡ token.key s.now ∷ left_of self.new) }
        ensures utf8 { IfSome result (λ s. IsUtf8 s.now) }
    {
        match self {
            Source::Text(text) => text.name(),
            Source::Tape(tape) => tape.name(),
        }
    }

    /// Takes a text that is a value, if it is next.
    #[inline(always)]
    pub(crate) fn text(&mut self) -> Option<&'a str>
        ensures { MatchOption result (left_of self.new ≡ left_of self.old)
            (λ s. left_of self.old ≡ token.string s.now ∷ left_of self.new) }
    {
        match self {
            Source::Text(text) => text.text(),
            Source::Tape(tape) => tape.text(),
        }
    }

    /// Takes a number, a truth value or null.
    #[inline(always)]
    pub(crate) fn word(&mut self) -> Option<Token<'a>>
        ensures { IfSome result (λ t. left_of self.old ≡ token_of t ∷ left_of self.new) }
    {
        match self {
            Source::Text(text) => text.word(),
            Source::Tape(tape) => tape.word(),
        }
    }

    /// Returns true if an object may be next.
    #[inline(always)]
    pub(crate) fn is_at_object(&self) -> bool {
        match self {
            Source::Text(text) => text.is_at_object(),
            Source::Tape(tape) => tape.is_at_object(),
        }
    }
}
