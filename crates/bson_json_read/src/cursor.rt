//! A JSON text that is read token by token, from its front on, where each name and each text stands
//! in it as it is, without an escape.

ghost use Rattle.std.specs.Prelude.{◌≡◌, ◌∷◌, ◌≤◌, [], IfSome, IsTrue, MatchOption, drop, false};
ghost use Rattle.std.specs.Prelude.{get_or, length};
ghost use Rattle.std.specs.Bool.{MatchBool};
ghost use Rattle.std.specs.Str.{IsUtf8};
ghost use Rattle.json.specs.Lex.{begins_colon, between, lex, may_begin, may_close, tokens};
ghost use Rattle.json.specs.Lex as lexeme;
ghost use Rattle.json.specs.Reads.{token_of};
ghost use Rattle.json.specs.Token as token;
ghost use Rattle.bson_json_read.specs.Brackets.{token_of as bracket_token};
ghost use Rattle.bson_json_read.specs.Cursor.{IsWord, IsWordAt, behind, may_stand, place_of};

use crate::bracket::Bracket;
use crate::run::{byte_at, past_spaces, plain_end, word_end};
use json::{Token, is_number};
use std::marker::Model;

/// What the next token stands behind.
#[derive(Clone, Copy, Drop)]
pub(crate) enum Behind {
    /// The beginning of the text, an opening bracket or a colon.
    Opening,
    /// The last token of a value.
    Value,
    /// A comma.
    Comma,
}

impl Behind {
    /// Returns true if a closing bracket may stand here.
    #[inline(always)]
    fn may_close(self) -> bool
        ensures { result ≡ may_close (place_of self) }
    {
        match self {
            Behind::Opening | Behind::Value => true,
            Behind::Comma => false,
        }
    }

    /// Returns true if a value or a name may begin here.
    #[inline(always)]
    fn may_begin(self) -> bool
        ensures { result ≡ may_begin (place_of self) }
    {
        match self {
            Behind::Opening | Behind::Comma => true,
            Behind::Value => false,
        }
    }

    /// Returns true if this bracket may stand here.
    #[inline(always)]
    fn may_stand(self, bracket: Bracket) -> bool
        ensures { result ≡ may_stand (place_of self) bracket }
    {
        match bracket {
            Bracket::BeginObject | Bracket::BeginArray => self.may_begin(),
            Bracket::EndObject | Bracket::EndArray => self.may_close(),
        }
    }

    /// Returns what stands behind this bracket.
    #[inline(always)]
    fn of(bracket: Bracket) -> Behind
        ensures { result ≡ behind bracket }
    {
        match bracket {
            Bracket::BeginObject | Bracket::BeginArray => Behind::Opening,
            Bracket::EndObject | Bracket::EndArray => Behind::Value,
        }
    }
}

/// A part of a text, and the offset behind it.
#[derive(Clone, Copy, Drop)]
struct Part<'a> {
    text: &'a str,
    end: usize,
}

/// Returns the string that begins at `start`, where a quote stands, if it has no escape.
#[tactic(auto, using(crate::proofs::Lexing::string_lexed))]
#[inline(always)]
fn string_at<'a>(text: &'a str, start: usize) -> Option<Part<'a>>
    requires { get_or text.now start 32 ≡ 34 }
    ensures within { IfSome result (λ part. part.end ≤ length text.now) }
    ensures utf8 { IfSome result (λ part. IsUtf8 part.text.now) }
    ensures lex { IfSome result (λ part. lex between (drop start text.now)
        ≡ lexeme.token (token.string part.text.now) ∷ lex between (drop part.end text.now)) }
{
    let bytes = text.as_bytes();
    let stop = plain_end(bytes, start + 1);
    if byte_at(bytes, stop) != b'"' {
        return None;
    }
    Some(Part {
        text: &text[start + 1..stop],
        end: stop + 1,
    })
}

/// Returns the offset of the comma or closing bracket that follows a value which ends at `end`.
#[tactic(auto, using(crate::proofs::Lexing::not_colon))]
#[inline(always)]
fn behind_value(text: &[u8], end: usize) -> Option<usize>
    requires { end ≤ length text.now }
    ensures within { IfSome result (λ at. at ≤ length text.now) }
    ensures lex { IfSome result (λ at.
        lex between (drop end text.now) ≡ lex between (drop at text.now)) }
    ensures no_colon { IfSome result (λ at. begins_colon (lex between (drop at text.now)) ≡ false) }
{
    let at = past_spaces(text, end);
    let b = byte_at(text, at);
    if (b == b',') | (b == b'}') | (b == b']') {
        Some(at)
    } else {
        None
    }
}

/// Returns the token of a word.
#[tactic(auto, using(crate::proofs::Lexing::true_word, crate::proofs::Lexing::false_word, crate::proofs::Lexing::null_word, crate::proofs::Lexing::number_word))]
fn word_token<'a>(word: &'a str) -> Option<Token<'a>>
    ensures { IfSome result (λ t. IsWord word.now (token_of t)) }
{
    match word {
        "true" => Some(Token::Bool(true)),
        "false" => Some(Token::Bool(false)),
        "null" => Some(Token::Null),
        _ => if is_number(word) {
            Some(Token::Number(word))
        } else {
            None
        },
    }
}

/// A word of a text, and the offset of what follows it.
#[derive(Clone, Copy, Drop)]
pub(crate) struct Word<'a> {
    token: Token<'a>,
    at: usize,
}

/// Reads the number, truth value or null that begins at offset `at`.
#[tactic(auto, using(crate::proofs::Lexing::word_step))]
#[inline(never)]
fn word_at<'a>(text: &'a str, at: usize) -> Option<Word<'a>>
    requires { at ≤ length text.now }
    ensures { IfSome result (IsWordAt text.now at) }
{
    let bytes = text.as_bytes();
    if byte_at(bytes, at) >= 128 {
        return None;
    }
    let end = word_end(bytes, at);
    Some(Word {
        token: word_token(&text[at..end])?,
        at: behind_value(bytes, end)?,
    })
}

/// A text that is read. It stands at a byte that is no white space. Contracts see the tokens that
/// are left.
#[derive(Drop)]
pub(crate) struct Cursor<'a> {
    text: &'a str,
    at: usize,
    behind: Behind,
}

impl<'a> Model for Cursor<'a> {
    ghost use Rattle.std.specs.Prelude.{◌≤◌, List, drop, length};
    ghost use Rattle.json.specs.Token.{Token, tokens_code};
    ghost use Rattle.bson_json_read.specs.Cursor.{tokens_left};

    ghost Value = { List Token };

    ghost coded = { tokens_code };

    ghost view = { λ c. tokens_left c.behind (drop c.at c.text.now) };

    ghost invariant = { λ c. c.at ≤ length c.text.now };
}

impl<'a> Cursor<'a> {
    /// Makes a reader of a text.
    pub(crate) fn new(text: &'a str) -> Cursor<'a>
        ensures { result ≡ tokens text.now }
    {
        Cursor {
            text,
            at: past_spaces(text.as_bytes(), 0),
            behind: Behind::Opening,
        }
    }

    /// Returns a number that isn't less than how many tokens there were.
    pub(crate) fn most(&self) -> usize {
        self.text.len()
    }

    /// Returns true if nothing but white space is left.
    #[tactic(auto, using(crate::proofs::Lexing::nothing_left))]
    pub(crate) fn is_at_end(&self) -> bool
        ensures { IsTrue result → self.now ≡ [] }
    {
        self.at >= self.text.len() && self.behind.may_close()
    }

    /// Takes this bracket, if it is next. Returns true if it did.
    #[tactic(auto, using(crate::proofs::Lexing::bracket_taken))]
    #[inline(always)]
    pub(crate) fn take(&mut self, bracket: Bracket) -> bool
        ensures { MatchBool result (self.old ≡ bracket_token bracket ∷ self.new)
            (self.new ≡ self.old) }
    {
        let bytes = self.text.as_bytes();
        if byte_at(bytes, self.at) != bracket.byte() || !self.behind.may_stand(bracket) {
            return false;
        }
        self.at = past_spaces(bytes, self.at + 1);
        self.behind = Behind::of(bracket);
        true
    }

    /// Passes over a comma behind a value.
    #[tactic(auto, using(crate::proofs::Lexing::behind_comma))]
    #[inline(always)]
    pub(crate) fn pass_comma(&mut self)
        ensures { self.new ≡ self.old }
    {
        let bytes = self.text.as_bytes();
        if byte_at(bytes, self.at) == b',' && !self.behind.may_begin() {
            self.at = past_spaces(bytes, self.at + 1);
            self.behind = Behind::Comma;
        }
    }

    /// Takes the name that is next, and its colon.
    #[tactic(auto, using(crate::proofs::Lexing::name_step))]
    #[inline(always)]
    pub(crate) fn name(&mut self) -> Option<&'a str>
        ensures token { IfSome result (λ s. self.old ≡ token.key s.now ∷ self.new) }
        ensures utf8 { IfSome result (λ s. IsUtf8 s.now) }
    {
        let bytes = self.text.as_bytes();
        if byte_at(bytes, self.at) != b'"' || !self.behind.may_begin() {
            return None;
        }
        let Some(part) = string_at(self.text, self.at) else {
            return None;
        };
        let colon = past_spaces(bytes, part.end);
        if byte_at(bytes, colon) != b':' {
            return None;
        }
        self.at = past_spaces(bytes, colon + 1);
        self.behind = Behind::Opening;
        Some(part.text)
    }

    /// Takes the text that is next, which is a value.
    #[tactic(auto, using(crate::proofs::Lexing::text_step))]
    #[inline(always)]
    pub(crate) fn text(&mut self) -> Option<&'a str>
        ensures { MatchOption result (self.new ≡ self.old)
            (λ s. self.old ≡ token.string s.now ∷ self.new) }
    {
        let bytes = self.text.as_bytes();
        if byte_at(bytes, self.at) != b'"' || !self.behind.may_begin() {
            return None;
        }
        let Some(part) = string_at(self.text, self.at) else {
            return None;
        };
        let Some(at) = behind_value(bytes, part.end) else {
            return None;
        };
        self.at = at;
        self.behind = Behind::Value;
        Some(part.text)
    }

    /// Takes the number, truth value or null that is next.
    #[inline(always)]
    pub(crate) fn word(&mut self) -> Option<Token<'a>>
        ensures { IfSome result (λ t. self.old ≡ token_of t ∷ self.new) }
    {
        if !self.behind.may_begin() {
            return None;
        }
        let Some(word) = word_at(self.text, self.at) else {
            return None;
        };
        self.at = word.at;
        self.behind = Behind::Value;
        Some(word.token)
    }

    /// Returns true if it stands at the beginning of an object.
    #[inline(always)]
    pub(crate) fn is_at_object(&self) -> bool {
        byte_at(self.text.as_bytes(), self.at) == b'{'
    }
}
