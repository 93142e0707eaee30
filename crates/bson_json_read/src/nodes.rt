//! Nodes of a JSON text, one after another.

ghost use Rattle.std.specs.Prelude.{◌≡◌, ◌∷◌, [], IfSome, IsTrue, MatchOption, map};
ghost use Rattle.std.specs.Str.{IsUtf8};
ghost use Rattle.json.specs.Reads.{token_of};
ghost use Rattle.std.specs.Bool.{MatchBool};
ghost use Rattle.json.specs.Tape.{node_token};
ghost use Rattle.json.specs.Token as token;
ghost use Rattle.bson_json_read.specs.Brackets.{token_of as bracket_token};

use crate::bracket::Bracket;
use json::{Node, Token};
use std::marker::Model;

/// The nodes that are next. Contracts see their tokens.
#[derive(Drop)]
pub(crate) struct Nodes<'t, 'a> {
    rest: &'t [Node<'a>],
}

impl<'t, 'a> Model for Nodes<'t, 'a> {
    ghost use Rattle.std.specs.Prelude.{List, map};
    ghost use Rattle.json.specs.Tape.{node_token};
    ghost use Rattle.json.specs.Token.{Token, tokens_code};

    ghost Value = { List Token };

    ghost coded = { tokens_code };

    ghost view = { λ n. map node_token n.rest.now };
}

/// Returns true if a node is this bracket.
#[inline(always)]
fn is_bracket(node: Node<'_>, bracket: Bracket) -> bool
    ensures { IsTrue result → node_token node.entry ≡ bracket_token bracket }
{
    match bracket {
        Bracket::BeginObject => matches!(node, Node::Object(_)),
        Bracket::EndObject => matches!(node, Node::EndObject),
        Bracket::BeginArray => matches!(node, Node::Array(_)),
        Bracket::EndArray => matches!(node, Node::EndArray),
    }
}

impl<'t, 'a> Nodes<'t, 'a> {
    /// Makes a reader of these nodes.
    pub(crate) fn new(nodes: &'t [Node<'a>]) -> Nodes<'t, 'a>
        ensures { result ≡ map node_token nodes.now }
    {
        Nodes { rest: nodes }
    }

    /// Returns a number that isn't less than how many tokens there are.
    pub(crate) fn most(&self) -> usize {
        self.rest.len()
    }

    /// Returns true if nothing is left.
    pub(crate) fn is_at_end(&self) -> bool
        ensures { IsTrue result → self.now ≡ [] }
    {
        self.rest.is_empty()
    }

    /// Takes this bracket, if it is next. Returns true if it did.
    #[inline(always)]
    pub(crate) fn take(&mut self, bracket: Bracket) -> bool
        ensures { MatchBool result (self.old ≡ bracket_token bracket ∷ self.new)
            (self.new ≡ self.old) }
    {
        match self.rest {
            [node, rest @ ..] if is_bracket(*node, bracket) => {
                self.rest = rest;
                true
            }
            _ => false,
        }
    }

    /// Passes over a comma behind a value, which is no token.
    #[inline(always)]
    pub(crate) fn pass_comma(&mut self)
        ensures { self.new ≡ self.old }
    {}

    /// Takes a name.
    #[inline(always)]
    pub(crate) fn name(&mut self) -> Option<&'a str>
        ensures token { IfSome result (λ s. self.old ≡ token.key s.now ∷ self.new) }
        ensures utf8 { IfSome result (λ s. IsUtf8 s.now) }
    {
        match self.rest {
            [Node::Key(name), rest @ ..] => {
                self.rest = rest;
                Some(*name)
            }
            _ => None,
        }
    }

    /// Takes a text that is a value, if it is next.
    #[inline(always)]
    pub(crate) fn text(&mut self) -> Option<&'a str>
        ensures { MatchOption result (self.new ≡ self.old)
            (λ s. self.old ≡ token.string s.now ∷ self.new) }
    {
        match self.rest {
            [Node::String(text), rest @ ..] => {
                self.rest = rest;
                Some(*text)
            }
            _ => None,
        }
    }

    /// Takes a number, a truth value or null.
    #[inline(always)]
    pub(crate) fn word(&mut self) -> Option<Token<'a>>
        ensures { IfSome result (λ t. self.old ≡ token_of t ∷ self.new) }
    {
        match self.rest {
            [Node::Number(text), rest @ ..] => {
                self.rest = rest;
                Some(Token::Number(*text))
            }
            [Node::Bool(truth), rest @ ..] => {
                self.rest = rest;
                Some(Token::Bool(*truth))
            }
            [Node::Null, rest @ ..] => {
                self.rest = rest;
                Some(Token::Null)
            }
            _ => None,
        }
    }

    /// Returns true if an object may be next.
    #[inline(always)]
    pub(crate) fn is_at_object(&self) -> bool {
        matches!(self.rest, [Node::Object(_), ..])
    }
}
