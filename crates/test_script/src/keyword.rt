//! The words with which actions begin.

ghost use Rattle.std.specs.Prelude.{◌≡◌, IfSome, Some};
ghost use Rattle.test_script.specs.Lines.{begins_rest, is_no_filter, keyword_text};

/// The word with which an action begins.
#[derive(Clone, Copy, Debug, PartialEq, Eq)]
pub(crate) enum Keyword {
    Reply,
    Error,
    Delay,
    HangUp,
    Cut,
    CutUp,
    NoReply,
    Pass,
}

/// Returns the keyword that the word is, if it is one.
pub(crate) fn read_keyword(word: &[u8]) -> Option<Keyword>
    ensures known { IfSome result (λ k. word.now ≡ keyword_text k) }
    ensures only { (k : Keyword) → word.now ≡ keyword_text k → result ≡ Some k }
{
    match word {
        b"reply" => Some(Keyword::Reply),
        b"error" => Some(Keyword::Error),
        b"delay" => Some(Keyword::Delay),
        b"hangup" => Some(Keyword::HangUp),
        b"cut" => Some(Keyword::Cut),
        b"cutup" => Some(Keyword::CutUp),
        b"drop" => Some(Keyword::NoReply),
        b"pass" => Some(Keyword::Pass),
        _ => None,
    }
}

/// Returns true if the word is `times` or that of an action.
fn begins_rest(word: &[u8]) -> bool
    ensures { result ≡ begins_rest word.now }
{
    word == b"times".as_slice()
        || word == b"reply".as_slice()
        || word == b"error".as_slice()
        || word == b"delay".as_slice()
        || word == b"hangup".as_slice()
        || word == b"cut".as_slice()
        || word == b"cutup".as_slice()
        || word == b"drop".as_slice()
        || word == b"pass".as_slice()
}

/// Returns true if the word begins what follows a filter, so that there is none.
pub(crate) fn is_no_filter(word: &[u8]) -> bool
    ensures { result ≡ is_no_filter word.now }
{
    word.is_empty() || begins_rest(word)
}
