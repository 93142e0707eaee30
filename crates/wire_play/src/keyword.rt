//! Reads the first word of a line.

ghost use Rattle.std.specs.Prelude.{◌≡◌, IfSome, Some};
ghost use Rattle.wire_play.specs.Naming.{keyword_text};

use wire_peer::CallKind;

/// What a line names, without its operands.
#[derive(Clone, Copy, Debug, PartialEq, Eq)]
pub(crate) enum Keyword {
    World,
    Open,
    Return,
    Call(CallKind),
    Up,
    Down,
    Answer,
    CutUp,
    CutDown,
    Clear,
    Restart,
    RawOpen,
    Raw,
    RawTake,
}

/// Returns the keyword that the word spells, if it spells one.
pub(crate) fn read_keyword(word: &[u8]) -> Option<Keyword>
    ensures known { IfSome result (λ k. word.now ≡ keyword_text k) }
    ensures only { (k : Keyword) → word.now ≡ keyword_text k → result ≡ Some k }
{
    match word {
        b"world" => Some(Keyword::World),
        b"open" => Some(Keyword::Open),
        b"return" => Some(Keyword::Return),
        b"call" => Some(Keyword::Call(CallKind::Plain)),
        b"exhaust" => Some(Keyword::Call(CallKind::Exhaust)),
        b"send" => Some(Keyword::Call(CallKind::Unacknowledged)),
        b"up" => Some(Keyword::Up),
        b"down" => Some(Keyword::Down),
        b"answer" => Some(Keyword::Answer),
        b"cutup" => Some(Keyword::CutUp),
        b"cutdown" => Some(Keyword::CutDown),
        b"clear" => Some(Keyword::Clear),
        b"restart" => Some(Keyword::Restart),
        b"rawopen" => Some(Keyword::RawOpen),
        b"raw" => Some(Keyword::Raw),
        b"rawtake" => Some(Keyword::RawTake),
        _ => None,
    }
}
