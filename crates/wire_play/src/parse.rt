//! Parses a line of a script.

ghost use Rattle.std.specs.Prelude.{◌≡◌, Err, IfOk, IfSome, List, ℕ};
ghost use Rattle.wire_model.specs.declared.events.Event.{Event as Happening};
ghost use Rattle.wire_play.specs.Lent.{IsLine, Lends};
ghost use Rattle.wire_play.specs.Naming.{AreEventOperands, HasHex, IsBytesKeyword, Named, Names};
ghost use Rattle.wire_play.specs.Naming.{NamesBytes, event_kind, keyword_text};
ghost use Rattle.wire_play.specs.Reading.{IsBare, words_behind};

use crate::cut::cut_word;
use crate::keyword::{Keyword, read_keyword};
use crate::named::{Line, ScriptEvent};
use crate::operands::{call, has_no_words, one_number, raw, setup, two_numbers};
use script_lines::LineError;
use std::alloc::Global;
use wire_model::Event;

/// Parses an event without bytes, by its keyword and its operands.
fn bare_event(keyword: Keyword, rest: Option<&[u8]>) -> Option<Event<'static>>
    ensures found { IfSome result
        (λ e. (event_kind e ≡ keyword) × AreEventOperands (words_behind rest.entry) e) }
    ensures nothing { result ≡ None → (e : Happening) → event_kind e ≡ keyword → IsBare e
        → AreEventOperands (words_behind rest.entry) e → ⊥ }
{
    match keyword {
        Keyword::Open if has_no_words(rest) => Some(Event::Open),
        Keyword::Clear if has_no_words(rest) => Some(Event::Clear),
        Keyword::Restart if has_no_words(rest) => Some(Event::Restart),
        Keyword::RawOpen if has_no_words(rest) => Some(Event::RawOpen),
        Keyword::Return => Some(Event::Return(one_number(rest)?)),
        Keyword::CutUp => Some(Event::CutUp(one_number(rest)?)),
        Keyword::CutDown => Some(Event::CutDown(one_number(rest)?)),
        Keyword::Up => {
            let (connection, count) = two_numbers(rest)?;
            Some(Event::Up(connection, count))
        }
        Keyword::Down => {
            let (connection, count) = two_numbers(rest)?;
            Some(Event::Down(connection, count))
        }
        Keyword::Answer => {
            let (connection, index) = two_numbers(rest)?;
            Some(Event::Answer(connection, index))
        }
        Keyword::RawTake => {
            let (connection, count) = two_numbers(rest)?;
            Some(Event::RawTake(connection, count))
        }
        _ => None,
    }
}

/// Parses an event, by its keyword and its operands.
fn script_event(
    alloc: Global,
    keyword: Keyword,
    rest: Option<&[u8]>,
) -> Result<ScriptEvent, LineError>
    ensures found { IfOk result (λ owned. (e : Happening) → Lends owned e → (event_kind e ≡ keyword)
        × AreEventOperands (words_behind rest.entry) e) }
    ensures nothing { result ≡ Err LineError.Malformed → (e : Happening) → event_kind e ≡ keyword
        → AreEventOperands (words_behind rest.entry) e → ⊥ }
    ensures memory { result ≡ Err LineError.OutOfMemory → IsBytesKeyword (keyword_text keyword)
        × ((c : ℕ) × (hex : List ℕ) × HasHex (words_behind rest.entry) c hex) }
{
    match keyword {
        Keyword::Call(kind) => {
            let (connection, payload) = call(alloc, rest)?;
            Ok(ScriptEvent::Call(connection, kind, payload))
        }
        Keyword::Raw => {
            let (connection, bytes) = raw(alloc, rest)?;
            Ok(ScriptEvent::Raw(connection, bytes))
        }
        _ => match bare_event(keyword, rest) {
            Some(event) => Ok(ScriptEvent::Bare(event)),
            None => Err(LineError::Malformed),
        },
    }
}

/// Parses a line of a script, without its end.
///
/// # Errors
///
/// Returns `Malformed` if the line names nothing, and `OutOfMemory` if memory runs out. Only a line
/// that has the keyword of a call or of raw bytes, a number and one more word takes memory; if there
/// is none for it, the line may still be one that names nothing.
pub fn parse_line(alloc: Global, line: &[u8]) -> Result<Line, LineError>
    ensures named { IfOk result (λ read. IsLine line.now read) }
    ensures nothing { result ≡ Err LineError.Malformed → (named : Named) → Names line.now named
        → ⊥ }
    ensures memory { result ≡ Err LineError.OutOfMemory → NamesBytes line.now }
{
    let (word, rest) = cut_word(line);
    let Some(keyword) = read_keyword(word) else {
        return Err(LineError::Malformed);
    };
    if keyword == Keyword::World {
        return match setup(rest) {
            Some(setup) => Ok(Line::World(setup)),
            None => Err(LineError::Malformed),
        };
    }
    let event = script_event(alloc, keyword, rest)?;
    Ok(Line::Event(event))
}
