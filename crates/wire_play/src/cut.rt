//! Cuts a line into its words, one at a time.

ghost use Rattle.std.specs.Prelude.{◌≡◌, ◌∷◌, [], MatchOption};
ghost use Rattle.wire_play.specs.Reading.{words_behind};
ghost use Rattle.wire_play.specs.Words.{words_of};

use memchr::memchr;

/// Cuts off the first word. Returns it, and what follows the space after it, if there is one.
pub(crate) fn cut_word(line: &[u8]) -> (&[u8], Option<&[u8]>)
    ensures { words_of line.now ≡ result.0.now ∷ words_behind result.1 }
{
    match memchr(b' ', line) {
        Some(at) => (&line[..at], Some(&line[at + 1..])),
        None => (line, None),
    }
}

/// Cuts off the next word, if there is one.
pub(crate) fn next_word(rest: Option<&[u8]>) -> Option<(&[u8], Option<&[u8]>)>
    ensures { MatchOption result (words_behind rest.entry ≡ [])
        (λ x. words_behind rest.entry ≡ x.0.now ∷ words_behind x.1) }
{
    match rest {
        Some(line) => Some(cut_word(line)),
        None => None,
    }
}
