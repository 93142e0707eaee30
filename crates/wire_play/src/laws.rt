//! Proves the laws of lines and of scripts. The contract of each function is the law.

ghost use Rattle.std.specs.Prelude.{◌≡◌, ◌≢◌, ◌∷◌, ◌++◌, [], All, ℕ, List, Option, Result};
ghost use Rattle.std.specs.List.{join_with_byte};
ghost use Rattle.wire_model.specs.{Happens, World};
ghost use Rattle.wire_model.specs.declared.events.Event.{Event as Happening};
ghost use Rattle.wire_model.specs.declared.limits.WorldLimits.{WorldLimits as Limits};
ghost use Rattle.wire_model.specs.declared.refusals.WorldRefusal.{WorldRefusal as Refusal};
ghost use Rattle.wire_model.specs.declared.reports.Report.{Report as Done};
ghost use Rattle.wire_play.specs.Closing.{closing_text};
ghost use Rattle.wire_play.specs.Naming.{Named, Names, event};
ghost use Rattle.wire_play.specs.Same.{IsSame};
ghost use Rattle.wire_play.specs.Scripts.{Plays, TextUpTo, world_text};
ghost use Rattle.wire_play.specs.Words.{words_of};

use wire_peer::Handler;

/// Proves that a space ends a word, and that a line is its words with one space between them.
pub fn a_space_ends_a_word()
    ensures ended { (word rest : List ℕ) → All (λ b. b ≢ 32) word
        → words_of (word ++ 32 ∷ rest) ≡ word ∷ words_of rest }
    ensures last { (word : List ℕ) → All (λ b. b ≢ 32) word → words_of word ≡ word ∷ [] }
    ensures joined { (line : List ℕ) → join_with_byte 32 (words_of line) ≡ line }
{}

/// Proves that a line names at most one thing.
pub fn one_reading()
    ensures { (line : List ℕ) (m n : Named) → Names line m → Names line n → IsSame m n }
{}

/// Proves that all events that a line can be read as do the same in a world.
pub fn readings_do_the_same<H: Handler>()
    ensures { (l : Limits) (old new : World H) (line : List ℕ) (e f : Happening)
        (r : Result Done Refusal) → Names line (event e) → Names line (event f)
        → Happens H.does H.stops l old e r new → Happens H.does H.stops l old f r new }
{}

/// Proves that the script alone decides which line is at fault, if one is, whatever happens in its
/// world.
pub fn one_fault()
    ensures { (script text text' : List ℕ) (fault fault' : Option ℕ)
        → TextUpTo script text fault → TextUpTo script text' fault' → fault ≡ fault' }
{}

/// Proves that lines have one text, given the results of their events, and the calls and the log
/// of the last world.
pub fn one_text<H: Handler>()
    ensures { (l : Limits) (old new new' : World H) (lines : List (ℕ × List ℕ))
        (results : List (Result Done Refusal)) (fault fault' : Option ℕ)
        → Plays H.does H.stops l old lines results new fault
        → Plays H.does H.stops l old lines results new' fault'
        → closing_text new ≡ closing_text new'
        → world_text results new fault ≡ world_text results new' fault' }
{}
