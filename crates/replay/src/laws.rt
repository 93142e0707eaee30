//! Proves the laws of a replay. The contract of each function is the law.

ghost use Rattle.std.specs.Prelude.{◌≡◌, ◌++◌, [], ℕ, List};
ghost use Rattle.replay.specs.Matchings.{nothing};
ghost use Rattle.replay.specs.MatchingRuns.{Act, IsOneSided, after_acts, bytes_to, found_by};
ghost use Rattle.replay.specs.MatchingRuns.{read_by, recorded_by};
ghost use Rattle.replay.specs.Takes.{Take, after_takes, given_to, requests_of};

/// Proves that whatever happens on a connection, no recorded answer to a request is awaited while an
/// answer of the server to that request is kept.
pub fn none_waits_for_what_came()
    ensures { (acts : List Act) → IsOneSided (after_acts nothing acts) }
{}

/// Proves that each recorded answer to a request is compared, or found missing, or still awaited,
/// once and in the order in which they were recorded.
pub fn each_is_told_once()
    ensures { (request : ℕ) (acts : List Act) →
        bytes_to request (recorded_by (found_by nothing acts))
        ++ bytes_to request (after_acts nothing acts).awaited
        ≡ bytes_to request (read_by acts) }
{}

/// Proves that whatever records are taken, the connection of a number is given the requests of the
/// recorded connection of that number, as they are sent, each once and in order, and no other ones.
pub fn each_is_sent_once()
    ensures { (number : ℕ) (takes : List Take) →
        given_to number (after_takes [] takes) ≡ requests_of number takes }
{}
