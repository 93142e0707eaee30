//! The laws of ids and of logs. The contract of each function is the law.

ghost use Rattle.std.specs.Prelude.{◌≡◌, ◌≢◌, ◌++◌, ◌∷◌, [], ℕ, ℤ, Err, List, Result};
ghost use Rattle.wire_peer.specs.declared.log.AskRefusal.{AskRefusal};
ghost use Rattle.wire_peer.specs.FreeIds.{IsFirstFree};
ghost use Rattle.wire_peer.specs.Logs.{AskStep, LogEntry, RunOf};
ghost use Rattle.wire_peer.specs.Requests.{Asked};

use crate::handlers::Handler;

/// Proves that there is one first free id.
pub fn one_first_free_id()
    ensures { (next a b : ℤ) (used : List ℤ)
        → IsFirstFree next used a → IsFirstFree next used b → a ≡ b }
{}

/// Proves that where the entries of a log are a run of its handler, they are one after it was asked
/// once more, too.
pub fn a_run_goes_on<H: Handler>()
    ensures { (from mid to : H) (requests : List Asked) (log next : List LogEntry) (connection : ℕ)
        (a : Asked) (result : Result (Unit {0}) AskRefusal)
        → RunOf H.does H.stops from requests log mid
        → AskStep H.does H.stops connection a result mid log to next
        → result ≢ Err AskRefusal.NotAsked
        → RunOf H.does H.stops from (requests ++ a ∷ []) next to }
{}
