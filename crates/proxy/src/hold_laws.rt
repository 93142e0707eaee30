//! The law of links that hold messages. The contract of the function is the law.

ghost use Rattle.std.specs.Prelude.{◌≡◌, ◌≤◌, ◌+◌, ◌++◌, ℕ, List, Option, length};
ghost use Rattle.std.specs.Io.KnownBytes.{Appends};
ghost use Rattle.proxy.specs.Holding.{HeldView, HoldAct, HoldRun, came, gave, new_view};
ghost use Rattle.proxy.specs.Holding.{passed, settled};

use wire_stream::Link;

/// Proves what a link that holds messages gives, whatever is done: a beginning of what was passed and
/// put, in that order; and what was passed is what came, in that order, without the messages that
/// were let go. It gives no more bytes than it may.
pub fn what_is_given<L: Link>()
    ensures given { (link : L) (left : ℕ) (acts : List HoldAct) (now : HeldView L)
        → HoldRun L.received (new_view link left) acts now
        → passed acts ≡ gave acts ++ now.owed }
    ensures came { (link : L) (left : ℕ) (acts : List HoldAct) (now : HeldView L)
        → HoldRun L.received (new_view link left) acts now
        → came acts ≡ settled acts ++ now.rest }
    ensures received { (link : L) (left : ℕ) (acts : List HoldAct) (now : HeldView L)
        → HoldRun L.received (new_view link left) acts now
        → Appends (L.received link) (L.received now.link) (came acts) }
    ensures few { (link : L) (left : ℕ) (acts : List HoldAct) (now : HeldView L)
        → HoldRun L.received (new_view link left) acts now
        → length (gave acts) + now.left ≤ left }
{}
