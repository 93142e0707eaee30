//! Proves the laws of worlds. The contract of each function is the law.

ghost use Rattle.std.specs.Prelude.{◌≡◌, ℕ, Bool, Err, List, Some};
ghost use Rattle.wire_model.specs.declared.events.Event.{Event as Happening};
ghost use Rattle.wire_model.specs.declared.events.Event.TheVariants.{Up};
ghost use Rattle.wire_model.specs.declared.refusals.WorldRefusal.TheVariants.{OutOfMemory};
ghost use Rattle.wire_model.specs.declared.limits.WorldLimits.{WorldLimits as Limits};
ghost use Rattle.wire_model.specs.Conns.{AreGood, Conn, World, conn_at, opening};
ghost use Rattle.wire_model.specs.Hostile.{RawAnswerOwn, RawGiveOwn};
ghost use Rattle.wire_model.specs.Lasting.{CallsAreKept, DoneIsEarlier, GoesOn, LogGrows};
ghost use Rattle.wire_model.specs.Machines.{Machine, Steps, empty};
ghost use Rattle.wire_model.specs.Rooms.{HasRoomFor};
ghost use Rattle.wire_model.specs.Shown.{Headline, IdsApart, shown_calls};
ghost use Rattle.wire_model.specs.Happening.{Happens, Run};

use wire_peer::Handler;

/// Proves that memory never runs out in `Up` if the server needs none for the bytes.
pub fn up_finds_room<H: Handler>()
    ensures { (l : Limits) (old new : World H) (c n : ℕ) (k : Conn)
        → conn_at old.conns c ≡ Some k → HasRoomFor k.server n
        → Happens H.does H.stops l old (Up c n) (Err OutOfMemory) new → ⊥ }
{}

/// Proves that after any events the world shows a state of the machine that steps reach, and that
/// all that `Headline` says holds there.
pub fn headline_holds<H: Handler>()
    ensures { (l : Limits) (first : H) (events : List Happening) (w : World H)
        → AreGood l → Run H.does H.stops l (opening l first) events w
        → Headline H.does H.stops first w }
{}

/// Proves that after any events each raw connection has answered only messages of its own, each at
/// most once. The strangers are those of the machine's state that the world shows.
pub fn raw_entries_are_own<H: Handler>()
    ensures { (l : Limits) (first : H) (events : List Happening) (w : World H)
        → AreGood l → (run : Run H.does H.stops l (opening l first) events w)
        → (shown : Headline H.does H.stops first w)
        × RawAnswerOwn H.does H.stops l first events w run shown.m }
{}

/// Proves that after any events all that the server of a raw connection gave is the replies of its
/// own entries.
pub fn raw_replies_are_own<H: Handler>()
    ensures { (l : Limits) (first : H) (events : List Happening) (w : World H)
        → AreGood l → (run : Run H.does H.stops l (opening l first) events w)
        → (shown : Headline H.does H.stops first w)
        × RawGiveOwn H.does H.stops l first events w run shown.m }
{}

/// Proves that after any events no two outstanding calls of one client have the same id.
pub fn ids_stay_apart<H: Handler>()
    ensures { (l : Limits) (first : H) (events : List Happening) (w : World H)
        → Run H.does H.stops l (opening l first) events w → IdsApart w }
{}

/// Proves that whatever steps the machine takes, a call keeps its parts, and one that is done, sent
/// or lost stays so.
pub fn calls_are_kept<H: Handler>()
    ensures { (first : H) (raw : ℕ → Bool) (m n : Machine H)
        → Steps H H.does H.stops (empty first raw) m → Steps H H.does H.stops m n
        → CallsAreKept (shown_calls m.calls) (shown_calls n.calls) }
{}

/// Proves that whatever steps the machine takes, the log only grows.
pub fn log_grows<H: Handler>()
    ensures { (first : H) (raw : ℕ → Bool) (m n : Machine H)
        → Steps H H.does H.stops (empty first raw) m → Steps H H.does H.stops m n
        → LogGrows m.log n.log }
{}

/// Proves that a call that was done before another was made has the earlier entry.
pub fn done_is_earlier<H: Handler>()
    ensures { (first : H) (raw : ℕ → Bool) (m n : Machine H)
        → Steps H H.does H.stops (empty first raw) m → Steps H H.does H.stops m n
        → DoneIsEarlier m n }
{}

/// Proves that after any further events a world shows a state of the machine that steps reach from
/// the one that it showed before: calls are kept, the log only grows, and a call that was done
/// before another was made has the earlier entry.
pub fn worlds_go_on<H: Handler>()
    ensures { (l : Limits) (first : H) (before after : List Happening) (old new : World H)
        → AreGood l → Run H.does H.stops l (opening l first) before old
        → Run H.does H.stops l old after new → GoesOn H.does H.stops first old new }
{}
