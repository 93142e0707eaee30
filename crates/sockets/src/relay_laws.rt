//! The law of relays. The contract of the function is the law.

ghost use Rattle.std.specs.Prelude.{List};
ghost use Rattle.sockets.specs.RelayActs.{RelayAct, RelayRun, RelayView, back_came, back_went};
ghost use Rattle.sockets.specs.RelayActs.{new_relay, tells, there_came, there_went};
ghost use Rattle.sockets.specs.Relaying.{HasPassed};

use crate::way::EndSending;

/// Proves that what was sent over each link is a beginning of what came over the other, and all of
/// it where that way is over.
pub fn what_went_came<N: EndSending, F: EndSending>()
    ensures there { (near : N) (far : F) (acts : List RelayAct) (now : RelayView N F)
        → RelayRun (tells N.received N.sent N.ends N.waits N.failures N.endings)
        (tells F.received F.sent F.ends F.waits F.failures F.endings)
        (new_relay near far) acts now
        → HasPassed (there_came acts) (there_went acts) (N.received near) (N.received now.near)
        (F.sent far) (F.sent now.far) now.there }
    ensures back { (near : N) (far : F) (acts : List RelayAct) (now : RelayView N F)
        → RelayRun (tells N.received N.sent N.ends N.waits N.failures N.endings)
        (tells F.received F.sent F.ends F.waits F.failures F.endings)
        (new_relay near far) acts now
        → HasPassed (back_came acts) (back_went acts) (F.received far) (F.received now.far)
        (N.sent near) (N.sent now.near) now.back }
{}
