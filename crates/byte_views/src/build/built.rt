//! What became of a call that builds.

ghost use Rattle.std.specs.Prelude.{◌≡◌};
ghost use Rattle.byte_views.specs.Appends.{done, no_room, refused};
ghost use Rattle.byte_views.specs.Refusals.{refusal_number};

use crate::build::refusal::BuildRefusal;

/// What became of a call that builds.
#[derive(Clone, Copy)]
#[repr(C)]
pub struct Built {
    /// 0 if it is done, else the number of the `BuildRefusal`. Then nothing changed.
    pub refusal: u32,
    /// How many bytes the room has to have for what was asked, and for the ends of all containers
    /// that are open; of a finished document its length. After a refusal other than for room, 0.
    pub wanted: usize,
}

impl Built {
    /// Returns that it is done.
    pub(crate) fn done(wanted: usize) -> Built
        ensures { result ≡ done wanted }
    {
        Built { refusal: 0, wanted }
    }

    /// Returns that the room is too short.
    pub(crate) fn no_room(wanted: usize) -> Built
        ensures { result ≡ no_room wanted }
    {
        Built { refusal: 5, wanted }
    }

    /// Returns that it is refused.
    pub(crate) fn refused(refusal: BuildRefusal) -> Built
        ensures { result ≡ refused (refusal_number refusal) }
    {
        Built {
            refusal: refusal.number(),
            wanted: 0,
        }
    }
}
