//! Why the server stops early.

ghost use Rattle.std.specs.Prelude.{◌↔◌, IsTrue};
ghost use Rattle.server_core.specs.Stops.{WantsMemory};

use std::alloc::AllocError;
use std::io;
use std::io::ErrorKind;

/// Why the server stops early.
#[derive(Drop)]
pub enum Stop {
    /// Listening or waiting failed.
    InOut(io::Error),
    /// The output can't be written.
    Output(io::Error),
    /// The file of the port can't be written.
    PortFile(io::Error),
    /// Memory ran out.
    OutOfMemory,
}

/// Returns true if memory ran out. Where the error has a number, it is the system that lacks memory,
/// and then a call failed.
pub fn wants_memory(error: &io::Error) -> bool
    ensures { IsTrue result ↔ WantsMemory error.now }
{
    error.kind() == ErrorKind::OutOfMemory && error.raw_os_error().is_none()
}

impl From<io::Error> for Stop {
    ghost use Rattle.server_core.specs.Stops.{StopsBy};

    ghost from_gives = { StopsBy };

    fn from(error: io::Error) -> Stop {
        if wants_memory(&error) {
            Stop::OutOfMemory
        } else {
            Stop::InOut(error)
        }
    }
}

impl From<AllocError> for Stop {
    ghost use Rattle.std.specs.Prelude.{◌≡◌};
    ghost use Rattle.server_core.specs.declared.stop.Stop.TheVariants.{OutOfMemory};

    ghost from_gives = { λ _ stop. stop ≡ OutOfMemory };

    fn from(_: AllocError) -> Stop {
        Stop::OutOfMemory
    }
}
