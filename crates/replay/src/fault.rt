//! Why a replay ends early.

ghost use Rattle.std.specs.Prelude.{◌≡◌};
ghost use Rattle.replay.specs.Faults.{error_of};

use std::alloc::AllocError;
use std::{fmt, io};

/// Why a replay ends early.
#[derive(Drop)]
pub enum ReplayFault {
    /// The file of records can't be read, or memory ran out for it.
    Records(io::Error),
    /// The server's address can't be found.
    Address(io::Error),
    /// Writing or waiting failed, or memory ran out for anything else.
    Io(io::Error),
}

impl ReplayFault {
    /// Returns the error of the call that failed.
    pub fn error(&self) -> &io::Error
        ensures { result.now ≡ error_of self.now }
    {
        match self {
            ReplayFault::Records(error) | ReplayFault::Address(error) | ReplayFault::Io(error) => {
                error
            }
        }
    }
}

impl fmt::Display for ReplayFault {
    fn fmt<W: fmt::Write>(&self, f: &mut fmt::Formatter<W>) -> fmt::Result {
        let before = match self {
            ReplayFault::Records(_) => "the records can't be read: ",
            ReplayFault::Address(_) => "the server's address: ",
            ReplayFault::Io(_) => "",
        };
        let error = self.error();
        write!(f, "{before}{error}")
    }
}

impl From<AllocError> for ReplayFault {
    ghost use Rattle.replay.specs.Faults.{IsOutOfMemory};

    ghost from_gives = { λ _ fault. IsOutOfMemory fault };

    fn from(error: AllocError) -> ReplayFault
        ensures { IsOutOfMemory result }
    {
        ReplayFault::Io(io::Error::from(error))
    }
}

impl From<io::Error> for ReplayFault {
    ghost use Rattle.std.specs.Prelude.{◌≡◌};
    ghost use Rattle.replay.specs.declared.fault.ReplayFault.TheVariants.{Io};

    ghost from_gives = { λ error fault. fault ≡ Io error };

    fn from(error: io::Error) -> ReplayFault
        ensures { result ≡ ReplayFault.Io error }
    {
        ReplayFault::Io(error)
    }
}
