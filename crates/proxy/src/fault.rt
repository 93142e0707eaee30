//! Why a proxy ends early.

ghost use Rattle.std.specs.Prelude.{◌≡◌};
ghost use Rattle.proxy.specs.Faults.{fault_text};

use std::alloc::AllocError;
use std::{fmt, io};

/// Why a proxy ends early.
#[derive(Drop)]
pub enum ProxyFault {
    /// It can't listen.
    Listen(io::Error),
    /// The server's address can't be found.
    Upstream(io::Error),
    /// The server's address is where the proxy listens.
    Itself,
    /// The file of the port can't be written.
    PortFile(io::Error),
    /// The file of records can't be written.
    RecordFile(io::Error),
    /// Writing or waiting failed, or memory ran out.
    Io(io::Error),
}

impl ProxyFault {
    /// Returns what the fault displays as, before what its own cause does.
    fn text(&self) -> &'static str
        ensures { result.now ≡ fault_text self.now }
    {
        match self {
            ProxyFault::Listen(_) => "can't listen: ",
            ProxyFault::Upstream(_) => "the server's address: ",
            ProxyFault::Itself => "the server's address is the proxy's own",
            ProxyFault::PortFile(_) => "the file of the port can't be written: ",
            ProxyFault::RecordFile(_) => "the file of records can't be written: ",
            ProxyFault::Io(_) => "",
        }
    }
}

impl fmt::Display for ProxyFault {
    ghost use Rattle.proxy.specs.Faults.{shown_fault};

    ghost output = { shown_fault };

    fn fmt<W: fmt::Write>(&self, f: &mut fmt::Formatter<W>) -> fmt::Result {
        f.write_str(self.text())?;
        match self {
            ProxyFault::Itself => Ok(()),
            ProxyFault::Listen(error)
            | ProxyFault::Upstream(error)
            | ProxyFault::PortFile(error)
            | ProxyFault::RecordFile(error)
            | ProxyFault::Io(error) => write!(f, "{error}"),
        }
    }
}

impl fmt::Debug for ProxyFault {
    ghost use Rattle.proxy.specs.Faults.{shown_fault};

    ghost debug_output = { shown_fault };

    fn fmt<W: fmt::Write>(&self, f: &mut fmt::Formatter<W>) -> fmt::Result {
        fmt::Display::fmt(self, f)
    }
}

impl std::error::Error for ProxyFault {}

impl From<AllocError> for ProxyFault {
    ghost use Rattle.proxy.specs.Faults.{TellsNoMemory};

    ghost from_gives = { λ _ fault. TellsNoMemory fault };

    fn from(error: AllocError) -> ProxyFault {
        ProxyFault::Io(io::Error::from(error))
    }
}

impl From<io::Error> for ProxyFault {
    ghost use Rattle.std.specs.Prelude.{◌≡◌};
    ghost use Rattle.proxy.specs.declared.fault.ProxyFault.TheVariants.{Io};

    ghost from_gives = { λ error fault. fault ≡ Io error };

    fn from(error: io::Error) -> ProxyFault {
        ProxyFault::Io(error)
    }
}
