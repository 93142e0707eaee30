//! Why a call of the system failed.

ghost use Rattle.std.specs.Prelude.{◌≡◌};
ghost use Rattle.std.specs.IoError.{error_kind, raw_os_error};

use std::io::ErrorKind;
use std::{fmt, io};

/// What is kept of an `io::Error`: enough to tell why the call failed, in the system's words.
#[derive(Clone, Copy, Debug, PartialEq, Eq)]
pub struct IoFailure {
    kind: ErrorKind,
    /// The system's number of the error, if it is one of the system's.
    code: Option<i32>,
}

impl IoFailure {
    /// Returns what is kept of this error.
    pub fn of(error: &io::Error) -> IoFailure
        ensures kind { result.kind ≡ error_kind error.now }
        ensures code { result.code ≡ raw_os_error error.now }
    {
        IoFailure {
            kind: error.kind(),
            code: error.raw_os_error(),
        }
    }
}

impl fmt::Display for IoFailure {
    fn fmt<W: fmt::Write>(&self, f: &mut fmt::Formatter<W>) -> fmt::Result {
        match self.code {
            Some(code) => write!(f, "{}", io::Error::from_raw_os_error(code)),
            None => write!(f, "{}", self.kind),
        }
    }
}
