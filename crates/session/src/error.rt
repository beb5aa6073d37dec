// Why nothing is read from a line.
ghost use Rattle.std.specs.Prelude.{◌≡◌, alloc_error};
ghost use Rattle.session.specs.declared.error.LineError.TheVariants.{Fault, NoMemory};
ghost use Rattle.session.specs.Errors.{error_text};

use crate::fault::LineFault;
use std::alloc::{AllocError, AllocFailed};
use std::error::Error;
use std::fmt;

#[derive(Clone, Copy, PartialEq, Eq, Debug)]
pub enum LineError {
    // something is wrong with the line
    Fault(LineFault),
    // there is no room for what it says
    NoMemory(AllocError),
}

impl fmt::Display for LineError {
    ghost output = { error_text };

    fn fmt<W: fmt::Write>(&self, f: &mut fmt::Formatter<W>) -> fmt::Result {
        match self {
            LineError::Fault(fault) => write!(f, "{fault}"),
            LineError::NoMemory(cause) => write!(f, "{cause}"),
        }
    }
}

impl Error for LineError {}

impl From<LineFault> for LineError {
    ghost from_gives = { λ fault error. error ≡ Fault fault };

    fn from(value: LineFault) -> LineError {
        LineError::Fault(value)
    }
}

impl<T: Drop> From<AllocFailed<T>> for LineError {
    ghost from_gives = { λ _ error. error ≡ NoMemory alloc_error };

    fn from(value: AllocFailed<T>) -> LineError {
        LineError::NoMemory(value.into())
    }
}
