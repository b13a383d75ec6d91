// Why a line is not right, or could not be told.
ghost use Rattle.std.specs.Prelude.{◌≡◌, ◌↔◌, IsOk, IsTrue};
ghost use Rattle.record_line.specs.declared.fault.Fault.TheVariants.{Wrong, OutOfMemory};

use arrayvec::CapacityError;
use std::alloc::{AllocError, AllocFailed};
use std::error::Error;
use std::fmt;

// A line that is no list of numbers, names no call, or has other numbers than the call gives.
#[derive(Clone, Copy, Debug, PartialEq, Eq)]
pub struct WrongLine;

impl fmt::Display for WrongLine {
    fn fmt<W: fmt::Write>(&self, f: &mut fmt::Formatter<W>) -> fmt::Result {
        write!(f, "wrong line")
    }
}

impl Error for WrongLine {}

impl WrongLine {
    // A wrong line unless this holds.
    pub fn unless(right: bool) -> Result<(), WrongLine>
        ensures { IsOk result ↔ IsTrue right }
    {
        if right { Ok(()) } else { Err(WrongLine) }
    }
}

// Why a function that takes memory gave no answer: the line is wrong, or memory did not suffice.
#[derive(Clone, Copy, Debug, PartialEq, Eq)]
pub enum Fault {
    Wrong,
    OutOfMemory,
}

impl fmt::Display for Fault {
    fn fmt<W: fmt::Write>(&self, f: &mut fmt::Formatter<W>) -> fmt::Result {
        match self {
            Fault::Wrong => write!(f, "wrong line"),
            Fault::OutOfMemory => write!(f, "out of memory"),
        }
    }
}

impl Error for Fault {}

impl From<WrongLine> for Fault {
    ghost from_gives = { λ _ e. e ≡ Wrong };

    fn from(_error: WrongLine) -> Fault {
        Fault::Wrong
    }
}

impl From<AllocError> for Fault {
    ghost from_gives = { λ _ e. e ≡ OutOfMemory };

    fn from(_error: AllocError) -> Fault {
        Fault::OutOfMemory
    }
}

impl<T: Drop> From<CapacityError<T>> for Fault {
    ghost from_gives = { λ _ e. e ≡ OutOfMemory };

    fn from(_error: CapacityError<T>) -> Fault {
        Fault::OutOfMemory
    }
}

impl<T: Drop> From<AllocFailed<T>> for Fault {
    ghost from_gives = { λ _ e. e ≡ OutOfMemory };

    fn from(_error: AllocFailed<T>) -> Fault {
        Fault::OutOfMemory
    }
}
