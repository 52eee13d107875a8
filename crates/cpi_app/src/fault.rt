//! The errors of a job: their lines on standard error and their exit statuses.
ghost use Rattle.std.specs.Prelude.{◌≡◌};
ghost use Rattle.cpi_app.specs.Fault.{status_of_fault, open_line};

use cpi_store::OpenFault;
use cpi_wire::{Failure, WireFault};
use std::alloc::AllocFailed;
use std::fmt;

/// The error of a job that the program couldn't finish. It prints as its line on standard error, without the line's
/// end. `docs/reference/FORMATS.md` lists the lines.
#[derive(Clone, Copy, Debug, PartialEq, Eq)]
pub enum RunFault {
    /// An argument of the command line isn't UTF-8.
    BadWord,
    /// The zone is no rule of a clock.
    BadZone,
    /// The desk's key isn't 32 characters of 0-9 and a-f.
    BadKey,
    /// The month isn't a year from 2000 to 2199 with a month, like `2026-01`.
    BadMonth,
    /// The database couldn't be opened as an office, or failed later.
    Database(OpenFault),
    /// No table of the month was published by then, or none in the revision.
    NoTable,
    /// The machine's clock can't be read.
    NoClock,
    /// The program can't listen at the port.
    NoPort,
    /// The input couldn't be read to its end, a reply couldn't be written, or there was no memory.
    Wire(WireFault),
}

/// The line of an error of an open, without the line's end. Outside of this file only tests call it.
pub fn fault_line(fault: &OpenFault) -> &'static str
    ensures { result.now ≡ open_line fault.now }
{
    match fault {
        OpenFault::UnknownSchema => "cpi: unknown schema",
        OpenFault::Store => "cpi: database failed",
    }
}

impl RunFault {
    /// The exit status: 2 if an argument is refused, and 1 for each error after that.
    pub fn status(self) -> u8
        ensures { result ≡ status_of_fault self }
    {
        match self {
            RunFault::BadWord => 2,
            _ => 1,
        }
    }
}

impl From<WireFault> for RunFault {
    ghost use Rattle.cpi_app.specs.declared.fault.RunFault.TheVariants.{Wire};
    ghost use Rattle.std.specs.Prelude.{◌≡◌};

    ghost from_gives = { λ fault e. e ≡ Wire fault };

    fn from(fault: WireFault) -> RunFault {
        RunFault::Wire(fault)
    }
}

impl From<Failure> for RunFault {
    ghost use Rattle.cpi_app.specs.declared.fault.RunFault.TheVariants.{Wire};
    ghost use Rattle.std.specs.Prelude.{◌≡◌};

    ghost from_gives = { λ failure e. e ≡ Wire failure };

    fn from(failure: Failure) -> RunFault {
        RunFault::Wire(failure.fault())
    }
}

impl From<OpenFault> for RunFault {
    ghost use Rattle.cpi_app.specs.declared.fault.RunFault.TheVariants.{Database};
    ghost use Rattle.std.specs.Prelude.{◌≡◌};

    ghost from_gives = { λ fault e. e ≡ Database fault };

    fn from(fault: OpenFault) -> RunFault {
        RunFault::Database(fault)
    }
}

impl<T: Drop> From<AllocFailed<T>> for RunFault {
    ghost use Rattle.cpi_app.specs.declared.fault.RunFault.TheVariants.{Wire};
    ghost use Rattle.cpi_wire.specs.declared.fault.WireFault.TheVariants.{NoMemory};
    ghost use Rattle.std.specs.Prelude.{◌≡◌};

    ghost from_gives = { λ _ e. e ≡ Wire NoMemory };

    fn from(_: AllocFailed<T>) -> RunFault {
        RunFault::Wire(WireFault::NoMemory)
    }
}

impl fmt::Display for RunFault {
    ghost use Rattle.std.specs.Prelude.{Some};
    ghost use Rattle.cpi_app.specs.Fault.{line_of_fault};

    ghost output = { λ f. Some (line_of_fault f) };

    fn fmt<W: fmt::Write>(&self, f: &mut fmt::Formatter<W>) -> fmt::Result {
        match self {
            RunFault::BadWord => write!(f, "cpi: a word isn't UTF-8"),
            RunFault::BadZone => write!(f, "cpi: bad zone"),
            RunFault::BadKey => write!(f, "cpi: bad key"),
            RunFault::BadMonth => write!(f, "cpi: bad month"),
            RunFault::Database(fault) => f.write_str(fault_line(fault)),
            RunFault::NoTable => write!(f, "cpi: no table"),
            RunFault::NoClock => write!(f, "cpi: no clock"),
            RunFault::NoPort => write!(f, "cpi: no port"),
            RunFault::Wire(fault) => write!(f, "cpi: {fault}"),
        }
    }
}
