//! The reason why an input was given up.
use std::alloc::{AllocError, AllocFailed};
use std::fmt;

/// The reason why an input was given up. The requests that were carried out until then aren't undone.
#[derive(Clone, Copy, Debug, PartialEq, Eq)]
pub enum WireFault {
    /// The input couldn't be read, or has more records than one replay takes.
    Read,
    /// A line couldn't be written whole.
    Write,
    /// Memory ran out.
    NoMemory,
}

impl From<AllocError> for WireFault {
    ghost use Rattle.cpi_wire.specs.declared.fault.WireFault.TheVariants.{NoMemory};
    ghost use Rattle.std.specs.Prelude.{◌≡◌};

    ghost from_gives = { λ _ e. e ≡ NoMemory };

    fn from(_: AllocError) -> WireFault {
        WireFault::NoMemory
    }
}

impl<T: Drop> From<AllocFailed<T>> for WireFault {
    ghost use Rattle.cpi_wire.specs.declared.fault.WireFault.TheVariants.{NoMemory};
    ghost use Rattle.std.specs.Prelude.{◌≡◌};

    ghost from_gives = { λ _ e. e ≡ NoMemory };

    fn from(_: AllocFailed<T>) -> WireFault {
        WireFault::NoMemory
    }
}

impl fmt::Display for WireFault {
    ghost use Rattle.std.specs.Prelude.{Some};
    ghost use Rattle.cpi_wire.specs.Fault.{fault_text};

    ghost output = { λ f. Some (fault_text f) };

    fn fmt<W: fmt::Write>(&self, f: &mut fmt::Formatter<W>) -> fmt::Result {
        match self {
            WireFault::Read => write!(f, "read failed"),
            WireFault::Write => write!(f, "write failed"),
            WireFault::NoMemory => write!(f, "out of memory"),
        }
    }
}
