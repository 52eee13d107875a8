//! A fault with its cause.
use crate::fault::WireFault;
use std::alloc::{AllocError, AllocFailed};
use std::marker::Model;

/// A fault with its cause: a read or a write failed, or no call was left; an input was too long; or there is an error
/// of memory. It can't be copied. Other crates get one from [`crate::ReadNote`], from [`crate::WriteNote`], or from an
/// error of memory, and make none by hand. The logic sees the fault.
#[derive(Drop)]
pub struct Failure {
    fault: WireFault,
}

impl Model for Failure {
    ghost use Rattle.cpi_wire.specs.declared.fault.WireFault.{WireFault as TheFault};

    ghost Value = { TheFault };

    ghost view = { λ f. f.fault };

    ghost inverse = { λ f. record { fault = f } };
}

impl Failure {
    ghost use Rattle.std.specs.Prelude.{◌≡◌};

    // The failure of a fault that comes to pass here.
    pub(crate) fn of(fault: WireFault) -> Failure
        ensures { result ≡ fault }
    {
        Failure { fault }
    }

    /// The fault.
    pub fn fault(&self) -> WireFault
        ensures { result ≡ self.now }
    {
        self.fault
    }
}

impl From<AllocError> for Failure {
    ghost use Rattle.cpi_wire.specs.declared.fault.WireFault.TheVariants.{NoMemory};
    ghost use Rattle.std.specs.Prelude.{◌≡◌};

    ghost from_gives = { λ _ e. e ≡ NoMemory };

    fn from(_: AllocError) -> Failure {
        Failure {
            fault: WireFault::NoMemory,
        }
    }
}

impl<T: Drop> From<AllocFailed<T>> for Failure {
    ghost use Rattle.cpi_wire.specs.declared.fault.WireFault.TheVariants.{NoMemory};
    ghost use Rattle.std.specs.Prelude.{◌≡◌};

    ghost from_gives = { λ _ e. e ≡ NoMemory };

    fn from(_: AllocFailed<T>) -> Failure {
        Failure {
            fault: WireFault::NoMemory,
        }
    }
}

impl From<Failure> for WireFault {
    ghost use Rattle.std.specs.Prelude.{◌≡◌};

    ghost from_gives = { λ failure fault. fault ≡ failure };

    fn from(failure: Failure) -> WireFault {
        failure.fault
    }
}
