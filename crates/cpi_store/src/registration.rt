//! Registered collectors.
ghost use Rattle.std.specs.Prelude.{◌≡◌};
ghost use Rattle.cpi_store.specs.Registration.{same_registration};

use cpi_codes::{CollectorId, Key};
use cpi_rows::Keyed;

/// A registered collector: the number, 1 to 9999, and the key of 32 hexadecimal digits. No two collectors share either.
#[derive(Clone, Copy, PartialEq, Eq)]
pub struct Registration {
    /// The collector's number.
    pub number: CollectorId,
    /// The key by which the collector's requests are known.
    pub key: Key,
}

impl Registration {
    /// Whether number and key are the same.
    pub fn is_same(&self, other: &Registration) -> bool
        ensures { result ≡ same_registration self.now other.now }
    {
        self.number == other.number && self.key == other.key
    }
}

impl Keyed for Registration {
    type Key = CollectorId;

    ghost key = { λ b. b.number };

    fn key(&self) -> CollectorId {
        self.number
    }
}
