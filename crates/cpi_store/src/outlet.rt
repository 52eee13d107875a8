//! Outlets.
ghost use Rattle.std.specs.Prelude.{◌≡◌};
ghost use Rattle.cpi_store.specs.Outlet.{same_outlet};

use cpi_codes::{Name, OutletId};
use cpi_rows::Keyed;

/// An outlet where items are priced. It never changes once it is in the office.
#[derive(Drop)]
pub struct Outlet {
    /// The outlet's number, 1 to 999999.
    pub number: OutletId,
    /// The name, which collectors are shown in place of the number.
    pub name: Name,
}

impl Outlet {
    /// Whether number and name are the same.
    pub fn is_same(&self, other: &Outlet) -> bool
        ensures { result ≡ same_outlet self.now other.now }
    {
        self.number == other.number && self.name.is_same(&other.name)
    }
}

impl Keyed for Outlet {
    type Key = OutletId;

    ghost key = { λ o. o.number };

    fn key(&self) -> OutletId {
        self.number
    }
}
