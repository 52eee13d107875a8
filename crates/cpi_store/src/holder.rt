//! Collectors, each with what the collector has.
ghost use Rattle.std.specs.Prelude.{◌≡◌, []};

use crate::registration::Registration;
use cpi_codes::{CollectorId, Key};
use cpi_rows::Keyed;
use cpi_survey::Own;
use std::alloc::Global;

/// A collector with all that is the collector's.
#[derive(Drop)]
pub struct Holder {
    pub number: CollectorId,
    pub key: Key,
    pub own: Own,
}

impl Holder {
    /// A collector who has nothing yet.
    pub fn new(alloc: Global, registration: Registration) -> Holder
        ensures { result
            ≡ record {
              number = registration.number;
              key = registration.key;
              own = record
                  { assignments = []; quotes = [] };
            } }
    {
        Holder {
            number: registration.number,
            key: registration.key,
            own: Own::new(alloc),
        }
    }
}

impl Keyed for Holder {
    type Key = CollectorId;

    ghost key = { λ h. h.number };

    fn key(&self) -> CollectorId {
        self.number
    }
}
