//! Numbers of outlets.
ghost use Rattle.std.specs.Prelude.{◌≡◌, ◌≤◌, SomeIff};
ghost use Rattle.cpi_codes.specs.Number.{number_in};

use crate::limits::GREATEST_OUTLET;
use crate::number::number_of;
use std::marker::Model;

const LOWEST: u64 = 1;

/// The number of an outlet, 1 to 999999.
#[derive(Clone, Copy, Debug, PartialEq, Eq, PartialOrd, Ord)]
pub struct OutletId {
    number: u32,
}

impl Model for OutletId {
    ghost use Rattle.std.specs.Prelude.{ℕ, ◌≤◌};
    ghost use Rattle.cpi_codes.specs.declared.limits.TheConstants.{GREATEST_OUTLET};

    ghost Value = { ℕ };

    ghost view = { λ x. x.number };

    ghost invariant = { λ x. (1 ≤ x.number) × (x.number ≤ GREATEST_OUTLET) };

    ghost inverse = { λ n. record { number = n } };
}

impl OutletId {
    /// The outlet of a number; none outside 1 to 999999.
    pub fn new(number: u64) -> Option<OutletId>
        ensures { SomeIff result ((1 ≤ number) × (number ≤ GREATEST_OUTLET)) number }
    {
        if number < LOWEST || GREATEST_OUTLET < number {
            return None;
        }
        Some(OutletId {
            number: number as u32,
        })
    }

    /// Reads a number from 1 to 999999, in its one spelling.
    pub fn parse(text: &[u8]) -> Option<OutletId>
        ensures { result ≡ number_in 1 GREATEST_OUTLET text.now }
    {
        OutletId::new(number_of(text, LOWEST, GREATEST_OUTLET)?)
    }

    /// The number, 1 to 999999.
    pub fn number(self) -> u32
        ensures value { result ≡ self }
        ensures range { (1 ≤ result) × (result ≤ GREATEST_OUTLET) }
    {
        self.number
    }
}
