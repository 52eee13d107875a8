//! Prices.
ghost use Rattle.std.specs.Prelude.{◌≡◌, ◌≤◌, SomeIff};
ghost use Rattle.cpi_codes.specs.Number.{number_in};

use crate::limits::GREATEST_PRICE;
use crate::number::number_of;
use std::marker::Model;

const LOWEST: u64 = 1;

/// A price in minor units of money, 1 to 100,000,000.
#[derive(Clone, Copy, Debug, PartialEq, Eq, PartialOrd, Ord)]
pub struct Price {
    units: u32,
}

impl Model for Price {
    ghost use Rattle.std.specs.Prelude.{ℕ, ◌≤◌};
    ghost use Rattle.cpi_codes.specs.declared.limits.TheConstants.{GREATEST_PRICE};

    ghost Value = { ℕ };

    ghost view = { λ x. x.units };

    ghost invariant = { λ x. (1 ≤ x.units) × (x.units ≤ GREATEST_PRICE) };

    ghost inverse = { λ n. record { units = n } };
}

impl Price {
    /// The price of so many minor units; none outside 1 to 100,000,000.
    pub fn new(units: u64) -> Option<Price>
        ensures { SomeIff result ((1 ≤ units) × (units ≤ GREATEST_PRICE)) units }
    {
        if units < LOWEST || GREATEST_PRICE < units {
            return None;
        }
        Some(Price {
            units: units as u32,
        })
    }

    /// Reads a number from 1 to 100,000,000, in its one spelling.
    pub fn parse(text: &[u8]) -> Option<Price>
        ensures { result ≡ number_in 1 GREATEST_PRICE text.now }
    {
        Price::new(number_of(text, LOWEST, GREATEST_PRICE)?)
    }

    /// The minor units, 1 to 100,000,000.
    pub fn units(self) -> u32
        ensures value { result ≡ self }
        ensures range { (1 ≤ result) × (result ≤ GREATEST_PRICE) }
    {
        self.units
    }
}
