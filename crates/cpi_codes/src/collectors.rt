//! Numbers of collectors.
ghost use Rattle.std.specs.Prelude.{◌≡◌, ◌≤◌, SomeIff};
ghost use Rattle.cpi_codes.specs.Number.{number_in};

use crate::limits::GREATEST_COLLECTOR;
use crate::number::number_of;
use std::marker::Model;

const LOWEST: u64 = 1;

/// The number of a collector, 1 to 9999.
#[derive(Clone, Copy, Debug, PartialEq, Eq, PartialOrd, Ord)]
pub struct CollectorId {
    number: u16,
}

impl Model for CollectorId {
    ghost use Rattle.std.specs.Prelude.{ℕ, ◌≤◌};
    ghost use Rattle.cpi_codes.specs.declared.limits.TheConstants.{GREATEST_COLLECTOR};

    ghost Value = { ℕ };

    ghost view = { λ x. x.number };

    ghost invariant = { λ x. (1 ≤ x.number) × (x.number ≤ GREATEST_COLLECTOR) };

    ghost inverse = { λ n. record { number = n } };
}

impl CollectorId {
    /// The collector of a number; none outside 1 to 9999.
    pub fn new(number: u64) -> Option<CollectorId>
        ensures { SomeIff result ((1 ≤ number) × (number ≤ GREATEST_COLLECTOR)) number }
    {
        if number < LOWEST || GREATEST_COLLECTOR < number {
            return None;
        }
        Some(CollectorId {
            number: number as u16,
        })
    }

    /// Reads a number from 1 to 9999, in its one spelling.
    pub fn parse(text: &[u8]) -> Option<CollectorId>
        ensures { result ≡ number_in 1 GREATEST_COLLECTOR text.now }
    {
        CollectorId::new(number_of(text, LOWEST, GREATEST_COLLECTOR)?)
    }

    /// The number, 1 to 9999.
    pub fn number(self) -> u16
        ensures value { result ≡ self }
        ensures range { (1 ≤ result) × (result ≤ GREATEST_COLLECTOR) }
    {
        self.number
    }
}
