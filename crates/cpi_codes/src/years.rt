//! Years of plans.
ghost use Rattle.std.specs.Prelude.{◌≡◌, ◌≤◌, SomeIff};
ghost use Rattle.cpi_codes.specs.Number.{number_in};

use crate::number::number_of;
use std::marker::Model;

const LOWEST: u16 = 2000;

const HIGHEST: u16 = 2199;

/// A year of the survey, 2000 to 2199.
#[derive(Clone, Copy, PartialEq, Eq, PartialOrd, Ord)]
pub struct Year {
    number: u16,
}

impl Model for Year {
    ghost use Rattle.std.specs.Prelude.{ℕ, ◌≤◌};

    ghost Value = { ℕ };

    ghost view = { λ x. x.number };

    ghost invariant = { λ x. (2000 ≤ x.number) × (x.number ≤ 2199) };

    ghost inverse = { λ n. record { number = n } };
}

impl Year {
    /// The year of a number; none outside 2000 to 2199.
    pub fn new(number: u16) -> Option<Year>
        ensures { SomeIff result ((2000 ≤ number) × (number ≤ 2199)) number }
    {
        if number < LOWEST || HIGHEST < number {
            return None;
        }
        Some(Year { number })
    }

    /// Reads a number from 2000 to 2199, in its one spelling.
    pub fn parse(text: &[u8]) -> Option<Year>
        ensures { result ≡ number_in 2000 2199 text.now }
    {
        let number = number_of(text, u64::from(LOWEST), u64::from(HIGHEST))?;
        Year::new(number as u16)
    }

    /// The number, 2000 to 2199.
    pub fn number(self) -> u16
        ensures value { result ≡ self }
        ensures range { (2000 ≤ result) × (result ≤ 2199) }
    {
        self.number
    }
}
