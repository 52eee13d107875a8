//! Revisions of a month.
ghost use Rattle.std.specs.Prelude.{◌≡◌, ◌≤◌, ◌+◌, ◌==◌, SomeIff};
ghost use Rattle.cpi_codes.specs.Number.{number_in};

use cpi_codes::number_of;
use std::marker::Model;

const LOWEST: u64 = 1;

const HIGHEST: u64 = 9;

/// The revision of a month's release, 1 to 9: 1 when the month is frozen first, and one more each time that it is
/// reopened and frozen again.
#[derive(Clone, Copy, Debug, PartialEq, Eq, PartialOrd, Ord)]
pub struct Revision {
    number: u8,
}

impl Model for Revision {
    ghost use Rattle.std.specs.Prelude.{ℕ, ◌≤◌};

    ghost Value = { ℕ };

    ghost view = { λ x. x.number };

    ghost invariant = { λ x. (1 ≤ x.number) × (x.number ≤ 9) };

    ghost inverse = { λ n. record { number = n } };
}

impl Revision {
    /// The revision of a number; none outside 1 to 9.
    pub fn new(number: u64) -> Option<Revision>
        ensures { SomeIff result ((1 ≤ number) × (number ≤ 9)) number }
    {
        if number < LOWEST || HIGHEST < number {
            return None;
        }
        Some(Revision {
            number: number as u8,
        })
    }

    /// Reads a number from 1 to 9, in its one spelling.
    pub fn parse(text: &[u8]) -> Option<Revision>
        ensures { result ≡ number_in 1 9 text.now }
    {
        Revision::new(number_of(text, LOWEST, HIGHEST)?)
    }

    /// The revision of a month that wasn't frozen before.
    pub fn first() -> Revision
        ensures { result ≡ 1 }
    {
        Revision { number: 1 }
    }

    /// The revision after this one; none after 9.
    pub fn next(self) -> Option<Revision>
        ensures { SomeIff result (self + 1 ≤ 9) (self + 1) }
    {
        Revision::new(u64::from(self.number) + 1)
    }

    /// Whether it is the first.
    pub fn is_first(self) -> bool
        ensures { result ≡ (self == 1) }
    {
        self.number == 1
    }

    /// The number, 1 to 9.
    pub fn number(self) -> u8
        ensures value { result ≡ self }
        ensures range { (1 ≤ result) × (result ≤ 9) }
    {
        self.number
    }
}
