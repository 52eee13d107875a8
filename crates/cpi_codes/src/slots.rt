//! Slots of a collector.
ghost use Rattle.std.specs.Prelude.{◌≡◌, ◌≤◌, SomeIff};
ghost use Rattle.cpi_codes.specs.Number.{number_in};

use crate::limits::GREATEST_SLOT;
use crate::number::number_of;
use std::marker::Model;

const LOWEST: u64 = 1;

/// A slot of a collector, 1 to 400.
#[derive(Clone, Copy, Debug, PartialEq, Eq, PartialOrd, Ord)]
pub struct Slot {
    number: u16,
}

impl Model for Slot {
    ghost use Rattle.std.specs.Prelude.{ℕ, ◌≤◌};
    ghost use Rattle.cpi_codes.specs.declared.limits.TheConstants.{GREATEST_SLOT};

    ghost Value = { ℕ };

    ghost view = { λ x. x.number };

    ghost invariant = { λ x. (1 ≤ x.number) × (x.number ≤ GREATEST_SLOT) };

    ghost inverse = { λ n. record { number = n } };
}

impl Slot {
    /// The slot of a number; none outside 1 to 400.
    pub fn new(number: u64) -> Option<Slot>
        ensures { SomeIff result ((1 ≤ number) × (number ≤ GREATEST_SLOT)) number }
    {
        if number < LOWEST || GREATEST_SLOT < number {
            return None;
        }
        Some(Slot {
            number: number as u16,
        })
    }

    /// Reads a number from 1 to 400, in its one spelling.
    pub fn parse(text: &[u8]) -> Option<Slot>
        ensures { result ≡ number_in 1 GREATEST_SLOT text.now }
    {
        Slot::new(number_of(text, LOWEST, GREATEST_SLOT)?)
    }

    /// The number, 1 to 400.
    pub fn number(self) -> u16
        ensures value { result ≡ self }
        ensures range { (1 ≤ result) × (result ≤ GREATEST_SLOT) }
    {
        self.number
    }
}
