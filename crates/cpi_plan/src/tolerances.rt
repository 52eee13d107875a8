//! Tolerances: how far a price may be from the last one, in per mille of the last price.
ghost use Rattle.std.specs.Prelude.{◌≡◌, ◌≤◌, SomeIff};
ghost use Rattle.cpi_codes.specs.Number.{number_in};

use crate::limits::{GREATEST_TOLERANCE, PER_MILLE};
use cpi_codes::number_of;
use std::marker::Model;

// The least lower tolerance: a lower one, 0, would bound nothing.
const LOWEST: u64 = 1;

/// The lower bound of a price, 1 to 1000 per mille of the last price.
#[derive(Clone, Copy, PartialEq, Eq, PartialOrd, Ord)]
pub struct LowTolerance {
    per_mille: u16,
}

impl Model for LowTolerance {
    ghost use Rattle.std.specs.Prelude.{ℕ, ◌≤◌};
    ghost use Rattle.cpi_plan.specs.declared.limits.TheConstants.{PER_MILLE};

    ghost Value = { ℕ };

    ghost view = { λ x. x.per_mille };

    ghost invariant = { λ x. (1 ≤ x.per_mille) × (x.per_mille ≤ PER_MILLE) };

    ghost inverse = { λ n. record { per_mille = n } };
}

impl LowTolerance {
    /// The tolerance of so many per mille, or `None` if it is outside 1 to 1000.
    pub fn new(per_mille: u64) -> Option<LowTolerance>
        ensures { SomeIff result ((1 ≤ per_mille) × (per_mille ≤ PER_MILLE)) per_mille }
    {
        if per_mille < LOWEST || PER_MILLE < per_mille {
            return None;
        }
        Some(LowTolerance {
            per_mille: per_mille as u16,
        })
    }

    /// Reads a number from 1 to 1000 in its one spelling; any other text is `None`.
    pub fn parse(text: &[u8]) -> Option<LowTolerance>
        ensures { result ≡ number_in 1 PER_MILLE text.now }
    {
        LowTolerance::new(number_of(text, LOWEST, PER_MILLE)?)
    }

    /// The per mille of the last price, 1 to 1000.
    pub fn per_mille(self) -> u16
        ensures value { result ≡ self }
        ensures range { (1 ≤ result) × (result ≤ PER_MILLE) }
    {
        self.per_mille
    }
}

/// The upper bound of a price, 1000 to 10,000 per mille of the last price.
#[derive(Clone, Copy, PartialEq, Eq, PartialOrd, Ord)]
pub struct HighTolerance {
    per_mille: u16,
}

impl Model for HighTolerance {
    ghost use Rattle.std.specs.Prelude.{ℕ, ◌≤◌};
    ghost use Rattle.cpi_plan.specs.declared.limits.TheConstants.{GREATEST_TOLERANCE, PER_MILLE};

    ghost Value = { ℕ };

    ghost view = { λ x. x.per_mille };

    ghost invariant = { λ x. (PER_MILLE ≤ x.per_mille) × (x.per_mille ≤ GREATEST_TOLERANCE) };

    ghost inverse = { λ n. record { per_mille = n } };
}

impl HighTolerance {
    /// The tolerance of so many per mille, or `None` if it is outside 1000 to 10,000.
    pub fn new(per_mille: u64) -> Option<HighTolerance>
        ensures { SomeIff result ((PER_MILLE ≤ per_mille) × (per_mille ≤ GREATEST_TOLERANCE)) per_mille }
    {
        if per_mille < PER_MILLE || GREATEST_TOLERANCE < per_mille {
            return None;
        }
        Some(HighTolerance {
            per_mille: per_mille as u16,
        })
    }

    /// Reads a number from 1000 to 10,000 in its one spelling; any other text is `None`.
    pub fn parse(text: &[u8]) -> Option<HighTolerance>
        ensures { result ≡ number_in PER_MILLE GREATEST_TOLERANCE text.now }
    {
        HighTolerance::new(number_of(text, PER_MILLE, GREATEST_TOLERANCE)?)
    }

    /// The per mille of the last price, 1000 to 10,000.
    pub fn per_mille(self) -> u16
        ensures value { result ≡ self }
        ensures range { (PER_MILLE ≤ result) × (result ≤ GREATEST_TOLERANCE) }
    {
        self.per_mille
    }
}
