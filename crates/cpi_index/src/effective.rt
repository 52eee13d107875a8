//! Weights in use.
ghost use Rattle.std.specs.Prelude.{◌≡◌, SomeIff};
ghost use Rattle.cpi_index.specs.Weights.{IsEffective};

use crate::limits::MOST_WEIGHT_IN_USE;
use cpi_codes::Code;
use std::marker::Model;

/// The weight in use of an elementary aggregate: 1 to 10^9. A plan's own weights are parts per million; when
/// prices move them, their sum changes.
#[derive(Clone, Copy, PartialEq, Eq)]
pub struct EffectiveWeight {
    code: Code,
    parts: u32,
}

impl Model for EffectiveWeight {
    ghost use Rattle.cpi_plan.specs.declared.plan_rows.Weight.{Weight};
    ghost use Rattle.cpi_index.specs.Weights.{IsEffective};

    ghost Value = { Weight };

    ghost view = { λ w. record { code = w.code; parts = w.parts } };

    ghost invariant = { λ w. IsEffective w.parts };

    ghost inverse = { λ w. record { code = w.code; parts = w.parts } };
}

impl EffectiveWeight {
    /// The weight in use of an aggregate; none outside 1 to 10^9.
    pub fn new(code: Code, parts: u128) -> Option<EffectiveWeight>
        ensures { SomeIff result (IsEffective parts) (record { code = code; parts = parts }) }
    {
        if parts < 1 || MOST_WEIGHT_IN_USE < parts {
            return None;
        }
        Some(EffectiveWeight {
            code,
            parts: parts as u32,
        })
    }

    /// The elementary aggregate.
    pub fn code(self) -> Code
        ensures { result ≡ self.code }
    {
        self.code
    }

    /// The weight, 1 to 10^9.
    pub fn parts(self) -> u32
        ensures value { result ≡ self.parts }
        ensures range { IsEffective result }
    {
        self.parts
    }
}
