//! Sums of weights in use.
ghost use Rattle.std.specs.Prelude.{◌≡◌, SomeIff};
ghost use Rattle.cpi_index.specs.Weights.{IsNodeWeight};

use crate::limits::MOST_NODE_WEIGHT;
use std::marker::Model;

/// The sum of the weights in use at and below a node: 1 to 10^15.
#[derive(Clone, Copy, PartialEq, Eq)]
pub struct NodeWeight {
    parts: u64,
}

impl Model for NodeWeight {
    ghost use Rattle.std.specs.Prelude.{ℕ};
    ghost use Rattle.cpi_index.specs.Weights.{IsNodeWeight};

    ghost Value = { ℕ };

    ghost view = { λ w. w.parts };

    ghost invariant = { λ w. IsNodeWeight w.parts };

    ghost inverse = { λ n. record { parts = n } };
}

impl NodeWeight {
    /// The sum of so many parts; none outside 1 to 10^15.
    pub fn new(parts: u128) -> Option<NodeWeight>
        ensures { SomeIff result (IsNodeWeight parts) parts }
    {
        if parts < 1 || MOST_NODE_WEIGHT < parts {
            return None;
        }
        Some(NodeWeight {
            parts: parts as u64,
        })
    }

    /// The parts, 1 to 10^15.
    pub fn parts(self) -> u64
        ensures value { result ≡ self }
        ensures range { IsNodeWeight result }
    {
        self.parts
    }
}
