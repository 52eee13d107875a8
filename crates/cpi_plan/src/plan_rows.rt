//! The rows of a yearly plan, as the desk sends them and as the plan keeps them.
ghost use Rattle.std.specs.Prelude.{◌≡◌};

use cpi_codes::{Code, ItemCode, Name};
use cpi_rows::Keyed;

/// The title of a code, as the desk sends it.
#[derive(Drop)]
pub struct Title {
    /// The code that has the title.
    pub code: Code,
    /// The title.
    pub title: Name,
}

/// The weight of an elementary aggregate. The Consumer Price Index Manual has a chapter on weights and their sources.
#[derive(Clone, Copy, PartialEq, Eq)]
pub struct Weight {
    /// The elementary aggregate.
    pub code: Code,
    /// The weight, in parts per million of all.
    pub parts: u32,
}

/// The elementary aggregate in which an item is placed.
#[derive(Clone, Copy, PartialEq, Eq)]
pub struct Place {
    /// The item.
    pub item: ItemCode,
    /// The elementary aggregate, by which the item's prices enter the index.
    pub aggregate: Code,
}

/// A node of a plan: an elementary aggregate with weight or a code above one.
#[derive(Drop)]
pub struct Node {
    /// The code.
    pub code: Code,
    /// The title of the code.
    pub title: Name,
    /// The sum of the weights at and below the code, in parts per million.
    pub weight: u32,
}

impl Keyed for Title {
    type Key = Code;

    ghost key = { λ t. t.code };

    fn key(&self) -> Code {
        self.code
    }
}

impl Keyed for Weight {
    type Key = Code;

    ghost key = { λ w. w.code };

    fn key(&self) -> Code {
        self.code
    }
}

impl Keyed for Place {
    type Key = ItemCode;

    ghost key = { λ p. p.item };

    fn key(&self) -> ItemCode {
        self.item
    }
}

impl Keyed for Node {
    type Key = Code;

    ghost key = { λ n. n.code };

    fn key(&self) -> Code {
        self.code
    }
}
