//! Items of the survey.
ghost use Rattle.std.specs.Prelude.{◌≡◌, IfOk};
ghost use Rattle.cpi_plan.specs.Items.{same_item};

use crate::tolerances::{HighTolerance, LowTolerance};
use cpi_codes::{ItemCode, Name};
use cpi_rows::Keyed;
use std::alloc::{AllocError, Global};

/// An item that is priced: its text, the unit that is priced, and how far a price may be from the last one before the
/// collector has to confirm it.
#[derive(Drop)]
pub struct Item {
    /// The code, by which the item is found.
    pub code: ItemCode,
    /// The description that collectors see.
    pub text: Name,
    /// The unit that is priced.
    pub unit: Name,
    /// The lower bound of a price, in per mille of the last price.
    pub low: LowTolerance,
    /// The upper bound of a price, in per mille of the last price.
    pub high: HighTolerance,
}

impl Item {
    /// Whether the two items have the same content.
    pub fn is_same(&self, other: &Item) -> bool
        ensures { result ≡ same_item self.now other.now }
    {
        self.code == other.code
            && self.text.is_same(&other.text)
            && self.unit.is_same(&other.unit)
            && self.low == other.low
            && self.high == other.high
    }

    /// A copy of the item. An `Err` says that memory was refused.
    pub fn copy(&self, alloc: Global) -> Result<Item, AllocError>
        ensures { IfOk result (λ i. i ≡ self.now) }
    {
        Ok(Item {
            code: self.code,
            text: self.text.copy(alloc)?,
            unit: self.unit.copy(alloc)?,
            low: self.low,
            high: self.high,
        })
    }
}

impl Keyed for Item {
    type Key = ItemCode;

    ghost key = { λ i. i.code };

    fn key(&self) -> ItemCode {
        self.code
    }
}
