//! Assignments.
ghost use Rattle.std.specs.Prelude.{◌≡◌};
ghost use Rattle.cpi_survey.specs.Assignment.{is_active, same_assignment};

use cpi_codes::{ItemCode, Month, Name, OutletId, Price, Slot};
use cpi_rows::Keyed;

/// The assignment of a slot to a collector: an item to price in an outlet, from the first month to the last.
#[derive(Clone, Copy, PartialEq, Eq)]
pub struct Assignment {
    /// The slot of the collector, by which the assignment is found.
    pub slot: Slot,
    /// The outlet in which the item is priced.
    pub outlet: OutletId,
    /// The item that is priced.
    pub item: ItemCode,
    /// The first month in which the slot is active.
    pub first_month: Month,
    /// The last month in which the slot is active.
    pub last_month: Month,
    /// The last price that was handed over with the series, in minor units. It is `None` if the series is the slot's
    /// own, or if there was no price to hand over.
    pub copied: Option<Price>,
}

impl Assignment {
    /// Whether both have the same content, field by field.
    pub fn is_same(&self, other: &Assignment) -> bool
        ensures { result ≡ same_assignment self.now other.now }
    {
        self.slot == other.slot
            && self.outlet == other.outlet
            && self.item == other.item
            && self.first_month == other.first_month
            && self.last_month == other.last_month
            && self.copied == other.copied
    }

    /// Whether the slot is active in the month: from the first month to the last, both included.
    pub fn is_active(&self, month: Month) -> bool
        ensures { result ≡ is_active month self.now }
    {
        self.first_month <= month && month <= self.last_month
    }
}

impl Keyed for Assignment {
    type Key = Slot;

    ghost key = { λ a. a.slot };

    fn key(&self) -> Slot {
        self.slot
    }
}

/// An assignment with its outlet's name, as its collector sees it.
#[derive(Drop)]
pub struct Assigned {
    /// The assignment.
    pub assignment: Assignment,
    /// The name of the assignment's outlet.
    pub outlet_name: Name,
}

impl Keyed for Assigned {
    type Key = Slot;

    ghost key = { λ a. a.assignment.slot };

    fn key(&self) -> Slot {
        self.assignment.slot
    }
}
