//! What slots were given.
use cpi_codes::{SeriesId, Slot};
use cpi_rows::Keyed;
use cpi_survey::Assignment;

/// What a slot of a collector was given: an assignment, and the series that it prices.
#[derive(Clone, Copy, PartialEq, Eq)]
pub struct Given {
    /// What the slot is for.
    pub assignment: Assignment,
    /// The series that is priced, named by the collector and the slot that it was first given to.
    pub series: SeriesId,
}

impl Keyed for Given {
    type Key = Slot;

    ghost key = { λ g. g.assignment.slot };

    fn key(&self) -> Slot {
        self.assignment.slot
    }
}
