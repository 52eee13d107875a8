//! Entries of collectors.
use crate::mark::Mark;
use cpi_codes::{Month, Slot};
use std::marker::Model;

/// An entry that a collector sends: the mark for a slot in a month, and whether the collector checked an unlikely price
/// again.
#[derive(Clone, Copy, PartialEq, Eq)]
pub struct Entry {
    /// The slot that was priced.
    pub slot: Slot,
    /// The month for which it was priced.
    pub month: Month,
    /// The price that the collector found, or the reason that there is none.
    pub mark: Mark,
    /// Whether the collector confirms the price. It isn't stored: entries that differ only in it are the same entry.
    pub confirm: bool,
}

impl Model for Entry {
    ghost use Rattle.cpi_survey.specs.Entry.{EntryRow};

    ghost Value = { EntryRow };

    ghost view = { λ e. record { slot = e.slot; month = e.month; mark = e.mark; confirm = e.confirm } };

    ghost inverse = { λ e. record { slot = e.slot; month = e.month; mark = e.mark; confirm = e.confirm } };
}
