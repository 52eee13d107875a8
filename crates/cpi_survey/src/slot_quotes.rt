//! The quotes of one slot.
use crate::quote::Quote;
use cpi_codes::Slot;
use cpi_rows::Keyed;

/// The stored quotes of one slot, by month.
#[derive(Drop)]
pub struct SlotQuotes {
    /// The slot.
    pub slot: Slot,
    /// Its quotes, one a month, in the order of months.
    pub quotes: Vec<Quote>,
}

impl Keyed for SlotQuotes {
    type Key = Slot;

    ghost key = { λ s. s.slot };

    fn key(&self) -> Slot {
        self.slot
    }
}
