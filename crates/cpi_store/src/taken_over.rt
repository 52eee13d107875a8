//! A slot that took a series over.
ghost use Rattle.std.specs.Prelude.{◌≡◌};

use crate::series_move::SeriesMove;
use cpi_codes::{CollectorId, SeriesId, Slot};
use cpi_rows::Keyed;

/// A slot that took a series over, with that series.
#[derive(Clone, Copy)]
pub struct TakenOver {
    pub collector: CollectorId,
    pub slot: Slot,
    pub series: SeriesId,
}

impl TakenOver {
    /// The new slot of a handover, with the series that it takes over.
    pub fn of(handover: &SeriesMove) -> TakenOver
        ensures { result ≡ record {
          collector = handover.now.taker.number;
          slot = handover.now.assigned.assignment.slot;
          series = handover.now.ended.series;
        } }
    {
        TakenOver {
            collector: handover.taker.number,
            slot: handover.assigned.assignment.slot,
            series: handover.ended.series,
        }
    }
}

impl Keyed for TakenOver {
    type Key = (CollectorId, Slot);

    ghost key = { λ t. (t.collector, t.slot) };

    fn key(&self) -> (CollectorId, Slot) {
        (self.collector, self.slot)
    }
}
