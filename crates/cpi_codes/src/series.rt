//! Series.
use crate::collectors::CollectorId;
use crate::slots::Slot;

/// One item priced in one outlet: a slot of a collector.
#[derive(Clone, Copy, Debug, PartialEq, Eq, PartialOrd, Ord)]
pub struct SeriesId {
    pub collector: CollectorId,
    pub slot: Slot,
}
