//! Series that go from one slot to another.
use crate::given::Given;
use crate::registration::Registration;
use cpi_survey::Assigned;

/// A series that goes from a slot of one collector to a new slot of another collector, or of the same one.
#[derive(Drop)]
pub struct SeriesMove {
    /// The collector who had the series.
    pub former: Registration,
    /// What the former collector's slot was given, with the last month that it has from now on.
    pub ended: Given,
    /// The collector who takes the series over.
    pub taker: Registration,
    /// What the new slot is given, with its outlet's name. It prices the same series.
    pub assigned: Assigned,
}
