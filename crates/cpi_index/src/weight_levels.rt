//! Weights with the levels that they are moved by.
use crate::level::ChainedLevel;
use cpi_plan::Weight;

/// The weight of an elementary aggregate in a plan, with the aggregate's chained levels in the link month and in the
/// plan's reference month; none without a row in that month's table.
#[derive(Clone, Copy, PartialEq, Eq)]
pub struct WeightLevels {
    pub weight: Weight,
    pub link: Option<ChainedLevel>,
    pub reference: Option<ChainedLevel>,
}
