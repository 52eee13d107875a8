//! The Dutot index of an elementary aggregate.
ghost use Rattle.std.specs.Prelude.{◌≤◌, ◌<◌, SomeIff};
ghost use Rattle.cpi_index.specs.Aggregate.{dutot_index, IsIndex};
ghost use Rattle.cpi_index.specs.declared.limits.TheConstants.{MOST_SUM_OF_TICKS};

use crate::index::Index;
use crate::limits::HUNDRED_POINTS;
use cpi_codes::round_div;

// The index of an aggregate from the sums over its sample, in ticks; none outside 1 to 10^13 millionths of a point.
pub(crate) fn dutot(current: u128, base: u128) -> Option<Index>
    requires base { 0 < base }
    requires current { current ≤ MOST_SUM_OF_TICKS }
    requires base_limit { base ≤ MOST_SUM_OF_TICKS }
    ensures { let index = dutot_index current base in SomeIff result (IsIndex index) index }
{
    Index::new(round_div(u128::from(HUNDRED_POINTS) * current, base))
}
