//! The check of a price against the bounds round the last one.
ghost use Rattle.std.specs.Prelude.{◌≡◌};
ghost use Rattle.cpi_survey.specs.Tolerance.{high_bound, low_bound, verdict};

use cpi_codes::Price;
use cpi_plan::{Item, PER_MILLE};

/// Whether a price is within the bounds that an item sets round the last price.
#[derive(Clone, Copy, PartialEq, Eq)]
pub enum Verdict {
    /// The price is between the bounds, or at one of them.
    Inside,
    /// The price is below `low` or above `high`. Both are in minor units, and at most 1,000,000,000: ten times the
    /// greatest price.
    Outside {
        /// The least price that lies inside.
        low: u64,
        /// The greatest price that lies inside.
        high: u64,
    },
}

/// Checks a price against the last one. It is inside from the item's low per mille of the last price, rounded up, to
/// its high per mille, rounded down. The check takes no memory. The
/// Consumer Price Index Manual has such checks in its chapter on price collection and validation.
pub fn check(item: &Item, last: Price, price: Price) -> Verdict
    ensures { result ≡ verdict item.now last price }
{
    let low = low_bound(item, last);
    let high = high_bound(item, last);
    let units = u64::from(price.units());
    if low <= units && units <= high {
        Verdict::Inside
    } else {
        Verdict::Outside { low, high }
    }
}

// The least price inside, in minor units.
fn low_bound(item: &Item, last: Price) -> u64
    ensures { result ≡ low_bound item.now last }
{
    let per_mille = u64::from(item.low.per_mille());
    (u64::from(last.units()) * per_mille).div_ceil(PER_MILLE)
}

// The greatest price inside, in minor units.
fn high_bound(item: &Item, last: Price) -> u64
    ensures { result ≡ high_bound item.now last }
{
    let per_mille = u64::from(item.high.per_mille());
    u64::from(last.units()) * per_mille / PER_MILLE
}
