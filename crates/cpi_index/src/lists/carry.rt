//! The carried prices of a month.
ghost use Rattle.std.specs.Prelude.{◌≡◌, ◌≢◌, ◌≤◌, None, Some, length, true, false, ◌&&◌};
ghost use Rattle.std.specs.Prelude.{MatchResult, IfOk, IsErrAnd};
ghost use Rattle.cpi_index.specs.Series.{are_by_series, carried_serial, frozen_serial};
ghost use Rattle.cpi_index.specs.Month.{rows_of_month, carried_in_month, month_fault};
ghost use Rattle.cpi_index.specs.Unfit.{first_aggregate_of, IsFirstOutOfRange};
ghost use Rattle.cpi_index.specs.declared.fault.IndexFault.TheVariants.{NoMemory};
ghost use Rattle.cpi_codes.specs.declared.limits.TheConstants.{MOST_SERIES};

use crate::carried::CarriedPrice;
use crate::fault::IndexFault;
use crate::frozen::FrozenQuote;
use crate::lists::month::{PlaceFault, carry_placed};
use crate::places::{place_rows, unchanged_of};
use crate::row::GroupRow;
use crate::rows::rows_of;
use crate::series::is_by_series;
use cpi_codes::Code;
use cpi_plan::YearPlan;
use std::alloc::Global;

// The first aggregate of a plan.
#[tactic(auto, using(crate::proofs::FirstCode::some_first))]
pub(crate) fn first_aggregate(plan: &YearPlan) -> Code
    ensures { first_aggregate_of plan.now ≡ Some result }
{
    plan.weights()[0].code
}

// The carried prices of a month's rows, by series; else the first fault.
fn carry_rows(
    alloc: Global,
    plan: &YearPlan,
    rows: &[GroupRow],
    carry: &[Code],
) -> Result<Vec<CarriedPrice>, IndexFault>
    requires { length rows.now ≤ MOST_SERIES }
    ensures { let fault = month_fault plan.now carry.now rows.now in MatchResult result
        (λ v. (fault ≡ None) × (v.items ≡ carried_in_month plan.now rows.now))
        (λ f. f ≢ NoMemory → fault ≡ Some f) }
{
    let Ok(placed) = place_rows(alloc, plan, rows) else {
        return Err(IndexFault::NoMemory);
    };
    let weights = plan.weights();
    let Ok(unchanged) = unchanged_of(alloc, weights, carry) else {
        return Err(IndexFault::NoMemory);
    };
    let fault = match carry_placed(alloc, &placed, &unchanged) {
        Ok(carried) => return Ok(carried),
        Err(fault) => fault,
    };
    match fault {
        PlaceFault::NoSample(place) => Err(IndexFault::NoSample(weights[place].code)),
        PlaceFault::NoMatch(place) => Err(IndexFault::NoMatch(weights[place].code)),
        PlaceFault::OutOfRange(place) => Err(IndexFault::OutOfRange(weights[place].code)),
        PlaceFault::NoMemory => Err(IndexFault::NoMemory),
    }
}

/// The carried prices of a month, by series, or the first fault. `bases` are those of the year, `prev` the carried
/// prices of the month before, in January the bases themselves, `frozen` the quotes of the month's freeze, all three
/// by series; `carry` lists the aggregates that may be carried unchanged if nothing is matched. `OutOfRange` of the
/// first aggregate if a list isn't by series. O(n log m) for n series and m aggregates.
#[tactic(auto, using(crate::proofs::CarryRise::carry_rises))]
pub fn carry_month(
    alloc: Global,
    plan: &YearPlan,
    bases: &[CarriedPrice],
    prev: &[CarriedPrice],
    frozen: &[FrozenQuote],
    carry: &[Code],
) -> Result<Vec<CarriedPrice>, IndexFault>
    ensures carried { are_by_series carried_serial bases.now ≡ true → are_by_series carried_serial prev.now ≡ true →
        are_by_series frozen_serial frozen.now ≡ true →
        let rows = rows_of_month bases.now prev.now frozen.now in let fault = month_fault plan.now carry.now rows in
        MatchResult result
        (λ v. (fault ≡ None) × (v.items ≡ carried_in_month plan.now rows))
        (λ f. f ≢ NoMemory → fault ≡ Some f) }
    ensures order { IfOk result (λ v. are_by_series carried_serial v.items ≡ true) }
    ensures unfit { (are_by_series carried_serial bases.now && are_by_series carried_serial prev.now
        && are_by_series frozen_serial frozen.now) ≡ false → IsErrAnd result (IsFirstOutOfRange plan.now) }
{
    if !is_by_series(bases) || !is_by_series(prev) || !is_by_series(frozen) {
        return Err(IndexFault::OutOfRange(first_aggregate(plan)));
    }
    let Ok(rows) = rows_of(alloc, bases, prev, frozen) else {
        return Err(IndexFault::NoMemory);
    };
    carry_rows(alloc, plan, &rows, carry)
}
