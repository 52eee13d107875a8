//! The bases of a year's samples.
ghost use Rattle.std.specs.Prelude.{◌≡◌, ◌≢◌, ◌≤◌, None, Some, length, true, false, ◌&&◌};
ghost use Rattle.std.specs.Prelude.{option_map, MatchResult, IfOk, IsErrAnd};
ghost use Rattle.cpi_index.specs.Series.{are_by_series, carried_serial, frozen_serial};
ghost use Rattle.cpi_index.specs.Sample.{bases_in_year, no_sample};
ghost use Rattle.cpi_index.specs.Unfit.{IsFirstOutOfRange};
ghost use Rattle.cpi_index.specs.declared.fault.IndexFault.TheVariants.{NoSample, NoMemory};
ghost use Rattle.cpi_codes.specs.declared.limits.TheConstants.{MOST_SERIES};

use crate::bases::all_bases;
use crate::carried::CarriedPrice;
use crate::fault::IndexFault;
use crate::frozen::FrozenQuote;
use crate::lists::carry::first_aggregate;
use crate::lists::totals::{first_zero, sums_of};
use crate::series::is_by_series;
use cpi_codes::Code;
use cpi_plan::YearPlan;
use std::alloc::{AllocError, Global};

// The first aggregate, in code order, without a base in its sample.
pub(crate) fn first_without(
    alloc: Global,
    plan: &YearPlan,
    bases: &[CarriedPrice],
) -> Result<Option<Code>, AllocError>
    requires { length bases.now ≤ MOST_SERIES }
    ensures { IfOk result (λ code. code ≡ no_sample plan.now bases.now) }
{
    let sums = sums_of(alloc, plan, bases)?;
    match first_zero(&sums) {
        Some(place) => Ok(Some(plan.weights()[place].code)),
        None => Ok(None),
    }
}

/// The bases of a year's samples, by series, or the first fault. `prev` are the carried prices of the link month,
/// December of the year before, none if that year had no sample; `frozen` are the quotes of its freeze; both by
/// series. A series that was observed in the link month has its price as base, every other of `prev` its carried
/// price. `NoSample` names the first aggregate without a base; `OutOfRange` the first aggregate if a list isn't by
/// series. O(n log m) for n series and m aggregates.
#[tactic(auto, using(crate::proofs::Kept::bases_rise))]
pub fn bases_of_year(
    alloc: Global,
    plan: &YearPlan,
    prev: &[CarriedPrice],
    frozen: &[FrozenQuote],
) -> Result<Vec<CarriedPrice>, IndexFault>
    ensures bases { are_by_series carried_serial prev.now ≡ true → are_by_series frozen_serial frozen.now ≡ true →
        let bases = bases_in_year plan.now prev.now frozen.now in
        let fault = option_map NoSample (no_sample plan.now bases) in MatchResult result
        (λ v. (fault ≡ None) × (v.items ≡ bases))
        (λ f. f ≢ NoMemory → fault ≡ Some f) }
    ensures order { IfOk result (λ v. are_by_series carried_serial v.items ≡ true) }
    ensures unfit { (are_by_series carried_serial prev.now && are_by_series frozen_serial frozen.now) ≡ false →
        IsErrAnd result (IsFirstOutOfRange plan.now) }
{
    if !is_by_series(prev) || !is_by_series(frozen) {
        return Err(IndexFault::OutOfRange(first_aggregate(plan)));
    }
    let Ok(bases) = all_bases(alloc, plan, prev, frozen) else {
        return Err(IndexFault::NoMemory);
    };
    if !is_by_series(&bases) {
        return Err(IndexFault::OutOfRange(first_aggregate(plan)));
    }
    let Ok(without) = first_without(alloc, plan, &bases) else {
        return Err(IndexFault::NoMemory);
    };
    match without {
        Some(code) => Err(IndexFault::NoSample(code)),
        None => Ok(bases),
    }
}
