//! The indices of the elementary aggregates.
ghost use Rattle.std.specs.Prelude.{◌≡◌, ◌≢◌, ◌≤◌, None, Some, length, true, false, ◌&&◌};
ghost use Rattle.std.specs.Prelude.{option_map, MatchResult, IfOk, IsErrAnd};
ghost use Rattle.cpi_index.specs.Series.{are_by_series, carried_serial};
ghost use Rattle.cpi_index.specs.Sample.{no_sample, first_code};
ghost use Rattle.cpi_index.specs.Indices.{elementary_indices, index_fault, is_index_out};
ghost use Rattle.cpi_index.specs.Means.{are_indices_in};
ghost use Rattle.cpi_index.specs.Unfit.{IsFirstOutOfRange};
ghost use Rattle.cpi_index.specs.declared.fault.IndexFault.TheVariants.{OutOfRange, NoMemory};
ghost use Rattle.cpi_codes.specs.declared.limits.TheConstants.{MOST_SERIES};

use crate::carried::CarriedPrice;
use crate::dutot::dutot;
use crate::fault::IndexFault;
use crate::index::NodeIndex;
use crate::lists::carry::first_aggregate;
use crate::lists::totals::sums_of;
use crate::lists::year::first_without;
use crate::series::is_by_series;
use cpi_plan::YearPlan;
use std::alloc::Global;

// The indices of all aggregates, of which none has an empty sample; else the first outside the limits.
fn indices_of(
    alloc: Global,
    plan: &YearPlan,
    bases: &[CarriedPrice],
    carried: &[CarriedPrice],
) -> Result<Vec<NodeIndex>, IndexFault>
    requires bases { length bases.now ≤ MOST_SERIES }
    requires carried { length carried.now ≤ MOST_SERIES }
    requires samples { no_sample plan.now bases.now ≡ None }
    ensures { let out = option_map OutOfRange
        (first_code (is_index_out plan.now bases.now carried.now) plan.now.weights) in MatchResult result
        (λ v. (out ≡ None) × (v.items ≡ elementary_indices plan.now bases.now carried.now))
        (λ f. f ≢ NoMemory → out ≡ Some f) }
{
    let Ok(current) = sums_of(alloc, plan, carried) else {
        return Err(IndexFault::NoMemory);
    };
    let Ok(base) = sums_of(alloc, plan, bases) else {
        return Err(IndexFault::NoMemory);
    };
    let weights = plan.weights();
    let mut indices = Vec::new(alloc);
    for place in 0..weights.len() {
        let code = weights[place].code;
        let Some(index) = dutot(current[place], base[place]) else {
            return Err(IndexFault::OutOfRange(code));
        };
        let Ok(()) = indices.push(NodeIndex { code, index }) else {
            return Err(IndexFault::NoMemory);
        };
    }
    Ok(indices)
}

/// The Dutot index of each elementary aggregate, in code order, or the first fault. `bases` are those of the year,
/// `carried` the carried prices of the month, both by series. `NoSample` names the first aggregate without a base,
/// `OutOfRange` the first whose index is outside 1 to 10^13, or the first aggregate if a list isn't by series.
/// O(n log m) for n series and m aggregates.
#[tactic(auto, using(crate::proofs::Ordered::indices_are))]
pub fn elementary(
    alloc: Global,
    plan: &YearPlan,
    bases: &[CarriedPrice],
    carried: &[CarriedPrice],
) -> Result<Vec<NodeIndex>, IndexFault>
    ensures indices { are_by_series carried_serial bases.now ≡ true → are_by_series carried_serial carried.now ≡ true →
        let fault = index_fault plan.now bases.now carried.now in MatchResult result
        (λ v. (fault ≡ None) × (v.items ≡ elementary_indices plan.now bases.now carried.now))
        (λ f. f ≢ NoMemory → fault ≡ Some f) }
    ensures each { IfOk result (λ v. are_indices_in plan.now.weights v.items ≡ true) }
    ensures unfit { (are_by_series carried_serial bases.now && are_by_series carried_serial carried.now) ≡ false →
        IsErrAnd result (IsFirstOutOfRange plan.now) }
{
    if !is_by_series(bases) || !is_by_series(carried) {
        return Err(IndexFault::OutOfRange(first_aggregate(plan)));
    }
    let Ok(without) = first_without(alloc, plan, bases) else {
        return Err(IndexFault::NoMemory);
    };
    match without {
        Some(code) => Err(IndexFault::NoSample(code)),
        None => indices_of(alloc, plan, bases, carried),
    }
}
