//! The sums of carried prices of all aggregates, in one pass.
ghost use Rattle.std.specs.Prelude.{◌≡◌, ℕ, ◌<◌, ◌≤◌, ◌*◌, length, map, slice_index_or, IfOk, MatchOption};
ghost use Rattle.cpi_plan.specs.declared.plan_rows.Weight.{Weight};
ghost use Rattle.cpi_index.specs.Sample.{sample};
ghost use Rattle.cpi_index.specs.Indices.{total_of};
ghost use Rattle.cpi_index.specs.Totals.{pair_of, pairs, total_at, is_zero_at};
ghost use Rattle.cpi_index.specs.Places.{NoneBelow, IsFirstPlace};
ghost use Rattle.cpi_index.specs.declared.limits.TheConstants.{MOST_SUM_OF_TICKS};
ghost use Rattle.cpi_codes.specs.declared.limits.TheConstants.{MOST_SERIES};

use crate::carried::CarriedPrice;
use crate::lists::ticks::PlacedTicks;
use crate::places::place_of_item;
use cpi_plan::YearPlan;
use std::alloc::{AllocError, Global};

// The ticks of each carried price, with the place of its aggregate; those whose item the plan doesn't place are left
// out.
fn entries(
    alloc: Global,
    plan: &YearPlan,
    carried: &[CarriedPrice],
) -> Result<Vec<PlacedTicks>, AllocError>
    ensures pairs { IfOk result (λ v. map pair_of v.items ≡ pairs plan.now carried.now) }
    ensures few { IfOk result (λ v. length v.items ≤ length carried.now) }
{
    let mut entries = Vec::new(alloc);
    for price in carried {
        if let Some(place) = place_of_item(plan, price.item()) {
            entries.push(PlacedTicks {
                place,
                ticks: price.ticks(),
            })?;
        }
    }
    Ok(entries)
}

// The sum of the ticks at each place.
fn totals(alloc: Global, entries: &[PlacedTicks], count: usize) -> Result<Vec<u128>, AllocError>
    requires few { length entries.now ≤ MOST_SERIES }
    ensures count { IfOk result (λ v. length v.items ≡ count) }
    ensures each { IfOk result (λ v. (k : ℕ) (d : ℕ) → k < count → slice_index_or v.items k d
        ≡ total_at k entries.now) }
    ensures limit { IfOk result (λ v. (k : ℕ) (d : ℕ) → k < count →
        slice_index_or v.items k d ≤ MOST_SUM_OF_TICKS) }
{
    let mut totals = vec![in alloc; 0_u128; count]?;
    for entry in entries {
        if entry.place < totals.len() {
            totals[entry.place] += u128::from(entry.ticks);
        }
    }
    Ok(totals)
}

// The sum of the carried prices of each aggregate, in the order of the weights.
pub(crate) fn sums_of(
    alloc: Global,
    plan: &YearPlan,
    carried: &[CarriedPrice],
) -> Result<Vec<u128>, AllocError>
    requires few { length carried.now ≤ MOST_SERIES }
    ensures count { IfOk result (λ v. length v.items ≡ length plan.now.weights) }
    ensures each { IfOk result (λ v. (k : ℕ) (d : ℕ) (w : Weight) → k < length plan.now.weights →
        slice_index_or v.items k d ≡ total_of plan.now (slice_index_or plan.now.weights k w).code carried.now) }
    ensures limit { IfOk result (λ v. (k : ℕ) (d : ℕ) → k < length plan.now.weights →
        slice_index_or v.items k d ≤ MOST_SUM_OF_TICKS) }
    ensures least { IfOk result (λ v. (k : ℕ) (d : ℕ) (w : Weight) → k < length plan.now.weights →
        length (sample plan.now (slice_index_or plan.now.weights k w).code carried.now) ≤ slice_index_or v.items k d) }
{
    let entries = entries(alloc, plan, carried)?;
    let weights = plan.weights();
    let sums = totals(alloc, &entries, weights.len())?;
    Ok(sums)
}

// The place of the first sum that is 0.
pub(crate) fn first_zero(sums: &[u128]) -> Option<usize>
    ensures { let test = is_zero_at sums.now
        in MatchOption result (NoneBelow test (length sums.now)) (IsFirstPlace test (length sums.now)) }
{
    for place in 0..sums.len() {
        if sums[place] == 0 {
            return Some(place);
        }
    }
    None
}
