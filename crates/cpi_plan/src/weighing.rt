//! The tests and the sums of a plan's weights.
ghost use Rattle.std.specs.Prelude.{ℕ, List};
ghost use Rattle.cpi_codes.specs.CodeOrder.{code_cmp};
ghost use Rattle.cpi_rows.specs.Keyed.{IsInOrder};
ghost use Rattle.cpi_plan.specs.Plan.{plan_body_of};
ghost use Rattle.cpi_plan.specs.Weighing.{IsWeighed};
ghost use Rattle.cpi_plan.specs.declared.items.Item.{Item};

use crate::checks::{are_elementary, first_untitled, has_zero, total, weight_sums};
use crate::limits::ALL_PARTS;
use crate::plan_faults::PlanFault;
use crate::plan_rows::{Place, Title, Weight};
use cpi_codes::Code;
use std::alloc::Global;
use std::collections::BTreeMap;

// The sums of the weights at and below each code, in parts per million, or the first fault of aggregates, weights and
// titles.
pub(crate) fn weighed(
    alloc: Global,
    titles: &[Title],
    weights: &[Weight],
    places: &[Place],
) -> Result<BTreeMap<Code, u128>, PlanFault>
    requires titles_in_order { IsInOrder code_cmp (λ t. t.code) titles.now }
    requires weights_in_order { IsInOrder code_cmp (λ w. w.code) weights.now }
    ensures { (year : ℕ) (known : List Item) (references : List ℕ) →
        IsWeighed year (plan_body_of known titles.now weights.now places.now references) result }
{
    if !are_elementary(weights, places) {
        return Err(PlanFault::NotElementary);
    }
    if has_zero(weights) {
        return Err(PlanFault::ZeroWeight);
    }
    let found = total(weights);
    if found != u128::from(ALL_PARTS) {
        return Err(PlanFault::WeightSum(found));
    }
    let sums = weight_sums(alloc, weights).map_err(|_| PlanFault::NoMemory)?;
    if let Some(code) = first_untitled(&sums, titles) {
        return Err(PlanFault::TitleMissing(code));
    }
    Ok(sums)
}
