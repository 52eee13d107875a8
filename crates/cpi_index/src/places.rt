//! Rows placed with their aggregates, and grouped by them.
ghost use Rattle.std.specs.Prelude.{◌≡◌, ℕ, ◌<◌, [], length, false, ◌||◌, slice_index_or, IfOk};
ghost use Rattle.cpi_codes.specs.CodeOrder.{code_cmp};
ghost use Rattle.cpi_rows.specs.Keyed.{IsInOrder};
ghost use Rattle.cpi_plan.specs.declared.plan_rows.Weight.{Weight};
ghost use Rattle.cpi_index.specs.Month.{is_listed};
ghost use Rattle.cpi_index.specs.Places.{place_among, place_in, is_place, rows_with_places, AreBuckets};

use crate::placed::PlacedRow;
use crate::row::GroupRow;
use cpi_codes::{Code, ItemCode};
use cpi_plan::{Weight, YearPlan};
use std::alloc::{AllocError, Global};

// The place of an aggregate among the weights.
pub(crate) fn place_of(weights: &[Weight], aggregate: Code) -> Option<usize>
    requires { IsInOrder code_cmp (λ w. w.code) weights.now }
    ensures { result ≡ place_among aggregate weights.now }
{
    match cpi_rows::place_of(weights, &aggregate) {
        Ok(place) => Some(place),
        Err(_) => None,
    }
}

// The place of the aggregate in which the plan places an item.
pub(crate) fn place_of_item(plan: &YearPlan, item: ItemCode) -> Option<usize>
    ensures { result ≡ place_in plan.now item }
{
    let aggregate = plan.aggregate_of(&item)?;
    place_of(plan.weights(), aggregate)
}

// Each row with the place of its aggregate; those whose item the plan doesn't place are left out.
pub(crate) fn place_rows(
    alloc: Global,
    plan: &YearPlan,
    rows: &[GroupRow],
) -> Result<Vec<PlacedRow>, AllocError>
    ensures { IfOk result (λ v. v.items ≡ rows_with_places plan.now rows.now) }
{
    let mut placed = Vec::with_capacity(alloc, rows.len())?;
    for row in rows {
        if let Some(place) = place_of_item(plan, row.link.item()) {
            placed.push(PlacedRow { place, row: *row })?;
        }
    }
    Ok(placed)
}

// The marks with that of a place set, if there is such a place.
fn marked(mut marks: Vec<bool>, place: Option<usize>) -> Vec<bool>
    ensures count { length result.items ≡ length marks.items }
    ensures each { (k : ℕ) → k < length marks.items → slice_index_or result.items k false
        ≡ (slice_index_or marks.items k false || is_place k place) }
{
    if let Some(place) = place
        && place < marks.len()
    {
        marks[place] = true;
    }
    marks
}

/// For each weight, whether its aggregate is listed. The caller owes that the weights are in code order.
/// O(n log m) for n listed and m weights.
pub fn unchanged_of(
    alloc: Global,
    weights: &[Weight],
    carry: &[Code],
) -> Result<Vec<bool>, AllocError>
    requires { IsInOrder code_cmp (λ w. w.code) weights.now }
    ensures count { IfOk result (λ v. length v.items ≡ length weights.now) }
    ensures each { IfOk result (λ v. (k : ℕ) (d : Weight) → k < length weights.now → slice_index_or v.items k false
        ≡ is_listed carry.now (slice_index_or weights.now k d).code) }
{
    let mut unchanged = vec![in alloc; false; weights.len()]?;
    for code in carry {
        unchanged = marked(unchanged, place_of(weights, *code));
    }
    Ok(unchanged)
}

// So many lists without a row.
fn empty_groups(alloc: Global, count: usize) -> Result<Vec<Vec<GroupRow>>, AllocError>
    ensures { IfOk result (λ v. AreBuckets count [] v.items) }
{
    let mut groups = Vec::new(alloc);
    for place in 0..count {
        groups.push(Vec::new(alloc))?;
    }
    Ok(groups)
}

// The rows of each aggregate, in the order of the rows.
pub(crate) fn group_rows(
    alloc: Global,
    rows: &[PlacedRow],
    count: usize,
) -> Result<Vec<Vec<GroupRow>>, AllocError>
    ensures { IfOk result (λ v. AreBuckets count rows.now v.items) }
{
    let mut groups = empty_groups(alloc, count)?;
    for placed in rows {
        if placed.place < groups.len() {
            groups[placed.place].push(placed.row)?;
        }
    }
    Ok(groups)
}
