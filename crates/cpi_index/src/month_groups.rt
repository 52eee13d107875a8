//! The samples of a month, each aggregate's rows together.
ghost use Rattle.std.specs.Prelude.{◌≡◌, ℕ, [], ◌++◌, List, true, filter, map, length, IfOk, OnOk};
ghost use Rattle.cpi_plan.specs.Plan.{Plan};
ghost use Rattle.cpi_index.specs.declared.placed.PlacedRow.{PlacedRow};
ghost use Rattle.cpi_index.specs.Series.{are_by_series, carried_serial, frozen_serial};
ghost use Rattle.cpi_index.specs.Sample.{is_in_sample, bases_in_year};
ghost use Rattle.cpi_index.specs.Month.{rows_of_month};
ghost use Rattle.cpi_index.specs.Places.{AreBuckets};
ghost use Rattle.cpi_index.specs.MonthGroups.{AreGroups, base_place, placed_at, rows_in_samples};

use crate::bases::bases_of_series;
use crate::carried::CarriedPrice;
use crate::frozen::FrozenQuote;
use crate::item_places::base_places;
use crate::row::GroupRow;
use crate::rows::first_row;
use crate::series::{InSeries, is_by_series, skip_below};
use cpi_plan::YearPlan;
use std::alloc::{AllocError, Global};

// How many rows each place will have.
fn counts_of(
    alloc: Global,
    places: &[Option<usize>],
    count: usize,
) -> Result<Vec<usize>, AllocError>
    ensures { IfOk result (λ v. length v.items ≡ count) }
{
    let mut counts = vec![in alloc; 0_usize; count]?;
    for place in places {
        if let Some(place) = *place
            && place < counts.len()
        {
            counts[place] = counts[place].saturating_add(1);
        }
    }
    Ok(counts)
}

// Lists without a row, each with room for so many rows.
fn lists_with_room(alloc: Global, counts: &[usize]) -> Result<Vec<Vec<GroupRow>>, AllocError>
    ensures { IfOk result (λ v. AreBuckets (length counts.now) [] v.items) }
{
    let mut groups = Vec::with_capacity(alloc, counts.len())?;
    for i in 0..counts.len() {
        groups.push(Vec::with_capacity(alloc, counts[i])?)?;
    }
    Ok(groups)
}

// Puts a row after those of its place, if there is such a place.
fn push_row(
    groups: &mut Vec<Vec<GroupRow>>,
    place: Option<usize>,
    row: GroupRow,
) -> Result<(), AllocError>
    ensures { OnOk result ((count : ℕ) (rows : List PlacedRow) → AreBuckets count rows groups.old.items →
        AreBuckets count (rows ++ placed_at place row) groups.new.items) }
{
    if let Some(place) = place
        && place < groups.len()
    {
        groups[place].push(row)?;
    }
    Ok(())
}

// The rows of the bases in one month, each after those of its place, by series.
fn rows_by_place(
    alloc: Global,
    counts: &[usize],
    places: &[Option<usize>],
    bases: &[CarriedPrice],
    before: &[CarriedPrice],
    frozen: &[FrozenQuote],
) -> Result<Vec<Vec<GroupRow>>, AllocError>
    requires places { length places.now ≡ length bases.now }
    requires bases { are_by_series carried_serial bases.now ≡ true }
    requires before { are_by_series carried_serial before.now ≡ true }
    requires frozen { are_by_series frozen_serial frozen.now ≡ true }
    ensures { IfOk result (λ v. (plan : Plan) → places.now ≡ map (base_place plan) bases.now →
        AreBuckets (length counts.now) (rows_in_samples plan before.now frozen.now bases.now) v.items) }
{
    let mut groups = lists_with_room(alloc, counts)?;
    let mut prices = before;
    let mut quotes = frozen;
    for i in 0..bases.len() {
        let base = bases[i];
        let serial = base.serial();
        prices = skip_below(prices, serial);
        quotes = skip_below(quotes, serial);
        let row = first_row(base, serial, prices, quotes);
        let place = places[i];
        push_row(&mut groups, place, row)?;
    }
    Ok(groups)
}

// The rows of the samples, one list for each weight, in their order, from the bases of all series.
fn groups_of(
    alloc: Global,
    plan: &YearPlan,
    bases: &[CarriedPrice],
    before: &[CarriedPrice],
    frozen: &[FrozenQuote],
) -> Result<Vec<Vec<GroupRow>>, AllocError>
    requires bases { are_by_series carried_serial bases.now ≡ true }
    requires before { are_by_series carried_serial before.now ≡ true }
    requires frozen { are_by_series frozen_serial frozen.now ≡ true }
    ensures { IfOk result (λ v. AreGroups plan.now
        (rows_of_month (filter (is_in_sample plan.now) bases.now) before.now frozen.now) v.items) }
{
    let places = base_places(alloc, plan, bases)?;
    let weights = plan.weights();
    let counts = counts_of(alloc, &places, weights.len())?;
    let groups = rows_by_place(alloc, &counts, &places, bases, before, frozen)?;
    Ok(groups)
}

/// The rows of January's samples, one list for each weight. `prev` and `link` are the carried prices and the frozen
/// quotes of the December before, `frozen` the month's quotes, all three by series; else nothing is said.
/// O(n log m) for n series and m aggregates.
pub fn groups_of_january(
    alloc: Global,
    plan: &YearPlan,
    prev: &[CarriedPrice],
    link: &[FrozenQuote],
    frozen: &[FrozenQuote],
) -> Result<Vec<Vec<GroupRow>>, AllocError>
    ensures { are_by_series carried_serial prev.now ≡ true → are_by_series frozen_serial link.now ≡ true →
        are_by_series frozen_serial frozen.now ≡ true →
        let bases = bases_in_year plan.now prev.now link.now in
        IfOk result (λ v. AreGroups plan.now (rows_of_month bases bases frozen.now) v.items) }
{
    if !is_by_series(prev) || !is_by_series(link) || !is_by_series(frozen) {
        return Ok(Vec::new(alloc));
    }
    let bases = bases_of_series(alloc, prev, link)?;
    groups_of(alloc, plan, &bases, &[], frozen)
}

/// The rows of a later month's samples, as those of January; `before` are the carried prices of the month before, by
/// series.
pub fn groups_of_month(
    alloc: Global,
    plan: &YearPlan,
    prev: &[CarriedPrice],
    link: &[FrozenQuote],
    before: &[CarriedPrice],
    frozen: &[FrozenQuote],
) -> Result<Vec<Vec<GroupRow>>, AllocError>
    ensures { are_by_series carried_serial prev.now ≡ true → are_by_series frozen_serial link.now ≡ true →
        are_by_series carried_serial before.now ≡ true → are_by_series frozen_serial frozen.now ≡ true →
        let bases = bases_in_year plan.now prev.now link.now in
        IfOk result (λ v. AreGroups plan.now (rows_of_month bases before.now frozen.now) v.items) }
{
    if !is_by_series(prev) || !is_by_series(link) {
        return Ok(Vec::new(alloc));
    }
    if !is_by_series(before) || !is_by_series(frozen) {
        return Ok(Vec::new(alloc));
    }
    let bases = bases_of_series(alloc, prev, link)?;
    groups_of(alloc, plan, &bases, before, frozen)
}
