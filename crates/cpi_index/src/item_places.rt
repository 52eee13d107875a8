//! The places of bases among the weights of a plan.
ghost use Rattle.std.specs.Prelude.{◌≡◌, map, IfOk};
ghost use Rattle.cpi_index.specs.Places.{place_in};
ghost use Rattle.cpi_index.specs.MonthGroups.{base_place, item_places};

use crate::carried::CarriedPrice;
use crate::places::place_of;
use cpi_codes::ItemCode;
use cpi_plan::YearPlan;
use std::alloc::{AllocError, Global};

// The first year of the months, which are counted from its January.
const FIRST_YEAR: u16 = 2000;

// The place of each item's aggregate among the weights, in the order of the plan's items.
fn item_places(alloc: Global, plan: &YearPlan) -> Result<Vec<Option<usize>>, AllocError>
    ensures { IfOk result (λ v. v.items ≡ item_places plan.now) }
{
    let weights = plan.weights();
    let items = plan.places();
    let mut places = Vec::with_capacity(alloc, items.len())?;
    for item in items {
        places.push(place_of(weights, item.aggregate))?;
    }
    Ok(places)
}

// The place of an item's aggregate among the weights.
fn place_of_item(plan: &YearPlan, items: &[Option<usize>], item: ItemCode) -> Option<usize>
    requires { items.now ≡ item_places plan.now }
    ensures { result ≡ place_in plan.now item }
{
    match cpi_rows::place_of(plan.places(), &item) {
        Ok(at) => items[at],
        Err(_) => None,
    }
}

// The place of the aggregate in whose sample a base is; none if it is in no sample of the year.
fn base_place(plan: &YearPlan, items: &[Option<usize>], base: &CarriedPrice) -> Option<usize>
    requires { items.now ≡ item_places plan.now }
    ensures { result ≡ base_place plan.now base.now }
{
    let january = 12 * (plan.year() - FIRST_YEAR);
    if base.last_month().index() < january {
        return None;
    }
    place_of_item(plan, items, base.item())
}

// The place of each base's aggregate. An item's aggregate is looked up once among the weights, however many series have
// the item.
pub(crate) fn base_places(
    alloc: Global,
    plan: &YearPlan,
    bases: &[CarriedPrice],
) -> Result<Vec<Option<usize>>, AllocError>
    ensures { IfOk result (λ v. v.items ≡ map (base_place plan.now) bases.now) }
{
    let items = item_places(alloc, plan)?;
    let mut places = Vec::with_capacity(alloc, bases.len())?;
    for base in bases {
        places.push(base_place(plan, &items, base))?;
    }
    Ok(places)
}
