//! The tests that a plan has to pass, and its nodes.
ghost use Rattle.std.specs.Prelude.{◌≡◌, ◌^◌, ◌<◌, not, ◌&&◌, nat_lt, IfOk, MatchOption, MatchResult, true, false};
ghost use Rattle.std.specs.List.{list_all, list_any};
ghost use Rattle.cpi_codes.specs.CodeOrder.{code_cmp, is_code_elementary, is_same_code};
ghost use Rattle.cpi_codes.specs.declared.codes.Code.{Code};
ghost use Rattle.cpi_rows.specs.Keyed.{IsInOrder, row_by_number};
ghost use Rattle.cpi_plan.specs.Sums.{sum_at, weight_under};
ghost use Rattle.cpi_plan.specs.Steps.{is_without, IsFirstCode, nodes_with};
ghost use Rattle.cpi_plan.specs.Plan.{are_all_elementary, has_zero_weight};
ghost use Rattle.cpi_plan.specs.Plan.{total_weight, has_unknown_item};
ghost use Rattle.cpi_plan.specs.Plan.{is_unknown_item, has_unplaced_item};
ghost use Rattle.cpi_plan.specs.Plan.{may_refer_to, has_fit_reference, reference_in};
ghost use Rattle.cpi_plan.specs.declared.plan_faults.PlanFault.TheVariants.{Reference};

use crate::items::Item;
use crate::plan_faults::PlanFault;
use crate::plan_rows::{Node, Place, Title, Weight};
use crate::sums::add_path;
use cpi_codes::{Code, Month};
use cpi_rows::{RowsByKey, find_row};
use std::alloc::{AllocError, Global};
use std::collections::BTreeMap;

// Whether each weight is that of an elementary aggregate.
fn are_weights_elementary(weights: &[Weight]) -> bool
    ensures { result ≡ list_all (λ w. is_code_elementary w.code) weights.now }
{
    weights.iter().all(|weight| weight.code.is_elementary())
}

// Whether each item is placed in an elementary aggregate.
fn are_places_elementary(places: &[Place]) -> bool
    ensures { result ≡ list_all (λ p. is_code_elementary p.aggregate) places.now }
{
    places.iter().all(|place| place.aggregate.is_elementary())
}

// Whether all weights and places are those of elementary aggregates.
pub(crate) fn are_elementary(weights: &[Weight], places: &[Place]) -> bool
    ensures { result ≡ are_all_elementary weights.now places.now }
{
    are_weights_elementary(weights) && are_places_elementary(places)
}

// Whether some weight is 0 parts.
pub(crate) fn has_zero(weights: &[Weight]) -> bool
    ensures { result ≡ has_zero_weight weights.now }
{
    weights.iter().any(|weight| weight.parts == 0)
}

// The sum of the weights, in parts per million.
pub(crate) fn total(weights: &[Weight]) -> u128
    ensures { result ≡ total_weight weights.now }
{
    let mut sum: u128 = 0;
    for weight in weights {
        sum += u128::from(weight.parts);
    }
    sum
}

// The sums of the weights at and below each code, in parts per million. An `Err` says that memory was refused.
pub(crate) fn weight_sums(
    alloc: Global,
    weights: &[Weight],
) -> Result<BTreeMap<Code, u128>, AllocError>
    requires { list_all (λ w. is_code_elementary w.code) weights.now ≡ true }
    ensures { IfOk result (λ sums. (q : Code) → sum_at sums q ≡ weight_under q weights.now) }
{
    let mut sums = BTreeMap::new(alloc);
    for weight in weights {
        add_path(&mut sums, weight.code, u128::from(weight.parts))?;
    }
    Ok(sums)
}

// Whether a code has a weight and no title.
fn lacks_title(titles: &[Title], code: &Code, weight: u128) -> bool
    requires { IsInOrder code_cmp (λ t. t.code) titles.now }
    ensures { result ≡ (nat_lt 0 weight && not (list_any (λ t. is_same_code t.code code.now) titles.now)) }
{
    weight > 0 && find_row(titles, code).is_none()
}

// The first code, in the order of codes, that has a sum and no title.
pub(crate) fn first_untitled(sums: &BTreeMap<Code, u128>, titles: &[Title]) -> Option<Code>
    requires { IsInOrder code_cmp (λ t. t.code) titles.now }
    ensures { MatchOption result
        ((q : Code) → is_without sums.now titles.now q ≡ false)
        (λ code. IsFirstCode (is_without sums.now titles.now) code) }
{
    for (code, weight) in sums.iter() {
        if lacks_title(titles, code, *weight) {
            return Some(*code);
        }
    }
    None
}

// Whether the place's item is unknown.
fn is_unknown(known: &RowsByKey<Item>, place: &Place) -> bool
    ensures { result ≡ is_unknown_item known.now place.now }
{
    known.find(&place.item).is_none()
}

// Whether the item of some place is unknown.
pub(crate) fn has_unknown(known: &RowsByKey<Item>, places: &[Place]) -> bool
    ensures { result ≡ has_unknown_item known.now places.now }
{
    places.iter().any(|place| is_unknown(known, place))
}

// Whether the place's aggregate has no weight.
fn is_unplaced(weights: &[Weight], place: &Place) -> bool
    requires { IsInOrder code_cmp (λ w. w.code) weights.now }
    ensures { result ≡ not (list_any (λ w. is_same_code w.code place.now.aggregate) weights.now) }
{
    find_row(weights, &place.aggregate).is_none()
}

// Whether some item is placed in an aggregate without weight.
pub(crate) fn has_unplaced(weights: &[Weight], places: &[Place]) -> bool
    requires { IsInOrder code_cmp (λ w. w.code) weights.now }
    ensures { result ≡ has_unplaced_item weights.now places.now }
{
    places.iter().any(|place| is_unplaced(weights, place))
}

// Whether the weights of a year's plan may be of the prices of the month: a month of an earlier year.
fn may_refer(year: u16, month: Month) -> bool
    ensures { result ≡ may_refer_to year month }
{
    month.year() < year
}

// The price reference month, if one was sent. It is a fault to send two, or one that isn't before the year.
pub(crate) fn one_reference(year: u16, references: &[Month]) -> Result<Option<Month>, PlanFault>
    ensures { MatchResult result
        (λ month. (has_fit_reference year references.now ≡ true) × (month ≡ reference_in references.now))
        (λ fault. (has_fit_reference year references.now ≡ false) × (fault ≡ Reference)) }
{
    match references {
        [] => Ok(None),
        [month] if may_refer(year, *month) => Ok(Some(*month)),
        _ => Err(PlanFault::Reference),
    }
}

// The nodes: the titles of codes with weight, each with its sum in parts per million. An `Err` says that memory was
// refused.
pub(crate) fn nodes_of(
    alloc: Global,
    titles: Vec<Title>,
    sums: &BTreeMap<Code, u128>,
) -> Result<Vec<Node>, AllocError>
    requires { (q : Code) → sum_at sums.now q < 2 ^ 32 }
    ensures { IfOk result (λ v. v.items ≡ nodes_with (sum_at sums.now) titles.items) }
{
    let mut nodes = Vec::new(alloc);
    for title in titles {
        let weight = sums.get(&title.code).copied().unwrap_or(0);
        if weight > 0 {
            nodes.push(Node {
                code: title.code,
                title: title.title,
                weight: weight as u32,
            })?;
        }
    }
    Ok(nodes)
}
