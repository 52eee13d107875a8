//! The weights in use of a plan: its own, or moved by prices from its reference month to its link month, as in
//! the *Consumer Price Index Manual* (its chapter on updating weights).
ghost use Rattle.std.specs.Prelude.{◌≡◌, ◌≢◌, false, None, Some, find, option_map};
ghost use Rattle.std.specs.Prelude.{IfOk, MatchResult, SomeIff};
ghost use Rattle.cpi_index.specs.Weights.{lacks_a_level, moved_parts, moved_weight, moved_weights};
ghost use Rattle.cpi_index.specs.Weights.{moving_fault, is_moved_out, IsEffective};
ghost use Rattle.cpi_index.specs.declared.fault.IndexFault.TheVariants.{OutOfRange, NoMemory};

use crate::effective::EffectiveWeight;
use crate::fault::IndexFault;
use crate::weight_levels::WeightLevels;
use cpi_codes::{Code, round_div};
use cpi_plan::YearPlan;
use std::alloc::{AllocError, Global};

// Whether the aggregate has no level in one of the two months.
fn lacks_level(row: &WeightLevels) -> bool
    ensures { result ≡ lacks_a_level row.now }
{
    row.link.is_none() || row.reference.is_none()
}

// The first aggregate without a level in one of the two months.
fn first_without(rows: &[WeightLevels]) -> Option<Code>
    ensures { result ≡ option_map (λ w. w.weight.code) (find lacks_a_level rows.now) }
{
    for row in rows {
        if lacks_level(row) {
            return Some(row.weight.code);
        }
    }
    None
}

// A weight, moved by its aggregate's two levels; none outside the limits.
fn moved(row: &WeightLevels) -> Option<EffectiveWeight>
    requires { lacks_a_level row.now ≡ false }
    ensures { SomeIff result (IsEffective (moved_parts row.now)) (moved_weight row.now) }
{
    let link = row.link?.millionths();
    let reference = row.reference?.millionths();
    let product = u128::from(row.weight.parts) * u128::from(link);
    EffectiveWeight::new(row.weight.code, round_div(product, u128::from(reference)))
}

// The weights, each moved by its two levels; else the first outside the limits.
fn moved_all(alloc: Global, rows: &[WeightLevels]) -> Result<Vec<EffectiveWeight>, IndexFault>
    requires { find lacks_a_level rows.now ≡ None }
    ensures { let out = option_map (λ w. OutOfRange w.weight.code) (find is_moved_out rows.now) in MatchResult result
        (λ v. (out ≡ None) × (v.items ≡ moved_weights rows.now))
        (λ f. f ≢ NoMemory → out ≡ Some f) }
{
    let mut weights = Vec::new(alloc);
    for row in rows {
        let Some(weight) = moved(row) else {
            return Err(IndexFault::OutOfRange(row.weight.code));
        };
        let Ok(()) = weights.push(weight) else {
            return Err(IndexFault::NoMemory);
        };
    }
    Ok(weights)
}

/// The weights in use of a plan with a reference month, in the order of `rows`, which have its weights with the levels
/// of their aggregates: each weight times the level in the link month over the level in the reference month, rounded.
/// `NoReference` names the first aggregate without one of the two levels; else `OutOfRange` the first whose weight in
/// use is outside 1 to 10^9.
pub fn move_weights(
    alloc: Global,
    rows: &[WeightLevels],
) -> Result<Vec<EffectiveWeight>, IndexFault>
    ensures { let fault = moving_fault rows.now in MatchResult result
        (λ v. (fault ≡ None) × (v.items ≡ moved_weights rows.now))
        (λ f. f ≢ NoMemory → fault ≡ Some f) }
{
    match first_without(rows) {
        Some(code) => Err(IndexFault::NoReference(code)),
        None => moved_all(alloc, rows),
    }
}

/// The weights in use of a plan without a reference month: its own, in code order.
pub fn own_weights(alloc: Global, plan: &YearPlan) -> Result<Vec<EffectiveWeight>, AllocError>
    ensures { IfOk result (λ v. v.items ≡ plan.now.weights) }
{
    let mut weights = Vec::new(alloc);
    for weight in plan.weights() {
        let own = EffectiveWeight::new(weight.code, u128::from(weight.parts)).unwrap();
        weights.push(own)?;
    }
    Ok(weights)
}
