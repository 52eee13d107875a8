//! The weights in use of a plan, from the tables of its link month and of its reference month.
ghost use Rattle.std.specs.Prelude.{◌≡◌, ◌≢◌, true, None, Some, map, is_some};
ghost use Rattle.std.specs.Prelude.{IfOk, IsErrAnd, IsTrue, MatchResult};
ghost use Rattle.cpi_codes.specs.CodeOrder.{code_cmp};
ghost use Rattle.cpi_rows.specs.Keyed.{IsInOrder};
ghost use Rattle.cpi_index.specs.Weights.{level_in, with_levels, weights_fault, weights_in_use, are_weights_in};
ghost use Rattle.cpi_index.specs.Unfit.{IsFirstOutOfRange};
ghost use Rattle.cpi_index.specs.declared.fault.IndexFault.TheVariants.{NoMemory};

use crate::effective::EffectiveWeight;
use crate::fault::IndexFault;
use crate::level::{ChainedLevel, NodeLevel};
use crate::lists::carry::first_aggregate;
use crate::updating::{move_weights, own_weights};
use crate::weight_levels::WeightLevels;
use cpi_codes::Code;
use cpi_plan::{Weight, YearPlan};
use cpi_rows::{are_in_order, find_row};
use std::alloc::{AllocError, Global};

// The level of an aggregate in a table.
fn level_of(table: &[NodeLevel], code: &Code) -> Option<ChainedLevel>
    requires { IsInOrder code_cmp (λ l. l.code) table.now }
    ensures { result ≡ level_in table.now code.now }
{
    Some(find_row(table, code)?.level)
}

// Each weight with the levels of its aggregate in two tables.
fn levelled(
    alloc: Global,
    weights: &[Weight],
    link: &[NodeLevel],
    reference: &[NodeLevel],
) -> Result<Vec<WeightLevels>, AllocError>
    requires link { IsInOrder code_cmp (λ l. l.code) link.now }
    requires reference { IsInOrder code_cmp (λ l. l.code) reference.now }
    ensures { IfOk result (λ v. v.items ≡ map (with_levels (level_in link.now) (level_in reference.now)) weights.now) }
{
    let mut rows = Vec::new(alloc);
    for weight in weights {
        rows.push(WeightLevels {
            weight: *weight,
            link: level_of(link, &weight.code),
            reference: level_of(reference, &weight.code),
        })?;
    }
    Ok(rows)
}

/// The weights in use of a plan, in code order: its own, or, if it has a reference month, moved by prices from that
/// month to the link month. `link` and `reference` are the tables of these two months, in code order, in their latest
/// revisions; without a reference month they aren't read. The faults are those of `move_weights`, and `OutOfRange` of
/// the first aggregate if a table isn't in code order. O(n log m) for n aggregates and m rows.
#[tactic(auto, using(crate::proofs::WeightLemmas::are_own, crate::proofs::WeightLemmas::are_moved))]
pub fn effective_weights(
    alloc: Global,
    plan: &YearPlan,
    link: &[NodeLevel],
    reference: &[NodeLevel],
) -> Result<Vec<EffectiveWeight>, IndexFault>
    ensures weights { (IsTrue (is_some plan.now.reference) →
        IsInOrder code_cmp (λ l. l.code) link.now × IsInOrder code_cmp (λ l. l.code) reference.now) →
        let fault = weights_fault (level_in link.now) (level_in reference.now) plan.now in MatchResult result
        (λ v. (fault ≡ None) × (v.items ≡ weights_in_use (level_in link.now) (level_in reference.now) plan.now))
        (λ f. f ≢ NoMemory → fault ≡ Some f) }
    ensures codes { IfOk result (λ v. are_weights_in plan.now.weights v.items ≡ true) }
    ensures unfit { IsTrue (is_some plan.now.reference) →
        (IsInOrder code_cmp (λ l. l.code) link.now × IsInOrder code_cmp (λ l. l.code) reference.now → ⊥) →
        IsErrAnd result (IsFirstOutOfRange plan.now) }
{
    if plan.reference().is_none() {
        return own_weights(alloc, plan).map_err(|_| IndexFault::NoMemory);
    }
    if !are_in_order(link) || !are_in_order(reference) {
        return Err(IndexFault::OutOfRange(first_aggregate(plan)));
    }
    let Ok(rows) = levelled(alloc, plan.weights(), link, reference) else {
        return Err(IndexFault::NoMemory);
    };
    move_weights(alloc, &rows)
}
