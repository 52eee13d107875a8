//! The indices of the nodes, as means of the elementary indices.
ghost use Rattle.std.specs.Prelude.{◌≡◌, ◌≢◌, ◌≤◌, ◌<◌, ◌*◌, ◌&&◌, ℕ, true, false, length, IfOk, IsErrAnd};
ghost use Rattle.std.specs.Prelude.{MatchResult};
ghost use Rattle.std.specs.List.{list_all};
ghost use Rattle.cpi_codes.specs.CodeOrder.{code_cmp, is_code_elementary};
ghost use Rattle.cpi_codes.specs.Rounding.{rounded_quotient};
ghost use Rattle.cpi_codes.specs.declared.codes.Code.{Code};
ghost use Rattle.cpi_rows.specs.Keyed.{IsInOrder};
ghost use Rattle.cpi_plan.specs.Sums.{sum_at, weight_under};
ghost use Rattle.cpi_index.specs.Aggregate.{IsIndex};
ghost use Rattle.cpi_index.specs.Means.{are_indices_in, index_of, weighted_under};
ghost use Rattle.cpi_index.specs.Means.{upper_indices};
ghost use Rattle.cpi_index.specs.Weights.{IsNodeWeight, with_weights, are_weights_in};
ghost use Rattle.cpi_index.specs.Unfit.{IsFirstOutOfRange};
ghost use Rattle.cpi_index.specs.declared.fault.IndexFault.TheVariants.{NoMemory};
ghost use Rattle.cpi_plan.specs.declared.limits.TheConstants.{ALL_PARTS};
ghost use Rattle.cpi_index.specs.declared.limits.TheConstants.{MOST_INDEX};

use crate::effective::EffectiveWeight;
use crate::fault::IndexFault;
use crate::index::{Index, NodeIndex};
use crate::lists::carry::first_aggregate;
use crate::node_weight::NodeWeight;
use crate::summing::weights_under;
use cpi_codes::Code;
use cpi_plan::{Weight, YearPlan, add_path};
use std::alloc::{AllocError, Global};
use std::collections::BTreeMap;

// Whether there is one weight in use for each of the plan's, in their order.
fn are_weights_of(own: &[Weight], weights: &[EffectiveWeight]) -> bool
    ensures { result ≡ are_weights_in own.now weights.now }
{
    if own.len() != weights.len() {
        return false;
    }
    for i in 0..own.len() {
        if !own[i].code.is_same(weights[i].code()) {
            return false;
        }
    }
    true
}

// Whether there is one index for each weight, in their order.
fn are_indices_of(weights: &[Weight], elementary: &[NodeIndex]) -> bool
    ensures { result ≡ are_indices_in weights.now elementary.now }
{
    if weights.len() != elementary.len() {
        return false;
    }
    for i in 0..weights.len() {
        if !weights[i].code.is_same(elementary[i].code) {
            return false;
        }
    }
    true
}

// The sum of weight times index at and below each code, in one pass.
fn weighted_sums(
    alloc: Global,
    weights: &[EffectiveWeight],
    elementary: &[NodeIndex],
) -> Result<BTreeMap<Code, u128>, AllocError>
    requires order { IsInOrder code_cmp (λ w. w.code) weights.now }
    requires codes { list_all (λ w. is_code_elementary w.code) weights.now ≡ true }
    requires few { length weights.now ≤ ALL_PARTS }
    requires each { are_indices_in weights.now elementary.now ≡ true }
    ensures sums { IfOk result (λ sums. (q : Code) → sum_at sums q
        ≡ weighted_under (index_of elementary.now) q weights.now) }
    ensures least { IfOk result (λ sums. (q : Code) → weight_under q weights.now ≤ sum_at sums q) }
    ensures most { IfOk result (λ sums. (q : Code) → sum_at sums q ≤ MOST_INDEX * weight_under q weights.now) }
{
    let mut sums = BTreeMap::new(alloc);
    for i in 0..weights.len() {
        let weight = weights[i];
        let index = elementary[i].index.millionths();
        add_path(
            &mut sums,
            weight.code(),
            u128::from(weight.parts()) * u128::from(index),
        )?;
    }
    Ok(sums)
}

// The mean of indices from the sum of weight times index and the sum of the weights.
fn mean(sum: u128, weight: u128) -> Index
    requires limits { IsNodeWeight weight }
    requires least { weight ≤ sum }
    requires most { sum ≤ MOST_INDEX * weight }
    ensures { result ≡ rounded_quotient sum weight }
{
    let weight = NodeWeight::new(weight).unwrap();
    Index::mean(sum, weight).unwrap()
}

/// The index of each node of the plan, in code order: the mean of the elementary indices at and below it, by the
/// weights in use, rounded once. `weights` has the weight in use of each elementary aggregate and `elementary` its
/// index, both in code order; if one of them doesn't, the answer is `OutOfRange` of the first aggregate.
/// O(n log n) for n nodes.
pub fn upper(
    alloc: Global,
    plan: &YearPlan,
    weights: &[EffectiveWeight],
    elementary: &[NodeIndex],
) -> Result<Vec<NodeIndex>, IndexFault>
    ensures means { are_weights_in plan.now.weights weights.now ≡ true →
        are_indices_in plan.now.weights elementary.now ≡ true → MatchResult result
        (λ v. v.items ≡ upper_indices (with_weights plan.now weights.now) elementary.now)
        (λ f. f ≡ NoMemory) }
    ensures order { IfOk result (λ v. IsInOrder code_cmp (λ x. x.code) v.items) }
    ensures unfit { (are_weights_in plan.now.weights weights.now
        && are_indices_in plan.now.weights elementary.now) ≡ false → IsErrAnd result (IsFirstOutOfRange plan.now) }
{
    if !are_weights_of(plan.weights(), weights) || !are_indices_of(plan.weights(), elementary) {
        return Err(IndexFault::OutOfRange(first_aggregate(plan)));
    }
    let Ok(parts) = weights_under(alloc, weights) else {
        return Err(IndexFault::NoMemory);
    };
    let Ok(sums) = weighted_sums(alloc, weights, elementary) else {
        return Err(IndexFault::NoMemory);
    };
    let nodes = plan.nodes();
    let mut indices = Vec::new(alloc);
    for node in nodes {
        let sum = sums.get(&node.code).copied().unwrap_or(0);
        let weight = parts.get(&node.code).copied().unwrap_or(0);
        let index = mean(sum, weight);
        let code = node.code;
        let Ok(()) = indices.push(NodeIndex { code, index }) else {
            return Err(IndexFault::NoMemory);
        };
    }
    Ok(indices)
}
