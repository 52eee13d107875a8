//! The rows of a month's table.
ghost use Rattle.std.specs.Prelude.{◌≡◌, ◌≢◌, ◌*◌, ◌≤◌, ◌<◌, List, None, true, SomeIff, IfOk, Err, IfErr, MatchResult};
ghost use Rattle.cpi_codes.specs.declared.codes.Code.{Code};
ghost use Rattle.cpi_plan.specs.Sums.{sum_at, weight_under};
ghost use Rattle.cpi_index.specs.Level.{IsLevel, chained_from};
ghost use Rattle.cpi_index.specs.Weights.{IsNodeWeight, are_weights_in, with_weights};
ghost use Rattle.cpi_index.specs.Row.{Row};
ghost use Rattle.cpi_release.specs.State.{Keeps, StaysClean};
ghost use Rattle.cpi_release.specs.MonthTable.{level_with, level_fault, table_of};
ghost use Rattle.cpi_release.specs.Summed.{IsSummed, IsFreezeFault};
ghost use Rattle.cpi_release.specs.declared.freeze_fault.FreezeFault.TheVariants.{Group};
ghost use Rattle.cpi_index.specs.declared.limits.TheConstants.{MOST_INDEX};

use crate::before::{Before, levels_before};
use crate::changes::change;
use crate::freeze_fault::FreezeFault;
use crate::groups::Groups;
use crate::level::Level;
use crate::pass::Pass;
use cpi_codes::{Code, Month};
use cpi_index::{EffectiveWeight, Index, IndexFault, NodeWeight, weights_under};
use cpi_plan::{Node, YearPlan};
use std::alloc::{AllocError, Global};
use std::collections::BTreeMap;

// The row of a node; none if its chained level is outside its limits.
fn row_of(
    alloc: Global,
    node: &Node,
    weight: NodeWeight,
    within: Index,
    before: Before,
    imputed: bool,
) -> Result<Option<Level>, AllocError>
    ensures { IfOk result (λ o. SomeIff o
        (IsLevel (chained_from before.link within))
        (level_with node.now weight within before.link before.month before.year imputed)) }
{
    let Some(chained) = before.link.moved(within) else {
        return Ok(None);
    };
    let year_change = match before.year {
        Some(year) => Some(change(year, chained)),
        None => None,
    };
    Ok(Some(Level {
        code: node.code,
        title: node.title.copy(alloc)?,
        weight,
        within,
        chained,
        month_change: change(before.month, chained),
        year_change,
        imputed,
    }))
}

// The sum of the weights at and below a node.
fn node_weight(parts: &BTreeMap<Code, u128>, code: &Code) -> NodeWeight
    requires { IsNodeWeight (sum_at parts.now code.now) }
    ensures { result ≡ sum_at parts.now code.now }
{
    NodeWeight::new(parts.get(code).copied().unwrap_or(0)).unwrap()
}

// The rows of a table, by code, from the sums of a pass; else the first node whose chained level is outside its
// limits.
pub(crate) fn levels_of<G: Groups>(
    alloc: Global,
    groups: &mut G,
    plan: &YearPlan,
    weights: &[EffectiveWeight],
    month: Month,
    pass: &Pass,
) -> Result<Vec<Level>, FreezeFault>
    requires codes { are_weights_in plan.now.weights weights.now ≡ true }
    requires most { (q : Code) → sum_at pass.now.sums q ≤ MOST_INDEX * weight_under q weights.now }
    ensures keeps { Keeps (G.holds groups.old) (G.holds groups.new) }
    ensures stays { result ≢ Err Group → StaysClean (G.holds groups.old) (G.holds groups.new) }
    ensures count { (G.holds groups.old).failures ≤ (G.holds groups.new).failures }
    ensures group { IfErr result (λ f. f ≡ Group → (G.holds groups.old).failures < (G.holds groups.new).failures) }
    ensures exact { (G.holds groups.new).is_clean →
        G.is_sound (G.holds groups.old).held → 12 ≤ month → (rows : List Row) →
        IsSummed (with_weights plan.now weights.now) rows pass.now →
        let releases = (G.sources (G.holds groups.old).held).releases in
        let fault = level_fault (with_weights plan.now weights.now) releases month rows plan.now.nodes in
        MatchResult result
        (λ v. (fault ≡ None) × (v.items ≡ table_of (with_weights plan.now weights.now) releases month rows))
        (IsFreezeFault fault) }
{
    let nodes = plan.nodes();
    let Ok(parts) = weights_under(alloc, weights) else {
        return Err(FreezeFault::Index(IndexFault::NoMemory));
    };
    let mut levels = Vec::new(alloc);
    for node in nodes {
        let Ok(before) = levels_before(groups, month, node.code) else {
            return Err(FreezeFault::Group);
        };
        let sum = pass.sums.get(&node.code).copied().unwrap_or(0);
        let weight = node_weight(&parts, &node.code);
        let Some(within) = Index::mean(sum, weight) else {
            return Err(FreezeFault::Index(IndexFault::OutOfRange(node.code)));
        };
        let imputed = 0 < pass.imputed.get(&node.code).copied().unwrap_or(0);
        let Ok(row) = row_of(alloc, node, weight, within, before, imputed) else {
            return Err(FreezeFault::Index(IndexFault::NoMemory));
        };
        let Some(level) = row else {
            return Err(FreezeFault::Index(IndexFault::OutOfRange(node.code)));
        };
        let Ok(()) = levels.push(level) else {
            return Err(FreezeFault::Index(IndexFault::NoMemory));
        };
    }
    Ok(levels)
}
