//! The weights in use of a month.
ghost use Rattle.std.specs.Prelude.{◌≡◌, ◌≢◌, ◌≤◌, ◌<◌, true, None, map, IfOk, Err, IfErr, MatchResult};
ghost use Rattle.cpi_index.specs.Weights.{with_levels, are_weights_in};
ghost use Rattle.cpi_release.specs.State.{Keeps, StaysClean, Reads};
ghost use Rattle.cpi_release.specs.Releases.{level_at_month, plan_in_use, weights_fault_in};
ghost use Rattle.cpi_release.specs.Asking.{IsReadFault};
ghost use Rattle.cpi_release.specs.Summed.{IsFreezeFault};
ghost use Rattle.cpi_release.specs.declared.freeze_fault.FreezeFault.TheVariants.{Group};

use crate::freeze_fault::FreezeFault;
use crate::group_fault::GroupFault;
use crate::groups::Groups;
use cpi_codes::Month;
use cpi_index::{EffectiveWeight, IndexFault, WeightLevels, move_weights, own_weights};
use cpi_plan::{Weight, YearPlan};
use std::alloc::Global;

// A weight with its aggregate's levels in the link month and in the reference month.
fn levels_by<G: Groups>(
    groups: &mut G,
    weight: Weight,
    link: Month,
    reference: Month,
) -> Result<WeightLevels, GroupFault>
    ensures reads { Reads (G.holds groups.old) (G.holds groups.new) result (λ levels.
        G.is_sound (G.holds groups.old).held →
        let releases = (G.sources (G.holds groups.old).held).releases in
        levels ≡ with_levels (level_at_month releases link) (level_at_month releases reference) weight) }
    ensures weight { IfOk result (λ levels. levels.weight ≡ weight) }
{
    let link = groups.chained(link, weight.code)?;
    let reference = groups.chained(reference, weight.code)?;
    Ok(WeightLevels {
        weight,
        link,
        reference,
    })
}

// The weights of a plan with the levels of their aggregates in the link month and in the reference month.
fn weight_levels<G: Groups>(
    alloc: Global,
    groups: &mut G,
    plan: &YearPlan,
    link: Month,
    reference: Month,
) -> Result<Vec<WeightLevels>, FreezeFault>
    ensures keeps { Keeps (G.holds groups.old) (G.holds groups.new) }
    ensures stays { result ≢ Err Group → StaysClean (G.holds groups.old) (G.holds groups.new) }
    ensures count { (G.holds groups.old).failures ≤ (G.holds groups.new).failures }
    ensures exact { (G.holds groups.new).is_clean → G.is_sound (G.holds groups.old).held →
        let releases = (G.sources (G.holds groups.old).held).releases in
        IfOk result (λ v. v.items
        ≡ map (with_levels (level_at_month releases link) (level_at_month releases reference)) plan.now.weights) }
    ensures weights { IfOk result (λ v. map (λ l. l.weight) v.items ≡ plan.now.weights) }
    ensures fault { IfErr result (λ f. IsReadFault (G.holds groups.old).failures (G.holds groups.new).failures f) }
{
    let weights = plan.weights();
    let mut rows = Vec::new(alloc);
    for weight in weights {
        let Ok(levels) = levels_by(groups, *weight, link, reference) else {
            return Err(FreezeFault::Group);
        };
        let Ok(()) = rows.push(levels) else {
            return Err(FreezeFault::Index(IndexFault::NoMemory));
        };
    }
    Ok(rows)
}

// The weights in use of a month: those of its plan, moved by prices if the plan has a reference month.
pub(crate) fn weights_of<G: Groups>(
    alloc: Global,
    groups: &mut G,
    plan: &YearPlan,
    month: Month,
) -> Result<Vec<EffectiveWeight>, FreezeFault>
    ensures keeps { Keeps (G.holds groups.old) (G.holds groups.new) }
    ensures stays { result ≢ Err Group → StaysClean (G.holds groups.old) (G.holds groups.new) }
    ensures count { (G.holds groups.old).failures ≤ (G.holds groups.new).failures }
    ensures group { IfErr result (λ f. f ≡ Group → (G.holds groups.old).failures < (G.holds groups.new).failures) }
    ensures exact { (G.holds groups.new).is_clean → G.is_sound (G.holds groups.old).held → 12 ≤ month →
        let releases = (G.sources (G.holds groups.old).held).releases in
        let fault = weights_fault_in plan.now releases month in MatchResult result
        (λ v. (fault ≡ None) × (v.items ≡ (plan_in_use plan.now releases month).weights))
        (IsFreezeFault fault) }
    ensures codes { IfOk result (λ v. are_weights_in plan.now.weights v.items ≡ true) }
{
    let (Some(reference), Some(link)) = (plan.reference(), month.link()) else {
        let Ok(weights) = own_weights(alloc, plan) else {
            return Err(FreezeFault::Index(IndexFault::NoMemory));
        };
        return Ok(weights);
    };
    let rows = weight_levels(alloc, groups, plan, link, reference)?;
    match move_weights(alloc, &rows) {
        Ok(weights) => Ok(weights),
        Err(fault) => Err(FreezeFault::Index(fault)),
    }
}
