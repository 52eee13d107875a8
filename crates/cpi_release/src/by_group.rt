//! A month's carried prices and table, read one aggregate at a time.
ghost use Rattle.std.specs.Prelude.{◌≡◌, ◌≢◌, ◌≤◌, ◌<◌, List, None, true, Err, IfErr, MatchResult};
ghost use Rattle.cpi_codes.specs.declared.codes.Code.{Code};
ghost use Rattle.cpi_index.specs.Row.{Row};
ghost use Rattle.cpi_index.specs.Series.{are_by_series, carried_serial};
ghost use Rattle.cpi_index.specs.Month.{carried_in_month, sample_rows};
ghost use Rattle.cpi_release.specs.State.{Keeps, StaysClean};
ghost use Rattle.cpi_release.specs.GroupCalls.{group_of};
ghost use Rattle.cpi_release.specs.Asking.{CanAsk};
ghost use Rattle.cpi_release.specs.Releasing.{fault_in, table_in};
ghost use Rattle.cpi_release.specs.Summed.{IsFreezeFault};
ghost use Rattle.cpi_release.specs.declared.freeze_fault.FreezeFault.TheVariants.{Group};

use crate::freeze_fault::FreezeFault;
use crate::groups::Groups;
use crate::level::Level;
use crate::levels::levels_of;
use crate::pass::Pass;
use crate::passing::{first_fault, pass_over};
use crate::weights::weights_of;
use cpi_codes::{Code, Month};
use cpi_index::{CarriedPrice, IndexFault, put_by_series, unchanged_of};
use cpi_plan::YearPlan;
use std::alloc::Global;

// The carried prices of a month, by series, and its table, by code.
#[derive(Drop)]
pub(crate) struct Made {
    pub(crate) carried: Vec<CarriedPrice>,
    pub(crate) levels: Vec<Level>,
}

// The carried prices that a pass has found.
fn carried_of(pass: Pass) -> Vec<CarriedPrice>
    ensures { result.items ≡ pass.carried.items }
{
    pass.carried
}

// The carried prices and the table of a month after the first release, each aggregate's sample read once; else the
// first fault.
pub(crate) fn make<G: Groups>(
    alloc: Global,
    groups: &mut G,
    plan: &YearPlan,
    month: Month,
    carry: &[Code],
) -> Result<Made, FreezeFault>
    ensures keeps { Keeps (G.holds groups.old) (G.holds groups.new) }
    ensures stays { result ≢ Err Group → StaysClean (G.holds groups.old) (G.holds groups.new) }
    ensures count { (G.holds groups.old).failures ≤ (G.holds groups.new).failures }
    ensures group { IfErr result (λ f. f ≡ Group → (G.holds groups.old).failures < (G.holds groups.new).failures) }
    ensures exact { (G.holds groups.new).is_clean → G.is_sound (G.holds groups.old).held → 12 ≤ month →
        CanAsk (G.sources (G.holds groups.old).held) month →
        (rows : List Row) →
        ((code : Code) → group_of (G.sources (G.holds groups.old).held) month code ≡ sample_rows plan.now code rows) →
        are_by_series carried_serial (carried_in_month plan.now rows) ≡ true →
        let releases = (G.sources (G.holds groups.old).held).releases in
        let fault = fault_in plan.now releases month carry.now rows in
        MatchResult result
        (λ m. (fault ≡ None) × (m.carried.items ≡ carried_in_month plan.now rows)
        × (m.levels.items ≡ table_in plan.now releases month rows))
        (IsFreezeFault fault) }
{
    let Ok(unchanged) = unchanged_of(alloc, plan.weights(), carry) else {
        return Err(FreezeFault::Index(IndexFault::NoMemory));
    };
    let weights = match weights_of(alloc, groups, plan, month) {
        Ok(weights) => weights,
        Err(fault) => return Err(fault),
    };
    let pass = match pass_over(alloc, groups, &weights, month, &unchanged) {
        Ok(pass) => pass,
        Err(fault) => return Err(fault),
    };
    if let Some(fault) = first_fault(&pass.faults) {
        return Err(FreezeFault::Index(fault));
    }
    let levels = match levels_of(alloc, groups, plan, &weights, month, &pass) {
        Ok(levels) => levels,
        Err(fault) => return Err(fault),
    };
    let mut carried = carried_of(pass);
    if !put_by_series(&mut carried) {
        return Err(FreezeFault::Index(IndexFault::OutOfRange(weights[0].code())));
    }
    Ok(Made { carried, levels })
}
