//! The release of a month, read one aggregate at a time.
ghost use Rattle.std.specs.Prelude.{◌≡◌, ◌≢◌, ◌<◌, ◌≤◌, None, Some, IfOk, Err, IfErr, MatchResult};
ghost use Rattle.std.specs.Option.{option_copied};
ghost use Rattle.cpi_release.specs.State.{Keeps, StaysClean};
ghost use Rattle.cpi_release.specs.Asking.{MayFreeze};
ghost use Rattle.cpi_release.specs.Releasing.{Freeze, fault_of, release_of_month};
ghost use Rattle.cpi_release.specs.Summed.{IsFreezeFault};
ghost use Rattle.cpi_release.specs.declared.freeze_fault.FreezeFault.TheVariants.{Group};

use crate::by_group::{Made, make};
use crate::freeze_fault::FreezeFault;
use crate::groups::Groups;
use crate::release::Release;
use crate::revision::Revision;
use cpi_codes::{Code, Moment, Month};
use cpi_index::FrozenQuote;
use cpi_plan::YearPlan;
use cpi_rows::Rows;
use std::alloc::Global;

// The release of the frozen quotes, with the carried prices and the table that were made of them.
fn release_with(
    month: Month,
    revision: Revision,
    frozen_at: Moment,
    publishes: Moment,
    frozen: Vec<FrozenQuote>,
    carry: Vec<Code>,
    made: Made,
) -> Release
    ensures { result ≡ record {
      month = month;
      revision = revision;
      frozen_at = frozen_at;
      publishes = publishes;
      frozen = frozen.items;
      carry = carry.items;
      carried = made.carried.items;
      levels = made.levels.items;
    } }
{
    Release {
        month,
        revision,
        frozen_at,
        publishes,
        frozen: Rows::of(frozen),
        carry: Rows::of(carry),
        carried: Rows::of(made.carried),
        levels: Rows::of(made.levels),
    }
}

impl Release {
    /// The release of a month, or its first fault. Each aggregate's sample is read once, in code order; `Group` if a
    /// read failed. The caller owes the plan of the month's year, and no plan only at the first release, which has no
    /// rows; that `frozen` are the month's quotes of `groups`, by series; and that the month before was frozen.
    pub fn compute_by_group<G: Groups>(
        alloc: Global,
        groups: &mut G,
        plan: Option<&YearPlan>,
        month: Month,
        revision: Revision,
        frozen_at: Moment,
        publishes: Moment,
        frozen: Vec<FrozenQuote>,
        carry: Vec<Code>,
    ) -> Result<Release, FreezeFault>
        ensures keeps { Keeps (G.holds groups.old) (G.holds groups.new) }
        ensures stays { result ≢ Err Group → StaysClean (G.holds groups.old) (G.holds groups.new) }
        ensures count { (G.holds groups.old).failures ≤ (G.holds groups.new).failures }
        ensures group { IfErr result (λ f. f ≡ Group → (G.holds groups.old).failures < (G.holds groups.new).failures) }
        ensures month { IfOk result (λ r. r.month ≡ month) }
        ensures revision { IfOk result (λ r. r.revision ≡ revision) }
        ensures exact { (G.holds groups.new).is_clean → G.is_sound (G.holds groups.old).held →
            let s = G.sources (G.holds groups.old).held in
            let x : Freeze = record {
              month = month;
              revision = revision;
              frozen_at = frozen_at;
              publishes = publishes;
              frozen = frozen.items;
              carry = carry.items;
            } in
            MayFreeze s (option_copied plan.entry) x → let fault = fault_of (option_copied plan.entry) s.releases x in
            MatchResult result
            (λ r. (fault ≡ None) × (r ≡ release_of_month (option_copied plan.entry) s.releases x))
            (IsFreezeFault fault) }
    {
        let Some(plan) = plan else {
            let nothing = Made {
                carried: Vec::new(alloc),
                levels: Vec::new(alloc),
            };
            return Ok(release_with(
                month, revision, frozen_at, publishes, frozen, carry, nothing,
            ));
        };
        let made = match make(alloc, groups, plan, month, &carry) {
            Ok(made) => made,
            Err(fault) => return Err(fault),
        };
        Ok(release_with(month, revision, frozen_at, publishes, frozen, carry, made))
    }
}
