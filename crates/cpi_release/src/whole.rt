//! The release of a month, over a whole history. `cpi` doesn't call this: it reads one elementary aggregate at a time.
ghost use Rattle.std.specs.Prelude.{◌≡◌, ◌≢◌, Option, None, Some, true, nat_lt, IsSome, MatchResult};
ghost use Rattle.std.specs.List.{list_any};
ghost use Rattle.std.specs.Option.{option_copied};
ghost use Rattle.cpi_index.specs.Series.{are_by_series, frozen_serial};
ghost use Rattle.cpi_index.specs.declared.fault.IndexFault.{IndexFault};
ghost use Rattle.cpi_index.specs.declared.fault.IndexFault.TheVariants.{NoMemory};
ghost use Rattle.cpi_release.specs.Summed.{IsFreezeFault};
ghost use Rattle.cpi_release.specs.CachedSamples.{sources_of};
ghost use Rattle.cpi_release.specs.GroupCalls.{IsAfterFrozen};
ghost use Rattle.cpi_release.specs.Releasing.{Freeze, AreInOrder, has_an_earlier};
ghost use Rattle.cpi_release.specs.Releasing.{plan_in, fault_of, release_of_month};

use crate::freeze_fault::FreezeFault;
use crate::history_groups::HistoryGroups;
use crate::month_rows::plan_of;
use crate::release::{History, Release};
use crate::revision::Revision;
use cpi_codes::{Code, Moment, Month};
use cpi_index::{FrozenQuote, IndexFault};
use cpi_plan::YearPlan;
use std::alloc::Global;

// Whether an earlier month was frozen.
fn has_earlier(releases: &[Release], month: Month) -> bool
    ensures { result ≡ has_an_earlier releases.now month }
{
    releases.iter().any(|release| release.month < month)
}

// The plan by which a month is released: that of its year, and none if no earlier month was frozen.
fn releasing_plan(history: &History, month: Month) -> Option<&YearPlan>
    ensures { option_copied result ≡ plan_in history.now.plans history.now.releases month }
{
    if has_earlier(history.releases.as_slice(), month) {
        plan_of(history, month)
    } else {
        None
    }
}

// The fault of a release over a history in memory, of which a read fails only for lack of memory.
fn index_fault(fault: FreezeFault) -> IndexFault
    ensures { (wanted : Option IndexFault) → IsFreezeFault wanted fault → result ≢ NoMemory → wanted ≡ Some result }
{
    match fault {
        FreezeFault::Index(fault) => fault,
        FreezeFault::Group => IndexFault::NoMemory,
    }
}

// The release of a month over a history, with the quotes lent to its groups.
fn over(
    alloc: Global,
    history: &History,
    lent: &[FrozenQuote],
    month: Month,
    revision: Revision,
    frozen_at: Moment,
    publishes: Moment,
    frozen: Vec<FrozenQuote>,
    carry: Vec<Code>,
) -> Result<Release, FreezeFault>
    ensures { let plans = history.now.plans in let releases = history.now.releases in
        let plan = plan_in plans releases month in
        let x : Freeze = record {
          month = month;
          revision = revision;
          frozen_at = frozen_at;
          publishes = publishes;
          frozen = frozen.items;
          carry = carry.items;
        } in
        lent.now ≡ frozen.items → AreInOrder releases → are_by_series frozen_serial frozen.items ≡ true →
        (IsSome plan → IsAfterFrozen (sources_of plans releases frozen.items) month) →
        let fault = fault_of plan releases x in
        MatchResult result (λ r. (fault ≡ None) × (r ≡ release_of_month plan releases x)) (IsFreezeFault fault) }
{
    let mut groups = HistoryGroups::new(alloc, history, lent);
    let plan = releasing_plan(history, month);
    Release::compute_by_group(
        alloc,
        &mut groups,
        plan,
        month,
        revision,
        frozen_at,
        publishes,
        frozen,
        carry,
    )
}

impl Release {
    /// The release of a month, or its first fault, over the releases before it. The caller owes releases that follow
    /// month by month from a December, with their lists in order; that the month before was frozen, or that no earlier
    /// one was; and quotes by series. O(n log m) for n series and m aggregates.
    pub fn compute(
        alloc: Global,
        history: &History,
        month: Month,
        revision: Revision,
        frozen_at: Moment,
        publishes: Moment,
        frozen: Vec<FrozenQuote>,
        carry: Vec<Code>,
    ) -> Result<Release, IndexFault>
        ensures { let plans = history.now.plans in let releases = history.now.releases in
            let plan = plan_in plans releases month in
            let x : Freeze = record {
              month = month;
              revision = revision;
              frozen_at = frozen_at;
              publishes = publishes;
              frozen = frozen.items;
              carry = carry.items;
            } in
            AreInOrder releases → are_by_series frozen_serial frozen.items ≡ true →
            (IsSome plan → IsAfterFrozen (sources_of plans releases frozen.items) month) →
            let fault = fault_of plan releases x in
            MatchResult result
            (λ r. (fault ≡ None) × (r ≡ release_of_month plan releases x))
            (λ f. f ≢ NoMemory → fault ≡ Some f) }
    {
        let Ok(lent) = Vec::from_slice(alloc, &frozen) else {
            return Err(IndexFault::NoMemory);
        };
        let computed = over(
            alloc, history, &lent, month, revision, frozen_at, publishes, frozen, carry,
        );
        match computed {
            Ok(release) => Ok(release),
            Err(fault) => Err(index_fault(fault)),
        }
    }
}
