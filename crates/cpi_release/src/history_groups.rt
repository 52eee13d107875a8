//! Groups read from a history that is handed in.
ghost use Rattle.std.specs.Prelude.{◌≡◌, ◌≤◌, IfOk};
ghost use Rattle.cpi_release.specs.GroupCalls.{group_of};
ghost use Rattle.cpi_release.specs.CachedSamples.{sources_in, IsFit};

use crate::cached_groups::month_groups;
use crate::cached_samples::CachedSamples;
use crate::failures::Failures;
use crate::group_fault::GroupFault;
use crate::groups::Groups;
use crate::month_rows::{level_in, plan_of};
use crate::release::History;
use cpi_codes::{Code, Month};
use cpi_index::{ChainedLevel, FrozenQuote, GroupRow};
use std::alloc::{AllocError, Global};
use std::marker::Model;

/// The samples of a month that is being frozen, over a history. Those of all aggregates are made at the first read of
/// the month, and each further read copies one of them.
#[derive(Drop)]
pub struct HistoryGroups<'a> {
    history: &'a History,
    frozen: &'a [FrozenQuote],
    samples: CachedSamples,
    failed: Failures,
    alloc: Global,
}

impl<'a> Model for HistoryGroups<'a> {
    ghost use Rattle.cpi_release.specs.CachedSamples.{CachedGroups, AreSamplesCached, sources_of};

    ghost Value = { CachedGroups };

    ghost view = { λ h. record {
      plans = h.history.now.plans;
      releases = h.history.now.releases;
      frozen = h.frozen.now;
      failures = h.failed.count;
    } };

    ghost invariant = { λ h. AreSamplesCached (sources_of h.history.now.plans h.history.now.releases h.frozen.now)
        h.samples };
}

impl<'a> HistoryGroups<'a> {
    /// A holder over a history and the quotes of the month that is being frozen. Its reads take their memory from this
    /// allocator.
    pub fn new(alloc: Global, history: &'a History, frozen: &'a [FrozenQuote]) -> HistoryGroups<'a>
        ensures { result ≡ record {
          plans = history.now.plans;
          releases = history.now.releases;
          frozen = frozen.now;
          failures = 0;
        } }
    {
        HistoryGroups {
            history,
            frozen,
            samples: CachedSamples::none(),
            failed: Failures::none(),
            alloc,
        }
    }
}

impl<'a> HistoryGroups<'a> {
    // The rows of one aggregate; the month's samples are kept from then on.
    fn read(&mut self, month: Month, code: Code) -> Result<Vec<GroupRow>, AllocError>
        ensures same { self.new ≡ self.old }
        ensures shown { IfOk result (λ v. IsFit (sources_in self.old) → 12 ≤ month →
            v.items ≡ group_of (sources_in self.old) month code) }
    {
        let plan = plan_of(self.history, month);
        if let Some(rows) = self.samples.rows(self.alloc, plan, month, code)? {
            return Ok(rows);
        }
        let releases = self.history.releases.as_slice();
        let groups = month_groups(self.alloc, plan, releases, month, self.frozen)?;
        let rows = self.samples.keep(self.alloc, plan, month, groups, code)?;
        Ok(rows)
    }
}

impl<'a> Groups for HistoryGroups<'a> {
    ghost use Rattle.std.specs.Prelude.{⊤};
    ghost use Rattle.cpi_release.specs.GroupCalls.{Sources};
    ghost use Rattle.cpi_release.specs.CachedSamples.{sources_of, IsFit};

    ghost Held = { Sources };

    ghost holds = { λ h. record {
      held = sources_of h.plans h.releases h.frozen;
      failures = h.failures;
      is_kept = ⊤;
      is_clean = ⊤;
      clean_is_kept = λ x. x;
      may_leave = λ _. ⊥;
    } };

    ghost sources = { λ s. s };

    ghost is_sound = { IsFit };

    ghost has_sound = { λ h s. s.0 };

    fn rows(&mut self, _year: u16, month: Month, code: Code) -> Result<Vec<GroupRow>, GroupFault> {
        match self.read(month, code) {
            Ok(rows) => Ok(rows),
            Err(_) => Err(self.failed.counted(GroupFault)),
        }
    }

    fn chained(&mut self, month: Month, code: Code) -> Result<Option<ChainedLevel>, GroupFault> {
        Ok(level_in(self.history.releases.as_slice(), month, code))
    }
}
