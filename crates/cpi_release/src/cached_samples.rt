//! The samples of one month, kept for its further reads.
ghost use Rattle.std.specs.Prelude.{◌≡◌, ◌≤◌, ◌↔◌, None, Some, IfOk, IfSome, IsSome, OnErr, OnOk};
ghost use Rattle.std.specs.Option.{option_copied};
ghost use Rattle.cpi_codes.specs.Month.{year_of};
ghost use Rattle.cpi_rows.specs.Keyed.{row_by_number};
ghost use Rattle.cpi_release.specs.GroupCalls.{Sources, group_of};
ghost use Rattle.cpi_release.specs.CachedSamples.{IsFit, AreGroupsOf, AreSamplesCached, kept_month};

use crate::cached_groups::group_rows;
use cpi_codes::{Code, Month};
use cpi_index::GroupRow;
use cpi_plan::YearPlan;
use std::alloc::{AllocError, Global};
use std::marker::Model;

// One list of rows for each weight of the month's plan.
#[derive(Drop)]
struct MonthSamples {
    month: Month,
    groups: Vec<Vec<GroupRow>>,
}

/// The samples of one month at most, of which each read copies those of one aggregate.
#[derive(Drop)]
pub struct CachedSamples {
    kept: Option<MonthSamples>,
}

impl Model for CachedSamples {
    ghost use Rattle.std.specs.Prelude.{Option, option_map};
    ghost use Rattle.cpi_release.specs.CachedSamples.{Samples};

    ghost Value = { Option Samples };

    ghost view = { λ k. option_map (λ m. record { month = m.month; groups = m.groups.items }) k.kept };
}

impl CachedSamples {
    /// No samples yet.
    pub fn none() -> CachedSamples
        ensures { result ≡ None }
    {
        CachedSamples { kept: None }
    }

    /// Drops the samples, since the rows that they were made from change.
    pub fn clear(&mut self)
        ensures { self.new ≡ None }
    {
        self.kept = None;
    }

    /// Keeps the samples of a month in place of the former ones.
    pub fn put(&mut self, month: Month, groups: Vec<Vec<GroupRow>>)
        ensures { self.new ≡ Some (record { month = month; groups = groups.items }) }
    {
        self.kept = Some(MonthSamples { month, groups });
    }

    /// The rows of one aggregate, if the month's samples are kept. `plan` is that of the month's year.
    pub fn rows(
        &self,
        alloc: Global,
        plan: Option<&YearPlan>,
        month: Month,
        code: Code,
    ) -> Result<Option<Vec<GroupRow>>, AllocError>
        ensures kept { IfOk result (λ o. IsSome o ↔ (kept_month self.now ≡ Some month)) }
        ensures rows { IfOk result (λ o. IfSome o (λ v. (s : Sources) →
            option_copied plan.entry ≡ row_by_number (λ p. p.year) (year_of month) s.plans → AreSamplesCached s
            self.now →
            IsFit s → 12 ≤ month → v.items ≡ group_of s month code)) }
    {
        let Some(kept) = &self.kept else {
            return Ok(None);
        };
        if kept.month != month {
            return Ok(None);
        }
        let rows = group_rows(alloc, plan, &kept.groups, month, code)?;
        Ok(Some(rows))
    }

    /// Keeps the samples of a month in place of the former ones, and answers the rows of one aggregate. If memory was
    /// refused, the former ones stay.
    pub fn keep(
        &mut self,
        alloc: Global,
        plan: Option<&YearPlan>,
        month: Month,
        groups: Vec<Vec<GroupRow>>,
        code: Code,
    ) -> Result<Vec<GroupRow>, AllocError>
        ensures kept { OnOk result (self.new ≡ Some (record { month = month; groups = groups.items })) }
        ensures rows { IfOk result (λ v. (s : Sources) →
            option_copied plan.entry ≡ row_by_number (λ p. p.year) (year_of month) s.plans → AreGroupsOf s month
            groups.items →
            IsFit s → 12 ≤ month → v.items ≡ group_of s month code) }
        ensures refused { OnErr result (self.new ≡ self.old) }
    {
        let rows = group_rows(alloc, plan, &groups, month, code)?;
        self.put(month, groups);
        Ok(rows)
    }
}
