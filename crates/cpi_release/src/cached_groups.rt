//! The samples of a month, made at once and handed out one by one.
ghost use Rattle.std.specs.Prelude.{◌≡◌, ◌≤◌, ◌-◌, Some, IfOk};
ghost use Rattle.std.specs.Option.{option_copied};
ghost use Rattle.cpi_codes.specs.Month.{year_of};
ghost use Rattle.cpi_rows.specs.Keyed.{row_by_number};
ghost use Rattle.cpi_release.specs.Releases.{carried_of, frozen_of, link_month};
ghost use Rattle.cpi_release.specs.GroupCalls.{Sources, group_of};
ghost use Rattle.cpi_release.specs.CachedSamples.{IsFit, AreGroupsOf};

use crate::month_rows::{carried_at, frozen_at, group_at};
use crate::release::Release;
use cpi_codes::{Code, Month};
use cpi_index::{CarriedPrice, FrozenQuote, GroupRow, groups_of_january, groups_of_month};
use cpi_plan::YearPlan;
use std::alloc::{AllocError, Global};

const JANUARY: u8 = 1;

/// The samples of a month, one list for each weight of the plan of its year, from what the month reads: `prev` and
/// `link`, the carried prices and the frozen quotes of its link month, `before`, the carried prices of the month
/// before, and its own quotes. O(n log m) for n series and m aggregates.
pub fn groups_after(
    alloc: Global,
    plan: &YearPlan,
    prev: &[CarriedPrice],
    link: &[FrozenQuote],
    before: &[CarriedPrice],
    month: Month,
    frozen: &[FrozenQuote],
) -> Result<Vec<Vec<GroupRow>>, AllocError>
    ensures { IfOk result (λ v. (s : Sources) → row_by_number (λ p. p.year) (year_of month) s.plans ≡ Some plan.now →
        prev.now ≡ carried_of s.releases (link_month month) → link.now ≡ frozen_of s.releases (link_month month) →
        before.now ≡ carried_of s.releases (month - 1) → s.quotes month ≡ frozen.now → AreGroupsOf s month v.items) }
{
    // In January the carried prices of the month before are the bases themselves.
    if month.month() == JANUARY {
        let january = groups_of_january(alloc, plan, prev, link, frozen)?;
        return Ok(january);
    }
    let groups = groups_of_month(alloc, plan, prev, link, before, frozen)?;
    Ok(groups)
}

/// The samples of a month, one list for each weight of the plan of its year.
pub fn month_groups(
    alloc: Global,
    plan: Option<&YearPlan>,
    releases: &[Release],
    month: Month,
    frozen: &[FrozenQuote],
) -> Result<Vec<Vec<GroupRow>>, AllocError>
    ensures { IfOk result (λ v. (s : Sources) → option_copied plan.entry ≡ row_by_number (λ p. p.year) (year_of month)
        s.plans →
        s.releases ≡ releases.now → s.quotes month ≡ frozen.now → AreGroupsOf s month v.items) }
{
    let Some(plan) = plan else {
        return Ok(Vec::new(alloc));
    };
    let Some(december) = month.link() else {
        return Ok(Vec::new(alloc));
    };
    let Some(last) = month.prev() else {
        return Ok(Vec::new(alloc));
    };
    let prev = carried_at(releases, december);
    let link = frozen_at(releases, december);
    let before = carried_at(releases, last);
    let groups = groups_after(alloc, plan, prev, link, before, month, frozen)?;
    Ok(groups)
}

// The rows of one aggregate among the samples of a month, copied.
pub(crate) fn group_rows(
    alloc: Global,
    plan: Option<&YearPlan>,
    groups: &[Vec<GroupRow>],
    month: Month,
    code: Code,
) -> Result<Vec<GroupRow>, AllocError>
    ensures { IfOk result (λ v. (s : Sources) → option_copied plan.entry ≡ row_by_number (λ p. p.year) (year_of month)
        s.plans →
        AreGroupsOf s month groups.now → IsFit s → 12 ≤ month → v.items ≡ group_of s month code) }
{
    let Some(plan) = plan else {
        return Ok(Vec::new(alloc));
    };
    let rows = group_at(alloc, plan, groups, code)?;
    Ok(rows)
}
