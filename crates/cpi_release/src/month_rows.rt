//! The rows that a month reads from the releases before it.
ghost use Rattle.std.specs.Prelude.{◌≡◌, List, option_map, IfOk};
ghost use Rattle.std.specs.Option.{option_copied};
ghost use Rattle.cpi_codes.specs.CodeOrder.{code_cmp};
ghost use Rattle.cpi_codes.specs.Month.{year_of};
ghost use Rattle.cpi_rows.specs.Keyed.{IsInOrder, row_by_number, row_at};
ghost use Rattle.cpi_index.specs.Row.{Row};
ghost use Rattle.cpi_index.specs.Month.{sample_rows};
ghost use Rattle.cpi_index.specs.MonthGroups.{AreGroups};
ghost use Rattle.cpi_release.specs.Releases.{latest_release, carried_of, frozen_of, levels_of};
ghost use Rattle.cpi_release.specs.Releases.{level_at_month};

use crate::level::Level;
use crate::release::{History, Release};
use cpi_codes::{Code, Month};
use cpi_index::{CarriedPrice, ChainedLevel, FrozenQuote, GroupRow};
use cpi_plan::YearPlan;
use cpi_rows::place_of;
use std::alloc::{AllocError, Global};

// The latest release of a month.
fn release_of(releases: &[Release], month: Month) -> Option<&Release>
    ensures { option_copied result ≡ latest_release releases.now month }
{
    let mut found = None;
    for release in releases {
        if release.month == month {
            found = Some(release);
        }
    }
    found
}

// The carried prices of a month.
pub(crate) fn carried_at(releases: &[Release], month: Month) -> &[CarriedPrice]
    ensures { result.now ≡ carried_of releases.now month }
{
    match release_of(releases, month) {
        Some(release) => release.carried.as_slice(),
        None => &[],
    }
}

// The frozen quotes of a month.
pub(crate) fn frozen_at(releases: &[Release], month: Month) -> &[FrozenQuote]
    ensures { result.now ≡ frozen_of releases.now month }
{
    match release_of(releases, month) {
        Some(release) => release.frozen.as_slice(),
        None => &[],
    }
}

// The rows of one aggregate, copied.
pub(crate) fn group_at(
    alloc: Global,
    plan: &YearPlan,
    groups: &[Vec<GroupRow>],
    code: Code,
) -> Result<Vec<GroupRow>, AllocError>
    ensures { (rows : List Row) → AreGroups plan.now rows groups.now →
        IfOk result (λ v. v.items ≡ sample_rows plan.now code rows) }
{
    let weights = plan.weights();
    let place = match place_of(weights, &code) {
        Ok(place) => place,
        Err(_) => return Ok(Vec::new(alloc)),
    };
    if groups.len() <= place {
        return Ok(Vec::new(alloc));
    }
    let rows = Vec::from_slice(alloc, &groups[place])?;
    Ok(rows)
}

// The plan of a month's year.
pub(crate) fn plan_of(history: &History, month: Month) -> Option<&YearPlan>
    ensures { option_copied result ≡ row_by_number (λ p. p.year) (year_of month) history.now.plans }
{
    let plans = history.plans.as_slice();
    let year = month.year();
    for plan in plans {
        if plan.year() == year {
            return Some(plan);
        }
    }
    None
}

// The row of a code, by binary search. If the rows aren't in code order, any answer is possible.
fn row_in(levels: &[Level], code: Code) -> Option<ChainedLevel>
    ensures { IsInOrder code_cmp (λ l. l.code) levels.now →
        result ≡ option_map (λ l. l.chained) (row_at code_cmp (λ l. l.code) code levels.now) }
{
    match levels.binary_search_by_key(&code, |level| level.code) {
        Ok(place) => Some(levels[place].chained),
        Err(_) => None,
    }
}

/// The chained level of a code in the table of a month. If the table isn't in code order, any answer is possible.
pub fn level_in(releases: &[Release], month: Month, code: Code) -> Option<ChainedLevel>
    ensures { IsInOrder code_cmp (λ l. l.code) (levels_of releases.now month) →
        result ≡ level_at_month releases.now month code }
{
    let release = release_of(releases, month)?;
    row_in(release.levels.as_slice(), code)
}
