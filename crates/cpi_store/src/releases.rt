//! Reads of a list of releases: months, revisions and tables.
ghost use Rattle.std.specs.Prelude.{◌≡◌, None, Some, IfOk, map, option_map};
ghost use Rattle.std.specs.Option.{option_copied};
ghost use Rattle.cpi_release.specs.FrozenMonths.{frozen_months};
ghost use Rattle.cpi_release.specs.PublishedTables.{frozen_month_of, published_until};
ghost use Rattle.cpi_store.specs.Tables.{table_until, is_wanted};

use cpi_codes::{Moment, Month};
use cpi_release::{FrozenMonth, Level, Release, Revision};
use cpi_rows::Rows;
use std::alloc::{AllocError, Global};

/// The frozen months in each of their revisions, by month and revision. The error says that memory was refused.
pub fn frozen_months(alloc: Global, releases: &[Release]) -> Result<Vec<FrozenMonth>, AllocError>
    ensures { IfOk result (λ found. found.items ≡ frozen_months releases.now) }
{
    let mut found = Vec::new(alloc);
    for release in releases {
        found.push(release.frozen_month())?;
    }
    Ok(found)
}

/// The months and revisions whose tables are published by the moment, by month and revision. The error says that memory
/// was refused.
pub fn published_months(
    alloc: Global,
    until: Moment,
    releases: &[Release],
) -> Result<Vec<FrozenMonth>, AllocError>
    ensures { IfOk result (λ found. found.items ≡ map frozen_month_of (published_until until releases.now)) }
{
    let mut found = Vec::new(alloc);
    for release in releases {
        if release.publishes <= until {
            found.push(release.frozen_month())?;
        }
    }
    Ok(found)
}

// Whether the release is of the month, and its table is published by the moment.
fn is_due(release: &Release, month: Month, until: Moment) -> bool
    ensures { result ≡ is_wanted month None until release.now }
{
    release.publishes <= until && release.month == month
}

/// The latest revision of the month whose table is published by the moment.
pub fn revision_until(releases: &[Release], month: Month, until: Moment) -> Option<Revision>
    ensures { result ≡ option_map (λ t. t.revision) (table_until month None until releases.now) }
{
    let mut found = None;
    for release in releases {
        if is_due(release, month, until) {
            found = Some(release.revision);
        }
    }
    found
}

/// The rows of the month's table in the revision, if it is published by the moment.
pub fn table_until(
    releases: &[Release],
    month: Month,
    revision: Revision,
    until: Moment,
) -> Option<&Rows<Level>>
    ensures { option_copied result ≡ option_map (λ t. t.levels) (table_until month (Some revision) until releases.now) }
{
    let mut found = None;
    for release in releases {
        if release.revision == revision && is_due(release, month, until) {
            found = Some(&release.levels);
        }
    }
    found
}
