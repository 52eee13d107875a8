//! Answers from the headers of the releases, without the rows of their lists.
ghost use Rattle.std.specs.Prelude.{◌≡◌, ◌==◌, ◌&&◌};
ghost use Rattle.std.specs.Option.{option_copied};
ghost use Rattle.cpi_sql_rows.specs.Common.{nat_le, IfOk};
ghost use Rattle.cpi_sql_reads.specs.Headers.{holds_release, header_month, is_header_there};
ghost use Rattle.cpi_sql_reads.specs.Headers.{latest_header, months_of, months_until, latest_revision};

use cpi_codes::{Moment, Month};
use cpi_release::{FrozenMonth, Revision};
use cpi_sql_rows::Header;
use std::alloc::{AllocError, Global};

// The release's month and revision, and when its table is published.
fn month_of(header: &Header) -> FrozenMonth
    ensures { result ≡ header_month header.now }
{
    FrozenMonth {
        month: header.month,
        revision: header.revision,
        publishes: header.publishes,
    }
}

/// The frozen months in their revisions, by month and revision. It is an error if memory is refused.
pub fn frozen_months(alloc: Global, headers: &[Header]) -> Result<Vec<FrozenMonth>, AllocError>
    ensures { IfOk result (λ found. found.items ≡ months_of headers.now) }
{
    headers.iter().map(|header| month_of(header)).collect(alloc)
}

/// The months and revisions whose tables are published by the moment, by month and revision. It is an error if memory
/// is refused.
pub fn published_months(
    alloc: Global,
    until: Moment,
    headers: &[Header],
) -> Result<Vec<FrozenMonth>, AllocError>
    ensures { IfOk result (λ found. found.items ≡ months_until until headers.now) }
{
    let published = headers.iter().filter(|header| header.publishes <= until);
    published.map(|header| month_of(header)).collect(alloc)
}

/// The header of the month's latest release, if it has one.
pub fn header_of(headers: &[Header], month: Month) -> Option<&Header>
    ensures { option_copied result ≡ latest_header month headers.now }
{
    headers.iter().rev().find(|header| header.month == month)
}

/// Whether the month has a release of that revision.
pub fn has_release(headers: &[Header], month: Month, revision: Revision) -> bool
    ensures { result ≡ holds_release month revision headers.now }
{
    headers.iter().any(|header| header.month == month && header.revision == revision)
}

/// The latest revision of the month whose table is published by the moment, if there is one.
pub fn revision_published(headers: &[Header], month: Month, until: Moment) -> Option<Revision>
    ensures { result ≡ latest_revision month until headers.now }
{
    let is_due = |header: &&Header| header.publishes <= until && header.month == month;
    let latest = headers.iter().rev().find(is_due);
    latest.map(|header| header.revision)
}

/// Whether the month's table in the revision is published by the moment.
pub fn is_there(headers: &[Header], month: Month, revision: Revision, until: Moment) -> bool
    ensures { result ≡ is_header_there month revision until headers.now }
{
    headers.iter().any(|header| {
        header.month == month && header.revision == revision && header.publishes <= until
    })
}
