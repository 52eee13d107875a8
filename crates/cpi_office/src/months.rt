//! The months and years that are frozen, and the month that may be reopened.
ghost use Rattle.std.specs.Prelude.{◌≡◌, Some};
ghost use Rattle.std.specs.Option.{option_copied};
ghost use Rattle.cpi_release.specs.State.{Reads};
ghost use Rattle.cpi_release.specs.FrozenMonths.{frozen_months, last_frozen, is_month_frozen};
ghost use Rattle.cpi_release.specs.FrozenMonths.{is_month_reopened, keeps_frozen};
ghost use Rattle.cpi_release.specs.FrozenMonths.{has_year_frozen};

use cpi_codes::{Moment, Month};
use cpi_release::FrozenMonth;
use cpi_store::{Book, StoreFault};

// The greatest number of revisions of a month.
const MOST_REVISIONS: u8 = 9;

/// Whether the month is frozen, and a row with this publishing moment, in seconds since 1970 UTC, doesn't reopen it.
///
/// # Errors
///
/// The store failed.
pub fn is_month_kept<B: Book>(
    book: &mut B,
    month: Month,
    publishes: Moment,
) -> Result<bool, StoreFault>
    ensures { Reads (B.state book.old) (B.state book.new) result (λ found.
        found ≡ keeps_frozen month (Some publishes) (frozen_months (B.state book.old).held.releases)) }
{
    let frozen = book.frozen_months()?;
    Ok(stays_frozen(&frozen, month, Some(publishes)))
}

/// Whether a month of the year is frozen.
///
/// # Errors
///
/// The store failed.
pub fn is_year_frozen<B: Book>(book: &mut B, year: u16) -> Result<bool, StoreFault>
    ensures { Reads (B.state book.old) (B.state book.new) result (λ found.
        found ≡ has_year_frozen year (frozen_months (B.state book.old).held.releases)) }
{
    let frozen = book.frozen_months()?;
    Ok(has_year(&frozen, year))
}

/// Whether the month is among the frozen ones, and a row with this publishing moment doesn't reopen it.
pub fn stays_frozen(frozen: &[FrozenMonth], month: Month, publishes: Option<Moment>) -> bool
    ensures { result ≡ keeps_frozen month publishes frozen.now }
{
    is_frozen(frozen, month) && !is_reopened(last(frozen), month, publishes)
}

// Whether the month is among the frozen ones.
fn is_frozen(frozen: &[FrozenMonth], month: Month) -> bool
    ensures { result ≡ is_month_frozen month frozen.now }
{
    frozen
        .iter()
        .any(|frozen_month| frozen_month.month == month)
}

/// The last frozen month, in its latest revision.
pub fn last(frozen: &[FrozenMonth]) -> Option<&FrozenMonth>
    ensures { option_copied result ≡ last_frozen frozen.now }
{
    frozen.last()
}

// Whether the month is the last one and may have a further revision, published later than its latest.
fn is_reopened(last: Option<&FrozenMonth>, month: Month, publishes: Option<Moment>) -> bool
    ensures { result ≡ is_month_reopened month publishes (option_copied last.entry) }
{
    match (last, publishes) {
        (Some(last), Some(publishes)) => {
            last.month == month
                && last.revision.number() < MOST_REVISIONS
                && last.publishes < publishes
        }
        _ => false,
    }
}

// Whether a month of the year is among the frozen ones.
fn has_year(frozen: &[FrozenMonth], year: u16) -> bool
    ensures { result ≡ has_year_frozen year frozen.now }
{
    frozen
        .iter()
        .any(|frozen_month| frozen_month.month.year() == year)
}
