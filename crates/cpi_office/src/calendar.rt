//! The desk puts a month's row into the calendar.
ghost use Rattle.std.specs.Prelude.{◌≡◌, Some, None};
ghost use Rattle.std.specs.Option.{option_copied};
ghost use Rattle.cpi_rows.specs.Keyed.{row_by_number};
ghost use Rattle.cpi_release.specs.State.{Reads};
ghost use Rattle.cpi_store.specs.Office.{public_part, PutsCalendar};
ghost use Rattle.cpi_plan.specs.Calendar.{same_calendar};
ghost use Rattle.cpi_release.specs.FrozenMonths.{frozen_months, keeps_frozen};
ghost use Rattle.cpi_office.specs.Standing.{standing};
ghost use Rattle.cpi_office.specs.Replacing.{scheduled_in, unless_frozen};
ghost use Rattle.cpi_office.specs.Verdicts.{with_verdict, verdict_reply};
ghost use Rattle.cpi_office.specs.Calls.{Answers};

use crate::cause::Cause;
use crate::months::is_month_kept;
use crate::refusal::Refusal;
use crate::reply::Reply;
use crate::standing::Standing;
use cpi_plan::CalendarRow;
use cpi_store::{Book, StoreFault};

/// Puts a month's row, in place of the month's row if there is one. A row of a frozen month that doesn't reopen it is
/// [`Refusal::MonthFrozen`].
pub fn put_calendar<B: Book>(book: &mut B, row: CalendarRow) -> Result<Reply, Cause>
    ensures { let o = (B.state book.old).held in let v = scheduled_in row o in
        Answers (B.state book.old) (B.state book.new) result (verdict_reply v) (with_verdict v o) }
{
    match find_calendar(book, &row)? {
        Standing::Same => Ok(Reply::Done),
        _ => store_calendar(book, row),
    }
}

// Stores a month's row, unless the month is frozen and the row doesn't reopen it.
fn store_calendar<B: Book>(book: &mut B, row: CalendarRow) -> Result<Reply, Cause>
    ensures { let o = (B.state book.old).held in
        let kept = keeps_frozen row.month (Some row.publishes) (frozen_months o.releases) in
        let v = unless_frozen kept Refusal.MonthFrozen (PutsCalendar row) in
        Answers (B.state book.old) (B.state book.new) result (verdict_reply v) (with_verdict v o) }
{
    if is_month_kept(book, row.month(), row.publishes())? {
        Ok(Reply::Refused(Refusal::MonthFrozen))
    } else {
        book.put_calendar(row)?;
        Ok(Reply::Done)
    }
}

// Whether the calendar has no row of the month, the same row or another.
fn find_calendar<B: Book>(book: &mut B, row: &CalendarRow) -> Result<Standing, StoreFault>
    ensures { Reads (B.state book.old) (B.state book.new) result (λ found.
        found ≡ standing same_calendar row.now
        (row_by_number (λ r. r.month) row.now.month (B.state book.old).held.calendar)) }
{
    let public = book.public_part()?;
    Ok(standing_calendar(row, public.calendar_row(row.month())))
}

// Compares a row with the month's row in the calendar.
fn standing_calendar(row: &CalendarRow, old: Option<&CalendarRow>) -> Standing
    ensures { result ≡ standing same_calendar row.now (option_copied old.entry) }
{
    match old {
        None => Standing::Free,
        Some(old) => {
            if old.is_same(row) {
                Standing::Same
            } else {
                Standing::Other
            }
        }
    }
}
