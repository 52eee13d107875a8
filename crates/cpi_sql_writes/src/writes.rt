//! The statements that put one row each.
ghost use Rattle.std.specs.Prelude.{◌≡◌};
ghost use Rattle.cpi_codes.specs.declared.limits.TheConstants.{LAST_MOMENT};
ghost use Rattle.cpi_store.specs.Office.{Assigns, PutsCalendar, PutsItem, PutsOutlet, Quotes, Registers};
ghost use Rattle.cpi_sql_rows.specs.Common.{⊤, row_by_number, bound, false, HasCleanDisk, IfOk, Int, IsTrue, None};
ghost use Rattle.cpi_sql_rows.specs.Common.{OnOk, pos, Some, state, string_bytes, Text};
ghost use Rattle.cpi_sql_rows.specs.Lists.{registration_from, calendar_from, month_at, number_within};
ghost use Rattle.cpi_sql_writes.specs.GivenColumns.{IsNumberFree};
ghost use Rattle.cpi_sql_writes.specs.Within.{RunsAlone};
ghost use Rattle.cpi_sql_writes.specs.Written.{Written};

use crate::given_columns::given_columns;
use cpi_codes::{Moment, SeriesId};
use cpi_plan::{CalendarRow, Item};
use cpi_sql_rows::{
    Unread, collector_number, high_number, item_text, key_text, low_number, mark_text, mark_value,
    moment_value, month_number, name_text, outlet_number, receipt_number, run, slot_number,
};
use cpi_store::{Outlet, Registration};
use cpi_survey::{Assigned, Quote};
use sqlite::{Alter, Connection, params};
use sqlite_value::value::ValueRef;
use std::alloc::Global;

// Runs the statement, which puts one row.
fn put_row<S: Alter>(
    conn: &mut Connection<S>,
    text: &str,
    params: &[ValueRef<'_>],
) -> Result<(), Unread>
    ensures { RunsAlone text.now (bound params.now) (state S.Store conn.old) (state S.Store conn.new) result }
{
    let _count = run(conn, text, params)?;
    Ok(())
}

// The columns of a registration: the collector's number and key. It is an error if memory is refused.
fn registration_columns(alloc: Global, registration: Registration) -> Result<(u32, String), Unread>
    ensures { IfOk result (λ p. registration_from (Int (pos p.0)) (Text (string_bytes p.1)) ≡ Some registration) }
{
    let key = key_text(alloc, registration.key)?;
    Ok((u32::from(registration.number.number()), key))
}

const PUT_COLLECTOR: &str = "INSERT INTO collector (number, key) VALUES (?1, ?2)";

/// Puts a new collector. It is an error if a row has its number or key, the store fails, or memory is refused.
pub fn put_collector<S: Alter>(
    conn: &mut Connection<S>,
    alloc: Global,
    registration: Registration,
) -> Result<(), Unread>
    ensures written { Written (Registers registration)
        (λ office. row_by_number (λ b. b.number) registration.number office.collectors ≡ None)
        (state S.Store conn.old) (state S.Store conn.new) result }
    ensures open { HasCleanDisk (state S.Store conn.new) → (state S.Store conn.old).in_transaction ≡ false
        → OnOk result (IsTrue (state S.Store conn.new).is_open) }
{
    let columns = registration_columns(alloc, registration)?;
    put_row(conn, PUT_COLLECTOR, params![columns.0, columns.1.as_str()])
}

const PUT_OUTLET: &str = "INSERT INTO outlet (number, name) VALUES (?1, ?2)";

/// Puts a new outlet. It is an error if a row has its number, or the store fails.
pub fn put_outlet<S: Alter>(conn: &mut Connection<S>, outlet: &Outlet) -> Result<(), Unread>
    ensures written { Written (PutsOutlet outlet.now)
        (λ office. row_by_number (λ u. u.number) outlet.now.number office.outlets ≡ None)
        (state S.Store conn.old) (state S.Store conn.new) result }
    ensures open { HasCleanDisk (state S.Store conn.new) → (state S.Store conn.old).in_transaction ≡ false
        → OnOk result (IsTrue (state S.Store conn.new).is_open) }
{
    let number = outlet_number(outlet.number);
    let name = name_text(&outlet.name);
    put_row(conn, PUT_OUTLET, params![number, name])
}

const PUT_ITEM: &str = "INSERT INTO item (code, text, unit, low, high) VALUES (?1, ?2, ?3, ?4, ?5)";

/// Puts a new item. It is an error if a row has its code, the store fails, or memory is refused.
pub fn put_item<S: Alter>(
    conn: &mut Connection<S>,
    alloc: Global,
    item: &Item,
) -> Result<(), Unread>
    ensures written { Written (PutsItem item.now)
        (λ office. row_by_number (λ i. i.code) item.now.code office.items ≡ None)
        (state S.Store conn.old) (state S.Store conn.new) result }
    ensures open { HasCleanDisk (state S.Store conn.new) → (state S.Store conn.old).in_transaction ≡ false
        → OnOk result (IsTrue (state S.Store conn.new).is_open) }
{
    let code = item_text(alloc, item.code)?;
    let text = name_text(&item.text);
    let unit = name_text(&item.unit);
    let low = low_number(item.low);
    let high = high_number(item.high);
    put_row(
        conn,
        PUT_ITEM,
        params![code.as_str(), text, unit, low, high],
    )
}

const PUT_ASSIGNMENT: &str =
    "INSERT INTO assignment_2 (collector, slot, outlet, item, first_month, last_month, series_collector, series_slot, \
     copied) VALUES (?1, ?2, ?3, ?4, ?5, ?6, ?7, ?8, ?9)";

/// Puts a new assignment of the collector, whose series is named by its own slot. It is an error if the slot has a row,
/// the store fails, or memory is refused.
pub fn put_assignment<S: Alter>(
    conn: &mut Connection<S>,
    alloc: Global,
    registration: Registration,
    assigned: &Assigned,
) -> Result<(), Unread>
    ensures written { Written (Assigns registration assigned.now)
        (λ office. IsNumberFree registration.number assigned.now.assignment.slot office.assignments)
        (state S.Store conn.old) (state S.Store conn.new) result }
    ensures open { HasCleanDisk (state S.Store conn.new) → (state S.Store conn.old).in_transaction ≡ false
        → OnOk result (IsTrue (state S.Store conn.new).is_open) }
{
    let (collector, slot) = (registration.number, assigned.assignment.slot);
    let series = SeriesId { collector, slot };
    let columns = given_columns(alloc, collector, &assigned.assignment, series)?;
    let row = columns.parameters();
    put_row(conn, PUT_ASSIGNMENT, &row)
}

const PUT_QUOTE: &str =
    "INSERT INTO quote_2 (collector, slot, month, mark, value, receipt) VALUES (?1, ?2, ?3, ?4, ?5, ?6) \
     ON CONFLICT (collector, slot, month) DO UPDATE SET collector = excluded.collector, slot = excluded.slot, \
     month = excluded.month, mark = excluded.mark, value = excluded.value, receipt = excluded.receipt";

/// Puts a quote of the collector, in place of the one of its slot and month if there is one. It is an error if the
/// receipt is past the last one that a collector is given, or the store fails.
pub fn put_quote<S: Alter>(
    conn: &mut Connection<S>,
    registration: Registration,
    quote: Quote,
) -> Result<(), Unread>
    ensures written { Written (Quotes registration quote) (λ _. ⊤)
        (state S.Store conn.old) (state S.Store conn.new) result }
    ensures open { HasCleanDisk (state S.Store conn.new) → (state S.Store conn.old).in_transaction ≡ false
        → OnOk result (IsTrue (state S.Store conn.new).is_open) }
{
    let collector = collector_number(registration.number);
    let slot = slot_number(quote.slot);
    let month = month_number(quote.month);
    let word = mark_text(quote.mark);
    let value = mark_value(quote.mark);
    let receipt = receipt_number(quote.receipt)?;
    put_row(
        conn,
        PUT_QUOTE,
        params![collector, slot, month, word, value, receipt],
    )
}

// Does nothing: it is called for the proof, which learns that the moment is within the range of its column.
fn know_moment(moment: Moment)
    ensures { number_within 0 LAST_MOMENT (Int (pos moment)) ≡ Some moment }
{
    let _value = moment_value(moment);
}

// The row's month, as year * 100 + month. The other calls are for the proof, which learns that the row's four columns
// stand for the row.
fn day_number(row: CalendarRow) -> u32
    ensures month { month_at result ≡ Some row.month }
    ensures is { calendar_from (Int (pos result)) (Int (pos row.opens)) (Int (pos row.closes)) (Int (pos row.publishes))
        ≡ Some row }
{
    know_moment(row.opens());
    know_moment(row.closes());
    know_moment(row.publishes());
    month_number(row.month())
}

const PUT_CALENDAR: &str =
    "INSERT INTO calendar (month, opens, closes, publishes) VALUES (?1, ?2, ?3, ?4) \
     ON CONFLICT (month) DO UPDATE SET opens = excluded.opens, closes = excluded.closes, \
     publishes = excluded.publishes";

/// Puts a month's calendar row, in place of the former one if there is one. It is an error if the store fails.
pub fn put_calendar<S: Alter>(conn: &mut Connection<S>, row: CalendarRow) -> Result<(), Unread>
    ensures written { Written (PutsCalendar row) (λ _. ⊤) (state S.Store conn.old) (state S.Store conn.new) result }
    ensures open { HasCleanDisk (state S.Store conn.new) → (state S.Store conn.old).in_transaction ≡ false
        → OnOk result (IsTrue (state S.Store conn.new).is_open) }
{
    let month = day_number(row);
    let opens = moment_value(row.opens());
    let closes = moment_value(row.closes());
    let publishes = moment_value(row.publishes());
    put_row(
        conn,
        PUT_CALENDAR,
        params![month, &opens, &closes, &publishes],
    )
}
