//! The rows of the tables, as an answer's columns show them.
ghost use Rattle.std.specs.Prelude.{◌≡◌};
ghost use Rattle.cpi_codes.specs.CodeOf.{spelled_code};
ghost use Rattle.cpi_codes.specs.declared.limits.TheConstants.{GREATEST_SLOT, GREATEST_COLLECTOR};
ghost use Rattle.cpi_sql_rows.specs.Common.{IfSome, Some, column, option_map};
ghost use Rattle.cpi_sql_rows.specs.Lists.{registration_from, calendar_from, code_from, item_from, item_of_values};
ghost use Rattle.cpi_sql_rows.specs.Lists.{mark_from};
ghost use Rattle.cpi_sql_rows.specs.Lists.{mark_in, month_from, name_from, number_in_value, outlet_from, price_or_none};
ghost use Rattle.cpi_sql_rows.specs.Lists.{number_within, receipt_from, series_from, shown_node, shown_place};
ghost use Rattle.cpi_sql_rows.specs.Lists.{shown_reference, text_in};

use crate::reference_months::ReferenceMonth;
use crate::stored::Stored;
use cpi_codes::{
    Code, CollectorId, ItemCode, Key, Moment, Month, Name, OutletId, Price, SeriesId, Slot,
};
use cpi_plan::{CalendarRow, HighTolerance, Item, LowTolerance, Node, Place};
use cpi_store::{Outlet, Registration};
use cpi_survey::{LAST_RECEIPT, Mark, Reason};
use sqlite::Row;
use sqlite_value::value::ValueRef;
use std::alloc::Global;
use std::str;

/// The text in the column, lent; none if the column has no text.
pub fn text_at(row: &Row, at: usize) -> Option<&[u8]>
    ensures { option_map (λ t. t.now) result ≡ text_in (column row.now at) }
{
    match row.get_ref(at).ok()? {
        ValueRef::Text(text) => Some(text),
        _ => None,
    }
}

/// The whole number in the column; none if the column has none, or one below 0.
pub fn number_at(row: &Row, at: usize) -> Option<u64>
    ensures { result ≡ number_in_value (column row.now at) }
{
    match row.get_ref(at).ok()? {
        ValueRef::Int(number) => u64::try_from(number).ok(),
        _ => None,
    }
}

/// The month in the column, written as year * 100 + month.
pub fn read_month(row: &Row, at: usize) -> Option<Month>
    ensures { result ≡ month_from (column row.now at) }
{
    let number = number_at(row, at)?;
    let year = u16::try_from(number / 100).ok()?;
    Month::new(year, (number % 100) as u8).ok()
}

/// The name in the column; none if the text is no name, or if memory was refused.
pub fn read_name(alloc: Global, row: &Row, at: usize) -> Option<Name>
    ensures { IfSome result (λ n. name_from (column row.now at) ≡ Some n) }
{
    Name::new(alloc, text_at(row, at)?).ok()
}

/// The code of an item in the column.
pub fn read_item_code(row: &Row, at: usize) -> Option<ItemCode>
    ensures { result ≡ item_from (column row.now at) }
{
    ItemCode::parse(text_at(row, at)?)
}

// The mark of a word and a price in minor units; none if no mark has the word, or if the mark needs a price and this is
// none.
fn mark_of(text: &str, value: u64) -> Option<Mark>
    ensures { result ≡ mark_from text.now value }
{
    match text {
        "price" => Some(Mark::Price(Price::new(value)?)),
        "comparable" => Some(Mark::Comparable(Price::new(value)?)),
        "other" => Some(Mark::Other(Price::new(value)?)),
        "stock" => Some(Mark::Missing(Reason::Stock)),
        "closed" => Some(Mark::Missing(Reason::Closed)),
        "gone" => Some(Mark::Missing(Reason::Gone)),
        "refused" => Some(Mark::Missing(Reason::Refused)),
        _ => None,
    }
}

impl Stored for Registration {
    ghost stands_for = { λ x. registration_from (column x 0) (column x 1) };

    fn read(alloc: Global, row: &Row) -> Option<Registration> {
        let number = CollectorId::new(number_at(row, 0)?)?;
        let key = Key::parse(text_at(row, 1)?)?;
        Some(Registration { number, key })
    }
}

impl Stored for Outlet {
    ghost stands_for = { λ x. outlet_from (column x 0) (column x 1) };

    fn read(alloc: Global, row: &Row) -> Option<Outlet> {
        let number = OutletId::new(number_at(row, 0)?)?;
        let name = read_name(alloc, row, 1)?;
        Some(Outlet { number, name })
    }
}

impl Stored for Item {
    ghost stands_for = { λ x. item_of_values (column x 0) (column x 1) (column x 2) (column x 3) (column x 4) };

    fn read(alloc: Global, row: &Row) -> Option<Item> {
        Some(Item {
            code: read_item_code(row, 0)?,
            text: read_name(alloc, row, 1)?,
            unit: read_name(alloc, row, 2)?,
            low: LowTolerance::new(number_at(row, 3)?)?,
            high: HighTolerance::new(number_at(row, 4)?)?,
        })
    }
}

impl Stored for CalendarRow {
    ghost stands_for = { λ x. calendar_from (column x 0) (column x 1) (column x 2) (column x 3) };

    fn read(alloc: Global, row: &Row) -> Option<CalendarRow> {
        let month = read_month(row, 0)?;
        let opens = Moment::new(number_at(row, 1)?)?;
        let closes = Moment::new(number_at(row, 2)?)?;
        let publishes = Moment::new(number_at(row, 3)?)?;
        CalendarRow::new(month, opens, closes, publishes)
    }
}

/// The price that was copied when the series was handed over, if there is one. A column past the end is NULL.
pub fn read_copied(row: &Row, at: usize) -> Option<Option<Price>>
    ensures { result ≡ price_or_none (column row.now at) }
{
    match row.get_ref(at).unwrap_or(ValueRef::Null) {
        ValueRef::Null => Some(None),
        ValueRef::Int(units) => Price::new(u64::try_from(units).ok()?).map(Some),
        _ => None,
    }
}

/// The series of a collector and a slot.
pub fn read_series(row: &Row, collector: usize, slot: usize) -> Option<SeriesId>
    ensures { result ≡ series_from (column row.now collector) (column row.now slot) }
{
    let collector = CollectorId::new(number_at(row, collector)?)?;
    let slot = Slot::new(number_at(row, slot)?)?;
    Some(SeriesId { collector, slot })
}

/// The mark of an observation, from its word and its price.
pub fn read_mark(row: &Row, mark: usize, value: usize) -> Option<Mark>
    ensures { result ≡ mark_in (column row.now mark) (column row.now value) }
{
    let word = str::from_utf8(text_at(row, mark)?).ok()?;
    mark_of(word, number_at(row, value)?)
}

/// The code of a node that the text writes.
pub fn code_of(text: &[u8]) -> Option<Code>
    ensures { result ≡ spelled_code text.now }
{
    Code::parse(text).ok()
}

/// The code of a node in the column.
pub fn read_code(row: &Row, at: usize) -> Option<Code>
    ensures { result ≡ code_from (column row.now at) }
{
    code_of(text_at(row, at)?)
}

/// The whole number in the column, if it is in the range.
pub fn read_between(row: &Row, at: usize, least: u64, most: u64) -> Option<u64>
    ensures { result ≡ number_within least most (column row.now at) }
{
    let number = number_at(row, at)?;
    if least <= number && number <= most {
        Some(number)
    } else {
        None
    }
}

/// The receipt in the column, 1 to 1,000,000.
pub fn read_receipt(row: &Row, at: usize) -> Option<u32>
    ensures { result ≡ receipt_from (column row.now at) }
{
    u32::try_from(read_between(row, at, 1, LAST_RECEIPT.into())?).ok()
}

// The year of a plan in the first column, 2000 to 2199.
fn read_year(row: &Row) -> Option<u64>
    ensures { result ≡ number_within 2000 2199 (column row.now 0) }
{
    read_between(row, 0, 2000, 2199)
}

impl Stored for Node {
    ghost stands_for = { shown_node };

    fn read(alloc: Global, row: &Row) -> Option<Node> {
        let _year = read_year(row)?;
        Some(Node {
            code: read_code(row, 1)?,
            title: read_name(alloc, row, 2)?,
            weight: row.get(3).ok()?,
        })
    }
}

impl Stored for Place {
    ghost stands_for = { shown_place };

    fn read(alloc: Global, row: &Row) -> Option<Place> {
        let _year = read_year(row)?;
        let item = read_item_code(row, 1)?;
        let aggregate = read_code(row, 2)?;
        Some(Place { item, aggregate })
    }
}

impl Stored for ReferenceMonth {
    ghost stands_for = { shown_reference };

    fn read(_alloc: Global, row: &Row) -> Option<ReferenceMonth> {
        let _year = read_year(row)?;
        let month = read_month(row, 1)?;
        Some(ReferenceMonth { month })
    }
}
