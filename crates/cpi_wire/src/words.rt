//! The words of requests, each with its arguments.
ghost use Rattle.std.specs.Prelude.{◌≡◌, map, IfOk};
ghost use Rattle.cpi_wire.specs.Words.{spelled_word, items_request, work_request, quotes_request, quote_request};
ghost use Rattle.cpi_wire.specs.Words.{item_request, outlet_request, collector_request, assign_request};
ghost use Rattle.cpi_wire.specs.Words.{hand_over_request, calendar_request, plan_request, tables_request};
ghost use Rattle.cpi_wire.specs.Words.{table_request, elementary_codes, freeze_request, spelled_request};

use crate::arguments::{five, four, four_and_confirm, no_more, one, six, two, two_or_three};
use crate::plan_body::plan_body;
use crate::values::{elementary_code_of, form_of, mark_of, month_of, name_of, time_of};
use cpi_codes::{Code, CollectorId, ItemCode, Key, OutletId, Slot, Year, Zone};
use cpi_office::{Edition, HandOver, NewAssignment, Request};
use cpi_plan::{CalendarRow, HighTolerance, Item, LowTolerance};
use cpi_release::Revision;
use cpi_rows::Rows;
use cpi_store::{Outlet, Registration};
use cpi_survey::Entry;
use std::alloc::{AllocError, Global};

/// The word of a request.
#[derive(Clone, Copy, PartialEq, Eq)]
pub(crate) enum Word {
    Items,
    Work,
    Quotes,
    Quote,
    Item,
    Outlet,
    Collector,
    Assign,
    HandOver,
    Calendar,
    Plan,
    Tables,
    Table,
    Freeze,
    Unknown,
}

/// The word that a field has, in lower case; `Unknown` for other fields.
pub(crate) fn word_of(text: &[u8]) -> Word
    ensures { result ≡ spelled_word text.now }
{
    if text == b"quote".as_slice() {
        Word::Quote
    } else if text == b"quotes".as_slice() {
        Word::Quotes
    } else if text == b"work".as_slice() {
        Word::Work
    } else if text == b"items".as_slice() {
        Word::Items
    } else if text == b"item".as_slice() {
        Word::Item
    } else if text == b"outlet".as_slice() {
        Word::Outlet
    } else if text == b"collector".as_slice() {
        Word::Collector
    } else if text == b"assign".as_slice() {
        Word::Assign
    } else if text == b"handover".as_slice() {
        Word::HandOver
    } else if text == b"calendar".as_slice() {
        Word::Calendar
    } else if text == b"plan".as_slice() {
        Word::Plan
    } else if text == b"tables".as_slice() {
        Word::Tables
    } else if text == b"table".as_slice() {
        Word::Table
    } else if text == b"freeze".as_slice() {
        Word::Freeze
    } else {
        Word::Unknown
    }
}

// `items`: no argument.
fn items_of(arguments: &[&[u8]]) -> Option<Request>
    ensures { result ≡ items_request (map (λ a. a.now) arguments.now) }
{
    no_more(arguments)?;
    Some(Request::Items)
}

// `quotes`: the first month and the last one.
fn quotes_of(arguments: &[&[u8]]) -> Option<Request>
    ensures { result ≡ quotes_request (map (λ a. a.now) arguments.now) }
{
    let (first, last) = two(arguments)?;
    let first = month_of(first)?;
    let last = month_of(last)?;
    Some(Request::Quotes(first, last))
}

// `work`: a month.
fn work_of(arguments: &[&[u8]]) -> Option<Request>
    ensures { result ≡ work_request (map (λ a. a.now) arguments.now) }
{
    let month = one(arguments)?;
    let month = month_of(month)?;
    Some(Request::Work(month))
}

// `quote`: a slot, a month, a mark and its value; and `confirm`, if the collector confirms the price.
fn quote_of(arguments: &[&[u8]]) -> Option<Request>
    ensures { result ≡ quote_request (map (λ a. a.now) arguments.now) }
{
    let (slot, month, mark, value, confirm) = four_and_confirm(arguments)?;
    let slot = Slot::parse(slot)?;
    let month = month_of(month)?;
    let mark = mark_of(mark, value)?;
    Some(Request::Submit(Entry {
        slot,
        month,
        mark,
        confirm,
    }))
}

// `collector`: a number and a key.
fn collector_of(arguments: &[&[u8]]) -> Option<Request>
    ensures { result ≡ collector_request (map (λ a. a.now) arguments.now) }
{
    let (number, key) = two(arguments)?;
    let number = CollectorId::parse(number)?;
    let key = Key::parse(key)?;
    Some(Request::Register(Registration { number, key }))
}

// `calendar`: a month, and the moments at which it opens, closes and is published.
fn calendar_of(zone: &Zone, arguments: &[&[u8]]) -> Option<Request>
    ensures { result ≡ calendar_request zone.now (map (λ a. a.now) arguments.now) }
{
    let (month, opens, closes, publishes) = four(arguments)?;
    let month = month_of(month)?;
    let opens = time_of(zone, opens)?;
    let closes = time_of(zone, closes)?;
    let publishes = time_of(zone, publishes)?;
    let row = CalendarRow::new(month, opens, closes, publishes)?;
    Some(Request::PutCalendar(row))
}

// `assign`: a collector, a slot, an outlet, an item, the first month and the last one, which isn't before the first.
fn assign_of(arguments: &[&[u8]]) -> Option<Request>
    ensures { result ≡ assign_request (map (λ a. a.now) arguments.now) }
{
    let (collector, slot, outlet, item, first, last) = six(arguments)?;
    let collector = CollectorId::parse(collector)?;
    let slot = Slot::parse(slot)?;
    let outlet = OutletId::parse(outlet)?;
    let item = ItemCode::parse(item)?;
    let first_month = month_of(first)?;
    let last_month = month_of(last)?;
    if last_month < first_month {
        return None;
    }
    let new_assignment = NewAssignment {
        slot,
        outlet,
        item,
        first_month,
        last_month,
    };
    Some(Request::Assign(collector, new_assignment))
}

// `handover`: a collector and a slot, the next collector and the new slot, and the month from which it holds.
fn hand_over_of(arguments: &[&[u8]]) -> Option<Request>
    ensures { result ≡ hand_over_request (map (λ a. a.now) arguments.now) }
{
    let (from, slot, to, new_slot, month) = five(arguments)?;
    let from = CollectorId::parse(from)?;
    let slot = Slot::parse(slot)?;
    let to = CollectorId::parse(to)?;
    let new_slot = Slot::parse(new_slot)?;
    let month = month_of(month)?;
    Some(Request::HandOver(HandOver {
        from,
        slot,
        to,
        new_slot,
        month,
    }))
}

// `outlet`: a number and a name.
fn outlet_of(alloc: Global, arguments: &[&[u8]]) -> Result<Option<Request>, AllocError>
    ensures { IfOk result (λ r. r ≡ outlet_request (map (λ a. a.now) arguments.now)) }
{
    let Some((number, name)) = two(arguments) else {
        return Ok(None);
    };
    let Some(number) = OutletId::parse(number) else {
        return Ok(None);
    };
    let Some(name) = name_of(alloc, name)? else {
        return Ok(None);
    };
    Ok(Some(Request::PutOutlet(Outlet { number, name })))
}

// `item`: a code, a text, a unit and two tolerances, in per mille of the last price.
fn item_of(alloc: Global, arguments: &[&[u8]]) -> Result<Option<Request>, AllocError>
    ensures { IfOk result (λ r. r ≡ item_request (map (λ a. a.now) arguments.now)) }
{
    let Some((code, text, unit, low, high)) = five(arguments) else {
        return Ok(None);
    };
    let Some(code) = ItemCode::parse(code) else {
        return Ok(None);
    };
    let Some(text) = name_of(alloc, text)? else {
        return Ok(None);
    };
    let Some(unit) = name_of(alloc, unit)? else {
        return Ok(None);
    };
    let Some(low) = LowTolerance::parse(low) else {
        return Ok(None);
    };
    let Some(high) = HighTolerance::parse(high) else {
        return Ok(None);
    };
    Ok(Some(Request::PutItem(Item {
        code,
        text,
        unit,
        low,
        high,
    })))
}

// `plan`: a year and the body of the plan.
fn plan_of(alloc: Global, arguments: &[&[u8]]) -> Result<Option<Request>, AllocError>
    ensures { IfOk result (λ r. r ≡ plan_request (map (λ a. a.now) arguments.now)) }
{
    let Some((year, body)) = two(arguments) else {
        return Ok(None);
    };
    let Some(year) = Year::parse(year) else {
        return Ok(None);
    };
    let Some(body) = plan_body(alloc, body)? else {
        return Ok(None);
    };
    Ok(Some(Request::PutPlan(year, body)))
}

// `tables`: no argument.
fn tables_of(arguments: &[&[u8]]) -> Option<Request>
    ensures { result ≡ tables_request (map (λ a. a.now) arguments.now) }
{
    no_more(arguments)?;
    Some(Request::Tables)
}

// `table`: a month, a form, and a revision if it isn't the latest one.
fn table_of(arguments: &[&[u8]]) -> Option<Request>
    ensures { result ≡ table_request (map (λ a. a.now) arguments.now) }
{
    let (month, form, revision) = two_or_three(arguments)?;
    let month = month_of(month)?;
    let form = form_of(form)?;
    let edition = match revision {
        Some(revision) => Edition::of(Revision::parse(revision)?),
        None => Edition::latest(),
    };
    Some(Request::Table(month, form, edition))
}

// The elementary aggregates that the fields name, in the same order; none if a field names none.
fn elementary_codes_of(alloc: Global, texts: &[&[u8]]) -> Result<Option<Rows<Code>>, AllocError>
    ensures { IfOk result (λ r. r ≡ elementary_codes (map (λ t. t.now) texts.now)) }
{
    let mut found = Vec::new(alloc);
    for text in texts {
        let Some(code) = elementary_code_of(text) else {
            return Ok(None);
        };
        found.push(code)?;
    }
    Ok(Some(Rows::of(found)))
}

// `freeze`: a month, and the elementary aggregates whose prices may be carried.
fn freeze_of(alloc: Global, arguments: &[&[u8]]) -> Result<Option<Request>, AllocError>
    ensures { IfOk result (λ r. r ≡ freeze_request (map (λ a. a.now) arguments.now)) }
{
    let Some((month, carry)) = arguments.split_first() else {
        return Ok(None);
    };
    let Some(month) = month_of(month) else {
        return Ok(None);
    };
    let Some(carry) = elementary_codes_of(alloc, carry)? else {
        return Ok(None);
    };
    Ok(Some(Request::Freeze(month, carry)))
}

/// The request of a word with its arguments; none if they aren't of its form, or not within the limits.
pub(crate) fn request_of(
    alloc: Global,
    zone: &Zone,
    kind: Word,
    arguments: &[&[u8]],
) -> Result<Option<Request>, AllocError>
    ensures { IfOk result (λ r. r ≡ spelled_request zone.now kind (map (λ a. a.now) arguments.now)) }
{
    match kind {
        Word::Items => Ok(items_of(arguments)),
        Word::Work => Ok(work_of(arguments)),
        Word::Quotes => Ok(quotes_of(arguments)),
        Word::Quote => Ok(quote_of(arguments)),
        Word::Item => item_of(alloc, arguments),
        Word::Outlet => outlet_of(alloc, arguments),
        Word::Collector => Ok(collector_of(arguments)),
        Word::Assign => Ok(assign_of(arguments)),
        Word::HandOver => Ok(hand_over_of(arguments)),
        Word::Calendar => Ok(calendar_of(zone, arguments)),
        Word::Plan => plan_of(alloc, arguments),
        Word::Tables => Ok(tables_of(arguments)),
        Word::Table => Ok(table_of(arguments)),
        Word::Freeze => freeze_of(alloc, arguments),
        Word::Unknown => Ok(None),
    }
}
