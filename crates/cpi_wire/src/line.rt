//! The line of a reply: JSON (RFC 8259) and a line feed.
ghost use Rattle.std.specs.Prelude.{◌≡◌, ◌++◌, true, codes, map, IfOk, OnOk};
ghost use Rattle.std.specs.Option.{option_copied};
ghost use Rattle.std.specs.String.{string_bytes};
ghost use Rattle.serde_json.specs.Data.{boolean};
ghost use Rattle.serde_json.specs.View.{view};
ghost use Rattle.serde_json.specs.Written.{compact_text};
ghost use Rattle.cpi_wire.specs.Json.{int, object_of_one};
ghost use Rattle.cpi_wire.specs.Line.{data_of, line_of_reply, reason_name, name_of_mark, value_of_mark, quote_data};
ghost use Rattle.cpi_wire.specs.Line.{item_data, item_text, price_data, mark_data, receipt_data, outlet_fields};
ghost use Rattle.cpi_wire.specs.Line.{item_fields, price_fields, work_row_data, frozen_month_data, table_data};

use crate::lists::{items_text, quotes_text, tables_text, work_text};
use crate::refusals::refusal_value;
use cpi_codes::{ItemCode, Price};
use cpi_office::Reply;
use cpi_plan::Item;
use cpi_release::{FrozenMonth, PrintedTable};
use cpi_survey::{Mark, Quote, Reason, WorkRow};
use serde_json::{Value, json};
use std::alloc::{AllocError, Global};

// The word of a reason.
fn reason_text(reason: Reason) -> &'static str
    ensures { result.now ≡ reason_name reason }
{
    match reason {
        Reason::Stock => "stock",
        Reason::Closed => "closed",
        Reason::Gone => "gone",
        Reason::Refused => "refused",
    }
}

// The word of a mark.
fn mark_name(mark: Mark) -> &'static str
    ensures { result.now ≡ name_of_mark mark }
{
    match mark {
        Mark::Price(_) => "price",
        Mark::Missing(_) => "missing",
        Mark::Comparable(_) => "comparable",
        Mark::Other(_) => "other",
    }
}

// The price of a mark, in minor units, or the reason why there is none.
fn mark_value(alloc: Global, mark: Mark) -> Result<Value, AllocError>
    ensures { IfOk result (λ v. view v ≡ value_of_mark mark) }
{
    match mark {
        Mark::Price(price) | Mark::Comparable(price) | Mark::Other(price) => {
            json!(in alloc; price.units())
        }
        Mark::Missing(reason) => json!(in alloc; reason_text(reason)),
    }
}

/// A quote: its slot, month, mark, value and receipt.
pub(crate) fn quote_value(alloc: Global, quote: &Quote) -> Result<Value, AllocError>
    ensures { IfOk result (λ v. view v ≡ quote_data quote.now) }
{
    let slot = quote.slot.number();
    let month = quote.month.text(alloc)?;
    let mark = mark_name(quote.mark);
    let value = mark_value(alloc, quote.mark)?;
    json!(in alloc; [slot, month, mark, value, quote.receipt])
}

// The text of an item code.
#[tactic(auto, using(crate::proofs::Coded::text_is))]
fn code_text(alloc: Global, code: ItemCode) -> Result<String, AllocError>
    ensures { IfOk result (λ s. string_bytes s ≡ item_text code) }
{
    code.text(alloc)
}

/// An item: its code, text, unit and tolerances, in per mille of the last price.
pub(crate) fn item_value(alloc: Global, item: &Item) -> Result<Value, AllocError>
    ensures { IfOk result (λ v. view v ≡ item_data item.now) }
{
    let code = code_text(alloc, item.code)?;
    let low = item.low.per_mille();
    let high = item.high.per_mille();
    json!(in alloc; [code, item.text.as_str(), item.unit.as_str(), low, high])
}

// The last price of a series, in minor units, if there is one.
fn last_value(alloc: Global, last: Option<Price>) -> Result<Value, AllocError>
    ensures { IfOk result (λ v. view v ≡ price_data last) }
{
    match last {
        None => json!(in alloc; null),
        Some(price) => json!(in alloc; price.units()),
    }
}

// The mark of a stored quote, if there is one.
fn stored_mark(alloc: Global, quote: Option<&Quote>) -> Result<Value, AllocError>
    ensures { IfOk result (λ v. view v ≡ mark_data (option_copied quote.entry)) }
{
    match quote {
        None => json!(in alloc; null),
        Some(quote) => json!(in alloc; mark_name(quote.mark)),
    }
}

// The receipt of a stored quote, if there is one.
fn stored_receipt(alloc: Global, quote: Option<&Quote>) -> Result<Value, AllocError>
    ensures { IfOk result (λ v. view v ≡ receipt_data (option_copied quote.entry)) }
{
    match quote {
        None => json!(in alloc; null),
        Some(quote) => json!(in alloc; quote.receipt),
    }
}

// Adds the slot, the outlet and its name.
fn add_outlet(alloc: Global, fields: &mut Vec<Value>, row: &WorkRow) -> Result<(), AllocError>
    ensures { OnOk result (map view fields.new.items ≡ map view fields.old.items ++ outlet_fields row.now) }
{
    fields.push(Value::from(row.slot.number()))?;
    fields.push(Value::from(row.outlet.number()))?;
    fields.push(json!(in alloc; row.outlet_name.as_str())?)?;
    Ok(())
}

// Adds the item, its text and its unit.
fn add_item(alloc: Global, fields: &mut Vec<Value>, row: &WorkRow) -> Result<(), AllocError>
    ensures { OnOk result (map view fields.new.items ≡ map view fields.old.items ++ item_fields row.now) }
{
    fields.push(json!(in alloc; code_text(alloc, row.item)?)?)?;
    fields.push(json!(in alloc; row.text.as_str())?)?;
    fields.push(json!(in alloc; row.unit.as_str())?)?;
    Ok(())
}

// Adds the last price, and the mark and the receipt of the stored quote.
fn add_prices(alloc: Global, fields: &mut Vec<Value>, row: &WorkRow) -> Result<(), AllocError>
    ensures { OnOk result (map view fields.new.items ≡ map view fields.old.items ++ price_fields row.now) }
{
    fields.push(last_value(alloc, row.last)?)?;
    fields.push(stored_mark(alloc, row.quote.as_ref())?)?;
    fields.push(stored_receipt(alloc, row.quote.as_ref())?)?;
    Ok(())
}

/// A row of the work of a month.
pub(crate) fn work_row_value(alloc: Global, row: &WorkRow) -> Result<Value, AllocError>
    ensures { IfOk result (λ v. view v ≡ work_row_data row.now) }
{
    let mut fields = Vec::with_capacity(alloc, 9)?;
    add_outlet(alloc, &mut fields, row)?;
    add_item(alloc, &mut fields, row)?;
    add_prices(alloc, &mut fields, row)?;
    Ok(Value::Array(fields))
}

/// The month of a table, its revision, and the moment at which it is published, in seconds since 1970 UTC.
pub(crate) fn frozen_month_value(
    alloc: Global,
    frozen_month: &FrozenMonth,
) -> Result<Value, AllocError>
    ensures { IfOk result (λ v. view v ≡ frozen_month_data frozen_month.now) }
{
    let month = frozen_month.month.text(alloc)?;
    let revision = frozen_month.revision.number();
    json!(in alloc; [month, revision, frozen_month.publishes.seconds()])
}

// A printed table, as one text.
fn table_value(alloc: Global, printed: &PrintedTable) -> Result<Value, AllocError>
    ensures { IfOk result (λ v. view v ≡ table_data printed.now) }
{
    json!(in alloc; {"table": printed.as_str()})
}

// The receipt of a quote.
fn receipt_value(alloc: Global, receipt: u32) -> Result<Value, AllocError>
    ensures { IfOk result (λ v. view v ≡ object_of_one (codes "receipt") (int receipt)) }
{
    json!(in alloc; {"receipt": receipt})
}

// What is said of a change that was made.
fn done_value(alloc: Global) -> Result<Value, AllocError>
    ensures { IfOk result (λ v. view v ≡ object_of_one (codes "done") (boolean true)) }
{
    json!(in alloc; {"done": true})
}

/// The JSON text of a reply, without spaces, its keys in byte order.
pub(crate) fn reply_text(alloc: Global, reply: &Reply) -> Result<Vec<u8>, AllocError>
    ensures { IfOk result (λ text. text.items ≡ compact_text (data_of reply.now)) }
{
    match reply {
        Reply::Receipt(receipt) => receipt_value(alloc, *receipt)?.to_vec(alloc),
        Reply::Done => done_value(alloc)?.to_vec(alloc),
        Reply::Work(rows) => work_text(alloc, rows.as_slice()),
        Reply::Quotes(quotes) => quotes_text(alloc, quotes.as_slice()),
        Reply::Items(items) => items_text(alloc, items.as_slice()),
        Reply::Tables(frozen_months) => tables_text(alloc, frozen_months.as_slice()),
        Reply::Table(printed) => table_value(alloc, printed)?.to_vec(alloc),
        Reply::Refused(refusal) => refusal_value(alloc, refusal)?.to_vec(alloc),
    }
}

/// The line of a reply: one JSON text without spaces, its keys in byte order, and a line feed.
pub fn reply_line(alloc: Global, reply: &Reply) -> Result<Vec<u8>, AllocError>
    ensures { IfOk result (λ line. line.items ≡ line_of_reply reply.now) }
{
    let mut line = reply_text(alloc, reply)?;
    line.push(b'\n')?;
    Ok(line)
}
