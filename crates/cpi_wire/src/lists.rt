//! The texts of lists, written row by row: the JSON value of a row is let go before the next one is made.
ghost use Rattle.std.specs.Prelude.{◌≡◌, ◌++◌, false, codes, IfOk, OnOk};
ghost use Rattle.serde_json.specs.View.{view};
ghost use Rattle.serde_json.specs.Written.{compact_text, has_float};
ghost use Rattle.cpi_wire.specs.Json.{added_item};
ghost use Rattle.cpi_wire.specs.Line.{items_data, quotes_data, tables_data, work_data};

use crate::line::{frozen_month_value, item_value, quote_value, work_row_value};
use cpi_plan::Item;
use cpi_release::FrozenMonth;
use cpi_survey::{Quote, WorkRow};
use serde_json::Value;
use std::alloc::{AllocError, Global};

// Adds the JSON text of a row, with a comma before it if it isn't the first.
fn add_row(alloc: Global, text: &mut Vec<u8>, is_first: bool, row: &Value) -> Result<(), AllocError>
    ensures { OnOk result (has_float (view row.now) ≡ false
        → text.new.items ≡ text.old.items ++ added_item is_first (view row.now)) }
{
    if !is_first {
        text.push(b',')?;
    }
    let added = row.to_vec(alloc)?;
    text.extend_from_slice(&added)
}

// Ends the list, and the object around it.
fn end_list(text: &mut Vec<u8>) -> Result<(), AllocError>
    ensures { OnOk result (text.new.items ≡ text.old.items ++ codes "]}") }
{
    text.extend_from_slice(b"]}".as_slice())
}

/// The JSON text of the work of a month.
pub(crate) fn work_text(alloc: Global, rows: &[WorkRow]) -> Result<Vec<u8>, AllocError>
    ensures { IfOk result (λ text. text.items ≡ compact_text (work_data rows.now)) }
{
    let mut text = Vec::from_slice(alloc, b"{\"work\":[".as_slice())?;
    let mut is_first = true;
    for row in rows {
        let value = work_row_value(alloc, row)?;
        add_row(alloc, &mut text, is_first, &value)?;
        is_first = false;
    }
    end_list(&mut text)?;
    Ok(text)
}

/// The JSON text of a list of quotes.
pub(crate) fn quotes_text(alloc: Global, quotes: &[Quote]) -> Result<Vec<u8>, AllocError>
    ensures { IfOk result (λ text. text.items ≡ compact_text (quotes_data quotes.now)) }
{
    let mut text = Vec::from_slice(alloc, b"{\"quotes\":[".as_slice())?;
    let mut is_first = true;
    for quote in quotes {
        let value = quote_value(alloc, quote)?;
        add_row(alloc, &mut text, is_first, &value)?;
        is_first = false;
    }
    end_list(&mut text)?;
    Ok(text)
}

/// The JSON text of a list of items.
pub(crate) fn items_text(alloc: Global, items: &[Item]) -> Result<Vec<u8>, AllocError>
    ensures { IfOk result (λ text. text.items ≡ compact_text (items_data items.now)) }
{
    let mut text = Vec::from_slice(alloc, b"{\"items\":[".as_slice())?;
    let mut is_first = true;
    for item in items {
        let value = item_value(alloc, item)?;
        add_row(alloc, &mut text, is_first, &value)?;
        is_first = false;
    }
    end_list(&mut text)?;
    Ok(text)
}

/// The JSON text of a list of tables.
pub(crate) fn tables_text(
    alloc: Global,
    frozen_months: &[FrozenMonth],
) -> Result<Vec<u8>, AllocError>
    ensures { IfOk result (λ text. text.items ≡ compact_text (tables_data frozen_months.now)) }
{
    let mut text = Vec::from_slice(alloc, b"{\"tables\":[".as_slice())?;
    let mut is_first = true;
    for frozen_month in frozen_months {
        let value = frozen_month_value(alloc, frozen_month)?;
        add_row(alloc, &mut text, is_first, &value)?;
        is_first = false;
    }
    end_list(&mut text)?;
    Ok(text)
}
