//! The rows of the body of a plan.
ghost use Rattle.std.specs.Prelude.{◌≡◌, map, IfOk};
ghost use Rattle.cpi_wire.specs.PlanRows.{title_row, weight_row, place_row, spelled_reference_row, spelled_month_row};
ghost use Rattle.cpi_wire.specs.PlanRows.{spelled_code_row, spelled_plan_row};

use crate::arguments::two_or_three;
use crate::values::{code_of, month_of, name_of, weight_of};
use cpi_codes::{ItemCode, Month};
use cpi_plan::{Place, Title, Weight};
use std::alloc::{AllocError, Global};

/// A row of the body of a plan.
#[derive(Drop)]
pub(crate) enum PlanRow {
    Title(Title),
    Weight(Weight),
    Place(Place),
    Reference(Month),
}

// The title of a code.
fn title_of(alloc: Global, code: &[u8], title: &[u8]) -> Result<Option<PlanRow>, AllocError>
    ensures { IfOk result (λ row. row ≡ title_row code.now title.now) }
{
    let Some(code) = code_of(code) else {
        return Ok(None);
    };
    let Some(title) = name_of(alloc, title)? else {
        return Ok(None);
    };
    Ok(Some(PlanRow::Title(Title { code, title })))
}

// The weight of a code, in parts per million.
fn weight_row_of(code: &[u8], parts: &[u8]) -> Option<PlanRow>
    ensures { result ≡ weight_row code.now parts.now }
{
    let code = code_of(code)?;
    let parts = weight_of(parts)?;
    Some(PlanRow::Weight(Weight { code, parts }))
}

// The aggregate of an item.
fn place_of(item: &[u8], code: &[u8]) -> Option<PlanRow>
    ensures { result ≡ place_row item.now code.now }
{
    let item = ItemCode::parse(item)?;
    let aggregate = code_of(code)?;
    Some(PlanRow::Place(Place { item, aggregate }))
}

// A month that the weights refer to.
fn reference_of(month: &[u8]) -> Option<PlanRow>
    ensures { result ≡ spelled_reference_row month.now }
{
    let month = month_of(month)?;
    Some(PlanRow::Reference(month))
}

// The row of a letter with one field.
fn month_row(letter: &[u8], month: &[u8]) -> Option<PlanRow>
    ensures { result ≡ spelled_month_row letter.now month.now }
{
    if letter == b"R".as_slice() {
        reference_of(month)
    } else {
        None
    }
}

// The row of a letter with two fields.
fn code_row(
    alloc: Global,
    letter: &[u8],
    first: &[u8],
    second: &[u8],
) -> Result<Option<PlanRow>, AllocError>
    ensures { IfOk result (λ row. row ≡ spelled_code_row letter.now first.now second.now) }
{
    if letter == b"T".as_slice() {
        title_of(alloc, first, second)
    } else if letter == b"W".as_slice() {
        Ok(weight_row_of(first, second))
    } else if letter == b"I".as_slice() {
        Ok(place_of(first, second))
    } else {
        Ok(None)
    }
}

/// The row of some fields: `T`, a code and its title; `W`, a code and its weight, in parts per million, up to
/// `ALL_PARTS`; `I`, an item and the code of its aggregate; or `R` and a month that the weights refer to (the CPI
/// Manual's weight reference period). None if they are of no such form.
pub(crate) fn plan_row(alloc: Global, fields: &[&[u8]]) -> Result<Option<PlanRow>, AllocError>
    ensures { IfOk result (λ row. row ≡ spelled_plan_row (map (λ f. f.now) fields.now)) }
{
    match two_or_three(fields) {
        Some((letter, first, Some(second))) => code_row(alloc, letter, first, second),
        Some((letter, month, None)) => Ok(month_row(letter, month)),
        None => Ok(None),
    }
}
