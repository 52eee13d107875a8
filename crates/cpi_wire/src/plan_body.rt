//! The body of a plan.
ghost use Rattle.std.specs.Prelude.{◌≡◌, ◌++◌, [], ◌∷◌, List, IfOk, OnOk};
ghost use Rattle.csv.specs.Records.{fields_of};
ghost use Rattle.cpi_wire.specs.PlanBody.{AddsRow, body_of, body_of_rows};
ghost use Rattle.cpi_wire.specs.declared.plan_rows.PlanRow.{PlanRow as Row};

use crate::fields::field_list;
use crate::input::{next_row, record_reader};
use crate::limits::MOST_ROWS;
use crate::plan_rows::{PlanRow, plan_row};
use cpi_plan::PlanBody;
use cpi_rows::Rows;
use csv::ByteRecord;
use std::alloc::{AllocError, Global};

// Adds a row after those of its kind.
fn add(body: &mut PlanBody, row: PlanRow) -> Result<(), AllocError>
    ensures { OnOk result ((rows : List Row) →
        body.old ≡ body_of_rows rows → body.new ≡ body_of_rows (rows ++ row ∷ [])) }
{
    match row {
        PlanRow::Title(title) => body.titles.push(title)?,
        PlanRow::Weight(weight) => body.weights.push(weight)?,
        PlanRow::Place(place) => body.places.push(place)?,
        PlanRow::Reference(month) => body.references.push(month)?,
    }
    Ok(())
}

// Adds the row of a record after those of its kind, and returns whether the record is of a form.
fn add_record(alloc: Global, body: &mut PlanBody, row: &ByteRecord) -> Result<bool, AllocError>
    ensures { IfOk result (λ added. AddsRow body.old body.new (fields_of row.now) added) }
{
    let fields = field_list(alloc, row)?;
    let Some(part) = plan_row(alloc, &fields)? else {
        return Ok(false);
    };
    add(body, part)?;
    Ok(true)
}

/// The body of a plan, which is CSV without a header row (RFC 4180): a byte order mark at its start and empty lines are
/// skipped. None if a row is of no form, or if there are more than `MOST_ROWS`.
pub(crate) fn plan_body(alloc: Global, text: &[u8]) -> Result<Option<PlanBody>, AllocError>
    ensures { IfOk result (λ body. body ≡ body_of text.now) }
{
    let mut reader = record_reader(alloc, text);
    let mut row = ByteRecord::new(alloc);
    let mut body = PlanBody {
        titles: Rows::new(alloc),
        weights: Rows::new(alloc),
        places: Rows::new(alloc),
        references: Rows::new(alloc),
    };
    for _ in 0..MOST_ROWS {
        if !next_row(&mut reader, &mut row)? {
            return Ok(Some(body));
        }
        if !add_record(alloc, &mut body, &row)? {
            return Ok(None);
        }
    }
    if next_row(&mut reader, &mut row)? {
        Ok(None)
    } else {
        Ok(Some(body))
    }
}
