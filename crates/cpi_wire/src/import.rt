//! The rows of the body of an import.
ghost use Rattle.std.specs.Prelude.{◌≡◌, map, IfOk};
ghost use Rattle.csv.specs.Records.{fields_of};
ghost use Rattle.cpi_wire.specs.Import.{row_asks, rows_of_body};

use crate::fields::field_list;
use crate::input::{next_row, record_reader};
use crate::limits::MOST_ROWS;
use crate::requests::ImportRows;
use crate::words::{request_of, word_of};
use cpi_codes::Zone;
use cpi_office::Request;
use csv::ByteRecord;
use std::alloc::{AllocError, Global};

// The request of a row, which is a word and its arguments; none if it is of no form, or outside the limits.
fn row_request(alloc: Global, zone: &Zone, fields: &[&[u8]]) -> Result<Option<Request>, AllocError>
    ensures { IfOk result (λ r. r ≡ row_asks zone.now (map (λ f. f.now) fields.now)) }
{
    match fields.split_first() {
        Some((word, arguments)) => request_of(alloc, zone, word_of(word), arguments),
        None => Ok(None),
    }
}

// The request of a record that is a row.
fn record_request(
    alloc: Global,
    zone: &Zone,
    row: &ByteRecord,
) -> Result<Option<Request>, AllocError>
    ensures { IfOk result (λ r. r ≡ row_asks zone.now (fields_of row.now)) }
{
    let fields = field_list(alloc, row)?;
    row_request(alloc, zone, &fields)
}

/// The rows of the body of an import, which is CSV without a header row (RFC 4180): a byte order mark at its start and
/// empty lines are skipped. Each row is a word and its arguments, with civil times by the clock of the zone. A row that
/// is of no form, or outside the limits, is kept as none, and so is an import inside the import. There are no rows at
/// all if the body has more than `MOST_ROWS`.
pub fn import_rows(
    alloc: Global,
    zone: &Zone,
    body: &[u8],
) -> Result<Option<ImportRows>, AllocError>
    ensures { IfOk result (λ rows. rows ≡ rows_of_body zone.now body.now) }
{
    let mut reader = record_reader(alloc, body);
    let mut row = ByteRecord::new(alloc);
    let mut rows = Vec::new(alloc);
    for _ in 0..MOST_ROWS {
        if !next_row(&mut reader, &mut row)? {
            return Ok(Some(ImportRows { rows }));
        }
        rows.push(record_request(alloc, zone, &row)?)?;
    }
    if next_row(&mut reader, &mut row)? {
        Ok(None)
    } else {
        Ok(Some(ImportRows { rows }))
    }
}
