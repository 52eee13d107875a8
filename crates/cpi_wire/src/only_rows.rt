//! The only row of a text.
ghost use Rattle.std.specs.Prelude.{◌≡◌, IfOk, option_map};
ghost use Rattle.csv.specs.Records.{fields_of};
ghost use Rattle.cpi_wire.specs.OnlyRows.{only_row_of};

use crate::input::{next_row, record_reader};
use csv::ByteRecord;
use std::alloc::{AllocError, Global};

/// The only row of a text, which is CSV without a header row (RFC 4180): a byte order mark at its start and empty lines
/// are skipped. None if there is no row, or more than one.
pub fn only_row(alloc: Global, text: &[u8]) -> Result<Option<ByteRecord>, AllocError>
    ensures { IfOk result (λ row. option_map fields_of row ≡ only_row_of text.now) }
{
    let mut reader = record_reader(alloc, text);
    let mut row = ByteRecord::new(alloc);
    if !next_row(&mut reader, &mut row)? {
        return Ok(None);
    }
    let mut other = ByteRecord::new(alloc);
    if next_row(&mut reader, &mut other)? {
        return Ok(None);
    }
    Ok(Some(row))
}
