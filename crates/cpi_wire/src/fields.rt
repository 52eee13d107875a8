//! The fields of a record.
ghost use Rattle.std.specs.Prelude.{◌≡◌, map, IfOk};
ghost use Rattle.csv.specs.Records.{fields_of};

use csv::ByteRecord;
use std::alloc::{AllocError, Global};

/// The fields of a record, in their order.
pub fn field_list(alloc: Global, row: &ByteRecord) -> Result<Vec<&[u8]>, AllocError>
    ensures { IfOk result (λ v. map (λ f. f.now) v.items ≡ fields_of row.now) }
{
    let mut fields = Vec::with_capacity(alloc, row.len())?;
    for i in 0..row.len() {
        if let Some(field) = row.get(i) {
            fields.push(field)?;
        }
    }
    Ok(fields)
}
