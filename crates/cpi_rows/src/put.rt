//! Putting a row in its place.
ghost use Rattle.std.specs.Prelude.{◌≡◌, OnErr, OnOk, IsSome, IsOk};
ghost use Rattle.cpi_rows.specs.Keyed.{with_row, row_at, IsInOrder};

use crate::keyed_row::Keyed;
use crate::lookup::place_of;
use std::alloc::AllocError;

/// Puts the row in its place among the rows.
///
/// A row with its key is replaced, which takes no memory and never fails. If there is no such row, the new row is
/// inserted: its place is found in O(log n), and each row after it moves up by one. An `Err` says that there is no
/// memory for one more row; the rows are as before then.
pub fn put_row<T: Keyed + Drop>(rows: &mut Vec<T>, row: T) -> Result<(), AllocError>
    requires { IsInOrder T.Key.cmp T.key rows.old.items }
    ensures ok { OnOk result (rows.new.items ≡ with_row T.Key.cmp T.key row rows.old.items) }
    ensures err { OnErr result (rows.new.items ≡ rows.old.items) }
    ensures order { IsInOrder T.Key.cmp T.key rows.new.items }
    ensures replaced { IsSome (row_at T.Key.cmp T.key (T.key row) rows.old.items) → IsOk result }
{
    match place_of(rows, &row.key()) {
        Ok(at) => {
            rows[at] = row;
            Ok(())
        }
        Err(at) => Ok(rows.insert(at, row)?),
    }
}
