//! The test of whether rows are in order.
ghost use Rattle.std.specs.Prelude.{MatchBool};
ghost use Rattle.cpi_rows.specs.Keyed.{IsInOrder, Falters};

use crate::keyed_row::Keyed;

/// Whether each row's key is below the next one's. O(n) for n rows.
pub fn are_in_order<T: Keyed>(rows: &[T]) -> bool
    ensures { MatchBool result (IsInOrder T.Key.cmp T.key rows.now) (Falters T.Key.cmp T.key rows.now) }
{
    for i in 1..rows.len() {
        if !rows[i - 1].key().cmp(&rows[i].key()).is_lt() {
            return false;
        }
    }
    true
}
