//! Look-ups of rows by their keys.
ghost use Rattle.std.specs.Prelude.{◌≡◌};
ghost use Rattle.std.specs.Option.{option_copied};
ghost use Rattle.cpi_rows.specs.Keyed.{row_at, IsInOrder, IsPlace};

use crate::keyed_row::Keyed;

/// The place of the row with the key, as `Ok`. If no row has the key, the place where such a row would go, as `Err`.
/// The caller owes rows in the order of their keys. O(log n) for n rows.
pub fn place_of<T: Keyed>(rows: &[T], key: &T::Key) -> Result<usize, usize>
    requires { IsInOrder T.Key.cmp T.key rows.now }
    ensures { IsPlace T.Key.cmp T.key key.now rows.now result }
{
    rows.binary_search_by_key(key, |row| row.key())
}

/// The row with the key, or `None` if no row has it. The caller owes rows in the order of their keys. O(log n) for n
/// rows.
pub fn find_row<'a, T: Keyed>(rows: &'a [T], key: &T::Key) -> Option<&'a T>
    requires { IsInOrder T.Key.cmp T.key rows.now }
    ensures { option_copied result ≡ row_at T.Key.cmp T.key key.now rows.now }
{
    match place_of(rows, key) {
        Ok(at) => Some(&rows[at]),
        Err(_) => None,
    }
}
