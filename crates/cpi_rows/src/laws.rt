//! Laws of rows, as functions that do nothing: their contracts are the laws.
ghost use Rattle.std.specs.Prelude.{◌≡◌, ◌≢◌, ℕ, ◌<◌, List, length, slice_index_or, slice_set};
ghost use Rattle.std.specs.Ordering.{nat_cmp};
ghost use Rattle.cpi_rows.specs.Keyed.{with_row, row_at, IsInOrder};
ghost use Rattle.cpi_rows.specs.Held.{held_cmp, held_key, held_by};
ghost use Rattle.cpi_rows.specs.Gathered.{rows_with_holders, rows_in};

use crate::keyed_row::Keyed;

/// A law of rows that many hold: a holder's row that is put among all rows is put among the
/// holder's own.
pub fn puts_own<T: Keyed>()
    ensures { (holder : ℕ) (row : T) (rows : List (ℕ × T)) →
        held_by holder (with_row (held_cmp T.Key.cmp) (held_key T.key) (holder, row) rows)
        ≡ with_row T.Key.cmp T.key row (held_by holder rows) }
{}

/// A law of rows that many hold: a row that is put for another holder changes nothing for this one.
pub fn puts_other<T: Keyed>()
    ensures { (holder other : ℕ) (row : T) (rows : List (ℕ × T)) → holder ≢ other →
        held_by holder (with_row (held_cmp T.Key.cmp) (held_key T.key) (other, row) rows)
        ≡ held_by holder rows }
{}

/// A law of holders in order: one holder's rows among those of all holders are the rows that it holds.
pub fn gathered_rows<T: Keyed, G>()
    ensures { (number : G → ℕ) (rows : G → List T) (holders : List G) →
        IsInOrder nat_cmp number holders → (holder : ℕ) →
        held_by holder (rows_with_holders number rows holders)
        ≡ rows_in rows (row_at nat_cmp number holder holders) }
{}

/// A law of holders in order: if a holder gains a row among its own, the rows of all holders gain it
/// under that holder.
pub fn gathered_put<T: Keyed, G>()
    ensures { (number : G → ℕ) (rows : G → List T) (row : T) (after : G) →
        (holders : List G) (i : ℕ) (d : G) →
        IsInOrder nat_cmp number holders → i < length holders →
        number after ≡ number (slice_index_or holders i d) →
        rows after ≡ with_row T.Key.cmp T.key row (rows (slice_index_or holders i d)) →
        rows_with_holders number rows (slice_set holders i after)
        ≡ with_row (held_cmp T.Key.cmp) (held_key T.key)
        (number (slice_index_or holders i d), row) (rows_with_holders number rows holders) }
{}

/// A law of rows in order: to put a row that is there already changes nothing.
pub fn put_same<T: Keyed>()
    ensures { (rows : List T) → IsInOrder T.Key.cmp T.key rows → (row : T) →
        row_at T.Key.cmp T.key (T.key row) rows ≡ Some row → with_row T.Key.cmp T.key row rows ≡ rows }
{}
