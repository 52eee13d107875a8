//! Rows put in order, in which no key comes twice.
ghost use Rattle.std.specs.Prelude.{◌≡◌, IfOk, MatchBool};
ghost use Rattle.std.specs.List.{IsDistinct};
ghost use Rattle.std.specs.List.Sorted.{IsPermutation};
ghost use Rattle.std.specs.Ordering.{is_eq};
ghost use Rattle.cpi_rows.specs.Keyed.{IsInOrder};

use cpi_rows::{Keyed, are_in_order};
use std::alloc::AllocError;

// Puts rows in the order of their keys, and says whether no key comes twice. An `Err` says that memory was refused.
pub(crate) fn put_in_order<T: Keyed + Drop>(rows: &mut Vec<T>) -> Result<bool, AllocError>
    ensures moved { IsPermutation rows.old.items rows.new.items }
    ensures order { IfOk result (λ b. MatchBool b
        (IsInOrder T.Key.cmp T.key rows.new.items)
        (IsDistinct (λ a b. is_eq (T.Key.cmp (T.key a) (T.key b))) rows.old.items → ⊥)) }
{
    rows.sort_by_key(|row| row.key())?;
    Ok(are_in_order(rows))
}
