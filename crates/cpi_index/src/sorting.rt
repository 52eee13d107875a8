//! Frozen quotes and carried prices by their series; carried prices put in that order.
ghost use Rattle.std.specs.Prelude.{◌≡◌, List, true, MatchBool};
ghost use Rattle.std.specs.List.{IsDistinct};
ghost use Rattle.std.specs.List.Sorted.{IsPermutation};
ghost use Rattle.std.specs.Ordering.{nat_cmp, is_eq};
ghost use Rattle.cpi_rows.specs.Keyed.{IsInOrder};
ghost use Rattle.cpi_index.specs.Carried.{Carried};
ghost use Rattle.cpi_index.specs.Series.{are_by_series, carried_serial, frozen_serial};

use crate::carried::CarriedPrice;
use crate::frozen::FrozenQuote;
use crate::series::InSeries;
use cpi_rows::{Keyed, are_in_order};

impl Keyed for CarriedPrice {
    type Key = u32;

    ghost key = { carried_serial };

    fn key(&self) -> u32 {
        self.serial()
    }
}

impl Keyed for FrozenQuote {
    type Key = u32;

    ghost key = { frozen_serial };

    fn key(&self) -> u32 {
        self.serial()
    }
}

// Puts carried prices in the order of their series, and says whether no series comes twice.
fn put_in_order(carried: &mut Vec<CarriedPrice>) -> bool
    ensures moved { IsPermutation carried.old.items carried.new.items }
    ensures order { MatchBool result
        (IsInOrder nat_cmp carried_serial carried.new.items)
        (IsDistinct (λ a b. is_eq (nat_cmp (carried_serial a) (carried_serial b))) carried.old.items → ⊥) }
{
    carried.sort_unstable_by_key(|price| price.key());
    are_in_order(carried)
}

/// Puts carried prices in the order of their series, and says whether no series comes twice: false if one does. If they
/// are the prices of a list by series in any order, the result is that list. O(n log n) for n prices; it takes no
/// memory.
pub fn put_by_series(carried: &mut Vec<CarriedPrice>) -> bool
    ensures moved { IsPermutation carried.old.items carried.new.items }
    ensures once { MatchBool result
        (IsInOrder nat_cmp carried_serial carried.new.items)
        (IsDistinct (λ a b. is_eq (nat_cmp (carried_serial a) (carried_serial b))) carried.old.items → ⊥) }
    ensures list { (all : List Carried) → are_by_series carried_serial all ≡ true →
        IsPermutation all carried.old.items →
        (result ≡ true) × (carried.new.items ≡ all) }
{
    put_in_order(carried)
}
