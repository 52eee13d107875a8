//! One elementary aggregate at a time.
ghost use Rattle.std.specs.Prelude.{◌≡◌, ◌≤◌, ◌<◌, ◌++◌, length, None, Some, IfOk, MatchOption, MatchResult};
ghost use Rattle.cpi_index.specs.Aggregate.{carried_rows, are_in_limits};
ghost use Rattle.cpi_index.specs.Series.{are_by_series, row_serial};
ghost use Rattle.cpi_index.specs.Group.{ticks_now, ticks_base, group_index, has_imputed, lack_of};
ghost use Rattle.std.specs.Prelude.{true, false, Ok, Err};
ghost use Rattle.cpi_index.specs.declared.lack.GroupLack.TheVariants.{PriceOutOfRange};
ghost use Rattle.cpi_index.specs.declared.limits.TheConstants.{MOST_SUM_OF_TICKS};
ghost use Rattle.cpi_codes.specs.declared.limits.TheConstants.{MOST_SERIES};

use crate::aggregate::{lacks_match, movement};
use crate::carried::CarriedPrice;
use crate::dutot::dutot;
use crate::index::Index;
use crate::lack::GroupLack;
use crate::row::GroupRow;
use crate::series::is_by_series;
use std::alloc::AllocError;

/// What an elementary aggregate has in a month: its index, and whether a price of its sample is imputed.
#[derive(Clone, Copy)]
pub struct GroupIndex {
    pub index: Index,
    pub imputed: bool,
}

// The sums over the carried prices of a sample and over its bases.
#[derive(Clone, Copy)]
struct Sums {
    current: u128,
    base: u128,
    imputed: bool,
}

// Adds the carried prices of a sample after others, and sums them; none if one is outside its limits. The caller owes
// at most as many rows as there are series, so that no sum passes 128 bits.
fn carry_rows(
    rows: &[GroupRow],
    carried: &mut Vec<CarriedPrice>,
) -> Result<Option<Sums>, AllocError>
    requires few { length rows.now ≤ MOST_SERIES }
    ensures { IfOk result (λ o. MatchOption o (are_in_limits rows.now ≡ false) (λ s.
        (are_in_limits rows.now ≡ true) × (carried.new.items ≡ carried.old.items ++ carried_rows rows.now)
        × (s.current ≡ ticks_now rows.now) × (s.base ≡ ticks_base rows.now) × (s.imputed ≡ has_imputed rows.now)
        × (s.current ≤ MOST_SUM_OF_TICKS) × (s.base ≤ MOST_SUM_OF_TICKS) × (length rows.now ≤ s.base))) }
{
    let Some(movement) = movement(rows) else {
        return Ok(None);
    };
    let mut current: u128 = 0;
    let mut base: u128 = 0;
    let mut imputed = false;
    for row in rows {
        let Some(price) = row.carried(&movement) else {
            return Ok(None);
        };
        current += u128::from(price.ticks());
        base += u128::from(row.link.ticks());
        imputed = imputed || price.was_imputed();
        carried.push(price)?;
    }
    Ok(Some(Sums {
        current,
        base,
        imputed,
    }))
}

/// The index of an elementary aggregate from the rows of its sample: the Dutot index of the *Consumer Price Index
/// Manual* (its chapter on calculating indices in practice), which divides the sum of the carried prices by the sum of
/// the bases. The carried prices are added after those in `carried`. If the aggregate lacks something, the answer is the
/// first lack, and `carried` may have any further prices. If the rows aren't by series, the answer is a price outside
/// its limits.
pub fn carry_group(
    rows: &[GroupRow],
    unchanged: bool,
    carried: &mut Vec<CarriedPrice>,
) -> Result<Result<GroupIndex, GroupLack>, AllocError>
    ensures exact { are_by_series row_serial rows.now ≡ true → IfOk result (λ r. MatchResult r
        (λ g. (lack_of unchanged rows.now ≡ None) × (g.index ≡ group_index rows.now)
        × (g.imputed ≡ has_imputed rows.now)
        × (carried.new.items ≡ carried.old.items ++ carried_rows rows.now))
        (λ lack. lack_of unchanged rows.now ≡ Some lack)) }
    ensures unfit { are_by_series row_serial rows.now ≡ false → result ≡ Ok (Err PriceOutOfRange) }
{
    if rows.is_empty() {
        return Ok(Err(GroupLack::NoSample));
    }
    if !is_by_series(rows) {
        return Ok(Err(GroupLack::PriceOutOfRange));
    }
    if lacks_match(rows, unchanged) {
        return Ok(Err(GroupLack::NoMatch));
    }
    let Some(sums) = carry_rows(rows, carried)? else {
        return Ok(Err(GroupLack::PriceOutOfRange));
    };
    match dutot(sums.current, sums.base) {
        Some(index) => Ok(Ok(GroupIndex {
            index,
            imputed: sums.imputed,
        })),
        None => Ok(Err(GroupLack::IndexOutOfRange)),
    }
}
