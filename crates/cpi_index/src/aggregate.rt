//! One elementary aggregate in one month.
ghost use Rattle.std.specs.Prelude.{◌≡◌, ◌≤◌, length, true, false, is_none, MatchOption, SomeIff};
ghost use Rattle.std.specs.List.{list_any};
ghost use Rattle.cpi_index.specs.Carried.{IsTicks};
ghost use Rattle.cpi_index.specs.Aggregate.{price_to_compare, is_matched, is_matched_in_limits, movement_now};
ghost use Rattle.cpi_index.specs.Aggregate.{movement_before, carried_row, are_in_limits};
ghost use Rattle.cpi_index.specs.Aggregate.{lacks_a_match};
ghost use Rattle.std.specs.List.{list_all};
ghost use Rattle.cpi_codes.specs.declared.limits.TheConstants.{MOST_SERIES};

use crate::carried::CarriedPrice;
use crate::movement::Movement;
use crate::row::GroupRow;
use cpi_codes::Price;
use cpi_survey::Mark;

impl GroupRow {
    // The price that can be compared with the month before.
    fn compared(&self) -> Option<Price>
        ensures { result ≡ price_to_compare self.now }
    {
        match &self.mark {
            Some(Mark::Price(price)) | Some(Mark::Comparable(price)) => Some(*price),
            Some(Mark::Missing(_)) | Some(Mark::Other(_)) | None => None,
        }
    }

    // The carried price of the month, when the aggregate moved by `movement`; none outside its limits.
    pub(crate) fn carried(&self, movement: &Movement) -> Option<CarriedPrice>
        ensures { let spec = carried_row movement.now.current movement.now.previous self.now
            in SomeIff result (IsTicks spec.ticks) spec }
    {
        match &self.mark {
            Some(Mark::Price(price)) | Some(Mark::Comparable(price)) => self.before.priced(*price),
            Some(Mark::Other(price)) => self.before.replaced(movement, *price),
            Some(Mark::Missing(_)) | None => self.before.moved(movement),
        }
    }
}

// The movement of the matched rows; none if one of their carried prices is outside its limits. If no row is matched,
// the movement is 1/1. The caller owes at most as many rows as there are series.
pub(crate) fn movement(rows: &[GroupRow]) -> Option<Movement>
    requires { length rows.now ≤ MOST_SERIES }
    ensures { MatchOption result
        (list_all is_matched_in_limits rows.now ≡ false)
        (λ m. (m.current ≡ movement_now rows.now) × (m.previous ≡ movement_before rows.now)) }
{
    let mut current: u128 = 0;
    let mut previous: u128 = 0;
    let mut found = false;
    for row in rows {
        if let Some(price) = row.compared()
            && row.before.was_observed()
        {
            current += u128::from(row.before.priced(price)?.ticks());
            previous += u128::from(row.before.ticks());
            found = true;
        }
    }
    if !found {
        return Some(Movement {
            current: 1,
            previous: 1,
        });
    }
    Some(Movement { current, previous })
}

// Whether a row is matched: compared now, and observed in the month before.
fn any_matched(rows: &[GroupRow]) -> bool
    ensures { result ≡ list_any is_matched rows.now }
{
    rows.iter().any(|row| row.compared().is_some() && row.before.was_observed())
}

// Whether a row has no price that can be compared with the month before.
fn any_uncompared(rows: &[GroupRow]) -> bool
    ensures { result ≡ list_any (λ r. is_none (price_to_compare r)) rows.now }
{
    rows.iter().any(|row| row.compared().is_none())
}

// Whether a series of the aggregate needs a movement that nothing gives.
pub(crate) fn lacks_match(rows: &[GroupRow], unchanged: bool) -> bool
    ensures { result ≡ lacks_a_match unchanged rows.now }
{
    !unchanged && !any_matched(rows) && any_uncompared(rows)
}

// The movement of an aggregate; none if one of its carried prices is outside its limits.
pub(crate) fn movement_in_limits(rows: &[GroupRow]) -> Option<Movement>
    requires { length rows.now ≤ MOST_SERIES }
    ensures { MatchOption result
        (are_in_limits rows.now ≡ false)
        (λ m. (are_in_limits rows.now ≡ true) × (m.current ≡ movement_now rows.now)
        × (m.previous ≡ movement_before rows.now)) }
{
    let Some(movement) = movement(rows) else {
        return None;
    };
    for row in rows {
        let Some(_) = row.carried(&movement) else {
            return None;
        };
    }
    Some(movement)
}
