//! The cached survey follows each stored row. Afterwards it has the row too, or it counts as not read if memory was
//! refused, and the next request reads it again.
//!
//! A caller of the book owes what these functions test (a new number, a known collector, a newer receipt) only if the
//! store is clean. The survey in memory requires it always, so it is tested here, in memory.
ghost use Rattle.std.specs.Prelude.{IsTrue};
ghost use Rattle.cpi_store.specs.Office.{Assigns, HandsOver, PutsCalendar, PutsItem, PutsOutlet, PutsPlan, Quotes};
ghost use Rattle.cpi_store.specs.Office.{Registers};
ghost use Rattle.cpi_sql_reads.specs.Following.{CanPass, CanTake, Follows, HasNamedOutlet};

use cpi_codes::CollectorId;
use cpi_plan::{CalendarRow, Item, YearPlan};
use cpi_store::{Outlet, Registration, SeriesMove, Survey};
use cpi_survey::{Assigned, Quote};

/// Puts an item into the cached survey.
pub fn follow_item(survey: &mut Survey, is_read: &mut bool, item: Item)
    ensures { Follows (PutsItem item) survey.old survey.new is_read.old is_read.new }
{
    *is_read = survey.put_item(item).is_ok() && *is_read;
}

/// Puts a year's plan into the cached survey.
pub fn follow_plan(survey: &mut Survey, is_read: &mut bool, plan: YearPlan)
    ensures { Follows (PutsPlan plan) survey.old survey.new is_read.old is_read.new }
{
    *is_read = survey.put_plan(plan).is_ok() && *is_read;
}

/// Puts a month's calendar row into the cached survey.
pub fn follow_calendar(survey: &mut Survey, is_read: &mut bool, row: CalendarRow)
    ensures { Follows (PutsCalendar row) survey.old survey.new is_read.old is_read.new }
{
    *is_read = survey.put_calendar(row).is_ok() && *is_read;
}

/// Puts a collector into the cached survey. Its number and key have to be new there.
pub fn follow_collector(survey: &mut Survey, is_read: &mut bool, registration: Registration)
    ensures { Follows (Registers registration) survey.old survey.new is_read.old is_read.new }
{
    *is_read = survey.registration_at(registration.number).is_none()
        && survey.registration_of(registration.key).is_none()
        && survey.put_collector(registration).is_ok()
        && *is_read;
}

/// Puts an outlet into the cached survey. Its number has to be new there.
pub fn follow_outlet(survey: &mut Survey, is_read: &mut bool, outlet: Outlet)
    ensures { Follows (PutsOutlet outlet) survey.old survey.new is_read.old is_read.new }
{
    *is_read = survey.outlet(outlet.number).is_none()
        && survey.put_outlet(outlet).is_ok()
        && *is_read;
}

// Whether the outlet of the assignment is there, under the assignment's name for it.
fn has_outlet(survey: &Survey, assigned: &Assigned) -> bool
    ensures { IsTrue result → HasNamedOutlet survey.now assigned.now }
{
    match survey.outlet(assigned.assignment.outlet) {
        Some(outlet) => outlet.name.is_same(&assigned.outlet_name),
        None => false,
    }
}

// Whether the collector is there, the slot is free, and the outlet is there under the assignment's name for it.
fn can_take(survey: &Survey, collector: CollectorId, assigned: &Assigned) -> bool
    ensures { IsTrue result → CanTake survey.now collector assigned.now }
{
    survey.registration_at(collector).is_some()
        && survey.given(collector, assigned.assignment.slot).is_none()
        && has_outlet(survey, assigned)
}

/// Puts an assignment of a collector, as a series of its own, into the cached survey.
pub fn follow_assignment(
    survey: &mut Survey,
    is_read: &mut bool,
    registration: Registration,
    assigned: Assigned,
)
    ensures { Follows (Assigns registration assigned) survey.old survey.new is_read.old is_read.new }
{
    *is_read = can_take(survey, registration.number, &assigned)
        && survey.put_assignment(registration, assigned).is_ok()
        && *is_read;
}

// Whether the assignment that ends is there, and the taker can take the new one.
fn can_pass(survey: &Survey, handover: &SeriesMove) -> bool
    ensures { IsTrue result → CanPass survey.now handover.now }
{
    let ended = survey.given(handover.former.number, handover.ended.assignment.slot);
    ended.is_some() && can_take(survey, handover.taker.number, &handover.assigned)
}

/// Hands a series over in the cached survey.
pub fn follow_handover(survey: &mut Survey, is_read: &mut bool, handover: SeriesMove)
    ensures { Follows (HandsOver handover) survey.old survey.new is_read.old is_read.new }
{
    *is_read = can_pass(survey, &handover) && survey.put_handover(handover).is_ok() && *is_read;
}

/// Puts a quote of a collector into the cached survey. The collector has to be there, and the receipt newer than the
/// collector's others.
pub fn follow_quote(
    survey: &mut Survey,
    is_read: &mut bool,
    registration: Registration,
    quote: Quote,
)
    ensures { Follows (Quotes registration quote) survey.old survey.new is_read.old is_read.new }
{
    *is_read = survey.registration_at(registration.number).is_some()
        && survey.own(registration.number).greatest_receipt() < quote.receipt
        && survey.put_quote(registration, quote).is_ok()
        && *is_read;
}
