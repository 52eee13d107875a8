//! The rows of the calendar.
ghost use Rattle.std.specs.Prelude.{◌≡◌, SomeIff};
ghost use Rattle.cpi_plan.specs.Calendar.{AreInTurn, same_calendar};

use cpi_codes::{Moment, Month};
use cpi_rows::Keyed;
use std::marker::Model;

/// The moments at which a month opens for quotes, closes, and is published. It opens before it closes, and is published
/// when it closes or later.
#[derive(Clone, Copy, PartialEq, Eq)]
pub struct CalendarRow {
    month: Month,
    opens: Moment,
    closes: Moment,
    publishes: Moment,
}

impl Model for CalendarRow {
    ghost use Rattle.cpi_plan.specs.Calendar.{AreInTurn, CalendarPart};

    ghost Value = { CalendarPart };

    ghost view = { λ r. record { month = r.month; opens = r.opens; closes = r.closes; publishes = r.publishes } };

    ghost invariant = { λ r. AreInTurn r.opens r.closes r.publishes };

    ghost inverse = { λ p. record { month = p.month; opens = p.opens; closes = p.closes; publishes = p.publishes } };
}

impl CalendarRow {
    /// The row of a month. It is `None` unless `opens` is before `closes`, and `publishes` is `closes` or later.
    pub fn new(
        month: Month,
        opens: Moment,
        closes: Moment,
        publishes: Moment,
    ) -> Option<CalendarRow>
        ensures { SomeIff result (AreInTurn opens closes publishes)
            (record { month = month; opens = opens; closes = closes; publishes = publishes }) }
    {
        if opens < closes && closes <= publishes {
            Some(CalendarRow {
                month,
                opens,
                closes,
                publishes,
            })
        } else {
            None
        }
    }

    /// The month of the row.
    pub fn month(&self) -> Month
        ensures { result ≡ self.now.month }
    {
        self.month
    }

    /// The moment from which the month takes quotes.
    pub fn opens(&self) -> Moment
        ensures { result ≡ self.now.opens }
    {
        self.opens
    }

    /// The moment from which the month takes no more quotes.
    pub fn closes(&self) -> Moment
        ensures { result ≡ self.now.closes }
    {
        self.closes
    }

    /// The moment from which the month's table is public.
    pub fn publishes(&self) -> Moment
        ensures { result ≡ self.now.publishes }
    {
        self.publishes
    }

    /// Whether the two rows have the same content.
    pub fn is_same(&self, other: &CalendarRow) -> bool
        ensures { result ≡ same_calendar self.now other.now }
    {
        self.month == other.month
            && self.opens == other.opens
            && self.closes == other.closes
            && self.publishes == other.publishes
    }
}

impl Keyed for CalendarRow {
    type Key = Month;

    ghost key = { λ r. r.month };

    fn key(&self) -> Month {
        self.month
    }
}
