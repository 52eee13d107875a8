//! Refusals of requests.
ghost use Rattle.std.specs.Prelude.{◌≡◌};
ghost use Rattle.cpi_office.specs.Refusal.{of_survey, refusal_number};

use cpi_codes::Price;
use cpi_index::IndexFault;
use cpi_plan::PlanFault;

/// The reason why a request is refused. Answers contain its number.
#[derive(Clone, Copy, Debug, PartialEq, Eq)]
pub enum Refusal {
    /// The record has none of the forms, or a value is outside its limits.
    BadRequest,
    /// No collector has the key.
    UnknownKey,
    /// The request isn't one of that kind of caller.
    NotForCaller,
    /// The collector has no such slot.
    UnknownSlot,
    /// The calendar has no row of the month.
    UnknownMonth,
    /// The month is outside the assignment.
    NotActive,
    /// The window of the month hasn't opened yet.
    NotOpen,
    /// The window of the month has closed.
    Closed,
    /// A replacement's price without a last price of its slot.
    NoLastPrice,
    /// A price that isn't confirmed, below `low` or above `high`, the bounds that the item sets round the last price
    /// of the slot. All three are in minor units; the bounds are at most 1,000,000,000.
    OutOfTolerance {
        /// The last price.
        last: Price,
        /// The least price that needs no confirmation.
        low: u64,
        /// The greatest price that needs no confirmation.
        high: u64,
    },
    /// The collector's greatest receipt is 1,000,000.
    ReceiptsUsedUp,
    /// No table of the month is published by now.
    NoTable,
    /// Another row has the code, number, key or slot.
    Taken,
    /// An assignment's item isn't known.
    UnknownItem,
    /// An assignment's outlet isn't known.
    UnknownOutlet,
    /// An assignment's collector isn't known.
    UnknownCollector,
    /// The plan of a year has a fault: the first one, which is never lack of memory.
    PlanFault(PlanFault),
    /// A month of the year is frozen.
    PlanFrozen,
    /// The month isn't the one after the last frozen one, or the first isn't a December.
    FreezeOrder,
    /// The month's window hasn't closed yet.
    FreezeTooEarly,
    /// There is no plan of the month's year.
    NoPlan,
    /// The index of the month can't be computed: the first fault, which is never lack of memory.
    Index(IndexFault),
    /// The month, or a later one, is frozen.
    MonthFrozen,
    /// The slot that is to be handed over has a quote of the month of the hand-over, or of a later one.
    QuotesStand,
    /// There was no memory, or the store failed during the request.
    Unavailable,
}

impl Refusal {
    /// The refusal's number, in answers.
    pub fn number(self) -> u16
        ensures { result ≡ refusal_number self }
    {
        match self {
            Refusal::BadRequest => 10,
            Refusal::UnknownKey => 11,
            Refusal::NotForCaller => 12,
            Refusal::UnknownSlot => 20,
            Refusal::UnknownMonth => 21,
            Refusal::NotActive => 22,
            Refusal::NotOpen => 23,
            Refusal::Closed => 24,
            Refusal::NoLastPrice => 25,
            Refusal::OutOfTolerance { .. } => 26,
            Refusal::ReceiptsUsedUp => 27,
            Refusal::NoTable => 30,
            Refusal::Taken => 40,
            Refusal::UnknownItem => 41,
            Refusal::UnknownOutlet => 42,
            Refusal::UnknownCollector => 43,
            Refusal::PlanFault(_) => 44,
            Refusal::PlanFrozen => 45,
            Refusal::FreezeOrder => 46,
            Refusal::FreezeTooEarly => 47,
            Refusal::NoPlan => 48,
            Refusal::Index(_) => 49,
            Refusal::MonthFrozen => 50,
            Refusal::QuotesStand => 51,
            Refusal::Unavailable => 90,
        }
    }

    /// The refusal of an entry, among all refusals.
    pub fn of_survey(refusal: &cpi_survey::Refusal) -> Refusal
        ensures { result ≡ of_survey refusal.now }
    {
        match refusal {
            cpi_survey::Refusal::UnknownSlot => Refusal::UnknownSlot,
            cpi_survey::Refusal::UnknownMonth => Refusal::UnknownMonth,
            cpi_survey::Refusal::NotActive => Refusal::NotActive,
            cpi_survey::Refusal::NotOpen => Refusal::NotOpen,
            cpi_survey::Refusal::Closed => Refusal::Closed,
            cpi_survey::Refusal::NoLastPrice => Refusal::NoLastPrice,
            cpi_survey::Refusal::OutOfTolerance { last, low, high } => Refusal::OutOfTolerance {
                last: *last,
                low: *low,
                high: *high,
            },
            cpi_survey::Refusal::ReceiptsUsedUp => Refusal::ReceiptsUsedUp,
        }
    }
}
