//! Requests of callers.
use crate::caller::Caller;
use crate::edition::Edition;
use cpi_codes::{Code, CollectorId, ItemCode, Moment, Month, OutletId, Slot, Year};
use cpi_plan::{CalendarRow, Item, PlanBody};
use cpi_release::Form;
use cpi_rows::Rows;
use cpi_store::{Outlet, Registration};
use cpi_survey::Entry;

/// The assignment of a free slot: an item to be priced in an outlet, from the first month to the last.
#[derive(Clone, Copy, PartialEq, Eq)]
pub struct NewAssignment {
    pub slot: Slot,
    pub outlet: OutletId,
    pub item: ItemCode,
    pub first_month: Month,
    pub last_month: Month,
}

/// A series that is to go from a slot of one collector to a free slot of another, who may be the same.
#[derive(Clone, Copy, PartialEq, Eq)]
pub struct HandOver {
    /// The collector who has the series.
    pub from: CollectorId,
    /// The slot that ends.
    pub slot: Slot,
    /// The collector who takes the series over.
    pub to: CollectorId,
    /// The slot that begins.
    pub new_slot: Slot,
    /// The first month of the new slot. The former one's last month is the month before it.
    pub month: Month,
}

/// A request to the office, with the callers who may make it.
#[derive(Drop)]
pub enum Request {
    /// The items; any caller.
    Items,
    /// The months and revisions whose tables are published; any caller.
    Tables,
    /// The printed table of a month, in this edition; any caller.
    Table(Month, Form, Edition),
    /// The caller's own quotes from the first month to the last, none if the first is after the last; collectors.
    Quotes(Month, Month),
    /// The caller's own work list of a month; collectors.
    Work(Month),
    /// An entry of a quote; collectors.
    Submit(Entry),
    /// A new item; the desk, which makes all further requests too.
    PutItem(Item),
    /// A new collector with a new key.
    Register(Registration),
    /// A new outlet.
    PutOutlet(Outlet),
    /// An assignment of a free slot of the collector.
    Assign(CollectorId, NewAssignment),
    /// The hand-over of a series.
    HandOver(HandOver),
    /// The plan of a year: titles, weights, the aggregates of items, and references.
    PutPlan(Year, PlanBody),
    /// The collection window and the publishing moment of a month.
    PutCalendar(CalendarRow),
    /// The freeze of a month, with the aggregates whose prices may be carried.
    Freeze(Month, Rows<Code>),
}

/// One request, with its caller and its moment.
#[derive(Drop)]
pub struct Ask {
    /// Seconds since 1970 UTC. Moments may go backwards from one request to the next.
    pub now: Moment,
    pub caller: Caller,
    pub request: Request,
}
