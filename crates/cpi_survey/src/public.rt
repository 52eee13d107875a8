//! The public part of the survey.
ghost use Rattle.std.specs.Prelude.{◌≡◌, IfOk, [], OnOk, OnErr, IsSome, IsOk};
ghost use Rattle.std.specs.Ordering.{nat_cmp};
ghost use Rattle.std.specs.Option.{option_copied};
ghost use Rattle.cpi_rows.specs.Keyed.{IsInOrder, with_row, row_at, row_by_number};

use cpi_codes::{ItemCode, Month, Year};
use cpi_plan::{CalendarRow, Item, YearPlan};
use cpi_rows::{RowsByKey, find_row, put_row};
use std::alloc::{AllocError, Global};
use std::marker::Model;

/// The public part of the survey, which everybody may see: the items by code, the plans by year and the calendar rows
/// by month.
#[derive(Drop)]
pub struct Public {
    items: RowsByKey<Item>,
    plans: Vec<YearPlan>,
    calendar: Vec<CalendarRow>,
}

impl Model for Public {
    ghost use Rattle.std.specs.Ordering.{nat_cmp};
    ghost use Rattle.cpi_rows.specs.Keyed.{IsInOrder};
    ghost use Rattle.cpi_survey.specs.Public.{PublicPart};

    ghost Value = { PublicPart };

    ghost view = { λ p. record { items = p.items; plans = p.plans.items; calendar = p.calendar.items } };

    ghost invariant = { λ p. record {
      items : IsInOrder nat_cmp (λ i. i.code) p.items;
      plans : IsInOrder nat_cmp (λ y. y.year) p.plans.items;
      calendar : IsInOrder nat_cmp (λ r. r.month) p.calendar.items;
    } };
}

impl Public {
    /// The public part of a survey without items, plans and months.
    pub fn new(alloc: Global) -> Public
        ensures { result ≡ record { items = []; plans = []; calendar = [] } }
    {
        Public::from_parts(RowsByKey::new(alloc), Vec::new(alloc), Vec::new(alloc))
    }

    /// The public part from its rows. The caller owes one item a code, in the order of codes, one plan a year, in the
    /// order of years, and one row a month, in the order of months.
    pub fn from_parts(
        items: RowsByKey<Item>,
        plans: Vec<YearPlan>,
        calendar: Vec<CalendarRow>,
    ) -> Public
        requires items { IsInOrder nat_cmp (λ i. i.code) items }
        requires plans { IsInOrder nat_cmp (λ y. y.year) plans.items }
        requires calendar { IsInOrder nat_cmp (λ r. r.month) calendar.items }
        ensures { result ≡ record { items = items; plans = plans.items; calendar = calendar.items } }
    {
        Public {
            items,
            plans,
            calendar,
        }
    }

    /// The item with the code, if there is one.
    pub fn item(&self, code: ItemCode) -> Option<&Item>
        ensures { option_copied result ≡ row_by_number (λ i. i.code) code self.now.items }
    {
        self.items.find(&code)
    }

    /// The plan of the year, if there is one.
    pub fn plan(&self, year: Year) -> Option<&YearPlan>
        ensures { option_copied result ≡ row_by_number (λ y. y.year) year self.now.plans }
    {
        find_row(&self.plans, &year.number())
    }

    /// The calendar row of the month, if there is one.
    pub fn calendar_row(&self, month: Month) -> Option<&CalendarRow>
        ensures { option_copied result ≡ row_by_number (λ r. r.month) month self.now.calendar }
    {
        find_row(&self.calendar, &month)
    }

    /// The items in the order of their codes.
    pub fn items(&self) -> &RowsByKey<Item>
        ensures items { result.now ≡ self.now.items }
        ensures order { IsInOrder nat_cmp (λ i. i.code) result.now }
    {
        &self.items
    }

    /// The plans in the order of their years.
    pub fn plans(&self) -> &[YearPlan]
        ensures plans { result.now ≡ self.now.plans }
        ensures order { IsInOrder nat_cmp (λ y. y.year) result.now }
    {
        &self.plans
    }

    /// A copy of all items, in the order of their codes. An `Err` says that memory was refused.
    pub fn copy_items(&self, alloc: Global) -> Result<Vec<Item>, AllocError>
        ensures { IfOk result (λ items. items.items ≡ self.now.items) }
    {
        copy_items(alloc, &self.items)
    }

    /// Puts an item in its place, over the one with its code if there is one, which takes no memory. An `Err` says
    /// that memory was refused; nothing has changed then.
    pub fn put_item(&mut self, item: Item) -> Result<(), AllocError>
        ensures ok { OnOk result (self.new ≡ record self.old {
          items = with_row nat_cmp (λ i. i.code) item self.old.items;
        }) }
        ensures err { OnErr result (self.new ≡ self.old) }
        ensures replaced { IsSome (row_at nat_cmp (λ i. i.code) item.code self.old.items) → IsOk result }
    {
        self.items.put(item)
    }

    /// Puts a plan in its place, over the one of its year if there is one, which takes no memory. An `Err` says that
    /// memory was refused; nothing has changed then.
    pub fn put_plan(&mut self, plan: YearPlan) -> Result<(), AllocError>
        ensures ok { OnOk result (self.new ≡ record self.old {
          plans = with_row nat_cmp (λ y. y.year) plan self.old.plans;
        }) }
        ensures err { OnErr result (self.new ≡ self.old) }
        ensures replaced { IsSome (row_at nat_cmp (λ y. y.year) plan.year self.old.plans) → IsOk result }
    {
        put_row(&mut self.plans, plan)
    }

    /// Puts a calendar row in its place, over the one of its month if there is one, which takes no memory. An `Err`
    /// says that memory was refused; nothing has changed then.
    pub fn put_calendar(&mut self, row: CalendarRow) -> Result<(), AllocError>
        ensures ok { OnOk result (self.new ≡ record self.old {
          calendar = with_row nat_cmp (λ r. r.month) row self.old.calendar;
        }) }
        ensures err { OnErr result (self.new ≡ self.old) }
        ensures replaced { IsSome (row_at nat_cmp (λ r. r.month) row.month self.old.calendar) → IsOk result }
    {
        put_row(&mut self.calendar, row)
    }
}

// A copy of each item, in the same order. An `Err` says that memory was refused.
fn copy_items(alloc: Global, items: &RowsByKey<Item>) -> Result<Vec<Item>, AllocError>
    ensures { IfOk result (λ copies. copies.items ≡ items.now) }
{
    let mut copies = Vec::new(alloc);
    for item in items.iter() {
        copies.push(item.copy(alloc)?)?;
    }
    Ok(copies)
}
