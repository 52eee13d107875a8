//! The survey of an office, in memory.
use crate::book::Parts;
use crate::frozen::month_rows;
use crate::given::Given;
use crate::holder::Holder;
use crate::holders::{put_assignment_of, put_holder, put_quote_of};
use crate::outlet::Outlet;
use crate::registration::Registration;
use crate::series_move::SeriesMove;
use crate::taken_slots::{TakenSlots, series_in};
use cpi_codes::{CollectorId, Key, Month, OutletId, Slot};
use cpi_index::FrozenQuote;
use cpi_plan::{CalendarRow, Item, YearPlan};
use cpi_rows::{RowsByKey, find_row};
use cpi_survey::{Assigned, Own, Public, Quote};
use std::alloc::{AllocError, Global};
use std::collections::BTreeMap;
use std::marker::Model;

/// An office without its releases: items, plans, calendar rows, collectors, outlets, assignments and quotes. Contracts
/// see the office that has them and no release.
///
/// A write fails only if memory was refused, and then it changes nothing; a write that replaces a row takes no memory.
/// Collectors, their rows, items, plans, months and outlets are found in a number of steps that grows with the
/// logarithm of how many there are, and items and outlets are put in as many. Any other write shifts the rows of one
/// list: a collector's assignments, a slot's quotes, or a collector's slots when one of them gets its first quote.
#[derive(Drop)]
pub struct Survey {
    pub(crate) public: Public,
    // by number
    pub(crate) holders: Vec<Holder>,
    pub(crate) taken: TakenSlots,
    pub(crate) outlets: RowsByKey<Outlet>,
    // the registrations of the holders, by key
    pub(crate) registrations: BTreeMap<Key, Registration>,
    // the own part of a number that nobody has: it has nothing
    pub(crate) nobody: Own,
    pub(crate) alloc: Global,
}

impl Model for Survey {
    ghost use Rattle.std.specs.Prelude.{◌≡◌, ℕ, [], map};
    ghost use Rattle.std.specs.Ordering.{nat_cmp};
    ghost use Rattle.std.specs.BTreeMap.{get};
    ghost use Rattle.std.specs.List.{AllByRecursion};
    ghost use Rattle.cpi_rows.specs.Keyed.{IsInOrder};
    ghost use Rattle.cpi_store.specs.Registration.{registration_of};
    ghost use Rattle.cpi_store.specs.Office.{Office};
    ghost use Rattle.cpi_store.specs.Holders.{ArePlaced, IsGiven, all_assignments, collectors_of, named_by, office_of};

    ghost Value = { Office };

    ghost view = { λ s. office_of s.public s.outlets [] s.taken s.holders.items };

    ghost invariant = { λ s. record {
      holders : IsInOrder nat_cmp (λ h. h.number) s.holders.items;
      registrations : (key : ℕ) → get nat_cmp s.registrations key ≡ registration_of key (collectors_of s.holders.items);
      outlets : IsInOrder nat_cmp (λ u. u.number) s.outlets;
      given : AllByRecursion (IsGiven (all_assignments s.holders.items)) s.taken;
      placed : ArePlaced s.outlets (map (λ h. h.own.assignments) s.holders.items);
      nobody : s.nobody ≡ record { assignments = []; quotes = [] };
      names : named_by s.outlets (map (λ h. h.own.assignments) s.holders.items)
          ≡ map (λ h. h.own.assignments) s.holders.items;
    } };
}

impl Survey {
    ghost use Rattle.std.specs.Prelude.{◌≡◌, true, IfOk};
    ghost use Rattle.std.specs.Option.{option_copied};
    ghost use Rattle.cpi_codes.specs.Month.{year_of};
    ghost use Rattle.cpi_rows.specs.Keyed.{row_by_number};
    ghost use Rattle.cpi_rows.specs.Held.{held_by};
    ghost use Rattle.cpi_index.specs.Series.{are_by_series, frozen_serial};
    ghost use Rattle.cpi_store.specs.Registration.{registration_of};
    ghost use Rattle.cpi_store.specs.Office.{empty_office, public_part, own_part, quotes_of_month};

    /// An empty office, which takes no memory yet. Its calls take their memory from this allocator.
    pub fn new(alloc: Global) -> Survey
        ensures { result ≡ empty_office }
    {
        Survey {
            public: Public::new(alloc),
            holders: Vec::new(alloc),
            taken: TakenSlots::new(alloc),
            outlets: RowsByKey::new(alloc),
            registrations: BTreeMap::new(alloc),
            nobody: Own::new(alloc),
            alloc,
        }
    }

    /// The collector with the key; none if nobody has it.
    pub fn registration_of(&self, key: Key) -> Option<Registration>
        ensures { result ≡ registration_of key self.now.collectors }
    {
        self.registrations.get(&key).copied()
    }

    /// The collector with the number; none if the number isn't registered.
    pub fn registration_at(&self, number: CollectorId) -> Option<Registration>
        ensures { result ≡ row_by_number (λ b. b.number) number self.now.collectors }
    {
        match find_row(&self.holders, &number) {
            Some(holder) => Some(Registration {
                number: holder.number,
                key: holder.key,
            }),
            None => None,
        }
    }

    /// The outlet with the number; none if there is no such outlet.
    pub fn outlet(&self, number: OutletId) -> Option<&Outlet>
        ensures { option_copied result ≡ row_by_number (λ u. u.number) number self.now.outlets }
    {
        self.outlets.find(&number)
    }

    /// The public specification: items by code, plans by year, and calendar rows by month.
    pub fn public(&self) -> &Public
        ensures { result.now ≡ public_part self.now }
    {
        &self.public
    }

    /// The plan of the month's year, if there is one.
    pub fn plan_of(&self, month: Month) -> Option<&YearPlan>
        ensures { option_copied result ≡ row_by_number (λ p. p.year) (year_of month) self.now.plans }
    {
        find_row(self.public.plans(), &month.year())
    }

    /// What a collector has: assignments by slot, and quotes by slot and month. A number that nobody has, has nothing.
    pub fn own(&self, collector: CollectorId) -> &Own
        ensures { result.now ≡ own_part collector self.now }
    {
        match find_row(&self.holders, &collector) {
            Some(holder) => &holder.own,
            None => &self.nobody,
        }
    }

    /// The public specification, and what a collector has; a number that nobody has, has nothing.
    pub fn parts(&self, collector: CollectorId) -> Parts<'_>
        ensures public { result.public.now ≡ public_part self.now }
        ensures own { result.own.now ≡ own_part collector self.now }
    {
        Parts {
            public: &self.public,
            own: self.own(collector),
        }
    }

    /// What the collector's slot was given, with its series; none if the collector has no such slot.
    pub fn given(&self, collector: CollectorId, slot: Slot) -> Option<Given>
        ensures { result ≡ row_by_number (λ g. g.assignment.slot) slot (held_by collector self.now.assignments) }
    {
        match self.own(collector).assigned(slot) {
            Some(assigned) => Some(Given {
                assignment: assigned.assignment,
                series: series_in(&self.taken, collector, slot),
            }),
            None => None,
        }
    }

    /// The stored quotes of the month by series, each with the item and the last month of its series, if no series has
    /// two in the month. The error says that memory was refused.
    pub fn month_rows(&self, month: Month) -> Result<Vec<FrozenQuote>, AllocError>
        ensures { IfOk result (λ found. are_by_series frozen_serial (quotes_of_month month self.now) ≡ true →
            found.items ≡ quotes_of_month month self.now) }
    {
        month_rows(self.alloc, month, &self.taken, &self.holders)
    }
}

impl Survey {
    ghost use Rattle.std.specs.Prelude.{◌≡◌, OnErr, OnOk, IsOk, IsSome};
    ghost use Rattle.cpi_rows.specs.Keyed.{row_by_number};
    ghost use Rattle.cpi_store.specs.Office.{office_with, PutsItem, PutsPlan, PutsCalendar};

    /// Puts an item, in place of the one with its code, if any.
    pub fn put_item(&mut self, item: Item) -> Result<(), AllocError>
        ensures ok { OnOk result (self.new ≡ office_with (PutsItem item) self.old) }
        ensures err { OnErr result (self.new ≡ self.old) }
    {
        self.public.put_item(item)
    }

    /// Puts a year's plan. To put it in place of the one that the year has takes no memory.
    pub fn put_plan(&mut self, plan: YearPlan) -> Result<(), AllocError>
        ensures ok { OnOk result (self.new ≡ office_with (PutsPlan plan) self.old) }
        ensures err { OnErr result (self.new ≡ self.old) }
        ensures replaced { IsSome (row_by_number (λ y. y.year) plan.year self.old.plans) → IsOk result }
    {
        self.public.put_plan(plan)
    }

    /// Puts a month's calendar row. To put it in place of the one that the month has takes no memory.
    pub fn put_calendar(&mut self, row: CalendarRow) -> Result<(), AllocError>
        ensures ok { OnOk result (self.new ≡ office_with (PutsCalendar row) self.old) }
        ensures err { OnErr result (self.new ≡ self.old) }
        ensures replaced { IsSome (row_by_number (λ r. r.month) row.month self.old.calendar) → IsOk result }
    {
        self.public.put_calendar(row)
    }
}

impl Survey {
    ghost use Rattle.std.specs.Prelude.{◌≡◌, ◌<◌, None, OnErr, OnOk, IsOk, IsSome};
    ghost use Rattle.cpi_rows.specs.Keyed.{row_by_number, row_at};
    ghost use Rattle.cpi_rows.specs.Held.{held_by};
    ghost use Rattle.cpi_survey.specs.Quote.{greatest_receipt, quote_cmp, quote_key};
    ghost use Rattle.cpi_store.specs.Registration.{registration_of};
    ghost use Rattle.cpi_store.specs.Outlet.{with_name};
    ghost use Rattle.cpi_store.specs.Office.{office_with, Registers, PutsOutlet, Assigns, HandsOver, Quotes};

    /// Puts a new collector, who has nothing yet. The caller owes that nobody has the number, and that nobody has the
    /// key.
    pub fn put_collector(&mut self, registration: Registration) -> Result<(), AllocError>
        requires number { row_by_number (λ b. b.number) registration.number self.old.collectors ≡ None }
        requires key { registration_of registration.key self.old.collectors ≡ None }
        ensures ok { OnOk result (self.new ≡ office_with (Registers registration) self.old) }
        ensures err { OnErr result (self.new ≡ self.old) }
    {
        let holder = Holder::new(self.alloc, registration);
        put_holder(&mut self.holders, &mut self.registrations, holder)?;
        Ok(())
    }

    /// Puts a new outlet. The caller owes that no outlet has its number.
    pub fn put_outlet(&mut self, outlet: Outlet) -> Result<(), AllocError>
        requires new { row_by_number (λ u. u.number) outlet.number self.old.outlets ≡ None }
        ensures ok { OnOk result (self.new ≡ office_with (PutsOutlet outlet) self.old) }
        ensures err { OnErr result (self.new ≡ self.old) }
    {
        self.outlets.put(outlet)?;
        Ok(())
    }

    /// Puts a new assignment of the collector, as a series of its own, with the name of its outlet. The caller owes
    /// that the collector is registered, that the collector's slot is free, that the office has the outlet, and that
    /// the name is the outlet's.
    pub fn put_assignment(
        &mut self,
        registration: Registration,
        assigned: Assigned,
    ) -> Result<(), AllocError>
        requires known { IsSome (row_by_number (λ b. b.number) registration.number self.old.collectors) }
        requires new { row_by_number (λ g. g.assignment.slot) assigned.assignment.slot
            (held_by registration.number self.old.assignments)
            ≡ None }
        requires outlet { IsSome (row_by_number (λ u. u.number) assigned.assignment.outlet self.old.outlets) }
        requires name { assigned ≡ with_name self.old.outlets assigned.assignment }
        ensures ok { OnOk result (self.new ≡ office_with (Assigns registration assigned) self.old) }
        ensures err { OnErr result (self.new ≡ self.old) }
    {
        put_assignment_of(&mut self.holders, registration.number, assigned)?;
        Ok(())
    }

    /// Ends an assignment of one collector, and gives its series to a new slot of another collector or of the same one:
    /// both or neither. The caller owes that the taker is registered, that the office has the former assignment and the
    /// outlet, that the new slot is free, and that the name is the outlet's.
    pub fn put_handover(&mut self, handover: SeriesMove) -> Result<(), AllocError>
        requires taker { IsSome (row_by_number (λ b. b.number) handover.taker.number self.old.collectors) }
        requires stands { IsSome (row_by_number (λ g. g.assignment.slot) handover.ended.assignment.slot
            (held_by handover.former.number self.old.assignments)) }
        requires new { row_by_number (λ g. g.assignment.slot) handover.assigned.assignment.slot
            (held_by handover.taker.number self.old.assignments) ≡ None }
        requires outlet { IsSome (row_by_number (λ u. u.number) handover.assigned.assignment.outlet self.old.outlets) }
        requires name { handover.assigned ≡ with_name self.old.outlets handover.assigned.assignment }
        ensures ok { OnOk result (self.new ≡ office_with (HandsOver handover) self.old) }
        ensures err { OnErr result (self.new ≡ self.old) }
    {
        self.taken.hand_over(&mut self.holders, handover)?;
        Ok(())
    }

    /// Puts a quote of the collector. To put it in place of the one of its slot and month takes no memory. The caller
    /// owes that the collector is registered, and that the receipt is above all others of the collector.
    pub fn put_quote(&mut self, registration: Registration, quote: Quote) -> Result<(), AllocError>
        requires known { IsSome (row_by_number (λ b. b.number) registration.number self.old.collectors) }
        requires receipt { greatest_receipt (held_by registration.number self.old.quotes) < quote.receipt }
        ensures ok { OnOk result (self.new ≡ office_with (Quotes registration quote) self.old) }
        ensures err { OnErr result (self.new ≡ self.old) }
        ensures replaced { IsSome (row_at quote_cmp quote_key (quote.slot, quote.month)
            (held_by registration.number self.old.quotes)) → IsOk result }
    {
        put_quote_of(&mut self.holders, registration.number, quote)?;
        Ok(())
    }
}
