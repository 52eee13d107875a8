//! A collector's own part of the office.
ghost use Rattle.std.specs.Prelude.{◌≡◌, ◌<◌, [], IfOk, OnOk, OnErr, IsSome, IsOk};
ghost use Rattle.std.specs.Ordering.{nat_cmp};
ghost use Rattle.std.specs.Option.{option_copied};
ghost use Rattle.cpi_rows.specs.Keyed.{IsInOrder, with_row, row_at, row_by_number};
ghost use Rattle.cpi_survey.specs.Assignment.{with_last_month};
ghost use Rattle.cpi_survey.specs.LastPrice.{last_price};
ghost use Rattle.cpi_survey.specs.Quote.{greatest_receipt, quote_cmp, quote_key};
ghost use Rattle.cpi_survey.specs.Within.{has_quotes_since, quotes_within};

use crate::assignment::{Assigned, Assignment};
use crate::last_price::observed_before;
use crate::quote::Quote;
use crate::slot_quotes::SlotQuotes;
use crate::slots::{by_slot, put_quote, quotes_of};
use crate::within::quotes_within;
use cpi_codes::{Month, Price, Slot};
use cpi_rows::{find_row, place_of, put_row};
use std::alloc::{AllocError, Global};
use std::marker::Model;

/// A collector's own part of the office: the assignments by slot, and the stored quotes by slot and then by month.
#[derive(Drop)]
pub struct Own {
    alloc: Global,
    assignments: Vec<Assigned>,
    slots: Vec<SlotQuotes>,
    greatest: u32,
}

impl Model for Own {
    ghost use Rattle.std.specs.Prelude.{◌≡◌};
    ghost use Rattle.std.specs.Ordering.{nat_cmp};
    ghost use Rattle.cpi_rows.specs.Keyed.{IsInOrder};
    ghost use Rattle.cpi_survey.specs.Own.{OwnPart};
    ghost use Rattle.cpi_survey.specs.Quote.{greatest_receipt};
    ghost use Rattle.cpi_survey.specs.Slots.{AreBySlot, quotes_of_slots};

    ghost Value = { OwnPart };

    ghost view = { λ o. record { assignments = o.assignments.items; quotes = quotes_of_slots o.slots.items } };

    ghost invariant = { λ o. record {
      assignments : IsInOrder nat_cmp (λ a. a.assignment.slot) o.assignments.items;
      slots : AreBySlot o.slots.items;
      greatest : o.greatest ≡ greatest_receipt (quotes_of_slots o.slots.items);
    } };
}

impl Own {
    /// The part of a collector without assignments and quotes. It takes no memory until a row is put, and then takes it
    /// from this allocator.
    pub fn new(alloc: Global) -> Own
        ensures { result ≡ record { assignments = []; quotes = [] } }
    {
        Own {
            alloc,
            assignments: Vec::new(alloc),
            slots: Vec::new(alloc),
            greatest: 0,
        }
    }

    /// A collector's part from its rows. The caller owes one assignment a slot, in the order of slots, one quote a
    /// slot and month, in the order of slots and then of months, and the greatest receipt among the quotes, or 0 if
    /// there is none. For n quotes it takes O(n log n) steps. An `Err` says that memory was refused.
    pub fn from_parts(
        alloc: Global,
        assignments: Vec<Assigned>,
        quotes: Vec<Quote>,
        greatest: u32,
    ) -> Result<Own, AllocError>
        requires assignments_in_order { IsInOrder nat_cmp (λ a. a.assignment.slot) assignments.items }
        requires quotes_in_order { IsInOrder quote_cmp quote_key quotes.items }
        requires greatest { greatest ≡ greatest_receipt quotes.items }
        ensures { IfOk result (λ own. own ≡ record { assignments = assignments.items; quotes = quotes.items }) }
    {
        let slots = by_slot(alloc, &quotes)?;
        Ok(Own {
            alloc,
            assignments,
            slots,
            greatest,
        })
    }

    /// Puts a quote in its place, over that of its slot and month if there is one, which takes no memory. The caller
    /// owes a receipt above all others. An `Err` says that memory was refused; nothing has changed then.
    pub fn put_quote(&mut self, quote: Quote) -> Result<(), AllocError>
        requires { greatest_receipt self.old.quotes < quote.receipt }
        ensures ok { OnOk result (self.new ≡ record self.old {
          quotes = with_row quote_cmp quote_key quote self.old.quotes;
        }) }
        ensures err { OnErr result (self.new ≡ self.old) }
        ensures replaced { IsSome (row_at quote_cmp quote_key (quote.slot, quote.month) self.old.quotes) → IsOk result }
        ensures assignments { self.new.assignments ≡ self.old.assignments }
    {
        let receipt = quote.receipt();
        put_quote(self.alloc, &mut self.slots, quote)?;
        self.greatest = receipt;
        Ok(())
    }

    /// Puts an assignment in its place, over that of its slot if there is one, which takes no memory. An `Err` says
    /// that memory was refused; nothing has changed then.
    pub fn put_assignment(&mut self, assigned: Assigned) -> Result<(), AllocError>
        ensures ok { OnOk result (self.new ≡ record self.old {
          assignments = with_row nat_cmp (λ a. a.assignment.slot) assigned self.old.assignments;
        }) }
        ensures err { OnErr result (self.new ≡ self.old) }
        ensures replaced { IsSome (row_by_number (λ a. a.assignment.slot) assigned.assignment.slot
            self.old.assignments) →
            IsOk result }
        ensures quotes { self.new.quotes ≡ self.old.quotes }
    {
        put_row(&mut self.assignments, assigned)
    }

    /// Gives the assignment of the slot another last month. It takes no memory. If the collector has no such slot,
    /// nothing changes.
    pub fn end_assignment(&mut self, slot: Slot, last_month: Month)
        ensures { self.new ≡ record self.old { assignments = with_last_month slot last_month self.old.assignments } }
    {
        if let Ok(at) = place_of(&self.assignments, &slot) {
            self.assignments[at].assignment.last_month = last_month;
        }
    }

    /// All assignments with their outlets' names, by slot.
    pub fn assignments(&self) -> &[Assigned]
        ensures { result.now ≡ self.now.assignments }
    {
        &self.assignments
    }

    /// The assignment of the slot with its outlet's name, if the slot was given.
    pub fn assigned(&self, slot: Slot) -> Option<&Assigned>
        ensures { option_copied result ≡ row_by_number (λ a. a.assignment.slot) slot self.now.assignments }
    {
        find_row(&self.assignments, &slot)
    }

    /// The stored quote of the slot and the month, if there is one.
    pub fn quote(&self, slot: Slot, month: Month) -> Option<&Quote>
        ensures { option_copied result ≡ row_at quote_cmp quote_key (slot, month) self.now.quotes }
    {
        find_row(quotes_of(&self.slots, slot), &(slot, month))
    }

    /// The last price of an assignment of the collector before the month, in minor units. It is the price of the
    /// slot's latest earlier quote that has one. If no earlier quote has one, it is the price that was copied when the
    /// series was handed over.
    pub fn last_price(&self, assignment: &Assignment, month: Month) -> Option<Price>
        ensures { result ≡ last_price assignment.now month self.now.quotes }
    {
        let slot = assignment.slot;
        match observed_before(quotes_of(&self.slots, slot), slot, month) {
            Some(price) => Some(price),
            None => assignment.copied,
        }
    }

    /// Whether the collector has a quote of the slot of the month or of a later one.
    pub fn has_quotes_since(&self, slot: Slot, month: Month) -> bool
        ensures { result ≡ has_quotes_since slot month self.now.quotes }
    {
        match quotes_of(&self.slots, slot).last() {
            None => false,
            Some(quote) => month <= quote.month,
        }
    }

    /// The quotes of the months from the first to the last, both included, by month and then by slot; none if the first
    /// is after the last. An `Err` says that memory was refused.
    pub fn quotes(&self, alloc: Global, first: Month, last: Month) -> Result<Vec<Quote>, AllocError>
        ensures { IfOk result (λ found. found.items ≡ quotes_within first last self.now.quotes) }
    {
        let mut found = quotes_within(alloc, first, last, &self.slots)?;
        found.sort_by_key(|quote| quote.month)?;
        Ok(found)
    }

    /// The greatest receipt of the quotes, or 0 if there is no quote. Receipts that `submit` gives are at most
    /// `LAST_RECEIPT`.
    pub fn greatest_receipt(&self) -> u32
        ensures { result ≡ greatest_receipt self.now.quotes }
    {
        self.greatest
    }
}
