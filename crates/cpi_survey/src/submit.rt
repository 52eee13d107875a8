//! Decisions on entries of quotes.
ghost use Rattle.std.specs.Prelude.{◌≡◌};
ghost use Rattle.std.specs.Option.{option_copied};
ghost use Rattle.cpi_survey.specs.Quote.{greatest_receipt};
ghost use Rattle.std.specs.Prelude.{ℕ};
ghost use Rattle.cpi_survey.specs.Entry.{EntryRow};
ghost use Rattle.cpi_survey.specs.Own.{OwnPart, quote_of};
ghost use Rattle.cpi_survey.specs.Public.{PublicPart, calendar_of};
ghost use Rattle.cpi_survey.specs.Decision.{against_last, check_of, price_check, entry_decision, decision_in_order};
ghost use Rattle.cpi_survey.specs.Decision.{in_window, over_quote};
ghost use Rattle.cpi_survey.specs.Decision.{with_receipt};

use crate::assignment::Assignment;
use crate::decision::Decision;
use crate::entry::Entry;
use crate::limits::LAST_RECEIPT;
use crate::mark::Mark;
use crate::own::Own;
use crate::public::Public;
use crate::quote::Quote;
use crate::refusal::Refusal;
use crate::tolerance::{Verdict, check};
use cpi_codes::{Moment, Price};
use cpi_plan::{CalendarRow, Item};

impl Own {
    /// Decides an entry at a moment, by nothing but the public part and the collector's own part. It changes nothing
    /// and takes no memory.
    ///
    /// An entry of a slot that the collector doesn't have is refused. An entry with the mark of the stored quote of
    /// its slot and month gets the stored receipt, at any moment. Any other entry is refused for the first of these
    /// reasons: the calendar has no row of the month; the month is outside the assignment; the window isn't open yet;
    /// it has closed; a replacement has no last price; a price, or that of a comparable replacement, isn't confirmed
    /// and lies outside the bounds round the last price; all receipts are used up. If no reason holds, the entry is
    /// to be stored with the next receipt.
    pub fn submit(&self, public: &Public, now: Moment, entry: Entry) -> Result<Decision, Refusal>
        ensures { result ≡ entry_decision now entry public.now self.now }
    {
        match self.assigned(entry.slot) {
            None => Err(Refusal::UnknownSlot),
            Some(assigned) => self.over_quote(public, now, entry, &assigned.assignment),
        }
    }

    // Decides an entry of a known slot: one with the mark of the stored quote gets its receipt.
    fn over_quote(
        &self,
        public: &Public,
        now: Moment,
        entry: Entry,
        assignment: &Assignment,
    ) -> Result<Decision, Refusal>
        ensures { result ≡ over_quote now entry (calendar_of entry.month public.now) assignment.now
            (quote_of entry.slot entry.month self.now)
            (check_of entry public.now self.now assignment.now) (greatest_receipt self.now.quotes) }
    {
        let slot = entry.slot;
        let month = entry.month;
        match self.quote(slot, month) {
            Some(quote) if quote.mark.is_same(entry.mark) => Ok(Decision::Again(quote.receipt)),
            _ => match public.calendar_row(month) {
                None => Err(Refusal::UnknownMonth),
                Some(row) => self.in_window(public, now, entry, row, assignment),
            },
        }
    }

    // Decides an entry of a month with a calendar row. It checks the months of the assignment, the window, the price
    // and the receipts, in this order.
    fn in_window(
        &self,
        public: &Public,
        now: Moment,
        entry: Entry,
        row: &CalendarRow,
        assignment: &Assignment,
    ) -> Result<Decision, Refusal>
        ensures { result ≡ in_window now entry row.now assignment.now
            (check_of entry public.now self.now assignment.now) (greatest_receipt self.now.quotes) }
    {
        if !assignment.is_active(entry.month) {
            Err(Refusal::NotActive)
        } else if now < row.opens() {
            Err(Refusal::NotOpen)
        } else if row.closes() <= now {
            Err(Refusal::Closed)
        } else {
            self.check_price(public, entry, assignment)?;
            with_receipt(entry, self.greatest_receipt())
        }
    }

    // Checks the price of an entry against the last price of its assignment, which is searched for only if there is a
    // price.
    fn check_price(
        &self,
        public: &Public,
        entry: Entry,
        assignment: &Assignment,
    ) -> Result<(), Refusal>
        ensures { result ≡ check_of entry public.now self.now assignment.now }
    {
        match entry.mark {
            Mark::Missing(_) => Ok(()),
            _ => checked(
                entry,
                public.item(assignment.item),
                self.last_price(assignment, entry.month),
            ),
        }
    }
}

// Checks the price of an entry: a replacement needs a last price, and a price that isn't confirmed is checked
// against the last one.
fn checked(entry: Entry, item: Option<&Item>, last: Option<Price>) -> Result<(), Refusal>
    ensures { result ≡ price_check entry (option_copied item.entry) last }
{
    match last {
        None if entry.mark.is_replacement() => Err(Refusal::NoLastPrice),
        None => Ok(()),
        Some(_) if entry.confirm => Ok(()),
        Some(last) => against_last(item, last, entry.mark.checked_price()),
    }
}

// Checks a price, if there is one to be checked, against the bounds that the item sets round the last price.
fn against_last(item: Option<&Item>, last: Price, price: Option<Price>) -> Result<(), Refusal>
    ensures { result ≡ against_last (option_copied item.entry) last price }
{
    let (Some(item), Some(price)) = (item, price) else {
        return Ok(());
    };
    match check(item, last, price) {
        Verdict::Inside => Ok(()),
        Verdict::Outside { low, high } => Err(Refusal::OutOfTolerance { last, low, high }),
    }
}

// The quote of an entry with the next receipt; a refusal if there is none left.
fn with_receipt(entry: Entry, greatest: u32) -> Result<Decision, Refusal>
    ensures { result ≡ with_receipt entry greatest }
{
    if LAST_RECEIPT <= greatest {
        return Err(Refusal::ReceiptsUsedUp);
    }
    Ok(Decision::Put(Quote {
        slot: entry.slot,
        month: entry.month,
        mark: entry.mark,
        receipt: greatest + 1,
    }))
}

/// A law: an entry is decided by the lines of one list, in their order.
#[tactic(auto, using(crate::proofs::InOrder::decided_in_order))]
pub fn entries_are_decided_in_order()
    ensures { (now : ℕ) (entry : EntryRow) (public : PublicPart) (own : OwnPart) →
        entry_decision now entry public own ≡ decision_in_order now entry public own }
{}
