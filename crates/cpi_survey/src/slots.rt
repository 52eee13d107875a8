//! Quotes slot by slot.
ghost use Rattle.std.specs.Prelude.{◌≡◌, IfOk, OnOk, OnErr, IsSome, IsOk, Ok, filter};
ghost use Rattle.std.specs.Ordering.{nat_cmp};
ghost use Rattle.cpi_rows.specs.Keyed.{IsInOrder, IsPlace, row_by_number, with_row, row_at};
ghost use Rattle.cpi_survey.specs.Quote.{quote_cmp, quote_key};
ghost use Rattle.cpi_survey.specs.Slots.{AreBySlot, quotes_of_slots, is_in_slot};

use crate::quote::Quote;
use crate::slot_quotes::SlotQuotes;
use cpi_codes::Slot;
use cpi_rows::{find_row, place_of, put_row};
use std::alloc::{AllocError, Global};

/// The quotes, grouped by slot. The caller owes one quote a slot and month, in the order of slots and then of months.
/// An `Err` says that memory was refused.
pub fn by_slot(alloc: Global, quotes: &[Quote]) -> Result<Vec<SlotQuotes>, AllocError>
    requires { IsInOrder quote_cmp quote_key quotes.now }
    ensures slots { IfOk result (λ slots. AreBySlot slots.items) }
    ensures quotes { IfOk result (λ slots. quotes_of_slots slots.items ≡ quotes.now) }
{
    let mut slots = Vec::new(alloc);
    for quote in quotes {
        put_quote(alloc, &mut slots, *quote)?;
    }
    Ok(slots)
}

/// The quotes of a slot, by month; an empty slice if there are none.
pub fn quotes_of(slots: &[SlotQuotes], slot: Slot) -> &[Quote]
    requires { AreBySlot slots.now }
    ensures quotes { result.now ≡ filter (is_in_slot slot) (quotes_of_slots slots.now) }
    ensures order { IsInOrder quote_cmp quote_key result.now }
{
    match find_row(slots, &slot) {
        Some(found) => &found.quotes,
        None => &[],
    }
}

/// Puts a quote in its place among those of its slot, over the one of its month if there is one, which takes no memory.
/// An `Err` says that memory was refused; no quote has changed then.
pub fn put_quote(alloc: Global, slots: &mut Vec<SlotQuotes>, quote: Quote) -> Result<(), AllocError>
    requires { AreBySlot slots.old.items }
    ensures ok { OnOk result (quotes_of_slots slots.new.items ≡ with_row quote_cmp quote_key quote
        (quotes_of_slots slots.old.items)) }
    ensures err { OnErr result (quotes_of_slots slots.new.items ≡ quotes_of_slots slots.old.items) }
    ensures slots { AreBySlot slots.new.items }
    ensures replaced { IsSome (row_at quote_cmp quote_key (quote.slot, quote.month) (quotes_of_slots slots.old.items)) →
        IsOk result }
{
    let at = place_for(alloc, slots, quote.slot)?;
    put_row(&mut slots[at].quotes, quote)
}

// The place of a slot. A slot that isn't there yet is put in its place, with no quotes. An `Err` says that memory was
// refused.
fn place_for(alloc: Global, slots: &mut Vec<SlotQuotes>, slot: Slot) -> Result<usize, AllocError>
    requires { AreBySlot slots.old.items }
    ensures place { IfOk result (λ at. IsPlace nat_cmp (λ s. s.slot) slot slots.new.items (Ok at)) }
    ensures quotes { quotes_of_slots slots.new.items ≡ quotes_of_slots slots.old.items }
    ensures slots { AreBySlot slots.new.items }
    ensures known { IsSome (row_by_number (λ s. s.slot) slot slots.old.items) → IsOk result }
{
    match place_of(slots, &slot) {
        Ok(at) => Ok(at),
        Err(at) => {
            let quotes = Vec::new(alloc);
            slots.insert(at, SlotQuotes { slot, quotes })?;
            Ok(at)
        }
    }
}
