//! The last price of a slot before a month.
ghost use Rattle.std.specs.Prelude.{◌≡◌, None, All, IsTrue, nat_lt};
ghost use Rattle.cpi_rows.specs.Keyed.{IsInOrder};
ghost use Rattle.cpi_survey.specs.Quote.{quote_cmp, quote_key};
ghost use Rattle.cpi_survey.specs.LastPrice.{observed_before};

use crate::quote::Quote;
use cpi_codes::{Month, Price, Slot};
use cpi_rows::place_of;

/// The price that was observed last in the slot before the month, or `None` if there is none. The caller owes quotes in
/// the order of slots and then of months. The search goes back from the place of the slot and the month, and passes
/// over months without a price.
pub fn observed_before(quotes: &[Quote], slot: Slot, month: Month) -> Option<Price>
    requires { IsInOrder quote_cmp quote_key quotes.now }
    ensures { result ≡ observed_before slot month quotes.now }
{
    let mut earlier = match place_of(quotes, &(slot, month)) {
        Ok(place) | Err(place) => &quotes[..place],
    };
    while let Some((quote, before)) = earlier.split_last() {
        if quote.slot != slot {
            return None;
        }
        if let Some(price) = quote.mark.observed_price() {
            return Some(price);
        }
        earlier = before;
    }
    None
}
