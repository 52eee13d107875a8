//! The quotes from a first month to a last.
ghost use Rattle.std.specs.Prelude.{◌≡◌, ◌++◌, filter, IfOk, OnOk};
ghost use Rattle.cpi_survey.specs.Slots.{quotes_of_slots};
ghost use Rattle.cpi_survey.specs.Within.{is_within};

use crate::quote::Quote;
use crate::slot_quotes::SlotQuotes;
use cpi_codes::Month;
use std::alloc::{AllocError, Global};

/// The quotes of the months from the first to the last, by slot and then by month. An `Err` says that memory was
/// refused.
pub fn quotes_within(
    alloc: Global,
    first: Month,
    last: Month,
    slots: &[SlotQuotes],
) -> Result<Vec<Quote>, AllocError>
    ensures { IfOk result (λ found. found.items ≡ filter (is_within first last) (quotes_of_slots slots.now)) }
{
    let mut found = Vec::new(alloc);
    for group in slots {
        push_within(&mut found, first, last, &group.quotes)?;
    }
    Ok(found)
}

// Adds the quotes of the months after those already found, in the order of the slice. An `Err` says that memory was
// refused; some of the quotes may have been added then.
fn push_within(
    found: &mut Vec<Quote>,
    first: Month,
    last: Month,
    quotes: &[Quote],
) -> Result<(), AllocError>
    ensures { OnOk result (found.new.items ≡ found.old.items ++ filter (is_within first last) quotes.now) }
{
    for quote in quotes {
        if first <= quote.month && quote.month <= last {
            found.push(*quote)?;
        }
    }
    Ok(())
}
