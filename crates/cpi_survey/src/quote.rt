//! Stored quotes.
ghost use Rattle.std.specs.Prelude.{◌≡◌};

use crate::mark::Mark;
use cpi_codes::{Month, Slot};
use cpi_rows::Keyed;
use std::marker::Model;

/// A stored quote: the mark of a slot in a month, with the receipt that was given for it.
#[derive(Clone, Copy, PartialEq, Eq)]
pub struct Quote {
    /// The slot that was priced.
    pub slot: Slot,
    /// The month for which it was priced.
    pub month: Month,
    /// The price that the collector found, or the reason that there is none.
    pub mark: Mark,
    /// The number of the entry among all that were stored for the collector, 1 to `LAST_RECEIPT`.
    pub receipt: u32,
}

impl Model for Quote {
    ghost use Rattle.cpi_survey.specs.Quote.{QuoteRow};

    ghost Value = { QuoteRow };

    ghost view = { λ q. record { slot = q.slot; month = q.month; mark = q.mark; receipt = q.receipt } };

    ghost inverse = { λ q. record { slot = q.slot; month = q.month; mark = q.mark; receipt = q.receipt } };
}

impl Quote {
    /// The receipt, 1 to `LAST_RECEIPT`.
    pub fn receipt(&self) -> u32
        ensures { result ≡ self.now.receipt }
    {
        self.receipt
    }
}

impl Keyed for Quote {
    type Key = (Slot, Month);

    ghost key = { λ q. (q.slot, q.month) };

    fn key(&self) -> (Slot, Month) {
        (self.slot, self.month)
    }
}
