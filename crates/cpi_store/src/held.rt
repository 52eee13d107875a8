//! Rows of many collectors, each with its collector's number.
use crate::given::Given;
use cpi_codes::{CollectorId, Month, Slot};
use cpi_rows::Keyed;
use cpi_survey::Quote;
use std::marker::Model;

/// What a slot was given, with its collector's number.
#[derive(Clone, Copy)]
pub struct HeldGiven {
    /// The collector who has the slot.
    pub collector: CollectorId,
    /// What the slot was given.
    pub given: Given,
}

impl Model for HeldGiven {
    ghost use Rattle.std.specs.Prelude.{ℕ};
    ghost use Rattle.cpi_store.specs.declared.given.Given.{Given};

    ghost Value = { ℕ × Given };

    ghost view = { λ r. (r.collector, r.given) };

    ghost inverse = { λ y. record { collector = y.0; given = y.1 } };
}

impl Keyed for HeldGiven {
    ghost use Rattle.cpi_rows.specs.Held.{held_key};

    type Key = (CollectorId, Slot);

    ghost key = { held_key (λ g. g.assignment.slot) };

    fn key(&self) -> (CollectorId, Slot) {
        (self.collector, self.given.assignment.slot)
    }
}

/// A stored quote, with its collector's number.
#[derive(Clone, Copy)]
pub struct HeldQuote {
    /// The collector who stored the quote.
    pub collector: CollectorId,
    /// The quote.
    pub quote: Quote,
}

impl Model for HeldQuote {
    ghost use Rattle.std.specs.Prelude.{ℕ};
    ghost use Rattle.cpi_survey.specs.Quote.{QuoteRow};

    ghost Value = { ℕ × QuoteRow };

    ghost view = { λ r. (r.collector, r.quote) };

    ghost inverse = { λ y. record { collector = y.0; quote = y.1 } };
}

impl Keyed for HeldQuote {
    ghost use Rattle.cpi_rows.specs.Held.{held_key};
    ghost use Rattle.cpi_survey.specs.Quote.{quote_key};

    type Key = (CollectorId, (Slot, Month));

    ghost key = { held_key quote_key };

    fn key(&self) -> (CollectorId, (Slot, Month)) {
        (self.collector, (self.quote.slot, self.quote.month))
    }
}
