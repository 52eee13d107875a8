//! The reference month of a plan, as it is stored.
use cpi_codes::Month;
use cpi_rows::Keyed;

/// The reference month of a year's plan.
#[derive(Clone, Copy)]
pub struct ReferenceMonth {
    pub month: Month,
}

impl Keyed for ReferenceMonth {
    type Key = Month;

    ghost key = { λ r. r.month };

    fn key(&self) -> Month {
        self.month
    }
}
