//! Releases and their history.
ghost use Rattle.std.specs.Prelude.{◌≡◌};
ghost use Rattle.cpi_release.specs.FrozenMonths.{frozen_month};

use crate::frozen_month::FrozenMonth;
use crate::level::Level;
use crate::revision::Revision;
use cpi_codes::{Code, Moment, Month};
use cpi_index::{CarriedPrice, FrozenQuote};
use cpi_plan::YearPlan;
use cpi_rows::{Keyed, Rows};

/// The release of a month in one of its revisions: what was frozen, and what the index made of it.
#[derive(Drop)]
pub struct Release {
    pub month: Month,
    /// 1 when the month is frozen first.
    pub revision: Revision,
    /// When the month was frozen.
    pub frozen_at: Moment,
    /// When its table is published.
    pub publishes: Moment,
    /// The quotes of the month as they stood at the freeze, by series.
    pub frozen: Rows<FrozenQuote>,
    /// The aggregates that may be carried unchanged.
    pub carry: Rows<Code>,
    /// The carried prices, by series.
    pub carried: Rows<CarriedPrice>,
    /// The table, by code.
    pub levels: Rows<Level>,
}

/// The plans by year, and the releases by month and revision.
#[derive(Drop)]
pub struct History {
    pub plans: Rows<YearPlan>,
    pub releases: Rows<Release>,
}

impl Keyed for Release {
    type Key = (Month, Revision);

    ghost key = { λ r. (r.month, r.revision) };

    fn key(&self) -> (Month, Revision) {
        (self.month, self.revision)
    }
}

impl Release {
    /// The release's month and revision, and when its table is published.
    pub fn frozen_month(&self) -> FrozenMonth
        ensures { result ≡ frozen_month self.now }
    {
        FrozenMonth {
            month: self.month,
            revision: self.revision,
            publishes: self.publishes,
        }
    }
}
