//! The last months of series.
ghost use Rattle.std.specs.Prelude.{◌≡◌, max, OnOk, if◌then◌else◌};
ghost use Rattle.cpi_codes.specs.declared.series.SeriesId.{SeriesId};
ghost use Rattle.cpi_store.specs.Series.{last_known, or_first, same_series};

use cpi_codes::{CollectorId, Month, SeriesId, Slot};
use std::alloc::{AllocError, Global};
use std::collections::BTreeMap;

/// The last month of each series: the greatest among those of its assignments that were put here.
#[derive(Drop)]
pub struct SeriesEnds {
    ends: BTreeMap<(CollectorId, Slot), Month>,
}

impl SeriesEnds {
    /// No series yet.
    pub fn new(alloc: Global) -> SeriesEnds
        ensures { (s : SeriesId) → last_known result s ≡ 0 }
    {
        SeriesEnds {
            ends: BTreeMap::new(alloc),
        }
    }

    /// Puts one more assignment's last month. The error says that memory was refused.
    pub fn put(&mut self, series: SeriesId, last_month: Month) -> Result<(), AllocError>
        ensures ok { OnOk result ((s : SeriesId) → last_known self.new s ≡
            (if same_series series s then max last_month (last_known self.old s) else last_known self.old s)) }
    {
        let key = (series.collector, series.slot);
        let latest = later_of(self.ends.get(&key).copied(), last_month);
        self.ends.insert(key, latest)?;
        Ok(())
    }

    /// The later one of this month and the last month that is known of the series.
    pub fn latest(&self, series: SeriesId, last_month: Month) -> Month
        ensures { result ≡ max last_month (last_known self.now series) }
    {
        let key = (series.collector, series.slot);
        later_of(self.ends.get(&key).copied(), last_month)
    }
}

// The later of this last month and the known one, if there is one.
fn later_of(known: Option<Month>, last_month: Month) -> Month
    ensures { result ≡ max last_month (or_first known) }
{
    match known {
        Some(known) if last_month < known => known,
        _ => last_month,
    }
}
