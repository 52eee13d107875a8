//! Lists in the order of their series.
ghost use Rattle.std.specs.Prelude.{◌≡◌, ℕ, ◌≤◌, ◌<◌, map, length, true};
ghost use Rattle.cpi_codes.specs.declared.series.SeriesId.{SeriesId};
ghost use Rattle.cpi_index.specs.Series.{serial, rises_from, element_at, are_by_series, carried_serial};
ghost use Rattle.cpi_index.specs.Series.{frozen_serial, row_serial, IsOneSeries};
ghost use Rattle.cpi_codes.specs.declared.limits.TheConstants.{MOST_SERIES};

use crate::carried::CarriedPrice;
use crate::frozen::FrozenQuote;
use crate::row::GroupRow;
use cpi_codes::{GREATEST_SLOT, SeriesId};

// The slots of a collector.
const SLOTS: u32 = GREATEST_SLOT as u32;

// The number of a series among all that there can be, by collector and then by slot.
fn serial_of(series: SeriesId) -> u32
    ensures value { result ≡ serial series }
    ensures limit { result < MOST_SERIES }
{
    SLOTS * u32::from(series.collector.number() - 1) + u32::from(series.slot.number() - 1)
}

// An element of a list by series.
pub(crate) trait InSeries {
    ghost serial_in: { Self → ℕ };

    // The number of the series.
    fn serial(&self) -> u32
        ensures value { result ≡ serial_in self.now }
        ensures limit { result < MOST_SERIES };
}

impl InSeries for CarriedPrice {
    ghost serial_in = { carried_serial };

    fn serial(&self) -> u32 {
        serial_of(self.series())
    }
}

impl InSeries for FrozenQuote {
    ghost serial_in = { frozen_serial };

    fn serial(&self) -> u32 {
        serial_of(self.series)
    }
}

impl InSeries for GroupRow {
    ghost serial_in = { row_serial };

    fn serial(&self) -> u32 {
        serial_of(self.link.series())
    }
}

// Whether the list is in the order of its series, with no series twice.
pub(crate) fn is_by_series<T: InSeries>(list: &[T]) -> bool
    ensures value { result ≡ are_by_series T.serial_in list.now }
    ensures few { result ≡ true → length list.now ≤ MOST_SERIES }
{
    let mut least = 0;
    for row in list {
        let serial = row.serial();
        if serial < least {
            return false;
        }
        least = serial + 1;
    }
    true
}

// The rest of the list after the series below this one.
pub(crate) fn skip_below<'a, T: InSeries>(list: &'a [T], serial: u32) -> &'a [T]
    requires { are_by_series T.serial_in list.now ≡ true }
    ensures found { (n : ℕ) → serial ≤ n → element_at T.serial_in n result.now ≡ element_at T.serial_in n list.now }
    ensures rises { rises_from serial (map T.serial_in result.now) ≡ true }
{
    let mut rest = list;
    while let [first, tail @ ..] = rest {
        if serial <= first.serial() {
            break;
        }
        rest = tail;
    }
    rest
}

// The element of a series, in a list that begins with none below it.
pub(crate) fn first_at<T: InSeries + Copy>(list: &[T], serial: u32) -> Option<T>
    requires { rises_from serial (map T.serial_in list.now) ≡ true }
    ensures { result ≡ element_at T.serial_in serial list.now }
{
    match list {
        [first, ..] => {
            if first.serial() == serial {
                Some(*first)
            } else {
                None
            }
        }
        [] => None,
    }
}

/// A law: series with one number are one series.
pub fn one_number_one_series()
    ensures { (s t : SeriesId) → IsOneSeries s t }
{}
