//! What a slot was given, as the columns of its row.
ghost use Rattle.std.specs.Prelude.{◌≡◌};
ghost use Rattle.cpi_sql_rows.specs.Common.{bound, IfOk, Some};
ghost use Rattle.cpi_sql_rows.specs.Lists.{price_or_none};
ghost use Rattle.cpi_sql_writes.specs.GivenColumns.{columns_of, copied_column, given_of};

use cpi_codes::{CollectorId, Price, SeriesId};
use cpi_sql_rows::{Unread, collector_number, item_text, month_number, outlet_number, slot_number};
use cpi_survey::Assignment;
use sqlite::types::{ToSql, ValueRef};
use std::alloc::Global;

/// The columns of a row of what a slot was given, but for its rowid.
#[derive(Drop)]
pub struct GivenColumns {
    /// The collector's number.
    pub collector: u32,
    /// The slot's number.
    pub slot: u32,
    /// The outlet's number.
    pub outlet: u32,
    /// The item's code.
    pub item: String,
    /// As year * 100 + month.
    pub first_month: u32,
    /// As year * 100 + month.
    pub last_month: u32,
    /// The number of the collector that the series is named by.
    pub series_collector: u32,
    /// The slot that the series is named by.
    pub series_slot: u32,
    /// In minor units; NULL if no price was copied.
    pub copied: Option<u32>,
}

impl GivenColumns {
    /// The columns as the parameters of a statement, in the order of the table.
    pub fn parameters(&self) -> [ValueRef<'_>; 9]
        ensures { bound result ≡ columns_of self.now }
    {
        [
            self.collector.to_sql(),
            self.slot.to_sql(),
            self.outlet.to_sql(),
            self.item.to_sql(),
            self.first_month.to_sql(),
            self.last_month.to_sql(),
            self.series_collector.to_sql(),
            self.series_slot.to_sql(),
            self.copied.to_sql(),
        ]
    }
}

// The copied price in minor units, if there is one.
fn copied_units(copied: Option<Price>) -> Option<u32>
    ensures { price_or_none (copied_column result) ≡ Some copied }
{
    match copied {
        Some(price) => Some(price.units()),
        None => None,
    }
}

/// The columns of the row of a collector's slot: its assignment and its series. It is an error if memory is refused.
pub fn given_columns(
    alloc: Global,
    collector: CollectorId,
    assignment: &Assignment,
    series: SeriesId,
) -> Result<GivenColumns, Unread>
    ensures { IfOk result (λ c.
        given_of c ≡ Some (collector, record { assignment = assignment.now; series = series })) }
{
    let item = item_text(alloc, assignment.item)?;
    Ok(GivenColumns {
        collector: collector_number(collector),
        slot: slot_number(assignment.slot),
        outlet: outlet_number(assignment.outlet),
        item,
        first_month: month_number(assignment.first_month),
        last_month: month_number(assignment.last_month),
        series_collector: collector_number(series.collector),
        series_slot: slot_number(series.slot),
        copied: copied_units(assignment.copied),
    })
}
