//! The rows of a release: its frozen quotes, its carried prices and its table.
ghost use Rattle.std.specs.Prelude.{◌≡◌};
ghost use Rattle.sqlite_value.specs.Value.{owned};
ghost use Rattle.cpi_codes.specs.CodeOf.{spelled_code};
ghost use Rattle.cpi_codes.specs.ItemCode.{item_code_of};
ghost use Rattle.cpi_codes.specs.declared.limits.TheConstants.{GREATEST_PRICE};
ghost use Rattle.cpi_index.specs.Carried.{IsTicks};
ghost use Rattle.cpi_index.specs.declared.limits.TheConstants.{MOST_INDEX, MOST_LEVEL, MOST_TICKS};
ghost use Rattle.cpi_sql_rows.specs.Common.{bound, IfOk, Int, OnOk, pos, Some, string_bytes};
ghost use Rattle.cpi_sql_rows.specs.Lists.{carried_in_row, flag_in_value, frozen_in, level_in_row, number_within};
ghost use Rattle.cpi_sql_rows.specs.Lists.{weight_from};
ghost use Rattle.cpi_sql_rows.specs.ReleaseRows.{annual};
ghost use Rattle.cpi_sql_rows.specs.Tables.{table_of_carried_2, table_of_frozen_2, table_of_levels_2};
ghost use Rattle.cpi_sql_writes.specs.ReleaseSteps.{AreSeriesColumns, is_of_release, IsReleaseNumber};

use crate::held_row::{HeldRow, insert_text};
use crate::inside::run_inside;
use cpi_codes::{Code, Month, SeriesId};
use cpi_index::{CarriedPrice, ChainedLevel, FrozenQuote, Index, NodeWeight};
use cpi_release::Level;
use cpi_sql_rows::{
    Unread, can_weigh, code_text, collector_number, item_text, mark_text, mark_value, month_number,
    name_text, slot_number,
};
use sqlite::types::{ToSql, ValueRef};
use sqlite::{Alter, Transaction, params};
use std::alloc::Global;

/// The columns that each row of a release begins with.
#[derive(Clone, Copy)]
pub struct ReleaseNumbers {
    /// The month, as year * 100 + month.
    pub month: u32,
    /// The revision, from 1.
    pub revision: u32,
}

// A flag as its column has it: 1 or 0.
fn flag_number(flag: bool) -> u32
    ensures { flag_in_value (Int (pos result)) ≡ Some flag }
{
    if flag { 1 } else { 0 }
}

// The columns that a row of a series begins with in a release: the numbers of the release, the series, the code of its
// item and its last month.
fn series_columns<'a>(
    numbers: ReleaseNumbers,
    series: SeriesId,
    item: &'a String,
    last_month: Month,
) -> [ValueRef<'a>; 6]
    ensures { AreSeriesColumns numbers.month numbers.revision series (string_bytes item.now) last_month
        (bound result) }
{
    [
        numbers.month.to_sql(),
        numbers.revision.to_sql(),
        collector_number(series.collector).to_sql(),
        slot_number(series.slot).to_sql(),
        item.to_sql(),
        month_number(last_month).to_sql(),
    ]
}

const DROP_FROZEN: &str = "DELETE FROM frozen_2 WHERE month = ?1 AND revision = ?2";

impl HeldRow for FrozenQuote {
    type Holder = ReleaseNumbers;

    type Texts = String;

    ghost table = { table_of_frozen_2 };

    ghost entry = { frozen_in };

    ghost is_of = { λ numbers. is_of_release numbers.month numbers.revision };

    ghost goes_by = { λ numbers. IsReleaseNumber numbers.month numbers.revision };

    ghost spells = { λ quote item. item_code_of (string_bytes item) ≡ Some quote.item };

    fn drop_of<S: Alter>(
        tx: &mut Transaction<'_, S>,
        numbers: ReleaseNumbers,
    ) -> Result<(), Unread> {
        run_inside(tx, DROP_FROZEN, params![numbers.month, numbers.revision])
    }

    fn texts(&self, alloc: Global) -> Result<String, Unread> {
        item_text(alloc, self.item)
    }

    fn put_columns<'a>(
        &'a self,
        numbers: ReleaseNumbers,
        item: &'a String,
        all: &mut Vec<ValueRef<'a>>,
    ) -> Result<(), Unread> {
        let first = series_columns(numbers, self.series, item, self.last_month);
        all.extend_from_slice(&first).map_err(|_| Unread)?;
        let columns = [
            mark_text(self.mark).to_sql(),
            mark_value(self.mark).to_sql(),
        ];
        all.extend_from_slice(&columns).map_err(|_| Unread)
    }

    fn insert_text(many: bool) -> &'static str {
        insert_text!(
            many,
            "frozen_2 (month, revision, collector, slot, item, last_month, mark, value)",
            "(?, ?, ?, ?, ?, ?, ?, ?)"
        )
    }
}

// A number of ticks, as its column has it: a carried price, or the numerator of its scale.
fn ticks_value(ticks: u64) -> ValueRef<'static>
    requires { IsTicks ticks }
    ensures value { owned result ≡ Int (pos ticks) }
    ensures range { number_within 1 MOST_TICKS (Int (pos ticks)) ≡ Some ticks }
{
    ValueRef::Int(ticks as i64)
}

// The denominator of the carried price's scale, as its column has it.
fn denominator(price: &CarriedPrice) -> u32
    ensures { number_within 1 GREATEST_PRICE (Int (pos result)) ≡ Some price.now.kden }
{
    price.kden()
}

const DROP_CARRIED: &str = "DELETE FROM carried_2 WHERE month = ?1 AND revision = ?2";

impl HeldRow for CarriedPrice {
    type Holder = ReleaseNumbers;

    type Texts = String;

    ghost table = { table_of_carried_2 };

    ghost entry = { carried_in_row };

    ghost is_of = { λ numbers. is_of_release numbers.month numbers.revision };

    ghost goes_by = { λ numbers. IsReleaseNumber numbers.month numbers.revision };

    ghost spells = { λ price item. item_code_of (string_bytes item) ≡ Some price.item };

    fn drop_of<S: Alter>(
        tx: &mut Transaction<'_, S>,
        numbers: ReleaseNumbers,
    ) -> Result<(), Unread> {
        run_inside(tx, DROP_CARRIED, params![numbers.month, numbers.revision])
    }

    fn texts(&self, alloc: Global) -> Result<String, Unread> {
        item_text(alloc, self.item())
    }

    fn put_columns<'a>(
        &'a self,
        numbers: ReleaseNumbers,
        item: &'a String,
        all: &mut Vec<ValueRef<'a>>,
    ) -> Result<(), Unread> {
        let first = series_columns(numbers, self.series(), item, self.last_month());
        all.extend_from_slice(&first).map_err(|_| Unread)?;
        let columns = [
            ticks_value(self.ticks()),
            ticks_value(self.knum()),
            denominator(self).to_sql(),
            flag_number(self.was_observed()).to_sql(),
            flag_number(self.was_imputed()).to_sql(),
        ];
        all.extend_from_slice(&columns).map_err(|_| Unread)
    }

    fn insert_text(many: bool) -> &'static str {
        insert_text!(
            many,
            "carried_2 (month, revision, collector, slot, item, last_month, ticks, knum, kden, observed, imputed)",
            "(?, ?, ?, ?, ?, ?, ?, ?, ?, ?, ?)"
        )
    }
}

// An index in millionths of a point, as its column has it.
fn index_value(index: Index) -> ValueRef<'static>
    ensures value { owned result ≡ Int (pos index) }
    ensures range { number_within 1 MOST_INDEX (Int (pos index)) ≡ Some index }
{
    ValueRef::Int(index.millionths() as i64)
}

// A chained level in millionths of a point, as its column has it.
fn chained_value(level: ChainedLevel) -> ValueRef<'static>
    ensures value { owned result ≡ Int (pos level) }
    ensures range { number_within 1 MOST_LEVEL (Int (pos level)) ≡ Some level }
{
    ValueRef::Int(level.millionths() as i64)
}

// The weight in use of a node, as its column has it. It is an error if a node with this code can't have the weight.
fn weight_value(code: Code, weight: NodeWeight) -> Result<ValueRef<'static>, Unread>
    ensures value { IfOk result (λ v. owned v ≡ Int (pos weight)) }
    ensures range { OnOk result (weight_from code (Int (pos weight)) ≡ Some weight) }
{
    if can_weigh(code, weight) {
        Ok(ValueRef::Int(weight.parts() as i64))
    } else {
        Err(Unread)
    }
}

// The change on the month before, as its column has it.
fn month_change(level: &Level) -> ValueRef<'static>
    ensures { owned result ≡ Int level.now.month_change }
{
    ValueRef::Int(level.month_change)
}

// The change on the month twelve months before, as its column has it; NULL if the level has none.
fn year_change(level: &Level) -> ValueRef<'static>
    ensures { owned result ≡ annual level.now.year_change }
{
    match level.year_change {
        Some(change) => ValueRef::Int(change),
        None => ValueRef::Null,
    }
}

const DROP_LEVEL: &str = "DELETE FROM level_2 WHERE month = ?1 AND revision = ?2";

impl HeldRow for Level {
    type Holder = ReleaseNumbers;

    type Texts = String;

    ghost table = { table_of_levels_2 };

    ghost entry = { level_in_row };

    ghost is_of = { λ numbers. is_of_release numbers.month numbers.revision };

    ghost goes_by = { λ numbers. IsReleaseNumber numbers.month numbers.revision };

    ghost spells = { λ level code. spelled_code (string_bytes code) ≡ Some level.code };

    fn drop_of<S: Alter>(
        tx: &mut Transaction<'_, S>,
        numbers: ReleaseNumbers,
    ) -> Result<(), Unread> {
        run_inside(tx, DROP_LEVEL, params![numbers.month, numbers.revision])
    }

    fn texts(&self, alloc: Global) -> Result<String, Unread> {
        code_text(alloc, self.code)
    }

    fn put_columns<'a>(
        &'a self,
        numbers: ReleaseNumbers,
        code: &'a String,
        all: &mut Vec<ValueRef<'a>>,
    ) -> Result<(), Unread> {
        let weight = weight_value(self.code, self.weight)?;
        let columns = [
            numbers.month.to_sql(),
            numbers.revision.to_sql(),
            code.to_sql(),
            name_text(&self.title).to_sql(),
            weight,
            index_value(self.within),
            chained_value(self.chained),
            month_change(self),
            year_change(self),
            flag_number(self.imputed).to_sql(),
        ];
        all.extend_from_slice(&columns).map_err(|_| Unread)
    }

    fn insert_text(many: bool) -> &'static str {
        insert_text!(
            many,
            "level_2 (month, revision, code, title, weight, within, chained, month_change, year_change, imputed)",
            "(?, ?, ?, ?, ?, ?, ?, ?, ?, ?)"
        )
    }
}
