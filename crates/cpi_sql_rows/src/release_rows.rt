//! The rows of the tables of releases, as an answer's columns show them.
ghost use Rattle.std.specs.Prelude.{◌≡◌, ◌==◌};
ghost use Rattle.std.specs.List.{slice_split};
ghost use Rattle.cpi_codes.specs.CodeOf.{spelled_code};
ghost use Rattle.cpi_sql_rows.specs.Common.{IfOk, IfSome, Some, column, map};
ghost use Rattle.cpi_sql_rows.specs.Lists.{may_weigh, spelled_codes, each_of, flag_in_value};
ghost use Rattle.cpi_sql_rows.specs.Lists.{header_from, header_key, month_from, revision_from, weight_from};
ghost use Rattle.cpi_sql_rows.specs.ReleaseRows.{shown_carried, shown_frozen, shown_level};

use crate::rows::{
    code_of, number_at, read_between, read_code, read_item_code, read_mark, read_month, read_name,
    read_series, text_at,
};
use crate::stored::Stored;
use cpi_codes::{Code, GREATEST_PRICE, Moment, Month};
use cpi_index::{
    CarriedPrice, ChainedLevel, EffectiveWeight, FrozenQuote, Index, MOST_TICKS, NodeWeight,
};
use cpi_release::{Level, Revision};
use cpi_rows::{Keyed, Rows};
use sqlite::Row;
use std::alloc::{AllocError, Global};

/// A release without its frozen quotes, carried prices and levels.
#[derive(Drop)]
pub struct Header {
    pub month: Month,
    pub revision: Revision,
    /// When the month was frozen.
    pub frozen_at: Moment,
    /// When its table is published.
    pub publishes: Moment,
    /// The aggregates that may be carried unchanged.
    pub carry: Rows<Code>,
}

impl Keyed for Header {
    type Key = (Month, Revision);

    ghost key = { header_key };

    fn key(&self) -> (Month, Revision) {
        (self.month, self.revision)
    }
}

// The codes that the texts write; none if one writes no code, or if memory was refused.
fn each_code(alloc: Global, texts: &[&[u8]]) -> Option<Vec<Code>>
    ensures { IfSome result (λ codes. each_of spelled_code (map (λ t. t.now) texts.now) ≡ Some codes.items) }
{
    let mut codes = Vec::new(alloc);
    'all: for text in texts {
        codes.push(code_of(text)?).ok()?;
    }
    Some(codes)
}

// The parts of the text between its spaces.
fn between_spaces(alloc: Global, text: &[u8]) -> Result<Vec<&[u8]>, AllocError>
    ensures { IfOk result (λ texts. map (λ t. t.now) texts.items ≡ slice_split (λ b. b == 32) text.now) }
{
    text.split(|byte| *byte == b' ').collect(alloc)
}

// The codes in the text, with a space between each two; none if a part is no code, or if memory was refused.
fn codes_of(alloc: Global, text: &[u8]) -> Option<Vec<Code>>
    ensures { IfSome result (λ codes. spelled_codes text.now ≡ Some codes.items) }
{
    if text.is_empty() {
        return Some(Vec::new(alloc));
    }
    let texts = between_spaces(alloc, text).ok()?;
    each_code(alloc, &texts)
}

// The month and the revision in the first two columns.
fn read_release(row: &Row) -> Option<(Month, Revision)>
    ensures month { IfSome result (λ p. month_from (column row.now 0) ≡ Some p.0) }
    ensures revision { IfSome result (λ p. revision_from (column row.now 1) ≡ Some p.1) }
{
    let month = read_month(row, 0)?;
    let revision = Revision::new(number_at(row, 1)?)?;
    Some((month, revision))
}

impl Stored for Header {
    ghost stands_for = { λ x. header_from (column x 0) (column x 1) (column x 2) (column x 3) (column x 4) };

    fn read(alloc: Global, row: &Row) -> Option<Header> {
        let (month, revision) = read_release(row)?;
        Some(Header {
            month,
            revision,
            frozen_at: Moment::new(number_at(row, 2)?)?,
            publishes: Moment::new(number_at(row, 3)?)?,
            carry: Rows::of(codes_of(alloc, text_at(row, 4)?)?),
        })
    }
}

impl Stored for FrozenQuote {
    ghost stands_for = { shown_frozen };

    fn read(alloc: Global, row: &Row) -> Option<FrozenQuote> {
        let _release = read_release(row)?;
        Some(FrozenQuote {
            series: read_series(row, 2, 3)?,
            item: read_item_code(row, 4)?,
            last_month: read_month(row, 5)?,
            mark: read_mark(row, 6, 7)?,
        })
    }
}

// The yes or no in the column, written as 1 or 0.
fn read_flag(row: &Row, at: usize) -> Option<bool>
    ensures { IfSome result (λ b. flag_in_value (column row.now at) ≡ Some b) }
{
    match number_at(row, at)? {
        0 => Some(false),
        1 => Some(true),
        _ => None,
    }
}

impl Stored for CarriedPrice {
    ghost stands_for = { shown_carried };

    fn read(alloc: Global, row: &Row) -> Option<CarriedPrice> {
        let _release = read_release(row)?;
        let series = read_series(row, 2, 3)?;
        let item = read_item_code(row, 4)?;
        let last_month = read_month(row, 5)?;
        let ticks = read_between(row, 6, 1, MOST_TICKS)?;
        let knum = read_between(row, 7, 1, MOST_TICKS)?;
        let kden = u32::try_from(read_between(row, 8, 1, GREATEST_PRICE)?).ok()?;
        let observed = read_flag(row, 9)?;
        let imputed = read_flag(row, 10)?;
        CarriedPrice::new(
            series, item, last_month, ticks, knum, kden, observed, imputed,
        )
    }
}

/// Whether a node with this code can have the weight in use: an elementary aggregate has at most 10^9 parts.
pub fn can_weigh(code: Code, weight: NodeWeight) -> bool
    ensures { result ≡ may_weigh code weight }
{
    !code.is_elementary() || EffectiveWeight::new(code, weight.parts().into()).is_some()
}

// The weight in use in the column, if a node with this code can have it.
fn read_weight(row: &Row, at: usize, code: Code) -> Option<NodeWeight>
    ensures { IfSome result (λ w. weight_from code (column row.now at) ≡ Some w) }
{
    let weight = NodeWeight::new(number_at(row, at)?.into())?;
    if can_weigh(code, weight) {
        Some(weight)
    } else {
        None
    }
}

impl Stored for Level {
    ghost stands_for = { shown_level };

    fn read(alloc: Global, row: &Row) -> Option<Level> {
        let _release = read_release(row)?;
        let code = read_code(row, 2)?;
        Some(Level {
            code,
            title: read_name(alloc, row, 3)?,
            weight: read_weight(row, 4, code)?,
            within: Index::new(number_at(row, 5)?.into())?,
            chained: ChainedLevel::new(number_at(row, 6)?.into())?,
            month_change: row.get(7).ok()?,
            year_change: row.get(8).ok()?,
            imputed: read_flag(row, 9)?,
        })
    }
}
