//! A row of the table of a month.
use cpi_codes::{Code, Name};
use cpi_index::{ChainedLevel, Index, NodeWeight};
use cpi_rows::Keyed;

/// A row of the table of a month: a node of the plan with its title, the sum of the weights in use at and below it,
/// its index within the year and its chained level, its changes against the month and the year before, in tenths of
/// a percent, and whether a price at or below it was imputed.
#[derive(Drop)]
pub struct Level {
    pub code: Code,
    pub title: Name,
    pub weight: NodeWeight,
    pub within: Index,
    pub chained: ChainedLevel,
    pub month_change: i64,
    pub year_change: Option<i64>,
    pub imputed: bool,
}

impl Keyed for Level {
    type Key = Code;

    ghost key = { λ l. l.code };

    fn key(&self) -> Code {
        self.code
    }
}
