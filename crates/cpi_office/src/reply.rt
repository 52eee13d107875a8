//! Replies to requests.
use crate::refusal::Refusal;
use cpi_plan::Item;
use cpi_release::{FrozenMonth, PrintedTable};
use cpi_rows::Rows;
use cpi_survey::{Quote, WorkRow};

/// The reply to a request.
#[derive(Drop)]
pub enum Reply {
    /// The entry is stored under this receipt, 1 to 1,000,000.
    Receipt(u32),
    /// The command is carried out, or was before.
    Done,
    /// The work list of a month, by slot.
    Work(Rows<WorkRow>),
    /// Quotes by month, and then by slot.
    Quotes(Rows<Quote>),
    /// Items in the order of their codes.
    Items(Rows<Item>),
    /// The months and revisions whose tables are published, by month and revision.
    Tables(Rows<FrozenMonth>),
    /// A printed table.
    Table(PrintedTable),
    /// The request is refused, and nothing was changed.
    Refused(Refusal),
}
