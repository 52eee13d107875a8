//! The release of a month over a history or one aggregate at a time: its carried prices and its table; which months
//! were frozen and which may be next; and how a table is printed, as text and as CSV.
#![tactic(auto)]

mod before;
mod by_group;
mod cached_groups;
mod cached_samples;
mod changes;
mod compute;
mod csv_table;
mod examples;
mod failures;
mod fault;
mod faults;
mod figures;
mod form;
mod freeze_fault;
mod frozen_month;
mod group_fault;
mod groups;
mod history_groups;
mod laws;
mod level;
mod levels;
mod limits;
mod month_rows;
mod pass;
mod passing;
mod printed_table;
mod release;
mod revision;
mod text_table;
mod weights;
mod whole;

pub use cached_groups::{groups_after, month_groups};
pub use cached_samples::CachedSamples;
pub use changes::change;
pub use csv_table::table_csv;
pub use examples::{worked_histories, worked_tables};
pub use failures::Failures;
pub use fault::PrintFault;
pub use form::Form;
pub use freeze_fault::FreezeFault;
pub use frozen_month::FrozenMonth;
pub use group_fault::GroupFault;
pub use groups::Groups;
pub use history_groups::HistoryGroups;
pub use laws::index_is_as_written;
pub use level::Level;
pub use limits::{MILLIONTHS_IN_A_POINT, MOST_CHANGE};
pub use month_rows::level_in;
pub use printed_table::{PrintedTable, printed};
pub use release::{History, Release};
pub use revision::Revision;
pub use text_table::table_text;
