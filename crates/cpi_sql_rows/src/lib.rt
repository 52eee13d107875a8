//! The tables of an office: what their rows stand for, how rows are written and read, and what each SQL text asks for.
#![tactic(auto)]

mod ask;
mod columns;
mod held_rows;
mod plan_rows;
mod reference_months;
mod release_rows;
mod rowids;
mod rows;
mod stored;
mod table;
mod tables;

pub use ask::{run, settle};
pub use columns::{
    code_text, collector_number, high_number, item_text, key_text, low_number, mark_text,
    mark_value, moment_value, month_number, name_text, outlet_number, receipt_number, slot_number,
};
pub use held_rows::all_quotes;
pub use plan_rows::scan_plans;
pub use reference_months::ReferenceMonth;
pub use release_rows::{Header, can_weigh};
pub use rowids::scan;
pub use stored::{Stored, Unread, by_key, list};
pub use table::{Table, read_all};
