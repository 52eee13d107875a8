//! The statements that put rows, a plan, a release and a handover into the tables of an office.
#![tactic(auto)]

mod given_columns;
mod handovers;
mod held_row;
mod inside;
mod one_change;
mod plan_rows;
mod plans;
mod put_header;
mod release_rows;
mod releases;
mod writes;

pub use handovers::put_handover;
pub use plans::put_plan;
pub use releases::put_release;
pub use writes::{put_assignment, put_calendar, put_collector, put_item, put_outlet, put_quote};
