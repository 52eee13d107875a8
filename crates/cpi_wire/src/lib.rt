//! Records in and reply lines out, to the byte.
#![tactic(auto)]

mod answers;
mod arguments;
mod asks;
mod examples;
mod failure;
mod fault;
mod fields;
mod import;
mod input;
mod laws;
mod limits;
mod line;
mod lists;
mod only_rows;
mod plan_body;
mod plan_rows;
mod read_note;
mod reader;
mod record;
mod records;
mod refusals;
mod requests;
mod rows;
mod values;
mod words;
mod write;
mod write_note;

pub use answers::{CausedReply, ImportAnswer, answer_one, answer_rows, is_failure};
pub use asks::Ask;
pub use examples::worked_bodies;
pub use failure::Failure;
pub use fault::WireFault;
pub use fields::field_list;
pub use import::import_rows;
pub use laws::{
    lines_are_alike, lines_are_printed, records_are_a_run, records_change_rows,
    replays_answer_alike, tables_are_reported,
};
pub use limits::{MOST_CALLS, MOST_MESSAGE_CALLS, MOST_RECORDS, MOST_ROWS};
pub use line::reply_line;
pub use only_rows::only_row;
pub use read_note::ReadNote;
pub use record::{asks_of, request_of_record};
pub use records::{replay, replay_noted};
pub use requests::ImportRows;
pub use write::write_whole;
pub use write_note::WriteNote;
