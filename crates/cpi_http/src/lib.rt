//! HTTP: one message in, carried out on an office, and its response out, to the byte.
#![tactic(auto)]

mod asked;
mod body;
mod bytes;
mod called;
mod callers;
mod fields;
mod framing;
mod head;
mod laws;
mod limits;
mod read;
mod responses;
mod route_asks;
mod routes;
mod serve;
mod statuses;

pub use bytes::Content;
pub use laws::{
    messages_are_a_run, messages_change_rows, one_message, responses_are_alike,
    responses_are_printed, tables_are_sent,
};
pub use limits::{MOST_BODY_BYTES, MOST_BYTES_WITH_HEAD, MOST_FIELDS, MOST_HEAD_BYTES};
pub use routes::{Route, Routes, examples};
pub use serve::{Ended, Served, serve_noted, serve_one};
