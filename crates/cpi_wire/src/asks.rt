//! The request of a record.
use crate::requests::ImportRows;
use cpi_codes::Moment;
use cpi_office::{Caller, Request};

/// What a record asks.
#[derive(Drop)]
pub enum Ask {
    /// The record is none of the forms, or outside the limits.
    Bad,
    /// A request, with its moment and its caller.
    One(Moment, Caller, Request),
    /// The rows of an import, with their moment and their caller.
    Import(Moment, Caller, ImportRows),
}
