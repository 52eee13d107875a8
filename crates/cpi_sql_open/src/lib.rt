//! The open of a database: the tables of an office made, tested, or migrated from schema 1.
#![tactic(auto)]

mod inspect;
mod left;
mod make;
mod migrate;
mod open;
mod perform;
mod same;
mod version;

pub use left::what_is_left_is_found;
pub use open::open_office;
