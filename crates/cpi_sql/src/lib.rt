//! The office in a database: a book over the tables of schema 2.
#![tactic(auto)]

mod examples;
mod sql_book;

pub use cpi_store::OpenFault;
pub use examples::worked_rows;
pub use sql_book::{SqlBook, Unopened};
