//! The forms of a printed table.

/// How a table is printed.
#[derive(Clone, Copy, PartialEq, Eq)]
pub enum Form {
    /// In columns.
    Text,
    /// As CSV.
    Csv,
}
