//! Callers of the office.
use cpi_codes::Key;

/// The caller who makes a request.
#[derive(Clone, Copy, PartialEq, Eq)]
pub enum Caller {
    /// Anybody.
    Public,
    /// A caller who sends this key: the collector whose key it is, or nobody.
    Collector(Key),
    /// The office's own desk.
    Desk,
}
