//! Limits of the wire, each named once: code, clauses, definitions and proofs cite the name.

/// The most rows of an import, and of the body of a plan.
pub const MOST_ROWS: u32 = 20_000;

/// The most records of one replay.
pub const MOST_RECORDS: u32 = 1_000_000;

/// The most calls of `read` that one replay makes, so that it ends on every reader.
pub const MOST_CALLS: u32 = 20_000_000;

/// The most calls of `read` for one message, so that a slow or endless stream is given up.
pub const MOST_MESSAGE_CALLS: u32 = 80_000;
