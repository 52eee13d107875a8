//! Limits and units of the printed table, each named once: code, clauses, definitions and proofs cite the name.

/// The greatest change between two levels, in tenths of a percent of the former: from a millionth of a point to 10^15
/// of them.
pub const MOST_CHANGE: u64 = 1_000_000_000_000_000_000;

/// The millionths in a point.
pub const MILLIONTHS_IN_A_POINT: u64 = 1_000_000;
