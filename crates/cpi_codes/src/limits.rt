//! Limits of numbers, each named once: code, clauses, definitions and proofs cite the name.

/// The last moment: 9,999,999,999 seconds since 1970 UTC, which is in November 2286. A moment has at most ten digits.
pub const LAST_MOMENT: u64 = 9_999_999_999;

/// The greatest price, in minor units: one million of a money of hundredths.
pub const GREATEST_PRICE: u64 = 100_000_000;

/// The greatest number of a collector. It has at most four digits.
pub const GREATEST_COLLECTOR: u64 = 9_999;

/// The greatest slot of a collector, so the most assignments that one may have.
pub const GREATEST_SLOT: u64 = 400;

/// The greatest number of an outlet. It has at most six digits.
pub const GREATEST_OUTLET: u64 = 999_999;

/// The most series of an office: 9,999 collectors of 400 slots each.
pub const MOST_SERIES: usize = 3_999_600;

/// The most bytes of a name, title, unit or text.
pub const LONGEST_NAME: usize = 400;
