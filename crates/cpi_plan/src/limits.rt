//! Limits of plans and of tolerances, each named once: code, clauses, definitions and proofs cite the name.

/// All parts of a plan's weights. A weight is in parts per million, so the weights of a year add up to 1,000,000.
pub const ALL_PARTS: u64 = 1_000_000;

/// The last price itself, in per mille of the last price: the greatest lower tolerance and the least upper one.
pub const PER_MILLE: u64 = 1000;

/// The greatest upper tolerance, in per mille of the last price: a price of ten times the last one. A greater one would
/// let a price with one digit too many pass without a question.
pub const GREATEST_TOLERANCE: u64 = 10_000;
