//! Limits of prices in ticks, of indices, of levels and of weights, each named once: code, clauses, definitions and
//! proofs cite the name.

/// The greatest price in ticks of 1/10,000 of a minor unit, and the greatest numerator of a scale: 10^15. The greatest
/// price is 10^12 ticks at 10,000 ticks a minor unit, so a series may rise to a thousand times that.
pub const MOST_TICKS: u64 = 1_000_000_000_000_000;

/// The greatest sum of prices in ticks: the most series, 3,999,600, each at the greatest price in ticks.
pub const MOST_SUM_OF_TICKS: u128 = 3_999_600_000_000_000_000_000;

/// 100 points, in millionths of a point: the index of the link month.
pub const HUNDRED_POINTS: u64 = 100_000_000;

/// The greatest index within the year, in millionths of a point: 100,000 times the index of the link month.
pub const MOST_INDEX: u128 = 10_000_000_000_000;

/// The greatest chained level, in millionths of a point: ten million times 100 points.
pub const MOST_LEVEL: u128 = 1_000_000_000_000_000;

/// The greatest weight in use of an elementary aggregate: a thousand times all parts of a plan's weights, since prices
/// may move one weight that far.
pub const MOST_WEIGHT_IN_USE: u128 = 1_000_000_000;

/// The greatest sum of weights in use at and below a node: 1,000,000 aggregates, each with the greatest weight in use.
pub const MOST_NODE_WEIGHT: u128 = 1_000_000_000_000_000;

/// The greatest product of a weight in use and an index.
pub const MOST_WEIGHTED_INDEX: u128 = 10_000_000_000_000_000_000_000;

/// The greatest sum of products of a weight in use and an index: 1,000,000 aggregates, each with the greatest product.
pub const MOST_WEIGHTED_SUM: u128 = 10_000_000_000_000_000_000_000_000_000;
