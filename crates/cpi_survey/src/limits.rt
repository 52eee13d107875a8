//! The limit of receipts, named once: code, definitions and proofs cite the name.

/// The last receipt of a collector. A collector's new quotes are numbered from 1; the limit bounds each number, so that
/// it fits its type and at most seven digits, and leaves more receipts than a collector can use up in years.
pub const LAST_RECEIPT: u32 = 1_000_000;
