//! Limits of the command line, each named once: code, clauses and definitions cite the name.

/// The most connections that one run of `cpi serve` may be asked for by `--limit`. With one connection a second, that
/// many take more than eleven days. A run has to end, so that its contract can speak of all that it served.
pub const MOST_CONNECTIONS: u32 = 1_000_000;
