//! Decisions on entries.
use crate::quote::Quote;

/// The decision on an entry of a quote that isn't refused.
#[derive(Clone, Copy, PartialEq, Eq)]
pub enum Decision {
    /// The collector sent the same mark before, and this is the receipt of the stored quote. Nothing is to be stored.
    Again(u32),
    /// The quote to store, in place of the one of its slot and month. Its receipt is one more than the collector's
    /// greatest.
    Put(Quote),
}
