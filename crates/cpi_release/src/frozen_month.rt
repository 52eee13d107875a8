//! A frozen month without its table.
use crate::revision::Revision;
use cpi_codes::{Moment, Month};

/// A frozen month in one of its revisions, and the moment at which the table of that revision is published.
#[derive(Clone, Copy, PartialEq, Eq)]
pub struct FrozenMonth {
    pub month: Month,
    pub revision: Revision,
    pub publishes: Moment,
}
