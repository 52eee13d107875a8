//! The place of a row that is put: free or taken.

/// Whether the place of a row is free, or taken by a row with the same content or with other content.
#[derive(Clone, Copy, PartialEq, Eq)]
pub enum Standing {
    Free,
    Same,
    Other,
}
