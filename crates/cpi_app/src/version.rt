//! Which program this is.

/// The number of the version: that of the release, or of the next one with `-dev` before it is released. CHANGELOG.md
/// says what changed in it.
pub const VERSION: &str = "1.1-dev";
