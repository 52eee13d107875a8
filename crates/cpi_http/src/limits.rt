//! Limits of an HTTP message, each named once: code, clauses, definitions and proofs cite the name.

/// The most bytes of a head, its empty line included.
pub const MOST_HEAD_BYTES: usize = 8192;

/// The most fields of a head.
pub const MOST_FIELDS: usize = 64;

/// The most bytes of the body of a request.
pub const MOST_BODY_BYTES: usize = 65_536;

/// The most bytes of a response's body that are written together with its head.
pub const MOST_BYTES_WITH_HEAD: usize = 65_536;
