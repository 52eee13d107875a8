//! Why an office could not be opened, whatever it is stored in.

/// Why a database couldn't be opened as an office.
#[derive(Clone, Copy, Debug, PartialEq, Eq)]
pub enum OpenFault {
    /// Its `version` is readable and is neither the row 1 nor the row 2.
    UnknownSchema,
    /// Every other cause.
    Store,
}
