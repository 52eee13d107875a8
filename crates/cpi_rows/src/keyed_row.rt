//! The key of a row.
ghost use Rattle.std.specs.Prelude.{◌≡◌};

/// A row that has a key.
pub trait Keyed {
    /// The type of the key. Rows are in the order of their keys, and no two rows of a list have the same key.
    type Key: Ord + Drop;

    ghost key: { Self → Self.Key };

    /// The row's key. A look-up calls this O(log n) times, so it should cost little.
    fn key(&self) -> Self::Key
        ensures { result ≡ key self.now };
}
