//! Rows in a map, by their keys.
ghost use Rattle.std.specs.Prelude.{◌≡◌, [], None, OnOk, OnErr, IsOk, IsSome, IsTrue};
ghost use Rattle.std.specs.Option.{option_copied};
ghost use Rattle.std.specs.Map.Iter.{ShowsInOrder, deref};
ghost use Rattle.cpi_rows.specs.Keyed.{with_row, row_at, IsInOrder};

use crate::keyed_row::Keyed;
use std::alloc::{AllocError, Global};
use std::collections::BTreeMap;
use std::collections::btree_map::Values;
use std::marker::Model;

/// Rows in the order of their keys, one a key. Contracts see only the rows.
///
/// For n rows a look-up and a put cost O(log n), in whatever order the rows come.
#[derive(Drop)]
pub struct RowsByKey<T: Keyed> {
    rows: BTreeMap<T::Key, T>,
}

impl<T: Keyed> Model for RowsByKey<T> {
    ghost use Rattle.std.specs.Prelude.{List};
    ghost use Rattle.std.specs.BTreeMap.{values};
    ghost use Rattle.cpi_rows.specs.Keyed.{IsInOrder};
    ghost use Rattle.cpi_rows.specs.ByKey.{AreUnderKeys};

    ghost Value = { List T };

    ghost view = { λ r. values r.rows };

    ghost invariant = { λ r. record {
      under : AreUnderKeys T.Key.cmp T.key r.rows.entries;
      order : IsInOrder T.Key.cmp T.key (values r.rows);
    } };
}

impl<T: Keyed> RowsByKey<T> {
    /// A map without rows. It takes no memory until the first row is put.
    pub fn new(alloc: Global) -> RowsByKey<T>
        ensures { result ≡ [] }
    {
        RowsByKey {
            rows: BTreeMap::new(alloc),
        }
    }

    /// The row with the key, or `None` if no row has it. O(log n) for n rows.
    pub fn find(&self, key: &T::Key) -> Option<&T>
        ensures { option_copied result ≡ row_at T.Key.cmp T.key key.now self.now }
    {
        if self.is_past_all(key) {
            return None;
        }
        self.rows.get(key)
    }

    // Whether the key is above the keys of all rows. This test costs less than a search, and spares the search for rows
    // that come in rising order.
    fn is_past_all(&self, key: &T::Key) -> bool
        ensures { IsTrue result → row_at T.Key.cmp T.key key.now self.now ≡ None }
    {
        match self.rows.last_key_value() {
            Some((last, _)) => last.cmp(key).is_lt(),
            None => true,
        }
    }

    /// Puts the row in its place. A row with its key is replaced, which takes no memory and never fails. An `Err` says
    /// that there is no memory for one more row; the rows are as before then.
    pub fn put(&mut self, row: T) -> Result<(), AllocError>
    where
        T: Drop,
        ensures ok { OnOk result (self.new ≡ with_row T.Key.cmp T.key row self.old) }
        ensures err { OnErr result (self.new ≡ self.old) }
        ensures order { IsInOrder T.Key.cmp T.key self.new }
        ensures replaced { IsSome (row_at T.Key.cmp T.key (T.key row) self.old) → IsOk result }
    {
        self.rows.insert(row.key(), row)?;
        Ok(())
    }

    /// An iterator over the rows, in the order of their keys.
    pub fn iter(&self) -> Values<'_, T::Key, T>
        ensures rows { result ≡ self.now }
        ensures order { IsInOrder T.Key.cmp T.key self.now }
        ensures runs { ShowsInOrder (deref {X = T}) }
    {
        self.rows.values()
    }
}
