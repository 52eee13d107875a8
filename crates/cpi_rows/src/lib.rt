//! Rows that are kept in the order of a key, in a vector or in a map.
//!
//! A row says by [`Keyed`] what its key is. [`place_of`] and [`find_row`] look a key up by halving
//! the rows, [`put_row`] puts a row in its place, [`are_in_order`] says whether rows are in order,
//! and [`Rows`] is a list that contracts see as the rows in it. [`RowsByKey`] keeps rows in a map, for
//! lists that are long and come in any order. The laws are functions that do nothing: their
//! contracts say how the rows of many holders, kept as one list, answer to each holder's own rows.
#![tactic(auto)]

mod by_key;
mod keyed_row;
mod laws;
mod list;
mod lookup;
mod order;
mod put;

pub use by_key::RowsByKey;
pub use keyed_row::Keyed;
pub use laws::{gathered_put, gathered_rows, put_same, puts_other, puts_own};
pub use list::Rows;
pub use lookup::{find_row, place_of};
pub use order::are_in_order;
pub use put::put_row;
