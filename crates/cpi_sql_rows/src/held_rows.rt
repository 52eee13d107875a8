//! The assignments and quotes of all collectors, each row with its collector's number.
ghost use Rattle.std.specs.Prelude.{◌≡◌};
ghost use Rattle.cpi_sql_rows.specs.Common.{AllStand, HasCleanDisk, HasTables, IfOk, IsCleanBook, IsInOrder};
ghost use Rattle.cpi_sql_rows.specs.Common.{IsPermutation, IsSecond, IsTrue, Looks, LooksOver, OnOk, held_cmp};
ghost use Rattle.cpi_sql_rows.specs.Common.{held_key, state};
ghost use Rattle.cpi_survey.specs.Quote.{quote_cmp, quote_key};
ghost use Rattle.cpi_sql_rows.specs.Lists.{quote_in, quotes_in, shown_given, shown_quote};
ghost use Rattle.cpi_sql_rows.specs.Tables.{table_of_quotes_2};

use crate::rows::{
    number_at, read_copied, read_item_code, read_mark, read_month, read_receipt, read_series,
};
use crate::stored::{Stored, Unread, gather, in_order};
use cpi_codes::{CollectorId, OutletId, Slot};
use cpi_store::{Given, HeldGiven, HeldQuote};
use cpi_survey::{Assignment, Quote};
use sqlite::{Alter, Connection, Row};
use std::alloc::Global;

impl Stored for HeldGiven {
    ghost stands_for = { shown_given };

    fn read(_alloc: Global, row: &Row) -> Option<HeldGiven> {
        Some(HeldGiven {
            collector: CollectorId::new(number_at(row, 0)?)?,
            given: Given {
                assignment: Assignment {
                    slot: Slot::new(number_at(row, 1)?)?,
                    outlet: OutletId::new(number_at(row, 2)?)?,
                    item: read_item_code(row, 3)?,
                    first_month: read_month(row, 4)?,
                    last_month: read_month(row, 5)?,
                    copied: read_copied(row, 8)?,
                },
                series: read_series(row, 6, 7)?,
            },
        })
    }
}

impl Stored for HeldQuote {
    ghost stands_for = { shown_quote };

    fn read(_alloc: Global, row: &Row) -> Option<HeldQuote> {
        Some(HeldQuote {
            collector: CollectorId::new(number_at(row, 0)?)?,
            quote: Quote {
                slot: Slot::new(number_at(row, 1)?)?,
                month: read_month(row, 2)?,
                mark: read_mark(row, 3, 4)?,
                receipt: read_receipt(row, 5)?,
            },
        })
    }
}

const QUOTES: &str = "SELECT collector, slot, month, mark, value, receipt FROM quote_2";

// Sorts the quotes by their keys. The error says that two have one key.
fn in_place(read: Vec<HeldQuote>) -> Result<Vec<HeldQuote>, Unread>
    ensures same { IfOk result (λ xs. IsPermutation read.items xs.items) }
    ensures order { IfOk result (λ xs. IsInOrder (held_cmp quote_cmp) (held_key quote_key) xs.items) }
{
    let mut quotes = read;
    quotes.sort_unstable_by_key(|row| (row.collector, row.quote.slot, row.quote.month));
    in_order(quotes)
}

/// The quotes of all collectors, by collector, slot and month. They are read in the order of the table, which is that
/// of their first receipts, and sorted in memory: O(n log n) for n quotes.
pub fn all_quotes<S: Alter>(
    conn: &mut Connection<S>,
    alloc: Global,
) -> Result<Vec<HeldQuote>, Unread>
    ensures look { Looks (state S.Store conn.old) (state S.Store conn.new) result }
    ensures read { IsCleanBook (state S.Store conn.new) → HasTables (state S.Store conn.old) →
        IfOk result (λ xs. xs.items ≡ quotes_in ((state S.Store conn.old).now.trees table_of_quotes_2.tree)) }
    ensures order { IfOk result (λ xs. IsInOrder (held_cmp quote_cmp) (held_key quote_key) xs.items) }
    ensures stand { IsCleanBook (state S.Store conn.new) → HasTables (state S.Store conn.old) →
        OnOk result (AllStand quote_in ((state S.Store conn.old).now.trees table_of_quotes_2.tree)) }
    ensures open { HasCleanDisk (state S.Store conn.new) → OnOk result (IsTrue (state S.Store conn.new).is_open) }
    ensures found { LooksOver IsSecond (state S.Store conn.old) (state S.Store conn.new) }
{
    let read = gather(conn, alloc, QUOTES, &[])?;
    in_place(read)
}
