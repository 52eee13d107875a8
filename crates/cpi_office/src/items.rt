//! The items: one is put, and all are listed.
ghost use Rattle.std.specs.Prelude.{◌≡◌, Some, None, IfOk};
ghost use Rattle.std.specs.Option.{option_copied};
ghost use Rattle.cpi_rows.specs.Keyed.{row_by_number};
ghost use Rattle.cpi_release.specs.State.{Reads};
ghost use Rattle.cpi_store.specs.Office.{public_part};
ghost use Rattle.cpi_plan.specs.Items.{same_item};
ghost use Rattle.cpi_office.specs.Standing.{standing};
ghost use Rattle.cpi_office.specs.Desk.{item_put};
ghost use Rattle.cpi_office.specs.Verdicts.{with_verdict, verdict_reply};
ghost use Rattle.cpi_office.specs.Calls.{Answers};

use crate::cause::Cause;
use crate::refusal::Refusal;
use crate::reply::Reply;
use crate::sight::Sight;
use crate::standing::Standing;
use cpi_plan::Item;
use cpi_rows::Rows;
use cpi_store::{Book, StoreFault};
use std::alloc::{AllocError, Global};

/// Puts an item. A code that another item has is [`Refusal::Taken`].
pub fn put_item<B: Book>(book: &mut B, item: Item) -> Result<Reply, Cause>
    ensures { let o = (B.state book.old).held in
        let v = item_put item (row_by_number (λ i. i.code) item.code o.items) in
        Answers (B.state book.old) (B.state book.new) result (verdict_reply v) (with_verdict v o) }
{
    match find_item(book, &item)? {
        Standing::Same => Ok(Reply::Done),
        Standing::Other => Ok(Reply::Refused(Refusal::Taken)),
        Standing::Free => {
            book.put_item(item)?;
            Ok(Reply::Done)
        }
    }
}

/// Lists the items in the order of their codes.
pub fn items<S: Sight>(alloc: Global, sight: &mut S) -> Result<Reply, Cause>
    ensures { Answers (S.state sight.old) (S.state sight.new) result
        (Reply.Items (S.state sight.old).held.items) (S.state sight.old).held }
{
    let items = read_items(alloc, sight)??;
    Ok(Reply::Items(Rows::of(items)))
}

// Whether no item has the code, the same item or another.
fn find_item<B: Book>(book: &mut B, item: &Item) -> Result<Standing, StoreFault>
    ensures { Reads (B.state book.old) (B.state book.new) result (λ found.
        found ≡ standing same_item item.now (row_by_number (λ i. i.code) item.now.code (B.state book.old).held.items)) }
{
    let public = book.public_part()?;
    Ok(standing_item(item, public.item(item.code)))
}

// Compares an item with the one of its code.
fn standing_item(item: &Item, old: Option<&Item>) -> Standing
    ensures { result ≡ standing same_item item.now (option_copied old.entry) }
{
    match old {
        None => Standing::Free,
        Some(old) => {
            if old.is_same(item) {
                Standing::Same
            } else {
                Standing::Other
            }
        }
    }
}

// A copy of the items. Fails, inside, if there is no memory.
fn read_items<S: Sight>(
    alloc: Global,
    sight: &mut S,
) -> Result<Result<Vec<Item>, AllocError>, StoreFault>
    ensures { Reads (S.state sight.old) (S.state sight.new) result (λ found.
        IfOk found (λ items. items.items ≡ (S.state sight.old).held.items)) }
{
    let public = sight.public()?;
    Ok(public.copy_items(alloc))
}
