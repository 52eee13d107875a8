//! The desk puts an outlet.
ghost use Rattle.std.specs.Prelude.{◌≡◌, Some, None};
ghost use Rattle.std.specs.Option.{option_copied};
ghost use Rattle.cpi_rows.specs.Keyed.{row_by_number};
ghost use Rattle.cpi_release.specs.State.{Reads};
ghost use Rattle.cpi_store.specs.Outlet.{same_outlet};
ghost use Rattle.cpi_office.specs.Standing.{standing};
ghost use Rattle.cpi_office.specs.Desk.{outlet_put};
ghost use Rattle.cpi_office.specs.Verdicts.{with_verdict, verdict_reply};
ghost use Rattle.cpi_office.specs.Calls.{Answers};

use crate::cause::Cause;
use crate::refusal::Refusal;
use crate::reply::Reply;
use crate::standing::Standing;
use cpi_store::{Book, Outlet, StoreFault};

/// Puts an outlet. A number that another outlet has is [`Refusal::Taken`].
pub fn put_outlet<B: Book>(book: &mut B, outlet: Outlet) -> Result<Reply, Cause>
    ensures { let o = (B.state book.old).held in
        let v = outlet_put outlet (row_by_number (λ u. u.number) outlet.number o.outlets) in
        Answers (B.state book.old) (B.state book.new) result (verdict_reply v) (with_verdict v o) }
{
    match find_outlet(book, &outlet)? {
        Standing::Same => Ok(Reply::Done),
        Standing::Other => Ok(Reply::Refused(Refusal::Taken)),
        Standing::Free => {
            book.put_outlet(outlet)?;
            Ok(Reply::Done)
        }
    }
}

// Whether no outlet has the number, the same outlet or another.
fn find_outlet<B: Book>(book: &mut B, outlet: &Outlet) -> Result<Standing, StoreFault>
    ensures { Reads (B.state book.old) (B.state book.new) result (λ found.
        let old = row_by_number (λ u. u.number) outlet.now.number (B.state book.old).held.outlets in
        found ≡ standing same_outlet outlet.now old) }
{
    let old = book.outlet(outlet.number)?;
    Ok(standing_outlet(outlet, old))
}

// Compares an outlet with the one of its number.
fn standing_outlet(outlet: &Outlet, old: Option<&Outlet>) -> Standing
    ensures { result ≡ standing same_outlet outlet.now (option_copied old.entry) }
{
    match old {
        None => Standing::Free,
        Some(old) => {
            if old.is_same(outlet) {
                Standing::Same
            } else {
                Standing::Other
            }
        }
    }
}
