//! The desk registers a collector.
ghost use Rattle.std.specs.Prelude.{◌≡◌, Some, None};
ghost use Rattle.cpi_rows.specs.Keyed.{row_by_number};
ghost use Rattle.cpi_release.specs.State.{Reads};
ghost use Rattle.cpi_store.specs.Registration.{registration_of};
ghost use Rattle.cpi_office.specs.Desk.{registration_verdict};
ghost use Rattle.cpi_office.specs.Verdicts.{with_verdict, verdict_reply};
ghost use Rattle.cpi_office.specs.Calls.{Answers};

use crate::cause::Cause;
use crate::refusal::Refusal;
use crate::reply::Reply;
use cpi_store::{Book, Registration, StoreFault};

/// Registers a collector. If the number or the key is taken, but not both by this collector, the answer is
/// [`Refusal::Taken`].
pub fn register<B: Book>(book: &mut B, registration: Registration) -> Result<Reply, Cause>
    ensures { let o = (B.state book.old).held in
        let v = registration_verdict registration (row_by_number (λ b. b.number) registration.number o.collectors)
        (registration_of registration.key o.collectors) in
        Answers (B.state book.old) (B.state book.new) result (verdict_reply v) (with_verdict v o) }
{
    match find_registrations(book, registration)? {
        (Some(old), _) => {
            if old.is_same(&registration) {
                Ok(Reply::Done)
            } else {
                Ok(Reply::Refused(Refusal::Taken))
            }
        }
        (None, Some(_)) => Ok(Reply::Refused(Refusal::Taken)),
        (None, None) => {
            book.put_collector(registration)?;
            Ok(Reply::Done)
        }
    }
}

// The registration with the number, and the one with the key.
fn find_registrations<B: Book>(
    book: &mut B,
    registration: Registration,
) -> Result<(Option<Registration>, Option<Registration>), StoreFault>
    ensures { Reads (B.state book.old) (B.state book.new) result (λ found.
        (found.0 ≡ row_by_number (λ b. b.number) registration.number (B.state book.old).held.collectors)
        × (found.1 ≡ registration_of registration.key (B.state book.old).held.collectors)) }
{
    let at_number = book.registration_at(registration.number)?;
    let of_key = book.registration_of(registration.key)?;
    Ok((at_number, of_key))
}
