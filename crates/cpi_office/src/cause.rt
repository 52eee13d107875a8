//! Why a request is answered 90.
use crate::refusal::Refusal;
use crate::reply::Reply;
use cpi_store::StoreFault;
use std::alloc::AllocError;

/// Why a request couldn't be answered: a call of the book failed, or memory was refused. A `Cause` is made only from the
/// fault of that call, by `?`.
#[derive(Clone, Copy)]
pub struct Cause {
    is_store: bool,
}

impl From<StoreFault> for Cause {
    ghost use Rattle.std.specs.Prelude.{◌≡◌, true};

    ghost from_gives = { λ _ c. c.is_store ≡ true };

    fn from(_: StoreFault) -> Cause {
        Cause { is_store: true }
    }
}

impl From<AllocError> for Cause {
    ghost use Rattle.std.specs.Prelude.{◌≡◌, false};

    ghost from_gives = { λ _ c. c.is_store ≡ false };

    fn from(_: AllocError) -> Cause {
        Cause { is_store: false }
    }
}

ghost use Rattle.std.specs.Prelude.{◌≡◌};
ghost use Rattle.cpi_office.specs.Calls.{reply_of};

/// The reply to a caller: the answer, or [`Refusal::Unavailable`] if there is none.
pub fn reply_of(answer: Result<Reply, Cause>) -> Reply
    ensures { result ≡ reply_of answer }
{
    match answer {
        Ok(reply) => reply,
        Err(_) => Reply::Refused(Refusal::Unavailable),
    }
}
