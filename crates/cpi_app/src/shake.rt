//! The reasons to open a book again.
ghost use Rattle.std.specs.Prelude.{◌≡◌};
ghost use Rattle.cpi_app.specs.Connection.{shake_of, shake_of_served, shake_of_fault};

use cpi_http::{Ended, Served};
use cpi_wire::{Failure, WireFault};
use std::fmt;

/// The reason to open a book again after a connection. It prints as its words in a line on standard error.
#[derive(Clone, Copy, Debug, PartialEq, Eq)]
pub enum Shake {
    /// A reply was that the office was unavailable, so its store may have failed.
    Unavailable,
    /// A response wasn't written whole, so its replies aren't known.
    Unwritten,
    /// There was no memory for a response, so its replies aren't known.
    NoMemory,
}

// The reason to open the book again after a message that ended so.
fn shake_of_served(served: Served) -> Option<Shake>
    ensures { result ≡ shake_of_served served }
{
    match served {
        Served::Answered(_, true) => Some(Shake::Unavailable),
        Served::Answered(_, false) | Served::Cut => None,
    }
}

// The reason to open the book again after this fault.
fn shake_of_fault(fault: WireFault) -> Option<Shake>
    ensures { result ≡ shake_of_fault fault }
{
    match fault {
        WireFault::Read => None,
        WireFault::Write => Some(Shake::Unwritten),
        WireFault::NoMemory => Some(Shake::NoMemory),
    }
}

/// The reason to open the book again after a connection. `None` if it can stay open.
pub fn shake_of(outcome: &Result<Ended, Failure>) -> Option<Shake>
    ensures { result ≡ shake_of outcome.now }
{
    match outcome {
        Ok(ended) => shake_of_served(ended.served),
        Err(failure) => shake_of_fault(failure.fault()),
    }
}

impl fmt::Display for Shake {
    ghost use Rattle.std.specs.Prelude.{Some};
    ghost use Rattle.cpi_app.specs.Connection.{words_of};

    ghost output = { λ shake. Some (words_of shake) };

    fn fmt<W: fmt::Write>(&self, f: &mut fmt::Formatter<W>) -> fmt::Result {
        match self {
            Shake::Unavailable => write!(f, "a request was refused by 90"),
            Shake::Unwritten => write!(f, "a response couldn't be written"),
            Shake::NoMemory => write!(f, "out of memory"),
        }
    }
}
