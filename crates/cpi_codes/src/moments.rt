//! Moments.
ghost use Rattle.std.specs.Prelude.{◌≡◌, ◌≤◌, SomeIff};
ghost use Rattle.cpi_codes.specs.Number.{number_in};

use crate::limits::LAST_MOMENT;
use crate::number::number_of;
use std::marker::Model;

const LOWEST: u64 = 0;

/// A moment, in seconds since 1970 UTC, 0 to 9,999,999,999.
#[derive(Clone, Copy, Debug, PartialEq, Eq, PartialOrd, Ord)]
pub struct Moment {
    seconds: u64,
}

impl Model for Moment {
    ghost use Rattle.std.specs.Prelude.{ℕ, ◌≤◌};
    ghost use Rattle.cpi_codes.specs.declared.limits.TheConstants.{LAST_MOMENT};

    ghost Value = { ℕ };

    ghost view = { λ x. x.seconds };

    ghost invariant = { λ x. x.seconds ≤ LAST_MOMENT };

    ghost inverse = { λ n. record { seconds = n } };
}

impl Moment {
    /// The moment so many seconds after 1970 began in UTC; none past 9,999,999,999.
    pub fn new(seconds: u64) -> Option<Moment>
        ensures { SomeIff result (seconds ≤ LAST_MOMENT) seconds }
    {
        if LAST_MOMENT < seconds {
            return None;
        }
        Some(Moment { seconds })
    }

    /// Reads a number of seconds from 0 to 9,999,999,999, in its one spelling.
    pub fn parse(text: &[u8]) -> Option<Moment>
        ensures { result ≡ number_in 0 LAST_MOMENT text.now }
    {
        Moment::new(number_of(text, LOWEST, LAST_MOMENT)?)
    }

    /// The seconds since 1970 UTC, 0 to 9,999,999,999.
    pub fn seconds(self) -> u64
        ensures value { result ≡ self }
        ensures range { result ≤ LAST_MOMENT }
    {
        self.seconds
    }
}
