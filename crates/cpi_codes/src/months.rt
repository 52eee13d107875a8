//! Months.
ghost use Rattle.std.specs.Prelude.{◌≡◌, ◌≤◌, ◌<◌, ◌+◌, ◌-◌, IfOk, SomeIff};
ghost use Rattle.std.specs.String.{string_bytes};
ghost use Rattle.cpi_codes.specs.Month.{month_in, month_of, month_of_year, month_text, months_since_2000};
ghost use Rattle.cpi_codes.specs.Month.{has_month_shape, year_of};

use crate::number::{are_digits, value_of};
use std::alloc::{AllocError, Global};
use std::fmt;
use std::marker::Model;

const FIRST_YEAR: u16 = 2000;

const LAST_YEAR: u16 = 2199;

const JANUARY: u8 = 1;

const DECEMBER: u8 = 12;

// How many bytes `YYYY-MM` has.
const TEXT_LEN: usize = 7;

// How many months there are.
const MONTHS: u16 = 2400;

/// A month from 2000-01 to 2199-12, seen as the number of months since 2000-01.
#[derive(Clone, Copy, Debug, PartialEq, Eq, PartialOrd, Ord)]
pub struct Month {
    index: u16,
}

impl Model for Month {
    ghost use Rattle.std.specs.Prelude.{ℕ, ◌<◌};

    ghost Value = { ℕ };

    ghost view = { λ m. m.index };

    ghost invariant = { λ m. m.index < 2400 };

    ghost inverse = { λ n. record { index = n } };
}

/// Why a text or a pair of numbers is no month.
#[derive(Clone, Copy, Debug, PartialEq, Eq)]
pub enum MonthFault {
    /// The text isn't four digits, a dash and two digits.
    Shape,
    /// The year lies outside 2000 to 2199, or the month of the year outside 1 to 12.
    Range,
}

impl Month {
    /// The month of the year 2000 to 2199, January being 1. The one fault is `Range`.
    pub fn new(year: u16, month: u8) -> Result<Month, MonthFault>
        ensures { result ≡ month_in year month }
    {
        if year < FIRST_YEAR || LAST_YEAR < year || month < JANUARY || DECEMBER < month {
            return Err(MonthFault::Range);
        }
        Ok(Month {
            index: 12 * (year - FIRST_YEAR) + u16::from(month - JANUARY),
        })
    }

    /// Reads `YYYY-MM`.
    pub fn parse(text: &[u8]) -> Result<Month, MonthFault>
        ensures { result ≡ month_of text.now }
    {
        if !is_month_shape(text) {
            return Err(MonthFault::Shape);
        }
        let year = value_of(&text[..4], u64::from(LAST_YEAR));
        let month = value_of(&text[5..], u64::from(DECEMBER));
        match (year, month) {
            (Some(year), Some(month)) => Month::new(year as u16, month as u8),
            _ => Err(MonthFault::Range),
        }
    }

    /// The number of months since 2000-01.
    pub fn index(self) -> u16
        ensures value { result ≡ self }
        ensures range { result < 2400 }
    {
        self.index
    }

    /// The year, 2000 to 2199.
    pub fn year(self) -> u16
        ensures value { result ≡ year_of self }
        ensures range { (2000 ≤ result) × (result ≤ 2199) }
    {
        FIRST_YEAR + self.index / 12
    }

    /// The month of the year, 1 to 12.
    pub fn month(self) -> u8
        ensures value { result ≡ month_of_year self }
        ensures range { (1 ≤ result) × (result ≤ 12) }
    {
        JANUARY + (self.index % 12) as u8
    }

    /// The month before; none before 2000-01.
    pub fn prev(self) -> Option<Month>
        ensures { SomeIff result (1 ≤ self) (self - 1) }
    {
        if self.index < 1 {
            return None;
        }
        Some(Month {
            index: self.index - 1,
        })
    }

    /// The month after; none after 2199-12.
    pub fn next(self) -> Option<Month>
        ensures { SomeIff result (self + 1 < 2400) (self + 1) }
    {
        if self.index + 1 < MONTHS {
            Some(Month {
                index: self.index + 1,
            })
        } else {
            None
        }
    }

    /// The link month of the month's year: December of the year before; none in 2000.
    pub fn link(self) -> Option<Month>
        ensures { SomeIff result (2001 ≤ year_of self) (months_since_2000 (year_of self - 1) 12) }
    {
        if self.index < 12 {
            return None;
        }
        Some(Month {
            index: self.index - self.index % 12 - 1,
        })
    }

    /// The one spelling, `YYYY-MM`.
    pub fn text(self, alloc: Global) -> Result<String, AllocError>
        ensures { IfOk result (λ s. string_bytes s ≡ month_text self) }
    {
        self.to_string(alloc)
    }
}

impl fmt::Display for Month {
    ghost use Rattle.std.specs.Prelude.{Some};
    ghost use Rattle.cpi_codes.specs.Month.{month_text};

    ghost output = { λ m. Some (month_text m) };

    fn fmt<W: fmt::Write>(&self, f: &mut fmt::Formatter<W>) -> fmt::Result {
        write!(f, "{}-{:02}", self.year(), self.month())
    }
}

// Four digits, a dash and two digits.
fn is_month_shape(text: &[u8]) -> bool
    ensures { result ≡ has_month_shape text.now }
{
    if text.len() != TEXT_LEN || !are_digits(&text[..4]) || text[4] != b'-' {
        return false;
    }
    are_digits(&text[5..])
}
