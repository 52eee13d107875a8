//! Keys of collectors.
ghost use Rattle.std.specs.Prelude.{◌≡◌, ◌≤◌, ◌<◌, length, true};
ghost use Rattle.std.specs.List.{list_all};
ghost use Rattle.std.specs.Char.{digit_value};
ghost use Rattle.std.specs.Str.Parse.{digits_value};
ghost use Rattle.cpi_codes.specs.Key.{is_digit_of_key, key_of};

use std::marker::Model;

const KEY_LEN: usize = 32;

/// A collector's key of 32 characters of 0-9 and a-f, seen as the number that they write in base 16.
#[derive(Clone, Copy, PartialEq, Eq, PartialOrd, Ord)]
pub struct Key {
    value: u128,
}

impl Model for Key {
    ghost use Rattle.std.specs.Prelude.{ℕ};

    ghost Value = { ℕ };

    ghost view = { λ k. k.value };

    ghost inverse = { λ n. record { value = n } };
}

impl Key {
    /// Reads 32 characters of 0-9 and a-f; capital letters are refused.
    pub fn parse(text: &[u8]) -> Option<Key>
        ensures { result ≡ key_of text.now }
    {
        if text.len() != KEY_LEN || !are_key_digits(text) {
            return None;
        }
        Some(Key {
            value: value_of(text),
        })
    }

    /// The number that the key's characters write in base 16.
    pub fn value(self) -> u128
        ensures { result ≡ self }
    {
        self.value
    }
}

// Only characters of 0-9 and a-f.
fn are_key_digits(text: &[u8]) -> bool
    ensures { result ≡ list_all is_digit_of_key text.now }
{
    text.iter().all(|byte| is_key_digit(*byte))
}

// A character of 0-9 and a-f.
fn is_key_digit(byte: u8) -> bool
    ensures { result ≡ is_digit_of_key byte }
{
    byte.is_ascii_digit() || (b'a'..=b'f').contains(&byte)
}

// The value of one digit, 0 to 15.
fn digit_of(byte: u8) -> u8
    requires { is_digit_of_key byte ≡ true }
    ensures value { result ≡ digit_value byte }
    ensures range { result < 16 }
{
    if byte <= b'9' {
        byte - b'0'
    } else {
        byte - b'a' + 10
    }
}

// The value of at most 32 digits.
fn value_of(digits: &[u8]) -> u128
    requires digits { list_all is_digit_of_key digits.now ≡ true }
    requires fits { length digits.now ≤ 32 }
    ensures { result ≡ digits_value 16 digits.now }
{
    let mut value: u128 = 0;
    for digit in digits {
        value = 16 * value + u128::from(digit_of(*digit));
    }
    value
}
