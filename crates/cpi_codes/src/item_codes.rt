//! Codes of items.
ghost use Rattle.std.specs.Prelude.{◌≡◌, ◌≤◌, ◌<◌, ◌^◌, length, slice_index, filter, List, ℕ, IfOk, Some, true};
ghost use Rattle.std.specs.Char.{is_ascii};
ghost use Rattle.std.specs.List.{list_all};
ghost use Rattle.std.specs.String.{string_bytes};
ghost use Rattle.cpi_codes.specs.ItemCode.{is_character_of_item, is_text_of_item};
ghost use Rattle.cpi_codes.specs.ItemCode.{with_zero_bytes, item_code_of, item_number, is_no_zero};

use std::alloc::{AllocError, Global};
use std::marker::Model;

const LONGEST: usize = 12;

/// An item code of 1 to 12 characters of A-Z and 0-9. It is seen as the number that its bytes write in base 256
/// after they are filled up with zeros to 12: so the order of codes is the order of their bytes.
#[derive(Clone, Copy, Debug, PartialEq, Eq, PartialOrd, Ord)]
pub struct ItemCode {
    value: u128,
}

impl Model for ItemCode {
    ghost use Rattle.std.specs.Prelude.{ℕ};
    ghost use Rattle.cpi_codes.specs.ItemCode.{IsItemCode};

    ghost Value = { ℕ };

    ghost view = { λ c. c.value };

    ghost invariant = { λ c. IsItemCode c.value };

    ghost inverse = { λ n. record { value = n } };
}

impl ItemCode {
    /// Reads 1 to 12 characters of A-Z and 0-9.
    #[tactic(auto, unfolding(crate::specs::ItemCode::item_code_of))]
    pub fn parse(text: &[u8]) -> Option<ItemCode>
        ensures { result ≡ item_code_of text.now }
    {
        if !is_item_text(text) {
            return None;
        }
        Some(ItemCode {
            value: number_of_bytes(text),
        })
    }

    /// The text that writes the code.
    pub fn text(self, alloc: Global) -> Result<String, AllocError>
        ensures { IfOk result (λ s. item_code_of (string_bytes s) ≡ Some self) }
    {
        text_of(alloc, &bytes_of(self.value))
    }
}

// 1 to 12 characters of A-Z and 0-9.
fn is_item_text(text: &[u8]) -> bool
    ensures { result ≡ is_text_of_item text.now }
{
    if text.is_empty() || LONGEST < text.len() {
        return false;
    }
    are_item_characters(text)
}

// Only characters of A-Z and 0-9.
fn are_item_characters(text: &[u8]) -> bool
    ensures { result ≡ list_all is_character_of_item text.now }
{
    text.iter().all(|byte| is_item_character(*byte))
}

// A character of A-Z and 0-9.
fn is_item_character(byte: u8) -> bool
    ensures { result ≡ is_character_of_item byte }
{
    byte.is_ascii_uppercase() || byte.is_ascii_digit()
}

// The number that the bytes write in base 256, filled up with zeros to 12.
fn number_of_bytes(text: &[u8]) -> u128
    requires { length text.now ≤ 12 }
    ensures { result ≡ item_number text.now }
{
    let mut value: u128 = 0;
    for place in 0..LONGEST {
        value = 256 * value + u128::from(byte_at(text, place));
    }
    value
}

// The bytes of the text that writes the item code, filled up with zeros to 12.
fn bytes_of(value: u128) -> [u8; 12]
    ensures { (text : List ℕ) → item_code_of text ≡ Some value → result ≡ with_zero_bytes text }
{
    let mut bytes = [0; LONGEST];
    let mut rest = value;
    for place in (0..LONGEST).rev() {
        bytes[place] = (rest % 256) as u8;
        rest /= 256;
    }
    bytes
}

// The bytes that are not zero, as a text.
fn text_of(alloc: Global, bytes: &[u8]) -> Result<String, AllocError>
    requires { list_all is_ascii bytes.now ≡ true }
    ensures { IfOk result (λ s. string_bytes s ≡ filter is_no_zero bytes.now) }
{
    let mut text = String::new(alloc);
    for byte in bytes {
        if *byte != 0 {
            text.push(char::from(*byte))?;
        }
    }
    Ok(text)
}

// The byte at the place, and zero past the end.
fn byte_at(text: &[u8], place: usize) -> u8
    ensures { result ≡ slice_index text.now place }
{
    if place < text.len() { text[place] } else { 0 }
}
