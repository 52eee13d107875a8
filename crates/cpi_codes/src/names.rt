//! Names, titles, units and texts.
ghost use Rattle.std.specs.Prelude.{◌≡◌, ◌↔◌, IfOk, true, false};
ghost use Rattle.std.specs.List.{list_all};
ghost use Rattle.std.specs.Str.{is_utf8};
ghost use Rattle.cpi_codes.specs.Name.{is_text_of_name, is_plain_byte};
ghost use Rattle.cpi_codes.specs.Text.{same_text};

use crate::limits::LONGEST_NAME;
use std::alloc::{AllocError, Global};
use std::marker::Model;

/// A name, title, unit or text: 1 to 400 bytes of UTF-8, no byte below 0x20 and no 0x7F. It is seen as its bytes.
#[derive(Drop)]
pub struct Name {
    text: String,
}

impl Model for Name {
    ghost use Rattle.std.specs.Prelude.{ℕ, List, ◌≡◌, true};
    ghost use Rattle.std.specs.String.{string_bytes};
    ghost use Rattle.cpi_codes.specs.Name.{is_text_of_name};

    ghost Value = { List ℕ };

    ghost view = { λ n. string_bytes n.text };

    ghost invariant = { λ n. is_text_of_name (string_bytes n.text) ≡ true };
}

/// Why there is no name.
#[derive(Clone, Copy, Debug, PartialEq, Eq)]
pub enum NameFault {
    /// The text isn't 1 to 400 bytes of UTF-8 without control characters.
    Text,
    /// Memory was refused.
    NoMemory,
}

impl Name {
    /// The name that is written so. The fault is `Text` where it is no name, and `NoMemory` only where it is one.
    pub fn new(alloc: Global, text: &[u8]) -> Result<Name, NameFault>
        ensures made { IfOk result (λ n. n ≡ text.now) }
        ensures refused { (result ≡ Err NameFault.Text) ↔ (is_text_of_name text.now ≡ false) }
    {
        if !is_name(text) {
            return Err(NameFault::Text);
        }
        let Ok(text) = str::from_utf8(text) else {
            return Err(NameFault::Text);
        };
        match String::from_str(alloc, text) {
            Ok(text) => Ok(Name { text }),
            Err(_) => Err(NameFault::NoMemory),
        }
    }

    /// The text of the name.
    pub fn as_str(&self) -> &str
        ensures bytes { result.now ≡ self.now }
        ensures name { is_text_of_name self.now ≡ true }
    {
        self.text.as_str()
    }

    /// The same name once more.
    pub fn copy(&self, alloc: Global) -> Result<Name, AllocError>
        ensures { IfOk result (λ n. n ≡ self.now) }
    {
        Ok(Name {
            text: String::from_str(alloc, self.text.as_str())?,
        })
    }

    /// Whether the two names are written the same.
    pub fn is_same(&self, other: &Name) -> bool
        ensures { result ≡ same_text self.now other.now }
    {
        self.text.as_str() == other.text.as_str()
    }
}

// 1 to 400 bytes of UTF-8 without control characters.
#[tactic(auto, unfolding(crate::specs::Name::is_text_of_name))]
fn is_name(text: &[u8]) -> bool
    ensures { result ≡ is_text_of_name text.now }
{
    if text.is_empty() || LONGEST_NAME < text.len() || !is_plain(text) {
        return false;
    }
    is_utf8_text(text)
}

// Whether the bytes are UTF-8.
fn is_utf8_text(text: &[u8]) -> bool
    ensures { result ≡ is_utf8 text.now }
{
    str::from_utf8(text).is_ok()
}

// No byte of a control character.
fn is_plain(text: &[u8]) -> bool
    ensures { result ≡ list_all is_plain_byte text.now }
{
    text.iter().all(|byte| 0x20 <= *byte && *byte != 0x7F)
}
