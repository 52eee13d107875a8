//! Codes read from a text, and written.
ghost use Rattle.std.specs.Prelude.{◌≡◌, ◌≤◌, true, IfOk, IfErr, take, length};
ghost use Rattle.std.specs.String.{string_bytes};
ghost use Rattle.std.specs.Char.{is_ascii};
ghost use Rattle.std.specs.List.{list_all};
ghost use Rattle.cpi_codes.specs.CodeText.{code_text};
ghost use Rattle.cpi_codes.specs.CodeSpelling.{IsCodeFault};
ghost use Rattle.cpi_codes.specs.declared.codes.Code.{Code};

use crate::codes::Code;
use crate::spelling::read;
use std::alloc::{AllocError, Global};

const LAST_DIVISION: u8 = 13;

/// Why a text is no code, in the order in which it is looked at.
#[derive(Clone, Copy, Debug, PartialEq, Eq)]
pub enum CodeFault {
    /// The text doesn't have the shape of a code: also a division of 16 to 99, and `00` with further parts.
    Shape,
    /// A division that isn't one of households: 14 or 15.
    NotHousehold,
    /// An elementary aggregate `-00`.
    Zero,
}

impl Code {
    /// Reads the one spelling of a code.
    pub fn parse(bytes: &[u8]) -> Result<Code, CodeFault>
        ensures code { IfOk result (λ c. code_text c ≡ bytes.now) }
        ensures every_code { (c : Code) → code_text c ≡ bytes.now → result ≡ Ok c }
        ensures fault { IfErr result (λ f. IsCodeFault f bytes.now) }
    {
        let Some(parts) = read(bytes) else {
            return Err(CodeFault::Shape);
        };
        if parts.division > LAST_DIVISION {
            return Err(CodeFault::NotHousehold);
        }
        if let Some(0) = parts.aggregate {
            return Err(CodeFault::Zero);
        }
        Ok(Code {
            division: parts.division,
            group: parts.group,
            class: parts.class,
            subclass: parts.subclass,
            aggregate: parts.aggregate,
        })
    }

    /// Writes the one spelling of the code to the front of `out`, and gives its length. The bytes behind it are of no
    /// meaning.
    pub fn write_to(self, out: &mut [u8; 11]) -> usize
        ensures written { take result out.new ≡ code_text self }
        ensures length { result ≡ length (code_text self) }
        ensures within { result ≤ 11 }
    {
        let aggregate = self.aggregate.unwrap_or(0);
        *out = [
            b'0' + self.division / 10,
            b'0' + self.division % 10,
            b'.',
            b'0' + self.group.unwrap_or(0),
            b'.',
            b'0' + self.class.unwrap_or(0),
            b'.',
            b'0' + self.subclass.unwrap_or(0),
            b'-',
            b'0' + aggregate / 10,
            b'0' + aggregate % 10,
        ];
        match self.level() {
            5 => 11,
            4 => 8,
            3 => 6,
            2 => 4,
            _ => 2,
        }
    }
    /// The one spelling of the code.
    pub fn text(self, alloc: Global) -> Result<String, AllocError>
        ensures { IfOk result (λ s. string_bytes s ≡ code_text self) }
    {
        let mut bytes = [0; 11];
        let length = self.write_to(&mut bytes);
        text_of(alloc, &bytes[..length])
    }
}

// The text of bytes of ASCII.
fn text_of(alloc: Global, bytes: &[u8]) -> Result<String, AllocError>
    requires { list_all is_ascii bytes.now ≡ true }
    ensures { IfOk result (λ s. string_bytes s ≡ bytes.now) }
{
    let mut text = String::new(alloc);
    for byte in bytes {
        text.push(char::from(*byte))?;
    }
    Ok(text)
}
