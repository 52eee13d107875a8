//! A printed table.
ghost use Rattle.std.specs.Prelude.{◌≡◌, IfOk, string_bytes};
ghost use Rattle.cpi_release.specs.PublishedTables.{printed_bytes};
ghost use Rattle.cpi_release.specs.TextTable.{text_table};
ghost use Rattle.cpi_release.specs.CsvTable.{csv_table};

use crate::csv_table::csv_bytes;
use crate::form::Form;
use crate::level::Level;
use crate::revision::Revision;
use crate::text_table::{heading, line_of};
use cpi_codes::Month;
use std::alloc::{AllocError, Global};
use std::marker::Model;

/// A printed table, which is a text. Contracts see its bytes.
#[derive(Drop)]
pub struct PrintedTable {
    text: String,
}

impl Model for PrintedTable {
    ghost use Rattle.std.specs.Prelude.{ℕ, List};
    ghost use Rattle.std.specs.String.{string_bytes};

    ghost Value = { List ℕ };

    ghost view = { λ p. string_bytes p.text };
}

impl PrintedTable {
    /// The text.
    pub fn as_str(&self) -> &str
        ensures { result.now ≡ self.now }
    {
        self.text.as_str()
    }

    /// The bytes of the text.
    pub fn as_bytes(&self) -> &[u8]
        ensures { result.now ≡ self.now }
    {
        self.text.as_bytes()
    }
}

// The lines of a table, one after the other.
fn lines(
    alloc: Global,
    month: Month,
    revision: Revision,
    levels: &[Level],
) -> Result<String, AllocError>
    ensures { IfOk result (λ text. string_bytes text ≡ text_table month revision levels.now) }
{
    let mut text = heading(alloc, month, revision)?;
    for level in levels {
        let line = line_of(alloc, level)?;
        text.push_str(line.as_str())?;
    }
    Ok(text)
}

// The records of a table, which are a text.
fn records(alloc: Global, levels: &[Level]) -> Result<String, AllocError>
    ensures { IfOk result (λ text. string_bytes text ≡ csv_table levels.now) }
{
    let Ok(bytes) = csv_bytes(alloc, levels) else {
        return Err(AllocError);
    };
    match String::from_utf8(bytes) {
        Ok(text) => Ok(text),
        Err(_) => unreachable!(),
    }
}

/// Prints the table of a month in one of its revisions.
pub fn printed(
    alloc: Global,
    form: Form,
    month: Month,
    revision: Revision,
    levels: &[Level],
) -> Result<PrintedTable, AllocError>
    ensures { IfOk result (λ printed. printed ≡ printed_bytes form month revision levels.now) }
{
    let text = match form {
        Form::Text => lines(alloc, month, revision, levels)?,
        Form::Csv => records(alloc, levels)?,
    };
    Ok(PrintedTable { text })
}
