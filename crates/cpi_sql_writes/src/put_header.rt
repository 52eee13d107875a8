//! The header of a release is added: its month, its revision, its moments and the codes that may be carried.
ghost use Rattle.std.specs.Prelude.{◌∷◌, ◌≡◌};
ghost use Rattle.cpi_sql_rows.specs.Common.{IfOk, state, string_bytes};
ghost use Rattle.cpi_sql_rows.specs.ReleaseRows.{carry_text};
ghost use Rattle.cpi_sql_writes.specs.ReleaseSteps.{header_of, PutsHeader};
ghost use Rattle.cpi_sql_writes.specs.Within.{Within};

use crate::inside::run_inside;
use crate::release_rows::ReleaseNumbers;
use cpi_codes::Code;
use cpi_release::Release;
use cpi_sql_rows::{Unread, moment_value};
use sqlite::{Alter, Transaction, params};
use std::alloc::{AllocError, Global};

// The texts of a code and of the others, with a space before each of the others.
fn spaced(alloc: Global, first: Code, others: &[Code]) -> Result<String, AllocError>
    ensures { IfOk result (λ s. string_bytes s ≡ carry_text (first ∷ others.now)) }
{
    let mut text = first.text(alloc)?;
    'others: for code in others {
        let more = code.text(alloc)?;
        text.push_str(" ")?;
        text.push_str(more.as_str())?;
    }
    Ok(text)
}

// The texts of the codes, with a space between each two.
fn carry_string(alloc: Global, codes: &[Code]) -> Result<String, Unread>
    ensures { IfOk result (λ s. string_bytes s ≡ carry_text codes.now) }
{
    match codes.split_first() {
        Some((first, others)) => spaced(alloc, *first, others).map_err(|_| Unread),
        None => Ok(String::new(alloc)),
    }
}

const ADD_HEADER: &str =
    "INSERT INTO release_2 (month, revision, frozen_at, publishes, carry) VALUES (?1, ?2, ?3, ?4, ?5)";

/// Adds the header of a release; the numbers are its own. It is an error if the store fails, the table has such a
/// header, or memory is refused.
pub fn add_header<S: Alter>(
    tx: &mut Transaction<'_, S>,
    alloc: Global,
    numbers: ReleaseNumbers,
    release: &Release,
) -> Result<(), Unread>
    ensures same_reference { tx.new.conn.ghost_name ≡ tx.old.conn.ghost_name }
    ensures added { Within (state S.Store tx.old.conn.now) (state S.Store tx.new.conn.now) result
        (PutsHeader numbers.month numbers.revision (header_of release.now)) }
{
    let frozen_at = moment_value(release.frozen_at);
    let publishes = moment_value(release.publishes);
    let carry = carry_string(alloc, release.carry.as_slice())?;
    run_inside(
        tx,
        ADD_HEADER,
        params![
            numbers.month,
            numbers.revision,
            &frozen_at,
            &publishes,
            carry.as_str()
        ],
    )
}
