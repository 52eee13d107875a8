//! Statements that are run in turn within a transaction.
ghost use Rattle.std.specs.Prelude.{◌≡◌};
ghost use Rattle.cpi_sql_rows.specs.Common.{HasCleanDisk, KeepsCommit, OnOk, Survives, map, state};
ghost use Rattle.cpi_sql_open.specs.Stages.{RanEach, stage_of};

use sqlite::{Alter, Error, Transaction};

/// Runs statements that have no parameters, in turn.
pub fn perform_each<S: Alter>(tx: &mut Transaction<'_, S>, texts: &[&str]) -> Result<(), Error>
    ensures same_reference { tx.new.conn.ghost_name ≡ tx.old.conn.ghost_name }
    ensures ran { HasCleanDisk (state S.Store tx.new.conn.now) → OnOk result (RanEach (map (λ t. t.now) texts.now)
        (stage_of (state S.Store tx.old.conn.now)) (stage_of (state S.Store tx.new.conn.now))) }
    ensures kept { HasCleanDisk (state S.Store tx.new.conn.now) →
        KeepsCommit (state S.Store tx.old.conn.now) (state S.Store tx.new.conn.now) }
    ensures survives { Survives (state S.Store tx.old.conn.now) (state S.Store tx.new.conn.now) (λ _. ⊥) }
{
    let [text, later @ ..] = texts else {
        return Ok(());
    };
    let _count = tx.execute(text, &[])?;
    perform_each(tx, later)
}
