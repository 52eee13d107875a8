//! One statement: what it does, and that nothing has changed if it failed.
ghost use Rattle.std.specs.Prelude.{◌≡◌};
ghost use Rattle.cpi_sql_rows.specs.Common.{CommitsBy, Executes, HasCleanDisk, IfOk, IsCleanBook, IsKept, IsTrue};
ghost use Rattle.cpi_sql_rows.specs.Common.{Ok, OnErr, OnOk, Survives, bound, false, state};
ghost use Rattle.cpi_sql_rows.specs.Finding.{IsSettled};

use sqlite::{Alter, Connection, Error};
use sqlite_value::value::ValueRef;

/// Runs a statement that is a transaction of its own, and answers how many rows it changed.
pub fn run<S: Alter>(
    conn: &mut Connection<S>,
    text: &str,
    params: &[ValueRef<'_>],
) -> Result<usize, Error>
    ensures clean { IsCleanBook (state S.Store conn.new) → IsCleanBook (state S.Store conn.old) }
    ensures ran { HasCleanDisk (state S.Store conn.new) → IfOk result (λ count.
        Executes text.now (bound params.now) (state S.Store conn.old) (state S.Store conn.new) (Ok count)) }
    ensures kept { IsCleanBook (state S.Store conn.new) → (state S.Store conn.old).in_transaction ≡ false
        → OnErr result (IsKept (state S.Store conn.old) (state S.Store conn.new)) }
    ensures open { HasCleanDisk (state S.Store conn.new) → (state S.Store conn.old).in_transaction ≡ false
        → OnOk result (IsTrue (state S.Store conn.new).is_open) }
    ensures crash { Survives (state S.Store conn.old) (state S.Store conn.new)
        (CommitsBy text.now (bound params.now) (state S.Store conn.old)) }
{
    settle(conn);
    conn.execute(text, params)
}

/// Does nothing: it is called for the proof, which learns that what an open connection shows between transactions is
/// committed, and that a crash leaves it.
pub fn settle<S: Alter>(conn: &Connection<S>)
    ensures committed { IsTrue (state S.Store conn.now).is_open → (state S.Store conn.now).in_transaction ≡ false
        → (state S.Store conn.now).now ≡ (state S.Store conn.now).committed }
    ensures endures { IsTrue (state S.Store conn.now).is_open → (state S.Store conn.now).in_transaction ≡ false
        → IsSettled (state S.Store conn.now) }
{
    let _settled = conn.is_autocommit();
}
