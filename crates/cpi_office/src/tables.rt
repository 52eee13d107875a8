//! Callers list the published tables and read one.
ghost use Rattle.std.specs.Prelude.{◌≡◌, Some, map, option_map, IfOk};
ghost use Rattle.std.specs.Option.{option_copied};
ghost use Rattle.cpi_release.specs.PublishedTables.{asked_table, frozen_month_of, published_until, printed_bytes};
ghost use Rattle.cpi_release.specs.State.{Reads};
ghost use Rattle.cpi_store.specs.Tables.{table_until};
ghost use Rattle.cpi_office.specs.Answers.{table_bytes, reply_with_table};
ghost use Rattle.cpi_office.specs.Calls.{Answers};

use crate::callers::Present;
use crate::cause::Cause;
use crate::edition::Edition;
use crate::refusal::Refusal;
use crate::reply::Reply;
use crate::sight::Sight;
use cpi_codes::Month;
use cpi_release::{Form, Level, PrintedTable, Revision, printed};
use cpi_rows::Rows;
use cpi_store::StoreFault;
use std::alloc::{AllocError, Global};

/// Lists the months and revisions whose tables are published at the moment of the request.
pub fn tables<S: Sight>(sight: &mut S, present: Present) -> Result<Reply, Cause>
    ensures { let o = (S.state sight.old).held in
        Answers (S.state sight.old) (S.state sight.new) result
        (Reply.Tables (map frozen_month_of (published_until present o.releases))) o }
{
    let frozen_months = sight.published(present)?;
    Ok(Reply::Tables(Rows::of(frozen_months)))
}

/// Prints the table of a month in this edition, if it is published by now. Else the answer is [`Refusal::NoTable`],
/// which doesn't show whether there is a table under embargo.
pub fn table<S: Sight>(
    alloc: Global,
    sight: &mut S,
    present: Present,
    month: Month,
    form: Form,
    edition: Edition,
) -> Result<Reply, Cause>
    ensures { let o = (S.state sight.old).held in
        Answers (S.state sight.old) (S.state sight.new) result
        (reply_with_table form month (asked_table month edition (published_until present o.releases))) o }
{
    match read_table(alloc, sight, present, month, form, edition)?? {
        Some(printed_table) => Ok(Reply::Table(printed_table)),
        None => Ok(Reply::Refused(Refusal::NoTable)),
    }
}

// The printed table in this edition, if it is published by now. Fails, inside, if there is no memory.
fn read_table<S: Sight>(
    alloc: Global,
    sight: &mut S,
    present: Present,
    month: Month,
    form: Form,
    edition: Edition,
) -> Result<Result<Option<PrintedTable>, AllocError>, StoreFault>
    ensures { Reads (S.state sight.old) (S.state sight.new) result (λ found.
        IfOk found (λ printed_table.
        let releases = (S.state sight.old).held.releases in
        printed_table ≡ option_map (table_bytes form month) (table_until month edition present releases))) }
{
    match edition.revision() {
        Some(revision) => print_revision(alloc, sight, present, month, form, revision),
        None => match sight.latest_published(present, month)? {
            Some(latest) => print_revision(alloc, sight, present, month, form, latest),
            None => Ok(Ok(None)),
        },
    }
}

// The printed table of a revision, if it is published by now. Fails, inside, if there is no memory.
fn print_revision<S: Sight>(
    alloc: Global,
    sight: &mut S,
    present: Present,
    month: Month,
    form: Form,
    revision: Revision,
) -> Result<Result<Option<PrintedTable>, AllocError>, StoreFault>
    ensures { Reads (S.state sight.old) (S.state sight.new) result (λ found.
        IfOk found (λ printed_table.
        let releases = (S.state sight.old).held.releases in
        printed_table ≡ option_map (printed_bytes form month revision)
        (option_map (λ t. t.levels) (table_until month (Some revision) present releases)))) }
{
    let found = sight.published_table(present, month, revision)?;
    Ok(printed_of(alloc, form, month, revision, found))
}

// Prints the rows of a table, if there are any. Fails if there is no memory.
fn printed_of(
    alloc: Global,
    form: Form,
    month: Month,
    revision: Revision,
    levels: Option<&Rows<Level>>,
) -> Result<Option<PrintedTable>, AllocError>
    ensures { IfOk result (λ printed_table.
        printed_table ≡ option_map (printed_bytes form month revision) (option_copied levels.entry)) }
{
    match levels {
        None => Ok(None),
        Some(levels) => Ok(Some(printed(alloc, form, month, revision, levels.as_slice())?)),
    }
}
