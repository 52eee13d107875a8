//! The arguments of the command line: the program's commands with their options, and the job that they ask for.
ghost use Rattle.std.specs.Prelude.{◌≡◌, ◌≢◌, IfOk, IfErr, IfSome, IfNone, map, false, codes, Some, List};
ghost use Rattle.clap.specs.Words.{app_of, new_app, found_of, rows_of, subcommand_rows_of, kind_of, Text, Row};
ghost use Rattle.clap.specs.declared.error.kind.ErrorKind.TheVariants.{OutOfMemory};
ghost use Rattle.clap.specs.declared.builder.command.Command.TheViews.{out-Command};
ghost use Rattle.cpi_app.specs.Command.{AreRefused, GivesJob, IsJob, cpi, replay, serve, table};
ghost use Rattle.cpi_app.specs.declared.job.Job.{Job};

use crate::help;
use crate::job::Job;
use crate::limits::MOST_CONNECTIONS;
use crate::options::{
    desk_key_of, form_of, limit_of, number, option, optional_number, port_of, required,
    revision_of, second_of, text_of, zone_of,
};
use crate::version::VERSION;
use clap::error::ErrorKind;
use clap::{ArgMatches, Command, Error};
use cpi_codes::LAST_MOMENT;
use std::alloc::{AllocError, Global};

const ZONE_HELP: &str = "A POSIX time zone, as CET-1CEST,M3.5.0,M10.5.0/3; else UTC0";

const FILE_HELP: &str = "The database file of the office; it is made if it is missing";

const TABLE_FILE_HELP: &str = "The database file of the office";

const KEY_HELP: &str = "The key of the desk, 32 characters of 0-9 and a-f";

const KEY_FILE_HELP: &str = "The file that contains the key of the desk";

// A command without options. The caller adds them.
fn subcommand<'a>(alloc: Global, name: &'a str, about: &'a str, after: &'a str) -> Command<'a>
    ensures app { app_of result ≡ new_app name.entry.now }
    ensures local { (out-Command result).has_globals ≡ false }
{
    Command::new(alloc, name).about(about).after_help(after)
}

// The command `cpi replay`, with its options. It fails if there is no memory.
fn replay_command<'a>(alloc: Global) -> Result<Command<'a>, AllocError>
    ensures app { IfOk result (λ c. app_of c ≡ replay) }
    ensures local { IfOk result (λ c. (out-Command c).has_globals ≡ false) }
{
    subcommand(
        alloc,
        "replay",
        "Reads records from standard input, and writes a line in reply to each",
        help::REPLAY,
    )
    .arg(option(alloc, "zone", ZONE_HELP))?
    .arg(option(alloc, "db", FILE_HELP))
}

// The command `cpi serve` without its options, with its usage.
fn bare_serve<'a>(alloc: Global) -> Command<'a>
    ensures app { app_of result ≡ new_app (codes "serve") }
    ensures local { (out-Command result).has_globals ≡ false }
{
    subcommand(
        alloc,
        "serve",
        "Serves the office over HTTP on a port of this machine, one connection after another",
        help::SERVE,
    )
    .override_usage(help::SERVE_USAGE)
}

// The command `cpi serve`, with its options. It fails if there is no memory.
fn serve_command<'a>(alloc: Global) -> Result<Command<'a>, AllocError>
    ensures app { IfOk result (λ c. app_of c ≡ serve) }
    ensures local { IfOk result (λ c. (out-Command c).has_globals ≡ false) }
{
    bare_serve(alloc)
        .arg(required(alloc, "db", FILE_HELP))?
        .arg(number(
            alloc,
            "port",
            "The port on 127.0.0.1, 1 to 65535",
            1,
            65_535,
        ))?
        .arg(option(alloc, "desk-key", KEY_HELP))?
        .arg(option(alloc, "desk-key-file", KEY_FILE_HELP))?
        .arg(number(
            alloc,
            "limit",
            "How many connections to serve, 1 to 1000000",
            1,
            MOST_CONNECTIONS as u64,
        ))?
        .arg(option(alloc, "zone", ZONE_HELP))
}

// The command `cpi table`, with its options. It fails if there is no memory.
fn table_command<'a>(alloc: Global) -> Result<Command<'a>, AllocError>
    ensures app { IfOk result (λ c. app_of c ≡ table) }
    ensures local { IfOk result (λ c. (out-Command c).has_globals ≡ false) }
{
    subcommand(
        alloc,
        "table",
        "Prints the table of a month as it was published by a moment",
        help::TABLE,
    )
    .arg(required(alloc, "db", TABLE_FILE_HELP))?
    .arg(required(alloc, "month", "The month, like 2026-01"))?
    .arg(required(alloc, "form", "text or csv"))?
    .arg(number(
        alloc,
        "at",
        "The moment, in seconds since 1970 UTC",
        0,
        LAST_MOMENT,
    ))?
    .arg(optional_number(
        alloc,
        "revision",
        "The revision, 1 to 9; the latest published by then if none is given",
        1,
        9,
    ))
}

// The whole command line. It fails if there is no memory.
fn cpi_command<'a>(alloc: Global) -> Result<Command<'a>, AllocError>
    ensures app { IfOk result (λ c. app_of c ≡ cpi) }
    ensures local { IfOk result (λ c. (out-Command c).has_globals ≡ false) }
{
    Command::new(alloc, "cpi")
        .version(VERSION)
        .about("The office of a consumer price survey")
        .after_help(help::CPI)
        .no_binary_name(true)
        .subcommand_required(true)
        .bin_name("cpi")?
        .subcommand(replay_command(alloc)?)?
        .subcommand(serve_command(alloc)?)?
        .subcommand(table_command(alloc)?)
}

// The job of `cpi replay`, by the values of its options.
fn replay_of<'a>(matches: &ArgMatches<'a>) -> Job<'a>
    ensures { IsJob (codes "replay", rows_of (found_of matches.now)) result }
{
    Job::Replay {
        zone: zone_of(matches),
        db: text_of(matches, "db"),
    }
}

// The job of `cpi serve`, by the values of its options. `None` if they give no key of the desk, or two. (`clap` has
// checked the others.)
fn serve_of<'a>(matches: &ArgMatches<'a>) -> Option<Job<'a>>
    ensures some { IfSome result (IsJob (codes "serve", rows_of (found_of matches.now))) }
    ensures none { IfNone result ((job : Job) → IsJob (codes "serve", rows_of (found_of matches.now)) job → ⊥) }
{
    Some(Job::Serve {
        db: text_of(matches, "db")?,
        port: port_of(matches)?,
        key: desk_key_of(matches)?,
        limit: limit_of(matches)?,
        zone: zone_of(matches),
    })
}

// The job of `cpi table`, by the values of its options. `None` if the form is neither text nor csv.
fn table_of<'a>(matches: &ArgMatches<'a>) -> Option<Job<'a>>
    ensures some { IfSome result (IsJob (codes "table", rows_of (found_of matches.now))) }
    ensures none { IfNone result ((job : Job) → IsJob (codes "table", rows_of (found_of matches.now)) job → ⊥) }
{
    Some(Job::Table {
        db: text_of(matches, "db")?,
        month: text_of(matches, "month")?,
        revision: revision_of(matches)?,
        form: form_of(matches)?,
        at: second_of(matches)?,
    })
}

// Why the options of a command give no job.
fn fault_of(matches: &ArgMatches) -> &'static str {
    match matches.subcommand() {
        Some(("serve", _)) => "give either --desk-key-file or --desk-key",
        _ => "a form is text or csv",
    }
}

// The job of the command that the arguments name. `None` if its options give none.
fn job_of<'a>(matches: &ArgMatches<'a>) -> Option<Job<'a>>
    ensures some { IfSome result (λ job. (sub : Text × List Row)
        × (subcommand_rows_of matches.now ≡ Some sub) × IsJob sub job) }
    ensures none { IfNone result ((sub : Text × List Row) → subcommand_rows_of matches.now ≡ Some sub → (job : Job)
        → IsJob sub job → ⊥) }
{
    let (name, options) = matches.subcommand()?;
    match name {
        "replay" => Some(replay_of(options)),
        "serve" => serve_of(options),
        "table" => table_of(options),
        _ => None,
    }
}

/// The job that the arguments after the program's name ask for, as `clap` reads them. The error is `clap`'s and has its
/// text; a request for help or for the version is one too. Only a lack of memory refuses arguments that give a job.
pub fn job_of_words<'a>(alloc: Global, words: &'a [&'a str]) -> Result<Job<'a>, Error>
    ensures job { IfOk result (GivesJob (map (λ s. s.now) words.now)) }
    ensures refused { IfErr result (λ e. kind_of e ≢ OutOfMemory → AreRefused (map (λ s. s.now) words.now)) }
{
    let mut command = cpi_command(alloc)?;
    let matches = command.try_get_matches_from_mut(words)?;
    match job_of(&matches) {
        Some(job) => Ok(job),
        None => Err(command.error(ErrorKind::InvalidValue, fault_of(&matches))?),
    }
}
