//! The jobs that the arguments of the program can ask for.

use cpi_release::Revision;

/// The place of the desk's key: among the arguments, or in a file.
#[derive(Clone, Copy, PartialEq, Eq)]
pub enum DeskKey<'a> {
    /// The key itself.
    Word(&'a str),
    /// The path of the file that contains it.
    File(&'a str),
}

/// A command with the values of its options, as the arguments give them.
#[derive(Clone, Copy, PartialEq, Eq)]
pub enum Job<'a> {
    /// Records from standard input, reply lines to standard output, in the office of the database, or in one in memory
    /// that is empty at first; civil times are read by the clock of the zone.
    Replay {
        zone: &'a str,
        db: Option<&'a str>,
    },
    /// The office of the database by HTTP, at a port of this machine, for `limit` connections one after another, with
    /// the desk's key.
    Serve {
        db: &'a str,
        port: u16,
        key: DeskKey<'a>,
        limit: u32,
        zone: &'a str,
    },
    /// The table of a month, in a revision or else in the latest, as it was published by that moment (seconds since
    /// 1970 UTC), as `text` or as `csv`.
    Table {
        db: &'a str,
        month: &'a str,
        revision: Option<Revision>,
        form: &'a str,
        at: u64,
    },
}
