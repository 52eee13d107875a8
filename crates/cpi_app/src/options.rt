//! The options of the command line, and the values that the arguments give them.
ghost use Rattle.std.specs.Prelude.{◌≡◌, ◌≤◌, ◌⊎◌, ℕ, Option, IfSome, IfNone, codes, false, option_map};
ghost use Rattle.clap.specs.Words.{Text, rule_of, found_of, rows_of, first_of};
ghost use Rattle.cpi_app.specs.Command.{HasDeskKey, HasNumber, HasRevision, HasText, HasZone};
ghost use Rattle.cpi_app.specs.Command.{option, required_option, optional_number, number_option};
ghost use Rattle.cpi_app.specs.declared.job.DeskKey.{DeskKey};

use crate::job::DeskKey;
use crate::limits::MOST_CONNECTIONS;
use clap::builder::ValueParser;
use clap::{Arg, ArgMatches};
use cpi_codes::LAST_MOMENT;
use cpi_release::Revision;
use std::alloc::Global;

/// An option with a value, and its line in the help.
pub fn option<'a>(alloc: Global, name: &'a str, help: &'a str) -> Arg<'a>
    ensures rule { rule_of result ≡ option name.entry.now }
    ensures local { result.global ≡ false }
{
    Arg::new(alloc, name).long(name).help(help)
}

/// An option that has to be given.
pub fn required<'a>(alloc: Global, name: &'a str, help: &'a str) -> Arg<'a>
    ensures rule { rule_of result ≡ required_option name.entry.now }
    ensures local { result.global ≡ false }
{
    option(alloc, name, help).required(true)
}

/// An option whose value is a number from `low` to `high`.
pub fn optional_number<'a>(
    alloc: Global,
    name: &'a str,
    help: &'a str,
    low: u64,
    high: u64,
) -> Arg<'a>
    ensures rule { rule_of result ≡ optional_number name.entry.now low high }
    ensures local { result.global ≡ false }
{
    option(alloc, name, help).value_parser(ValueParser::Unsigned(low, high))
}

/// An option that has to be given and whose value is a number from `low` to `high`.
pub fn number<'a>(alloc: Global, name: &'a str, help: &'a str, low: u64, high: u64) -> Arg<'a>
    ensures rule { rule_of result ≡ number_option name.entry.now low high }
    ensures local { result.global ≡ false }
{
    required(alloc, name, help).value_parser(ValueParser::Unsigned(low, high))
}

/// The value of an option. `None` if it wasn't given.
pub fn text_of<'a>(matches: &ArgMatches<'a>, name: &str) -> Option<&'a str>
    ensures { option_map (λ t. t.now) result ≡ first_of name.now (rows_of (found_of matches.now)) }
{
    matches.get_str(name)
}

/// The zone that was given, or `UTC0`.
pub fn zone_of<'a>(matches: &ArgMatches<'a>) -> &'a str
    ensures { HasZone (rows_of (found_of matches.now)) result.now }
{
    match text_of(matches, "zone") {
        Some(zone) => zone,
        None => "UTC0",
    }
}

/// The number of the port, at least 1. `None` if none was given.
pub fn port_of(matches: &ArgMatches) -> Option<u16>
    ensures some { IfSome result (λ n. HasNumber 16 (rows_of (found_of matches.now)) (codes "port") n × (1 ≤ n)) }
    ensures none { IfNone result ((n : ℕ) → HasNumber 16 (rows_of (found_of matches.now)) (codes "port") n → 1 ≤ n
        → ⊥) }
{
    match matches.get_one::<u16>("port") {
        Some(port) if port >= 1 => Some(port),
        _ => None,
    }
}

/// The place of the desk's key, by the one of its two options that was given. `None` if neither or both were.
pub fn desk_key_of<'a>(matches: &ArgMatches<'a>) -> Option<DeskKey<'a>>
    ensures some { IfSome result (HasDeskKey (rows_of (found_of matches.now))) }
    ensures none { IfNone result ((key : DeskKey) → HasDeskKey (rows_of (found_of matches.now)) key → ⊥) }
{
    match (
        text_of(matches, "desk-key"),
        text_of(matches, "desk-key-file"),
    ) {
        (Some(key), None) => Some(DeskKey::Word(key)),
        (None, Some(path)) => Some(DeskKey::File(path)),
        _ => None,
    }
}

/// How many connections to serve, from 1 to `MOST_CONNECTIONS`. `None` if no such number was given.
pub fn limit_of(matches: &ArgMatches) -> Option<u32>
    ensures some { IfSome result (λ n.
        HasNumber 32 (rows_of (found_of matches.now)) (codes "limit") n × (1 ≤ n) × (n ≤ MOST_CONNECTIONS)) }
    ensures none { IfNone result ((n : ℕ) → HasNumber 32 (rows_of (found_of matches.now)) (codes "limit") n → 1 ≤ n
        → n ≤ MOST_CONNECTIONS → ⊥) }
{
    match matches.get_one::<u32>("limit") {
        Some(limit) if limit >= 1 && limit <= MOST_CONNECTIONS => Some(limit),
        _ => None,
    }
}

/// The moment in seconds since 1970 UTC, at most `LAST_MOMENT`. `None` if none was given.
pub fn second_of(matches: &ArgMatches) -> Option<u64>
    ensures some { IfSome result (λ n.
        HasNumber 64 (rows_of (found_of matches.now)) (codes "at") n × (n ≤ LAST_MOMENT)) }
    ensures none { IfNone result ((n : ℕ) → HasNumber 64 (rows_of (found_of matches.now)) (codes "at") n
        → n ≤ LAST_MOMENT → ⊥) }
{
    match matches.get_one::<u64>("at") {
        Some(second) if second <= LAST_MOMENT => Some(second),
        _ => None,
    }
}

/// The revision that was given, or `Some(None)` if none was. `None` if the value isn't a number from 1 to 9.
pub fn revision_of(matches: &ArgMatches) -> Option<Option<Revision>>
    ensures some { IfSome result (HasRevision (rows_of (found_of matches.now))) }
    ensures none { IfNone result ((r : Option ℕ) → HasRevision (rows_of (found_of matches.now)) r → ⊥) }
{
    if text_of(matches, "revision").is_none() {
        return Some(None);
    }
    let number = matches.get_one::<u8>("revision")?;
    let revision = Revision::new(u64::from(number))?;
    Some(Some(revision))
}

/// The form of a table, `text` or `csv`. `None` if the value is another one.
pub fn form_of<'a>(matches: &ArgMatches<'a>) -> Option<&'a str>
    ensures some { IfSome result (λ t. HasText (rows_of (found_of matches.now)) (codes "form") t.now
        × ((t.now ≡ codes "text") ⊎ (t.now ≡ codes "csv"))) }
    ensures none { IfNone result ((t : Text) → HasText (rows_of (found_of matches.now)) (codes "form") t
        → (t ≡ codes "text") ⊎ (t ≡ codes "csv") → ⊥) }
{
    match text_of(matches, "form") {
        Some(form) if form == "text" || form == "csv" => Some(form),
        _ => None,
    }
}
