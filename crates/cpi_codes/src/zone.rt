//! The clocks of places, and the moments that civil times mean by them.
ghost use Rattle.std.specs.Prelude.{◌≡◌, ◌↔◌, ◌≤ℤ◌, pos, IsOk, IsSome, IfOk, IfErr, IfSome, IfNone};
ghost use Rattle.jiff.specs.Placed.{IsPosixZone};
ghost use Rattle.jiff.specs.Words.{read_whole};
ghost use Rattle.std.specs.Result.{result_ok};
ghost use Rattle.cpi_codes.specs.declared.limits.TheConstants.{LAST_MOMENT};
ghost use Rattle.cpi_codes.specs.Clock.{moment_in};
ghost use Rattle.cpi_codes.specs.Picked.{PicksAsStated};
ghost use Rattle.cpi_codes.specs.Zone.{ZoneGives, OneAnswer};

use crate::civil::civil_of;
use crate::moments::Moment;
use jiff::tz::TimeZone;
use std::marker::Model;

const FIRST_YEAR: u16 = 2000;

const LAST_YEAR: u16 = 2199;

/// The rule of a place's clock: its offset from UTC, and when summer time begins and ends.
#[derive(Clone, Copy)]
pub struct Zone {
    rule: TimeZone<'static>,
}

impl Model for Zone {
    ghost use Rattle.jiff.specs.Words.{plain_zone};
    ghost use Rattle.jiff_tz.specs.declared.timezone.TimeZone.{TimeZone as ZoneRule};

    ghost Value = { ZoneRule };

    ghost view = { λ z. plain_zone z.rule };

    ghost inverse = { λ z. record { rule = record { inner = z } } };
}

/// Why there is no zone, or no moment. Where a civil text has two faults, the first of this order is told.
#[derive(Clone, Copy, Debug, PartialEq, Eq)]
pub enum MomentFault {
    /// The text isn't `YYYY-MM-DDTHH:MM`, or the calendar has no such time.
    Text,
    /// The text is no rule of a clock.
    Zone,
    /// The civil year lies outside 2000 to 2199.
    Range,
    /// Memory was refused. Neither call takes any, so this never comes.
    NoMemory,
}

/// The zone of a POSIX rule, as `CET-1CEST,M3.5.0,M10.5.0/3` or `UTC0`. The one fault is `Zone`.
pub fn zone_of(text: &str) -> Result<Zone, MomentFault>
    ensures succeeds { IsOk result ↔ IsSome (read_whole text.now) }
    ensures value { IfOk result (λ zone. IsPosixZone text.now zone) }
    ensures err { IfErr result (λ fault. fault ≡ MomentFault.Zone) }
{
    match TimeZone::posix(text) {
        Ok(rule) => Ok(Zone { rule }),
        Err(_) => Err(MomentFault::Zone),
    }
}

/// The moment at which a clock of the zone shows the time `YYYY-MM-DDTHH:MM`: of two such moments the earlier, and
/// where the clock leaves that time out, the moment as much later as the clock is moved forward. The faults are
/// `Text` and then `Range`.
#[tactic(auto, using(crate::proofs::Clock::gives_moment))]
pub fn moment_at(zone: &Zone, text: &[u8]) -> Result<Moment, MomentFault>
    ensures gives { ZoneGives zone.now text.now result }
    ensures value { result_ok result ≡ moment_in zone.now text.now }
{
    given_at(zone, text)
}

// The same, told by what it gives alone.
fn given_at(zone: &Zone, text: &[u8]) -> Result<Moment, MomentFault>
    ensures { ZoneGives zone.now text.now result }
{
    let Some(civil) = civil_of(text) else {
        return Err(MomentFault::Text);
    };
    if civil.year < FIRST_YEAR || LAST_YEAR < civil.year {
        return Err(MomentFault::Range);
    }
    let Ok(timestamp) = zone.rule.to_timestamp(civil.time) else {
        return Err(MomentFault::Range);
    };
    match moment_of(timestamp.as_second()) {
        Some(moment) => Ok(moment),
        None => Err(MomentFault::Range),
    }
}

// The moment so many seconds after 1970 began in UTC, if it is one.
fn moment_of(second: i64) -> Option<Moment>
    ensures found { IfSome result (λ moment. pos moment ≡ second) }
    ensures none { IfNone result ((pos 0 ≤ℤ second) × (second ≤ℤ pos LAST_MOMENT) → ⊥) }
{
    if second < 0 {
        return None;
    }
    Moment::new(second as u64)
}

/// A zone and a text have one answer.
pub fn one_answer()
    ensures { OneAnswer }
{}

/// Of two moments the earlier is given, and a time that a clock leaves out is moved forward by the gap.
pub fn picks_as_stated()
    ensures { PicksAsStated }
{}
