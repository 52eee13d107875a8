//! The job of a replay in the office of files.
ghost use Rattle.std.specs.Prelude.{◌≡◌, ◌↔◌, IsNone, IsErrOf};
ghost use Rattle.jiff.specs.Words.{read_whole};
ghost use Rattle.cpi_files.specs.Replay.{EndsIn};

use crate::cabinet::Cabinet;
use crate::job::BookJob;
use crate::taken::job_in_cabinet;
use cpi_app::{RunFault, replay_over_book};
use cpi_codes::{Zone, zone_of};
use cpi_store::Book;
use cpi_wire::Failure;
use std::alloc::Global;
use std::io::{Read, Write, sink};

// The replay of an input, as a job over a book. It adds the clock that reads civil times.
#[derive(Drop)]
struct ReplayByClock {
    clock: Zone,
}

impl BookJob for ReplayByClock {
    ghost use Rattle.cpi_files.specs.Replay.{Replays};

    type Told = Result<(), Failure>;

    ghost does = { λ job. Replays job.clock };

    fn run<B: Book, R: Read, W: Write, E: Write>(
        &mut self,
        alloc: Global,
        book: B,
        reader: &mut R,
        out: &mut W,
        _err: &mut E,
    ) -> (B, Result<(), Failure>) {
        replay_over_book(alloc, &self.clock, book, reader, out)
    }
}

/// Answers the records of the reader, each by its line before the next one is carried out, in the office of the
/// cabinet's files, and closes them. The clock of the zone reads civil times, and a buffer reads the input. If the zone
/// isn't a POSIX rule of a clock, no file is taken, and the error is `BadZone`. If the files hold no office, nothing is
/// read, nothing is written, and they stay as they were. An error in the input takes precedence over one in the close.
pub fn replay_in_cabinet<C: Cabinet, R: Read, W: Write>(
    alloc: Global,
    zone: &str,
    cabinet: &mut C,
    reader: &mut R,
    writer: &mut W,
) -> Result<(), RunFault>
    ensures ended { EndsIn C.Cabinet C.Medium.Disk cabinet.old cabinet.new zone.now
        ((reader.new ≡ reader.old) × (writer.new ≡ writer.old)) (R.remaining reader.old)
        (W.contents writer.old) (W.contents writer.new) result }
    ensures bad_zone { IsErrOf result RunFault.BadZone ↔ IsNone (read_whole zone.now) }
{
    let Ok(clock) = zone_of(zone) else {
        return Err(RunFault::BadZone);
    };
    let mut job = ReplayByClock { clock };
    let (outcome, closed) = job_in_cabinet(alloc, cabinet, &mut job, reader, writer, &mut sink())?;
    outcome?;
    Ok(closed?)
}
