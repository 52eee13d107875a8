//! A job in the office of files that are taken from a cabinet and put back.
ghost use Rattle.std.specs.Prelude.{◌≡◌, IfErr, IfOk};
ghost use Rattle.cpi_files.specs.Taken.{IsDoneFrom, IsRefusedFrom};

use crate::cabinet::Cabinet;
use crate::files::job_in_files;
use crate::job::BookJob;
use cpi_sql::OpenFault;
use std::alloc::Global;
use std::io::{Read, Write};

/// Takes the files from the cabinet, does the job in their office as `job_in_files` does, and puts them back. If the
/// cabinet gives no files, the job doesn't begin, and the error says why.
pub fn job_in_cabinet<C: Cabinet, J: BookJob, R: Read, W: Write, E: Write>(
    alloc: Global,
    cabinet: &mut C,
    job: &mut J,
    reader: &mut R,
    out: &mut W,
    err: &mut E,
) -> Result<(J::Told, Result<(), OpenFault>), OpenFault>
    ensures done { IfOk result (λ it. IsDoneFrom C.Cabinet C.Medium.Disk cabinet.old cabinet.new (J.does job.old)
        (R.remaining reader.old) (W.contents out.old) (W.contents out.new) it.0 it.1) }
    ensures refused { IfErr result (IsRefusedFrom C.Cabinet C.Medium.Disk cabinet.old cabinet.new) }
    ensures untouched { IfErr result (λ _. (reader.new ≡ reader.old)
        × (out.new ≡ out.old) × (err.new ≡ err.old)) }
{
    let (files, options) = cabinet.take()?;
    let (outcome, files) = job_in_files(alloc, files, options, job, reader, out, err);
    cabinet.put_back(files);
    outcome
}
