//! A job over the book of an office, whatever keeps the office.
ghost use Rattle.cpi_files.specs.Job.{Deed};

use cpi_store::Book;
use std::alloc::Global;
use std::io::{Read, Write};

/// A job over the book of an office. It may read an input, and write an output and the lines of faults.
pub trait BookJob {
    /// The job's report of how it went.
    type Told;

    /// The relation of its input, its book and its outputs.
    ghost does: { Self → Deed Self.Told };

    /// Does the job, and hands the book back, also after an error.
    fn run<B: Book, R: Read, W: Write, E: Write>(
        &mut self,
        alloc: Global,
        book: B,
        reader: &mut R,
        out: &mut W,
        err: &mut E,
    ) -> (B, Self::Told)
        ensures { does self.old _ B.state book result.0
            (R.remaining reader.old) (W.contents out.old) (W.contents out.new) result.1 };
}
