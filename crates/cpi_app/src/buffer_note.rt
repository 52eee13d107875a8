//! Reading a message through a buffer, and whether that has failed.
ghost use Rattle.std.specs.Prelude.{◌≡◌, false};

use cpi_wire::ReadNote;
use std::io::{BufReader, Read};
use std::marker::PhantomData;

/// Notes whether reading a message from an `R` through a buffer failed, or took too many calls. Only
/// [`BufferNote::take`] changes it, and only by the note of reading from a buffer over an `R`.
#[derive(Drop)]
pub struct BufferNote<R> {
    has_failed: bool,
    of: PhantomData<R>,
}

impl<R: Read> BufferNote<R> {
    /// The note before the first read.
    pub fn new() -> BufferNote<R>
        ensures { result.has_failed ≡ false }
    {
        BufferNote {
            has_failed: false,
            of: PhantomData,
        }
    }

    /// Says what the note of the buffer says.
    pub fn take(&mut self, note: &ReadNote<BufReader<&mut R>>)
        ensures { self.new.has_failed ≡ note.now.has_failed }
    {
        self.has_failed = note.has_failed();
    }
}
