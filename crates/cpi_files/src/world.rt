//! The world of a run of the program: its arguments, its streams, its folder, its network and its clock.
ghost use Rattle.std.specs.Prelude.{◌≡◌, ◌⊎◌, ℕ, List, IfOk, IfErr, map, string_bytes};
ghost use Rattle.cpi_app.specs.declared.fault.RunFault.{RunFault};
ghost use Rattle.cpi_files.specs.World.{AreUnread};
ghost use Rattle.cpi_files.specs.declared.world.Ends.{Ends};

use crate::folder::Folder;
use cpi_app::{Network, RunFault};
use std::alloc::Global;
use std::io::{Read, Write};
use std::time::Clock;

/// The ends of a run: its input, its output, the lines of its errors, and the files of a folder.
#[derive(Drop)]
pub struct Ends<I, O, E, F> {
    pub input: I,
    pub output: O,
    pub errors: E,
    pub folder: F,
}

/// The world of a run of the program. Only it gives a run what the run reads and writes.
pub trait World: Network + Clock + Eprint {
    /// The input.
    type Input: Read + Drop;

    /// The output.
    type Output: Write + Drop;

    /// Where the lines of errors are written.
    type Errors: Write + Drop;

    /// The folder in which paths begin.
    type Folder: Folder + Drop;

    /// Which arguments follow the program's name.
    ghost has_words: { Self → List (List ℕ) → Type 0 };

    /// Why the arguments can't be read, if they can't.
    ghost lacks_words: { Self → RunFault → Type 0 };

    /// The ends with which a run may begin.
    ghost begins: { Self → Ends Self.Input Self.Output Self.Errors Self.Folder → Type 0 };

    /// The arguments after the program's name. The errors are `BadWord` if one isn't UTF-8, and a lack of memory.
    fn words(&self, alloc: Global) -> Result<Vec<String>, RunFault>
        ensures ok { IfOk result (λ words. has_words self.now (map string_bytes words.items)) }
        ensures err { IfErr result (AreUnread (lacks_words self.now)) };

    /// What the run reads and writes.
    fn begin(&self) -> Ends<Self::Input, Self::Output, Self::Errors, Self::Folder>
        ensures { begins self.now result };
}
