//! The place of an office's files.
ghost use Rattle.std.specs.Prelude.{IfErr, IfOk, IsTrue};
ghost use Rattle.sqlite_disk.specs.declared.Files.{Files};
ghost use Rattle.cpi_store.specs.declared.open_fault.OpenFault.{OpenFault};

use cpi_sql::OpenFault;
use sqlite::{Files, Options};
use sqlite_disk::Disk;

/// The place of an office's two files, the database file and its log. They are taken from it, and put back.
pub trait Cabinet {
    /// The medium of the files: a disk, or memory.
    type Medium: Disk + Drop;

    /// Which files it gives, and its state while they are away.
    ghost gives: { Self → Files Self.Medium → Self → Type 0 };

    /// Why it gives none, and its state then.
    ghost refuses: { Self → OpenFault → Self → Type 0 };

    /// Its state once it has the files back.
    ghost keeps: { Self → Files Self.Medium → Self → Type 0 };

    /// Gives the files, and how to open them. It never gives files that can no longer be used. The error says why it
    /// gives none.
    fn take(&mut self) -> Result<(Files<Self::Medium>, Options), OpenFault>
        ensures given { IfOk result (λ it. gives self.old it.0 self.new) }
        ensures refused { IfErr result (λ fault. refuses self.old fault self.new) }
        ensures log { IfOk result (λ it. IsTrue (Self.Medium.Disk.is_usable it.0.log)) }
        ensures db { IfOk result (λ it. IsTrue (Self.Medium.Disk.is_usable it.0.db)) };

    /// Takes the files back.
    fn put_back(&mut self, files: Files<Self::Medium>)
        ensures { keeps self.old files self.new };
}
