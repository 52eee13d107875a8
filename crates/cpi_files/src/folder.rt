//! A folder, in which files are found by their paths.
ghost use Rattle.std.specs.Prelude.{◌≡◌, ℕ, List, Option, IfSome, IsTrue};
ghost use Rattle.sqlite_disk.specs.declared.Files.{Files};
ghost use Rattle.cpi_files.specs.declared.folder.Found.{Found};

use sqlite::Files;
use sqlite_disk::Disk;
use std::io::Read;

/// The outcome of opening a file to read it.
#[derive(Drop)]
pub enum Found<F> {
    /// The file was opened.
    There(F),
    /// There is no file at the path.
    Missing,
    /// It couldn't be opened for another reason.
    Unread,
}

/// A folder, in which files are found by their paths. Each job reaches the machine's files only through it.
pub trait Folder {
    /// A file that is read.
    type File: Read + Drop;

    /// The medium of an office's two files.
    type Medium: Disk + Drop;

    /// The outcomes that opening the file at a path may have.
    ghost finds: { Self → List ℕ → Found Self.File → Type 0 };

    /// How many bytes a file has, or that nobody knows.
    ghost measures: { Self.File → Option ℕ → Type 0 };

    /// The folder after a file is made at a path, for its owner only; the same folder if there already was a file.
    ghost makes: { Self → List ℕ → Self → Type 0 };

    /// Which two files of an office were opened at a path, and the folder afterwards. `None` if they weren't opened.
    ghost opens: { Self → List ℕ → Option (Files Self.Medium) → Self → Type 0 };

    /// Opens the file at the path to read it.
    fn find(&self, path: &str) -> Found<Self::File>
        ensures { finds self.now path.now result };

    /// How many bytes the file has. `None` if that isn't known.
    fn length_of(&self, file: &Self::File) -> Option<u64>
        ensures { measures file.now result };

    /// Makes a file at the path if there is none. Only its owner may read and write it. (If this fails, so does the
    /// open of the office's files.)
    fn make(&mut self, path: &str)
        ensures { makes self.old path.now self.new };

    /// Opens the two files of an office, the database at the path and its log. `None` if that fails.
    fn open(&mut self, path: &str) -> Option<Files<Self::Medium>>
        ensures opened { opens self.old path.now result self.new }
        ensures log { IfSome result (λ files. IsTrue (Self.Medium.Disk.is_usable files.log)) }
        ensures db { IfSome result (λ files. IsTrue (Self.Medium.Disk.is_usable files.db)) };

    /// A number that nobody can guess. `None` if there is none.
    fn seed(&self) -> Option<u64>;
}
