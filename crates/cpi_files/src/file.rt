//! The file of an office at a path of a folder.
ghost use Rattle.std.specs.Prelude.{◌≡◌, ◌++◌, IfOk, IsTrue, IsFalse, codes, string_bytes};
ghost use Rattle.cpi_files.specs.declared.folder.Found.{Found};
ghost use Rattle.cpi_files.specs.Folder.{HasNoLoneLog, HasNoBytes, IsMissing, IsNotMissing, IsPath, folder_of};

use crate::cabinet::Cabinet;
use crate::folder::{Folder, Found};
use cpi_sql::OpenFault;
use sqlite::{Files, Options};
use std::alloc::{AllocError, Global};
use std::path::Path;

/// How many bytes a log has once everything in it has been copied into its file.
pub const EMPTY_LOG: u64 = 41;

// Whether the database library accepts the text as a path.
fn is_path(words: &str) -> bool
    ensures yes { IsTrue result → IsPath words.now }
    ensures no { IsFalse result → IsPath words.now → ⊥ }
{
    words != ":memory:" && !words.as_bytes().starts_with(b"file:")
}

// The path of the folder that a file is in.
fn folder_of(path: &str) -> &str
    ensures { result.now ≡ folder_of path.now }
{
    match Path::new(path).parent() {
        Some(folder) if !folder.as_str().is_empty() => folder.as_str(),
        _ => ".",
    }
}

/// Whether there is no file at the path, in a folder that exists, so that a job would make one. A file that can't be
/// opened for another reason exists.
pub fn is_missing<F: Folder>(folder: &F, path: &str) -> bool
    ensures yes { IsTrue result → IsMissing F.Folder folder.now path.now }
    ensures no { IsFalse result → IsNotMissing F.Folder folder.now path.now }
{
    if !is_path(path) {
        return false;
    }
    match folder.find(path) {
        Found::Missing => {}
        _ => return false,
    }
    match folder.find(folder_of(path)) {
        Found::There(_) => true,
        _ => false,
    }
}

// The path of the log of a file.
fn log_of(alloc: Global, path: &str) -> Result<String, AllocError>
    ensures { IfOk result (λ log. string_bytes log ≡ path.now ++ codes "-wal") }
{
    format!(in alloc; "{path}-wal")
}

// Whether a log has bytes to lose, or may have some.
fn has_bytes<F: Folder>(folder: &F, log: &str) -> bool
    ensures { IsFalse result → (found : Found F.File) × F.finds folder.now log.now found
        × HasNoBytes F.Folder found }
{
    match folder.find(log) {
        Found::Missing => false,
        Found::Unread => true,
        Found::There(log) => match folder.length_of(&log) {
            Some(length) => length > EMPTY_LOG,
            None => true,
        },
    }
}

// Whether there is a log that isn't empty, but no file. The log may contain answered commands, and an open would make
// another file and empty the log. If memory is lacking or the log can't be examined, the answer is yes.
fn has_only_log<F: Folder>(alloc: Global, folder: &F, path: &str) -> bool
    ensures { IsFalse result → HasNoLoneLog F.Folder folder.now path.now }
{
    if !is_missing(folder, path) {
        return false;
    }
    match log_of(alloc, path) {
        Ok(log) => has_bytes(folder, log.as_str()),
        Err(_) => true,
    }
}

/// The file at a path of a folder and its log, `PATH-wal`. They are closed when they are put back, and may be taken
/// many times. Nothing is assumed about their contents. A missing file is made, unless it has a log that has bytes to
/// lose or can't be examined.
#[derive(Drop)]
pub struct FileAt<'a, F> {
    pub folder: F,
    pub path: &'a str,
    pub alloc: Global,
}

impl<F> FileAt<'_, F> {
    /// The folder.
    pub fn into_folder(self) -> F
        ensures { result ≡ self.entry.folder }
    {
        let FileAt {
            folder,
            path: _,
            alloc: _,
        } = self;
        folder
    }
}

impl<F: Folder + Drop> Cabinet for FileAt<'_, F> {
    ghost use Rattle.std.specs.Prelude.{◌≡◌, ◌⊎◌, Some, None};
    ghost use Rattle.cpi_store.specs.declared.open_fault.OpenFault.TheVariants.{Store};
    ghost use Rattle.cpi_files.specs.Folder.{IsMadeAndOpened};

    type Medium = F::Medium;

    ghost gives = { λ at files away. (away.path.now ≡ at.path.now)
        × IsMadeAndOpened F.Folder at.path.now at.folder (Some files) away.folder };

    ghost refuses = { λ at fault away. (fault ≡ Store) × (away.path.now ≡ at.path.now)
        × ((away.folder ≡ at.folder) ⊎ IsMadeAndOpened F.Folder at.path.now at.folder None away.folder) };

    ghost keeps = { λ away files back. back ≡ away };

    fn take(&mut self) -> Result<(Files<F::Medium>, Options), OpenFault> {
        let path = self.path;
        if !is_path(path) || has_only_log(self.alloc, &self.folder, path) {
            return Err(OpenFault::Store);
        }
        let Some(seed) = self.folder.seed() else {
            return Err(OpenFault::Store);
        };
        self.folder.make(path);
        match self.folder.open(path) {
            Some(files) => Ok((files, Options::new(seed))),
            None => Err(OpenFault::Store),
        }
    }

    fn put_back(&mut self, files: Files<F::Medium>)
        ensures { self.new ≡ self.old }
    {
        drop(files);
    }
}
