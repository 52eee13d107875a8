//! The machine's folder, and the world of a run on it. Nobody knows in advance which files the folder contains, and
//! which bytes they have, or which arguments and input a run gets. So no contract says it: people read this file, and
//! tests run it.
ghost use Rattle.std.specs.Prelude.{⊤};

use crate::folder::{Folder, Found};
use crate::world::{Ends, World};
use cpi_app::RunFault;
use cpi_wire::WireFault;
use sqlite::{FileFrom, Files, Unknown};
use std::alloc::Global;
use std::env;
use std::fs::{File, OpenOptions};
use std::hash::{BuildHasher, RandomState};
use std::io::{ErrorKind, Stderr, StdinLock, Stdout};
use std::os::unix::fs::OpenOptionsExt;

/// The permissions of a file that is made here: only its owner may read and write it.
const ONLY_OWNER: u32 = 0o600;

impl Folder for HostRuntime {
    type File = File;

    type Medium = FileFrom<Unknown>;

    ghost finds = { λ _ _ _. ⊤ };

    ghost measures = { λ _ _. ⊤ };

    ghost makes = { λ _ _ _. ⊤ };

    ghost opens = { λ _ _ _ _. ⊤ };

    fn find(&self, path: &str) -> Found<File> {
        match File::open(self, path) {
            Ok(file) => Found::There(file),
            Err(error) if error.kind() == ErrorKind::NotFound => Found::Missing,
            Err(_) => Found::Unread,
        }
    }

    fn length_of(&self, file: &File) -> Option<u64> {
        Some(file.metadata().ok()?.len())
    }

    // The database library gives the log the same permissions.
    fn make(&mut self, path: &str) {
        let _made = OpenOptions::new()
            .write(true)
            .create_new(true)
            .mode(ONLY_OWNER)
            .open(self, path);
    }

    fn open(&mut self, path: &str) -> Option<Files<FileFrom<Unknown>>> {
        sqlite_std_file::open(self, path, Unknown).ok()
    }

    fn seed(&self) -> Option<u64> {
        Some(RandomState::new(self).ok()?.hash_one(&0u8))
    }
}

impl World for HostRuntime {
    type Input = StdinLock<'static>;

    type Output = Stdout;

    type Errors = Stderr;

    type Folder = HostRuntime;

    ghost has_words = { λ _ _. ⊤ };

    ghost lacks_words = { λ _ _. ⊤ };

    ghost begins = { λ _ _. ⊤ };

    fn words(&self, alloc: Global) -> Result<Vec<String>, RunFault> {
        let all = match env::args(self) {
            Ok(all) => all,
            Err(error) if error.kind() == ErrorKind::OutOfMemory => {
                return Err(RunFault::Wire(WireFault::NoMemory));
            }
            Err(_) => return Err(RunFault::BadWord),
        };
        let mut words = Vec::new(alloc);
        for word in all.skip(1) {
            words.push(word)?;
        }
        Ok(words)
    }

    fn begin(&self) -> Ends<StdinLock<'static>, Stdout, Stderr, HostRuntime> {
        Ends {
            input: self.reader(),
            output: self.stdout(),
            errors: self.stderr(),
            folder: *self,
        }
    }
}
