//! A run of the program, which does in its world what its arguments ask for.
ghost use Rattle.std.specs.Prelude.{◌≡◌, ◌≢◌, Err, IfOk, IfErr, map, string_bytes};
ghost use Rattle.clap.specs.Words.{kind_of};
ghost use Rattle.clap.specs.declared.error.kind.ErrorKind.TheVariants.{OutOfMemory};
ghost use Rattle.cpi_app.specs.declared.fault.RunFault.TheVariants.{Wire};
ghost use Rattle.cpi_wire.specs.declared.fault.WireFault.TheVariants.{NoMemory};
ghost use Rattle.cpi_files.specs.Program.{IsDone, IsJobDone, IsKeyOf, IsPrintedAt, IsRefused, IsReplayed, IsReplayedAt};
ghost use Rattle.cpi_files.specs.Program.{IsRun, IsServed, IsServedAt, IsTableAt, IsTextOf, as_status};

use crate::cabinet::Cabinet;
use crate::file::{FileAt, is_missing};
use crate::folder::{Folder, Found};
use crate::replay::replay_in_cabinet;
use crate::serve::run_serve;
use crate::table::table_in_cabinet;
use crate::world::{Ends, World};
use clap::Error;
use clap::error::ErrorKind;
use cpi_app::{
    Address, AskedTable, DeskKey, Job, Listener, LocalPort, OfferNote, OpenPort, RunFault,
    asked_table, job_of_words, read_key, replay_in_memory,
};
use cpi_wire::WireFault;
use std::alloc::Global;
use std::io::{Read, Write};

// The status of a job that ended well, or its error.
fn as_status(done: Result<(), RunFault>) -> Result<u8, RunFault>
    ensures { result ≡ as_status done }
{
    match done {
        Ok(()) => Ok(0),
        Err(fault) => Err(fault),
    }
}

// Answers the records of the input in an office in memory, which is gone after the run.
fn replay_here<I: Read, O: Write, E, F>(
    alloc: Global,
    zone: &str,
    ends: Ends<I, O, E, F>,
) -> (Ends<I, O, E, F>, Result<(), RunFault>)
    ensures { IsReplayed ends result.0 I.remaining O.contents zone.now result.1 }
{
    let mut ends = ends;
    let done = replay_in_memory(alloc, zone, &mut ends.input, &mut ends.output);
    (ends, done)
}

// Answers the records of the input in the office of the file at a path.
fn replay_at<I: Read, O: Write, E, F: Folder + Drop>(
    alloc: Global,
    zone: &str,
    path: &str,
    ends: Ends<I, O, E, F>,
) -> (Ends<I, O, E, F>, Result<(), RunFault>)
    ensures { IsReplayedAt ends result.0 ⟦<FileAt<'static, F> as Cabinet>⟧ F.Medium.Disk I.remaining O.contents
        zone.now path.now result.1 }
{
    let Ends {
        mut input,
        mut output,
        errors,
        folder,
    } = ends;
    let mut file = FileAt {
        folder,
        path,
        alloc,
    };
    let done = replay_in_cabinet(alloc, zone, &mut file, &mut input, &mut output);
    let folder = file.into_folder();
    let left = Ends {
        input,
        output,
        errors,
        folder,
    };
    (left, done)
}

// The text of a key in a file. It is empty, which is no key, if the file can't be read as text: so a wrong zone is
// reported before a wrong key. The error is a lack of memory.
fn key_in<R: Read + Drop>(alloc: Global, file: R) -> Result<String, RunFault>
    ensures text { IfOk result (λ text. IsTextOf (R.remaining file) (string_bytes text)) }
    ensures fault { IfErr result (λ why. why ≡ Wire NoMemory) }
{
    match read_key(alloc, file) {
        Ok(text) => Ok(text),
        Err(RunFault::BadKey) => Ok(String::new(alloc)),
        Err(_) => Err(RunFault::Wire(WireFault::NoMemory)),
    }
}

// The text of the desk's key. It is empty if its file can't be opened, as in `key_in`.
fn key_text<F: Folder>(alloc: Global, folder: &F, key: &DeskKey) -> Result<String, RunFault>
    ensures text { IfOk result (λ text.
        IsKeyOf F.Folder F.File.remaining folder.now key.now (string_bytes text)) }
    ensures fault { IfErr result (λ why. why ≡ Wire NoMemory) }
{
    match *key {
        DeskKey::Word(word) => match String::from_str(alloc, word) {
            Ok(text) => Ok(text),
            Err(_) => Err(RunFault::Wire(WireFault::NoMemory)),
        },
        DeskKey::File(path) => match folder.find(path) {
            Found::There(file) => key_in(alloc, file),
            _ => Ok(String::new(alloc)),
        },
    }
}

// Serves the office of the file at a path, at an address.
fn serve_at<R: Eprint, A: Address, I, O, E, F: Folder + Drop>(
    alloc: Global,
    rt: &R,
    address: &A,
    path: &str,
    key: &str,
    limit: u32,
    zone: &str,
    ends: Ends<I, O, E, F>,
) -> (Ends<I, O, E, F>, Result<(), RunFault>)
    ensures { IsServedAt ends result.0 ⟦<FileAt<'static, F> as Cabinet>⟧ F.Medium.Disk A.Open.meets
        (A.opens address.now) path.now key.now limit zone.now result.1 }
{
    let Ends {
        input,
        output,
        errors,
        folder,
    } = ends;
    let mut file = FileAt {
        folder,
        path,
        alloc,
    };
    let done = run_serve(alloc, rt, &mut file, address, key, limit, zone);
    let folder = file.into_folder();
    let left = Ends {
        input,
        output,
        errors,
        folder,
    };
    (left, done)
}

// Prints the table from the office of the file at a path.
fn print_at<I, O: Write, E: Write, F: Folder + Drop>(
    alloc: Global,
    path: &str,
    asked: AskedTable,
    ends: Ends<I, O, E, F>,
) -> (Ends<I, O, E, F>, Result<u8, RunFault>)
    ensures printed { IsPrintedAt ends result.0 ⟦<FileAt<'static, F> as Cabinet>⟧ F.Medium.Disk O.contents
        path.now asked result.1 }
    ensures input { result.0.input ≡ ends.input }
{
    let Ends {
        input,
        mut output,
        mut errors,
        folder,
    } = ends;
    let mut file = FileAt {
        folder,
        path,
        alloc,
    };
    let outcome = table_in_cabinet(alloc, &mut file, asked, &mut output, &mut errors);
    let folder = file.into_folder();
    let left = Ends {
        input,
        output,
        errors,
        folder,
    };
    (left, outcome)
}

// Prints the table that the arguments ask for from the office of the file at a path. A missing file contains no table,
// and isn't made.
fn table_at<I, O: Write, E: Write, F: Folder + Drop>(
    alloc: Global,
    path: &str,
    asked: Result<AskedTable, RunFault>,
    ends: Ends<I, O, E, F>,
) -> (Ends<I, O, E, F>, Result<u8, RunFault>)
    ensures none { IfErr asked (λ fault. (result.1 ≡ Err fault) × (result.0 ≡ ends)) }
    ensures some { IfOk asked (λ asked. IsTableAt ends result.0 ⟦<FileAt<'static, F> as Cabinet>⟧ F.Medium.Disk
        F.Folder O.contents path.now asked result.1) }
{
    let asked = match asked {
        Ok(asked) => asked,
        Err(fault) => return (ends, Err(fault)),
    };
    if is_missing(&ends.folder, path) {
        return (ends, Err(RunFault::NoTable));
    }
    print_at(alloc, path, asked, ends)
}

// Serves the office of the file at a path, on a port of this machine.
fn serve_of<'w, W: World>(
    alloc: Global,
    world: &'w W,
    path: &str,
    port: u16,
    key: &DeskKey,
    limit: u32,
    zone: &str,
    ends: Ends<W::Input, W::Output, W::Errors, W::Folder>,
) -> (
    Ends<W::Input, W::Output, W::Errors, W::Folder>,
    Result<(), RunFault>,
)
    ensures { IsServed (record {
      folder = W.Folder.Folder;
      cabinet = ⟦<FileAt<'static, W::Folder> as Cabinet>⟧;
      medium = W.Folder.Medium.Disk;
      file = W.Folder.File.remaining;
      input = W.Input.remaining;
      output = W.Output.contents;
      errors = W.Errors.contents;
      meets = ⟦<OpenPort<'w, W> as Listener>⟧.meets;
      opens = λ port. ⟦<LocalPort<'w, W> as Address>⟧.opens port;
    }) world.now ends result.0 path.now port key.now limit zone.now result.1 }
{
    let key = match key_text(alloc, &ends.folder, key) {
        Ok(key) => key,
        Err(fault) => return (ends, Err(fault)),
    };
    let address = LocalPort {
        rt: world,
        number: port,
    };
    let key = key.as_str();
    serve_at(alloc, world, &address, path, key, limit, zone, ends)
}

// Does the job with the ends of the run, and returns the exit status.
fn run_job<'w, W: World>(
    alloc: Global,
    world: &'w W,
    job: &Job,
    ends: Ends<W::Input, W::Output, W::Errors, W::Folder>,
) -> (
    Ends<W::Input, W::Output, W::Errors, W::Folder>,
    Result<u8, RunFault>,
)
    ensures { IsJobDone (record {
      folder = W.Folder.Folder;
      cabinet = ⟦<FileAt<'static, W::Folder> as Cabinet>⟧;
      medium = W.Folder.Medium.Disk;
      file = W.Folder.File.remaining;
      input = W.Input.remaining;
      output = W.Output.contents;
      errors = W.Errors.contents;
      meets = ⟦<OpenPort<'w, W> as Listener>⟧.meets;
      opens = λ port. ⟦<LocalPort<'w, W> as Address>⟧.opens port;
    }) world.now ends result.0 job.now result.1 }
{
    match job {
        Job::Replay { zone, db: None } => {
            let (left, done) = replay_here(alloc, zone, ends);
            (left, as_status(done))
        }
        Job::Replay {
            zone,
            db: Some(path),
        } => {
            let (left, done) = replay_at(alloc, zone, path, ends);
            (left, as_status(done))
        }
        Job::Serve {
            db,
            port,
            key,
            limit,
            zone,
        } => {
            let (left, done) = serve_of(alloc, world, db, *port, key, *limit, zone, ends);
            (left, as_status(done))
        }
        Job::Table {
            db,
            month,
            revision,
            form,
            at,
        } => table_at(alloc, db, asked_table(month, *revision, form, *at), ends),
    }
}

// Writes why the arguments give no job, and returns the exit status: 2 if they are refused, even if the reason couldn't
// be written, and 0 after the help that they asked for. The errors are a lack of memory, and help that can't be
// written.
fn refuse<I, O: Write, E: Write, F>(
    error: &Error,
    ends: Ends<I, O, E, F>,
) -> (Ends<I, O, E, F>, Result<u8, RunFault>)
    ensures { IsRefused ends result.0 (kind_of error.now ≢ OutOfMemory) result.1 }
{
    if error.kind() == ErrorKind::OutOfMemory {
        return (ends, Err(RunFault::Wire(WireFault::NoMemory)));
    }
    let mut ends = ends;
    if error.use_stderr() {
        let _ = ends.errors.write_fmt(error);
        return (ends, Ok(2));
    }
    match ends.output.write_fmt(error) {
        Ok(()) => (ends, Ok(0)),
        Err(_) => (ends, Err(RunFault::Wire(WireFault::Write))),
    }
}

// The arguments as borrowed texts.
fn lent_words<'a>(alloc: Global, owned: &'a Vec<String>) -> Result<Vec<&'a str>, RunFault>
    ensures words { IfOk result (λ words. map (λ s. s.now) words.items ≡ map string_bytes owned.now.items) }
    ensures fault { IfErr result (λ why. why ≡ Wire NoMemory) }
{
    let mut words: Vec<&'a str> = Vec::new(alloc);
    for word in owned {
        words.push(word.as_str())?;
    }
    Ok(words)
}

// Does the job that the arguments ask for, and returns the exit status if nothing failed.
fn run_words<'w, W: World>(
    alloc: Global,
    world: &'w W,
    ends: Ends<W::Input, W::Output, W::Errors, W::Folder>,
) -> (
    Ends<W::Input, W::Output, W::Errors, W::Folder>,
    Result<u8, RunFault>,
)
    ensures { IsDone (record {
      folder = W.Folder.Folder;
      cabinet = ⟦<FileAt<'static, W::Folder> as Cabinet>⟧;
      medium = W.Folder.Medium.Disk;
      file = W.Folder.File.remaining;
      input = W.Input.remaining;
      output = W.Output.contents;
      errors = W.Errors.contents;
      meets = ⟦<OpenPort<'w, W> as Listener>⟧.meets;
      opens = λ port. ⟦<LocalPort<'w, W> as Address>⟧.opens port;
    }) world.now ends result.0 (W.has_words world.now) (W.lacks_words world.now) result.1 }
{
    let owned = match world.words(alloc) {
        Ok(owned) => owned,
        Err(fault) => return (ends, Err(fault)),
    };
    let words = match lent_words(alloc, &owned) {
        Ok(words) => words,
        Err(fault) => return (ends, Err(fault)),
    };
    match job_of_words(alloc, words.as_slice()) {
        Ok(job) => run_job(alloc, world, &job, ends),
        Err(error) => refuse(&error, ends),
    }
}

/// Runs the program in its world: does the job that the arguments ask for, writes the line of an error to standard
/// error, and returns the exit status. The note says whether that write failed.
pub fn run<'w, W: World>(alloc: Global, world: &'w W, note: &mut OfferNote<W::Errors>) -> u8
    ensures { IsRun (record {
      folder = W.Folder.Folder;
      cabinet = ⟦<FileAt<'static, W::Folder> as Cabinet>⟧;
      medium = W.Folder.Medium.Disk;
      file = W.Folder.File.remaining;
      input = W.Input.remaining;
      output = W.Output.contents;
      errors = W.Errors.contents;
      meets = ⟦<OpenPort<'w, W> as Listener>⟧.meets;
      opens = λ port. ⟦<LocalPort<'w, W> as Address>⟧.opens port;
    }) world.now (W.begins world.now) (W.has_words world.now) (W.lacks_words world.now)
        note.new.has_failed result }
{
    let (mut ends, outcome) = run_words(alloc, world, world.begin());
    match outcome {
        Ok(status) => status,
        Err(fault) => {
            note.write_line(&mut ends.errors, fault);
            fault.status()
        }
    }
}
