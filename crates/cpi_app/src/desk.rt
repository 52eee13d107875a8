//! The desk of an office that is served: its clock and its key, as the arguments name them.
ghost use Rattle.std.specs.Prelude.{◌≡◌, ◌⊎◌, ◌↔◌, IsNone, IfSome, IfOk, IfErr, IsErrOf};
ghost use Rattle.jiff.specs.Words.{read_whole};
ghost use Rattle.std.specs.String.{string_bytes};
ghost use Rattle.cpi_app.specs.Desk.{IsDeskOf, HasNoKey, NamesNoDesk, IsKeyText, CanNotBeRead};

use crate::fault::RunFault;
use cpi_codes::{Key, Zone, zone_of};
use cpi_wire::WireFault;
use std::alloc::Global;
use std::io;
use std::io::{ErrorKind, Read};

/// How many bytes of a file are read for the desk's key. A key has 32, and a file may have white space around it.
const MOST_KEY_BYTES: u64 = 1024;

/// The desk: the clock by which civil times are read, and the key whose registration is the desk.
#[derive(Clone, Copy)]
pub struct Desk {
    pub zone: Zone,
    pub key: Key,
}

/// The desk of these arguments. The errors are `BadZone` if the zone is no rule of a clock as POSIX writes it, and then
/// `BadKey` if the key isn't 32 characters of 0-9 and a-f.
pub fn desk_of(zone: &str, key: &str) -> Result<Desk, RunFault>
    ensures ok { IfOk result (IsDeskOf zone.now key.now) }
    ensures bad_zone { IsErrOf result RunFault.BadZone ↔ IsNone (read_whole zone.now) }
    ensures bad_key { IsErrOf result RunFault.BadKey ↔ HasNoKey zone.now key.now }
    ensures fault { IfErr result (NamesNoDesk zone.now key.now) }
{
    let Ok(zone) = zone_of(zone) else {
        return Err(RunFault::BadZone);
    };
    match Key::parse(key.as_bytes()) {
        Some(key) => Ok(Desk { zone, key }),
        None => Err(RunFault::BadKey),
    }
}

/// The text of the desk's key in a file: the first 1,024 bytes of the reader, without white space at their ends. The
/// error is `BadKey` if the file can't be read or isn't UTF-8, and else `Wire(NoMemory)`.
pub fn read_key<R: Read + Drop>(alloc: Global, reader: R) -> Result<String, RunFault>
    ensures text { IfOk result (λ text. IfSome (R.remaining reader) (λ held. IsKeyText held (string_bytes text))) }
    ensures fault { IfErr result CanNotBeRead }
{
    let held = match io::read_to_string(alloc, reader.take(MOST_KEY_BYTES)) {
        Ok(held) => held,
        Err(error) if error.kind() == ErrorKind::OutOfMemory => {
            return Err(RunFault::Wire(WireFault::NoMemory));
        }
        Err(_) => return Err(RunFault::BadKey),
    };
    match String::from_str(alloc, held.trim_ascii()) {
        Ok(text) => Ok(text),
        Err(_) => Err(RunFault::Wire(WireFault::NoMemory)),
    }
}
