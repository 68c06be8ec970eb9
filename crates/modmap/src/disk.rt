//! The files of the machine. They tell no content: what a real file holds is outside every clause.

ghost use Rattle.std.specs.Prelude.{◌≡◌, ◌≢◌, ◌≤◌, None, Err, length, IfOk};
ghost use Rattle.std.specs.IoError.{error_kind};
ghost use Rattle.mm_outside.specs.Causes.{HasCause};
ghost use Rattle.mm_outside.specs.Files.{as_result};
ghost use Rattle.modmap.specs.Adapters.{ReadsFile, WritesFile};
ghost use Rattle.mm_outside.specs.declared.files.ReadAllError.TheVariants as answer;

#[cfg(test)]
mod tests;

use crate::streams::{count_fault, read_whole, write_whole};
use mm_outside::{Bytes, Failed, Files, ReadAllError};
use std::alloc::Global;
use std::io::{self, ErrorKind};
use std::{fs, rt, str};

/// The files of the machine, by their paths. Each failed read, and each failed write, raises its count; a name that
/// isn't UTF-8 is such a fault. A file is absent where the machine says that there is none.
#[derive(Drop)]
pub struct DiskFiles<R> {
    rt: R,
    alloc: Global,
    read_faults: u64,
    write_faults: u64,
}

impl<R: rt::Files> DiskFiles<R> {
    ghost use Rattle.modmap.specs.Adapters.{IsOnDisk};

    /// The files that the runtime value reaches, with what their contents are allocated by.
    pub fn new(rt: R, alloc: Global) -> DiskFiles<R>
        ensures { IsOnDisk rt result }
    {
        DiskFiles {
            rt,
            alloc,
            read_faults: 0,
            write_faults: 0,
        }
    }
}

impl<R: rt::Files> Files for DiskFiles<R> {
    ghost use Rattle.std.specs.Prelude.{◌≡◌, ◌≤◌, IfOk, None, length};
    ghost use Rattle.mm_outside.specs.Causes.{HasCause};
    ghost use Rattle.mm_outside.specs.Files.{as_result};
    ghost use Rattle.modmap.specs.Adapters.{ReadsFile, WritesFile, reads_failed, writes_failed};

    ghost content = { λ _. None };

    ghost read_faults = { reads_failed };

    ghost write_faults = { writes_failed };

    fn read_all(&mut self, name: &[u8], most: u64) -> Result<Bytes, ReadAllError>
        ensures bound { IfOk result (λ octets. length octets ≤ most) }
        ensures file { ReadsFile R.File.remaining result most }
        ensures cause { HasCause (reads_failed self.old) (reads_failed self.new) (as_result result) }
        ensures write_faults { writes_failed self.new ≡ writes_failed self.old }
    {
        read_file(&self.rt, self.alloc, name, most, &mut self.read_faults)
    }

    fn write_all(&mut self, name: &[u8], octets: &[u8]) -> Result<(), Failed>
        ensures file { WritesFile R.File.contents result octets.now }
        ensures cause { HasCause (writes_failed self.old) (writes_failed self.new) result }
        ensures read_faults { reads_failed self.new ≡ reads_failed self.old }
    {
        write_file(&self.rt, name, octets, &mut self.write_faults)
    }
}

/// What is answered of a file that can't be opened: that there is none, or that a read failed, which is counted.
fn open_error(error: &io::Error, faults: &mut u64) -> ReadAllError
    ensures absent { error_kind error.now ≡ ErrorKind.NotFound → result ≡ answer.Absent }
    ensures failed { error_kind error.now ≢ ErrorKind.NotFound → result ≡ answer.Failed }
    ensures cause { HasCause faults.old faults.new (as_result (Err result)) }
{
    if error.kind() == ErrorKind::NotFound {
        return ReadAllError::Absent;
    }
    let Failed = count_fault(faults);
    ReadAllError::Failed
}

/// What the file holds, if that is at most `most` octets.
fn read_file<R: rt::Files>(
    rt: &R,
    alloc: Global,
    name: &[u8],
    most: u64,
    faults: &mut u64,
) -> Result<Bytes, ReadAllError>
    ensures bound { IfOk result (λ octets. length octets ≤ most) }
    ensures file { ReadsFile R.File.remaining result most }
    ensures cause { HasCause faults.old faults.new (as_result result) }
{
    let Ok(path) = str::from_utf8(name) else {
        let Failed = count_fault(faults);
        return Err(ReadAllError::Failed);
    };
    match fs::open(rt, path) {
        Ok(mut file) => read_whole(&mut file, alloc, most, faults),
        Err(error) => Err(open_error(&error, faults)),
    }
}

/// The file of that name, which is made anew, with the folders that it stands in.
fn create_file<R: rt::Files>(rt: &R, name: &[u8]) -> Option<R::File> {
    let path = str::from_utf8(name).ok()?;
    if let Some((folder, _)) = path.rsplit_once('/')
        && !folder.is_empty()
    {
        fs::create_dir_all(rt, folder).ok()?;
    }
    fs::create(rt, path).ok()
}

/// Puts the octets into the file, which is made anew, with the folders that it stands in.
fn write_file<R: rt::Files>(
    rt: &R,
    name: &[u8],
    octets: &[u8],
    faults: &mut u64,
) -> Result<(), Failed>
    ensures file { WritesFile R.File.contents result octets.now }
    ensures cause { HasCause faults.old faults.new result }
{
    match create_file(rt, name) {
        Some(mut file) => write_whole(&mut file, octets, faults),
        None => Err(count_fault(faults)),
    }
}
