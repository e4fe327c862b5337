ghost use Rattle.std.specs.Prelude.{◌≡◌, ◌+◌, ◌↔◌, ◌≤◌, None, IfErr, IfOk, IfSome, min, vec_len};
ghost use Rattle.std.specs.IoError.{error_kind};
ghost use Rattle.hal_outside.specs.Told.{Rose};
ghost use Rattle.hal_outside.specs.Faults.{AtFileDevice};

use crate::device::{device_fault, tell_failure};
use hal_outside::{FileFault, Files};
use std::alloc::Global;
use std::fs::OpenFile;
use std::io::{ErrorKind, Read};
use std::path::Path;
use std::{fs, io, rt};

/// The most bytes that are read of a file, 64 GiB.
const MOST_BYTES: u64 = 68_719_476_736;

/// The files of the current folder, by their paths from it. It counts the calls that a device failed, and tells
/// each on the standard error, and it counts the reads that found no file; both counts stop at their last value.
#[derive(Drop)]
pub struct FolderFiles<R> {
    runtime: R,
    faults: u64,
    absents: u64,
}

impl<R> FolderFiles<R> {
    /// Both counts at 0.
    pub fn new(runtime: R) -> FolderFiles<R>
        ensures faults { result.faults ≡ 0 }
        ensures absents { result.absents ≡ 0 }
    {
        FolderFiles {
            runtime,
            faults: 0,
            absents: 0,
        }
    }
}

impl<R: Eprint> FolderFiles<R> {
    /// What a failed call on the file of this name answers. It counts and tells a device's failure, and does neither
    /// for want of memory.
    fn fault(&mut self, name: &str, error: &io::Error) -> FileFault
        ensures faults_stay { self.old.faults ≤ self.new.faults }
        ensures counted { AtFileDevice result (self.new.faults ≡ min (self.old.faults + 1) u64.MAX) }
        ensures kept { result ≡ FileFault.Memory → self.new.faults ≡ self.old.faults }
        ensures absents_kept { self.new.absents ≡ self.old.absents }
        ensures device { AtFileDevice result (Rose self.old.faults self.new.faults) }
        ensures memory { (result ≡ FileFault.Memory) ↔ (error_kind error.now ≡ ErrorKind.OutOfMemory) }
    {
        if error.kind() == ErrorKind::OutOfMemory {
            return FileFault::Memory;
        }
        self.faults = self.faults.saturating_add(1);
        tell_failure(&self.runtime, name, error);
        FileFault::Device(device_fault(error))
    }
}

impl<R: rt::Files + Eprint> FolderFiles<R> {
    /// Takes a file away, if it is there.
    pub fn remove(&mut self, name: &str) -> Result<(), FileFault>
        ensures faults_stay { self.old.faults ≤ self.new.faults }
        ensures absents_kept { self.new.absents ≡ self.old.absents }
        ensures device { IfErr result (λ fault. AtFileDevice fault (Rose self.old.faults self.new.faults)) }
    {
        match fs::remove_file(&self.runtime, name) {
            Ok(()) => Ok(()),
            Err(error) => self.fault_unless_absent(name, &error),
        }
    }

    /// Takes a folder away with all that lies in it, if it is there.
    pub fn remove_folder(&mut self, alloc: Global, name: &str) -> Result<(), FileFault>
        ensures faults_stay { self.old.faults ≤ self.new.faults }
        ensures absents_kept { self.new.absents ≡ self.old.absents }
        ensures device { IfErr result (λ fault. AtFileDevice fault (Rose self.old.faults self.new.faults)) }
    {
        match self.runtime.remove_dir_all(alloc, name) {
            Ok(()) => Ok(()),
            Err(error) => self.fault_unless_absent(name, &error),
        }
    }

    /// What a failed call that was to take a file or folder away answers. It is done where there was none.
    fn fault_unless_absent(&mut self, name: &str, error: &io::Error) -> Result<(), FileFault>
        ensures faults_stay { self.old.faults ≤ self.new.faults }
        ensures absents_kept { self.new.absents ≡ self.old.absents }
        ensures device { IfErr result (λ fault. AtFileDevice fault (Rose self.old.faults self.new.faults)) }
    {
        if error.kind() == ErrorKind::NotFound {
            return Ok(());
        }
        Err(self.fault(name, error))
    }
}

impl<R: rt::Files + Eprint> Files for FolderFiles<R> {
    ghost faults = { λ f. f.faults };

    ghost absents = { λ f. f.absents };

    ghost told = { λ _. None };

    fn read(&mut self, alloc: Global, name: &str) -> Result<Option<Vec<u8>>, FileFault> {
        match fs::open(&self.runtime, name) {
            Ok(file) => match read_whole(alloc, file) {
                Ok(bytes) => Ok(Some(bytes)),
                Err(error) => Err(self.fault(name, &error)),
            },
            Err(error) if error.kind() == ErrorKind::NotFound => {
                self.absents = self.absents.saturating_add(1);
                Ok(None)
            }
            Err(error) => Err(self.fault(name, &error)),
        }
    }

    fn write(&mut self, name: &str, bytes: &[u8]) -> Result<(), FileFault> {
        match write_whole(&self.runtime, name, bytes) {
            Ok(()) => Ok(()),
            Err(error) => Err(self.fault(name, &error)),
        }
    }
}

/// All bytes of an open file. It fails where they are more than `MOST_BYTES`, where the system fails a
/// call, as at a folder, or for want of memory.
fn read_whole<F: Read + OpenFile + Drop>(alloc: Global, file: F) -> io::Result<Vec<u8>>
    ensures few { IfOk result (λ bytes. vec_len bytes ≤ MOST_BYTES) }
    ensures whole { IfOk result (λ bytes. IfSome (F.remaining file) (λ all. bytes.items ≡ all)) }
{
    let length = file.metadata()?.len();
    if length > MOST_BYTES {
        return Err(io::Error::from(ErrorKind::FileTooLarge));
    }
    // The byte past its length lets the last read find the end of the file without growing.
    let mut bytes = Vec::with_capacity(alloc, length as usize + 1)?;
    // A pipe and some devices tell no length, and need not end.
    file.take(MOST_BYTES + 1).read_to_end(&mut bytes)?;
    if bytes.len() as u64 > MOST_BYTES {
        return Err(io::Error::from(ErrorKind::FileTooLarge));
    }
    Ok(bytes)
}

/// Makes the folders of a file that are missing, and then the file, with these bytes. It fails where
/// the system refuses a folder or the file, or takes none of the bytes that are left.
fn write_whole<R: rt::Files>(runtime: &R, name: &str, bytes: &[u8]) -> io::Result<()> {
    if let Some(folder) = Path::new(name).parent() {
        fs::create_dir_all(runtime, folder)?;
    }
    fs::write(runtime, name, bytes)
}
