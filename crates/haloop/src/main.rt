//! The program: hands the words of its command, the files of the current folder and the standard output
//! to the run, and ends with the run's status.
#![tactic(auto)]

ghost use Rattle.std.specs.Prelude.{◌≡◌, ◌≢◌, ◌↔◌};
ghost use Rattle.std.specs.IoError.{error_kind};

mod device;
mod folder_disks;
mod folder_files;
mod std_sink;

use folder_disks::FolderDisks;
use folder_files::FolderFiles;
use haloop_run::haloop_top;
use std::io::ErrorKind;
use std::process::ExitCode;
use std::{env, io};
use std_sink::StdSink;

/// The status where the system does not give the words of the command.
const NO_WORDS: u8 = 8;

/// The status where there is no memory for them.
const NO_MEMORY: u8 = 10;

fn main(rt: HostRuntime) -> ExitCode {
    let words = match words_after_name(&rt) {
        Ok(words) => words,
        Err(error) => return ExitCode::from(status_without_words(&error)),
    };
    let mut files = FolderFiles::new(&rt);
    let mut disks = FolderDisks::new(&rt);
    let mut out = StdSink::new(&rt);
    ExitCode::from(haloop_top(
        rt.alloc(),
        words.as_slice(),
        &mut files,
        &mut disks,
        &mut out,
    ))
}

/// The words after the program's name. It fails where one is not valid text, or for want of memory.
fn words_after_name(rt: &HostRuntime) -> io::Result<Vec<String>> {
    let mut words = env::args(rt)?;
    let _program = words.next();
    Ok(words.collect(rt.alloc())?)
}

fn status_without_words(error: &io::Error) -> u8
    ensures memory { (result ≡ 10) ↔ (error_kind error.now ≡ ErrorKind.OutOfMemory) }
    ensures device { (result ≡ 8) ↔ (error_kind error.now ≢ ErrorKind.OutOfMemory) }
{
    if error.kind() == ErrorKind::OutOfMemory {
        NO_MEMORY
    } else {
        NO_WORDS
    }
}
