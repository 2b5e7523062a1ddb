//! The program: the real objects of the outside, handed to the engine.
//!
//! The words after the program's name and standard input come in; files of the current folder, a line on standard
//! error and the exit status go out. Begin with `run` of ipencap_engine.
#![tactic(auto)]

mod program;

use crate::program::{NO_MEMORY, run_and_flush};
use ipe_io::{FileRack, FileShelf, OutOfMemory, StdSink, StdSource};
use std::env;
use std::fs::{File, Files};
use std::io::{self, ErrorKind, Read, Write};
use std::process::ExitCode;

/// What the system answers a call on a descriptor that is not open: EBADF.
const NOT_OPEN: i32 = 9;

/// Makes the objects of the outside, and runs the engine over them.
///
/// Where there is no memory for the words or the objects, it prints the line of `OutOfMemory`, and ends with its number.
fn main(rt: HostRuntime) -> ExitCode {
    match work(rt) {
        Ok(code) => code,
        Err(OutOfMemory) => {
            let _ = eprintln!(rt; "ipencap: out of memory");
            ExitCode::from(NO_MEMORY)
        }
    }
}

fn work(rt: HostRuntime) -> Result<ExitCode, OutOfMemory> {
    let alloc = rt.alloc();
    let _input = held(&rt, rt.reader().read(&mut []));
    let _output = held(&rt, rt.stdout().write(&[]));
    let _complaints = held(&rt, rt.stderr().write(&[]));
    Ok(run_and_flush(
        alloc,
        &words_of(&rt)?,
        &mut FileShelf::new(alloc, rt),
        &mut StdSource::new(alloc, rt.reader())?,
        &mut StdSink::buffered(alloc, rt.stdout())?,
        &mut FileRack::new(alloc, rt),
        &mut StdSink::new(alloc, rt.stderr()),
    ))
}

/// A descriptor of the folder `/`, where a call of no bytes on a standard stream was answered that its descriptor is not open.
///
/// It takes the lowest number that is free, which is that of the stream, so that no file that is created later does: the folder can't be
/// read as a file, and not written. Where it can't be opened, the stream stays closed.
fn held<R: Files>(files: &R, answer: io::Result<usize>) -> Option<R::File> {
    match answer {
        Err(e) if e.raw_os_error() == Some(NOT_OPEN) => File::open(files, "/").ok(),
        _ => None,
    }
}

/// All words, the program's name first; none where one is no text, so that they form no command.
fn words_of(rt: &HostRuntime) -> Result<Vec<String>, OutOfMemory> {
    match env::args(rt) {
        Ok(words) => words.collect(rt.alloc()),
        Err(e) if e.kind() == ErrorKind::OutOfMemory => Err(OutOfMemory),
        Err(_) => Ok(Vec::new(rt.alloc())),
    }
}
