//! The program: hands its words, the files of the system and the standard streams to `policy_program::run`,
//! and ends with the status that this gives. Its stored run is a translation.
#![tactic(auto)]

use policy_outside::{FileShelf, WriteSink};
use policy_program::{Status, run, tell_memory};
use std::process::ExitCode;
use std::{env, io};

/// Why the words of the program could not be had.
enum ArgumentsFault {
    /// A word is no text.
    NoText,
    /// Want of memory.
    Memory,
}

/// Runs the program on its words, the files of the system and the standard streams, and ends with its status.
fn main(rt: HostRuntime) -> ExitCode {
    let mut shelf = FileShelf::new(&rt, rt.alloc());
    let mut out = WriteSink::new(io::writer(&rt));
    let mut err = WriteSink::new(rt.stderr());
    let status = match arguments(&rt) {
        Ok(arguments) => run(
            rt.alloc(),
            own_words(arguments.as_slice()),
            &mut shelf,
            &mut out,
            &mut err,
        ),
        Err(ArgumentsFault::NoText) => run(rt.alloc(), &[], &mut shelf, &mut out, &mut err),
        Err(ArgumentsFault::Memory) => {
            tell_memory(&mut err);
            Status::Memory
        }
    };
    ExitCode::from(status.number())
}

/// The words of the program, its own name first.
fn arguments(rt: &HostRuntime) -> Result<Vec<String>, ArgumentsFault> {
    match env::args(rt) {
        Ok(arguments) => match arguments.collect(rt.alloc()) {
            Ok(arguments) => Ok(arguments),
            Err(_) => Err(ArgumentsFault::Memory),
        },
        Err(error) if error.kind() == io::ErrorKind::OutOfMemory => Err(ArgumentsFault::Memory),
        Err(_) => Err(ArgumentsFault::NoText),
    }
}

/// The words behind the program's name.
fn own_words(arguments: &[String]) -> &[String] {
    match arguments {
        [_, words @ ..] => words,
        [] => &[],
    }
}
