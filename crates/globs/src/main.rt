//! The program `globs`.
#![tactic(auto)]

use std::fs;
use std::io::ErrorKind;
use std::process::ExitCode;
use wax::Counted;
use wax::walk::Folders;
use wax_command_line::words;
use wax_commands::{FileFault, run_globs};

fn main(rt: HostRuntime) -> ExitCode {
    let alloc = rt.alloc();
    let Ok(words) = words(&rt, alloc) else {
        let _ = eprintln!(rt; "globs: no memory");
        return ExitCode::FAILURE;
    };
    let mut input = Counted::new(rt.stdin());
    let mut output = Counted::new(rt.stdout());
    let mut faults = Counted::new(rt.stderr());
    let folders = Folders::new(rt);
    let status = run_globs(
        alloc,
        &words,
        &mut input,
        &mut output,
        &mut faults,
        folders,
        |file| bytes_of(&rt, file),
    );
    ExitCode::from(status)
}

// Reads a file. Running out of memory is another error than a read that failed.
fn bytes_of(rt: &HostRuntime, file: &str) -> Result<Vec<u8>, FileFault> {
    match fs::read(rt, file) {
        Ok(bytes) => Ok(bytes),
        Err(error) if error.kind() == ErrorKind::OutOfMemory => Err(FileFault::Memory),
        Err(_) => Err(FileFault::ReadFailed),
    }
}
