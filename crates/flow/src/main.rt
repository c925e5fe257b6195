//! `flow`: maximum flows, minimum cuts and edge connectivity of networks in the DIMACS format, from the command line.
//!
//! `flow_words` reads the words of the command line, which name a job and its files. The files are opened, and the run
//! of `flow_tools` does the rest. Its status is the program's: 0 done, 1 `check` says no, 2 command line,
//! 3 input fault, 4 device or memory.
#![tactic(auto)]

mod files;
mod program;
mod requests;

use files::FileSystem;
use flow_tools::{Counted, Output, put_all};
use program::program;
use std::alloc::Global;
use std::io::{ErrorKind, Write};
use std::process::ExitCode;

/// Runs the program over the real words, files and streams, and flushes standard output.
fn main(rt: HostRuntime) -> ExitCode {
    let alloc: Global = rt.alloc();
    let mut out = Counted::new(rt.stdout());
    let mut err = Counted::new(rt.stderr());
    let given = match std::env::args(&rt) {
        Ok(given) => given,
        Err(error) if error.kind() == ErrorKind::OutOfMemory => return without_memory(&mut err),
        Err(_) => return without_text(&mut err),
    };
    let words: Vec<String> = match given.collect(alloc) {
        Ok(words) => words,
        Err(_) => return without_memory(&mut err),
    };
    let mut texts: Vec<&str> = Vec::new(alloc);
    for word in words.iter() {
        if texts.push(word.as_str()).is_err() {
            return without_memory(&mut err);
        }
    }
    let mut source = FileSystem::new(&rt);
    let status = program(alloc, texts.as_slice(), &mut source, &mut out, &mut err);
    if status != 4 && out.into_inner().flush().is_err() {
        let _ = put_all(&mut err, b"flow: write failed\n");
        return ExitCode::from(4);
    }
    ExitCode::from(status)
}

/// Tells that memory was refused, and answers the status for it.
fn without_memory<E: Output>(err: &mut E) -> ExitCode {
    let _ = put_all(err, b"flow: out of memory\n");
    ExitCode::from(4)
}

/// Tells that a word of the command line can't be read as text, and answers the status for it.
fn without_text<E: Output>(err: &mut E) -> ExitCode {
    let _ = put_all(err, b"flow: a word of the command line isn't UTF-8\n");
    ExitCode::from(2)
}
