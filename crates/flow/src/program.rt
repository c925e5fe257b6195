//! The program over any files and streams.

ghost use Rattle.std.specs.Prelude.{◌≡◌};
ghost use Rattle.flow_tools.specs.streams.Streams.{over};
ghost use Rattle.flow_tools.specs.streams.Sending.{IsPut};
ghost use Rattle.flow_tools.specs.running.AnswerExits.{IsTold};
ghost use Rattle.flow.specs.Messages.{cannot_open, given_name};

use crate::requests::{Files, job_of};
use flow_tools::{Counted, Failed, Input, Job, Output, put_all, run};
use flow_words::{Refusal, read_words};
use std::alloc::Global;

/// Where the inputs that a command line names are opened.
pub trait Source {
    /// An input that was opened.
    type In: Input + Drop;

    /// The input of the named file, or of standard input where no name is given. `None` only where a named file can't
    /// be opened.
    fn input(&mut self, name: Option<&str>) -> Option<Self::In>;
}

/// Reads the words of a command line, opens the files that they name and runs the job. The answer is the status: that
/// of the run, 2 where the words are refused, 0 after help, 4 where a file can't be opened or memory was refused.
pub fn program<S: Source, O: Output, E: Output>(
    alloc: Global,
    words: &[&str],
    source: &mut S,
    out: &mut O,
    err: &mut E,
) -> u8 {
    match read_words(alloc, words) {
        Ok(matches) => match job_of(&matches) {
            Some((job, files)) => run_files(alloc, job, files, source, out, err),
            None => 2,
        },
        Err(refusal) => refuse(refusal, out, err),
    }
}

/// Opens the problem, and then the solution where the job checks one, and runs the job.
fn run_files<S: Source, O: Output, E: Output>(
    alloc: Global,
    job: Job,
    files: Files<'_>,
    source: &mut S,
    out: &mut O,
    err: &mut E,
) -> u8 {
    match source.input(files.problem) {
        Some(mut problem) => run_on(alloc, job, &mut problem, files.solution, source, out, err),
        None => refuse_file(files.problem, err),
    }
}

/// Opens the solution where the job checks one, and runs the job on this problem.
fn run_on<S: Source, O: Output, E: Output>(
    alloc: Global,
    job: Job,
    problem: &mut S::In,
    solution: Option<&str>,
    source: &mut S,
    out: &mut O,
    err: &mut E,
) -> u8 {
    match job {
        Job::Check { .. } => match source.input(solution) {
            Some(mut opened) => run(alloc, job, problem, &mut opened, out, err),
            None => refuse_file(solution, err),
        },
        _ => {
            let mut nothing = Counted::new(&b""[..]);
            run(alloc, job, problem, &mut nothing, out, err)
        }
    }
}

/// Tells that a file can't be opened, its name as it was given.
fn refuse_file<E: Output>(name: Option<&str>, err: &mut E) -> u8
    ensures status { result ≡ 4 }
    ensures told { IsTold (over (E.state err.old) (E.state err.new)) (cannot_open (given_name name.entry)) }
{
    let name = name.unwrap_or("").as_bytes();
    let _ = put_cannot_open(err, name);
    4
}

/// Puts the line of a file that can't be opened, or a beginning of it.
fn put_cannot_open<E: Output>(err: &mut E, name: &[u8]) -> Result<(), Failed>
    ensures { IsPut (cannot_open name.now) (over (E.state err.old) (E.state err.new)) result }
{
    put_all(err, b"flow: cannot open ")?;
    put_all(err, name)?;
    put_all(err, b"\n")
}

/// Prints what the words came to in place of a job: help, or why they are refused.
fn refuse<O: Output, E: Output>(refusal: Refusal, out: &mut O, err: &mut E) -> u8 {
    match refusal {
        Refusal::Help(text) => match put_all(out, text.as_str().as_bytes()) {
            Ok(()) => 0,
            Err(_) => tell(err, b"flow: write failed\n"),
        },
        Refusal::Words(text) => {
            let _ = put_refusal(err, text.as_str());
            2
        }
        Refusal::OutOfMemory => tell(err, b"flow: out of memory\n"),
    }
}

/// Puts why words are refused, without clap's tip to pass an unknown flag as a value: it would name a file.
fn put_refusal<E: Output>(err: &mut E, text: &str) -> Result<(), Failed> {
    let (before, tail) = match text.split_once("\n  tip: to pass '") {
        Some(parts) => parts,
        None => return put_all(err, text.as_bytes()),
    };
    put_all(err, before.strip_suffix("\n").unwrap_or(before).as_bytes())?;
    match tail.split_once("\n\nUsage: ") {
        Some((_, usage)) => {
            put_all(err, b"\n\nUsage: ")?;
            put_all(err, usage.as_bytes())
        }
        None => put_all(err, b"\n"),
    }
}

/// Puts a message, as far as it is taken, and answers the status for a device or memory that failed.
fn tell<E: Output>(err: &mut E, message: &[u8]) -> u8
    ensures status { result ≡ 4 }
    ensures told { IsTold (over (E.state err.old) (E.state err.new)) message.now }
{
    let _ = put_all(err, message);
    4
}
