//! Reading the words of a command line.

use crate::commands::commands;
use clap::ArgMatches;
use clap::error::ErrorKind;
use std::alloc::Global;

/// Why the words of a command line carry no command.
#[derive(Drop)]
pub enum Refusal {
    /// They ask for help or for the version: the text that is to be printed.
    Help(String),
    /// They aren't words of a command: the text that tells why.
    Words(String),
    /// Memory was refused.
    OutOfMemory,
}

/// Reads the words of a command line, of which the first is the program's name.
///
/// # Errors
///
/// `Refusal` where they carry no command, as after `--help`, or memory was refused.
pub fn read_words<'a>(alloc: Global, words: &'a [&'a str]) -> Result<ArgMatches<'a>, Refusal> {
    let Ok(command) = commands(alloc) else {
        return Err(Refusal::OutOfMemory);
    };
    match command.try_get_matches_from(words) {
        Ok(matches) => Ok(matches),
        Err(error) => Err(refusal_of(alloc, error)),
    }
}

/// What the error tells.
fn refusal_of(alloc: Global, error: clap::Error) -> Refusal {
    match error.to_string(alloc) {
        Ok(text) if error.kind() != ErrorKind::OutOfMemory => {
            if error.use_stderr() {
                Refusal::Words(text)
            } else {
                Refusal::Help(text)
            }
        }
        _ => Refusal::OutOfMemory,
    }
}
