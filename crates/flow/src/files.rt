//! The files that a command line names, and standard input.

use crate::program::Source;
use flow_tools::Counted;
use std::fs::File;
use std::io::{Read, Stdin};

/// Where the bytes of an input come from.
#[derive(Drop)]
pub enum Reading {
    /// Standard input.
    Standard(Stdin),
    /// A file that was opened.
    Opened(File),
}

impl Read for Reading {
    fn read(&mut self, buf: &mut [u8]) -> std::io::Result<usize> {
        match self {
            Reading::Standard(stdin) => stdin.read(buf),
            Reading::Opened(file) => file.read(buf),
        }
    }
}

/// The real files and the real standard input.
#[derive(Drop)]
pub struct FileSystem<'a> {
    rt: &'a HostRuntime,
}

impl<'a> FileSystem<'a> {
    /// The files that this runtime opens.
    pub fn new(rt: &'a HostRuntime) -> FileSystem<'a> {
        FileSystem { rt }
    }
}

impl Source for FileSystem<'_> {
    type In = Counted<Reading>;

    fn input(&mut self, name: Option<&str>) -> Option<Counted<Reading>> {
        match name {
            None => Some(Counted::new(Reading::Standard(self.rt.stdin()))),
            Some(name) => match File::open(self.rt, name) {
                Ok(file) => Some(Counted::new(Reading::Opened(file))),
                Err(_) => None,
            },
        }
    }
}
