//! The words of the command line: the commands of `flow` with their help, and what a line of words comes to.
//!
//! `clap` reads the words. The crate stands on no other of the repository, so that it is proved beside them.
#![tactic(auto)]

mod commands;
mod reading;

pub use reading::{Refusal, read_words};
