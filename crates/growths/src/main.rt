//! `growths`: the calls of the library that ask for memory, each made where every request for memory may be refused.
//!
//! Standard input is a line with the names of calls. For each the program prints a line that says what the call
//! answered and whether it kept what it promises of a refused growth: a network is unchanged, a reader refuses from
//! then on, a run puts nothing but its message. The program itself asks for no memory, so that an allocator put before
//! the C library's can refuse the calls' first request, their second, their third, or all of them.
#![tactic(auto)]

mod calls;
mod jobs;
mod nets;

use flow_text::fields;
use flow_tools::{Counted, Input, put_all};
use std::process::ExitCode;

/// Makes the calls that the first 4,096 bytes of standard input name, and prints a line for each.
fn main(rt: HostRuntime) -> ExitCode {
    let alloc = rt.alloc();
    let mut input = Counted::new(rt.stdin());
    let mut out = Counted::new(rt.stdout());
    let mut buffer = [0u8; 4096];
    let Ok(count) = input.pull(&mut buffer) else {
        return ExitCode::from(4);
    };
    let line = buffer[..count].trim_ascii_end();
    for name in fields(line) {
        let told = jobs::told(alloc, name);
        for part in [name, b": ", told, b"\n"] {
            if put_all(&mut out, part).is_err() {
                return ExitCode::from(4);
            }
        }
    }
    ExitCode::SUCCESS
}
