//! A run over texts in memory.
ghost use Rattle.std.specs.Prelude.{◌≡◌, ℕ, List, false, ◌++◌, length, Some};
ghost use Rattle.flow_tools.specs.running.TextRuns.{RunsOn};

use crate::running::jobs::Job;
use crate::running::run;
use crate::streams::counted::Counted;
use crate::streams::{Failed, Input, Output};
use flow_net::OutOfMemory;
use flow_text::{early_fault_stays, early_solution_fault_stays};
use std::alloc::Global;
use std::mem::replace;

/// A text as an input that can't fail.
#[derive(Drop)]
struct Text<'a> {
    /// The bytes that are left.
    rest: &'a [u8],
}

impl Input for Text<'_> {
    ghost state = { λ s. record { bytes = Some s.rest.now; failed = false } };

    ghost bound = { λ s. length s.rest.now };

    fn pull(&mut self, buf: &mut [u8; 4096]) -> Result<usize, Failed> {
        let count = self.rest.len().min(buf.len());
        let (piece, rest) = self.rest.split_at(count);
        buf[..count].copy_from_slice(piece);
        self.rest = rest;
        Ok(count)
    }

    fn failed(&self) -> bool {
        false
    }
}

/// Runs a job over a problem's text and a solution's text, and answers the status: 0 or 1 where `out` got the answer,
/// 3 where `err` got the line about the first fault of a text. Both are appended to what the vectors have. `solution`
/// is read by `Job::Check` alone.
///
/// This is [`run`] with nothing left open but memory: for each problem's text it is the answer or the fault.
///
/// # Errors
///
/// `OutOfMemory` where memory was refused. `out` then got nothing or a beginning of an answer, and `err` nothing.
pub fn run_on_texts(
    alloc: Global,
    job: Job,
    problem: &[u8],
    solution: &[u8],
    out: &mut Vec<u8>,
    err: &mut Vec<u8>,
) -> Result<u8, OutOfMemory>
    ensures { (o : List ℕ) × (e : List ℕ) × (out.new.items ≡ out.old.items ++ o)
        × (err.new.items ≡ err.old.items ++ e) × RunsOn job problem.now solution.now o e result }
{
    early_fault_stays();
    early_solution_fault_stays();
    let mut source = Text { rest: problem };
    let mut given = Text { rest: solution };
    let had = err.len();
    let mut answer = Counted::new(replace(out, Vec::new(alloc)));
    let mut message = Counted::new(replace(err, Vec::new(alloc)));
    let status = run(
        alloc,
        job,
        &mut source,
        &mut given,
        &mut answer,
        &mut message,
    );
    let cut_short = Output::failed(&message);
    *out = answer.into_inner();
    *err = message.into_inner();
    if status == 4 || cut_short {
        // Of the message as much was put as there was memory for; the error says it all.
        err.truncate(had);
        return Err(OutOfMemory);
    }
    Ok(status)
}
