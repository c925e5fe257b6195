//! Readers and writers that fail once and then work, with their calls counted: no contract counts the calls of a
//! device.
use crate::tools::nets::{NET_A, SOLVED_A};
use crate::tools::runs::SOLVE;
use flow_tools::{Counted, Failed, Input, Output, put_all, run};
use std::alloc::Global;
use std::io::{ErrorKind, Read, Write};

/// A reader of a text that delivers 16 bytes at most, fails at the read with one number, counted from 1, and works
/// again.
#[derive(Drop)]
struct FailsOnce<'a> {
    text: &'a [u8],
    fails_at: u64,
    reads: u64,
}

impl<'a> FailsOnce<'a> {
    fn new(text: &'a [u8], fails_at: u64) -> FailsOnce<'a> {
        FailsOnce {
            text,
            fails_at,
            reads: 0,
        }
    }
}

impl Read for FailsOnce<'_> {
    fn read(&mut self, buf: &mut [u8]) -> std::io::Result<usize> {
        self.reads = self.reads.saturating_add(1);
        if self.reads == self.fails_at {
            return Err(ErrorKind::Interrupted.into());
        }
        let count = self.text.len().min(16).min(buf.len());
        let (piece, rest) = self.text.split_at(count);
        buf[..count].copy_from_slice(piece);
        self.text = rest;
        Ok(count)
    }
}

/// A writer that takes 16 bytes at most, fails at the write with one number, counted from 1, and works again.
#[derive(Drop)]
struct TakesAgain {
    taken: Vec<u8>,
    fails_at: u64,
    writes: u64,
}

impl TakesAgain {
    fn new(alloc: Global, fails_at: u64) -> TakesAgain {
        TakesAgain {
            taken: Vec::new(alloc),
            fails_at,
            writes: 0,
        }
    }
}

impl Write for TakesAgain {
    fn write(&mut self, buf: &[u8]) -> std::io::Result<usize> {
        self.writes = self.writes.saturating_add(1);
        if self.writes == self.fails_at {
            return Err(ErrorKind::Interrupted.into());
        }
        let count = buf.len().min(16);
        match self.taken.extend_from_slice(&buf[..count]) {
            Ok(()) => Ok(count),
            Err(_) => Err(ErrorKind::OutOfMemory.into()),
        }
    }

    fn flush(&mut self) -> std::io::Result<()> {
        Ok(())
    }
}

/// Whether the second of three pulls alone fails, and the input has failed from then on.
fn fails_once(input: &mut Counted<FailsOnce<'_>>) -> bool {
    let mut buf = [0u8; 4096];
    input.pull(&mut buf) == Ok(16)
        && input.pull(&mut buf) == Err(Failed)
        && Input::failed(input)
        && input.pull(&mut buf) == Ok(16)
        && Input::failed(input)
}

#[test]
fn one_pull_is_one_read(rt: HostRuntime) {
    let mut input = Counted::new(FailsOnce::new(NET_A, 2));
    let is_so = fails_once(&mut input);
    let reader = input.into_inner();
    assert!(rt; is_so && reader.reads == 3);
}

/// Whether the second of three puts alone fails, and the output has failed from then on.
fn takes_again(out: &mut Counted<TakesAgain>) -> bool {
    out.put(SOLVED_A) == Ok(16)
        && out.put(SOLVED_A) == Err(Failed)
        && Output::failed(out)
        && out.put(SOLVED_A) == Ok(16)
        && Output::failed(out)
}

#[test]
fn one_put_is_one_write(rt: HostRuntime) {
    let mut out = Counted::new(TakesAgain::new(rt.alloc(), 2));
    let is_so = takes_again(&mut out);
    let writer = out.into_inner();
    assert!(rt; is_so && writer.writes == 3);
}

/// Whether a text of 44 bytes, put into a writer that fails where it is told to, ends like this after so many writes,
/// of so many bytes.
fn is_put(
    alloc: Global,
    fails_at: u64,
    ended: Result<(), Failed>,
    writes: u64,
    taken: u64,
) -> bool {
    let mut out = Counted::new(TakesAgain::new(alloc, fails_at));
    let is_so = put_all(&mut out, SOLVED_A) == ended;
    let writer = out.into_inner();
    is_so && writer.writes == writes && writer.taken.len() as u64 == taken
}

/// The 44 bytes of a text are three writes of 16 bytes at most.
#[test]
fn nothing_is_put_after_a_failure(rt: HostRuntime) {
    for k in 1..4u64 {
        assert!(rt; is_put(rt.alloc(), k, Err(Failed), k, (k - 1) * 16));
    }
    assert!(rt; is_put(rt.alloc(), 4, Ok(()), 3, 44));
}

/// Whether a solve of net A, from a reader and into a writer that fail where they are told to, tells this message after
/// so many reads and writes, with status 4.
fn is_stopped(
    alloc: Global,
    read_fails_at: u64,
    write_fails_at: u64,
    reads: u64,
    writes: u64,
    message: &[u8],
) -> bool {
    let mut problem = Counted::new(FailsOnce::new(NET_A, read_fails_at));
    let mut unread = Counted::new(b"".as_slice());
    let mut out = Counted::new(TakesAgain::new(alloc, write_fails_at));
    let mut err = Counted::new(Vec::<u8>::new(alloc));
    let status = run(alloc, SOLVE, &mut problem, &mut unread, &mut out, &mut err);
    let reader = problem.into_inner();
    let writer = out.into_inner();
    let told = err.into_inner();
    let is_counted = reader.reads == reads && writer.writes == writes;
    is_counted && told.as_slice() == message && status == 4
}

/// The 62 bytes of net A are four reads of 16 bytes at most, and the fifth tells the end.
#[test]
fn nothing_is_pulled_after_a_failure(rt: HostRuntime) {
    for k in 1..6u64 {
        assert!(rt; is_stopped(rt.alloc(), k, 0, k, 0, b"flow: read failed\n"));
    }
}

/// The answer is put in three writes; the message goes elsewhere.
#[test]
fn a_run_puts_nothing_after_a_failure(rt: HostRuntime) {
    for k in 1..4u64 {
        assert!(rt; is_stopped(rt.alloc(), 0, k, 5, k, b"flow: write failed\n"));
    }
}
