//! Runs over streams that fail at each place, or take little.
ghost use Rattle.std.specs.Prelude.{◌<◌, ◌≤◌};

use crate::tools::nets::{NET_A, SOLVED_A};
use crate::tools::runs::{CHECK, SOLVE, answer, run_alone, run_over};
use flow_text::LONGEST_LINE;
use flow_tools::memory::{Collector, Script};
use flow_tools::{Counted, Input, Output, run};
use std::alloc::Global;
use std::io::Write;
use std::process::Abort;

/// Net A, but for a source that is no node of it.
const FAULT_IN_LINE_2: &[u8] =
    b"p max 4 5\nn 5 s\nn 4 t\na 1 2 3\na 1 3 2\na 2 3 1\na 2 4 2\na 3 4 3\n";

const READ_FAILED: &[u8] = b"flow: read failed\n";

const WRITE_FAILED: &[u8] = b"flow: write failed\n";

/// Solves a text that comes line by line from an input whose pull number `fails_at` fails or would fail. The run tells
/// `message` after so many pulls.
fn expect_stop(
    rt: &impl Abort,
    alloc: Global,
    text: &[u8],
    fails_at: u64,
    message: &[u8],
    pulls: u64,
) {
    let ended = answer(alloc, SOLVE, Script::new(text, 4096, true, fails_at));
    let has_failed = pulls == fails_at;
    let status = if has_failed { 4 } else { 3 };
    let is_stopped = ended.pulls == pulls && ended.read_failed == has_failed;
    assert!(rt; is_stopped && ended.has_left(b"", message, status));
}

/// The eight lines of net A and its end are nine pulls.
#[test]
fn each_pull_fails(rt: HostRuntime) {
    for k in 1..10u64 {
        expect_stop(&rt, rt.alloc(), NET_A, k, READ_FAILED, k);
    }
}

/// A fault is told as soon as its line has ended, and not before.
#[test]
fn a_pull_fails_before_a_fault_or_after_it(rt: HostRuntime) {
    let fault = b"flow: line 2: node out of range\n".as_slice();
    for k in 1..3u64 {
        expect_stop(&rt, rt.alloc(), FAULT_IN_LINE_2, k, READ_FAILED, k);
    }
    for k in 3..10u64 {
        expect_stop(&rt, rt.alloc(), FAULT_IN_LINE_2, k, fault, 2);
    }
}

/// What came before a failed pull has no fault yet where it may be the beginning of a right line or a comment.
#[test]
fn a_pull_fails_within_a_line(rt: HostRuntime) {
    let longer = [b'x'; LONGEST_LINE + 1];
    let mut comment = longer;
    comment[0] = b'c';
    let too_few = b"flow: line 1: number of nodes out of range\n".as_slice();
    let too_long = b"flow: line 1: line too long\n".as_slice();
    expect_stop(&rt, rt.alloc(), b"p max 1 0", 2, READ_FAILED, 2);
    expect_stop(&rt, rt.alloc(), b"p max 1 0\n", 2, too_few, 1);
    expect_stop(&rt, rt.alloc(), &longer, 2, too_long, 1);
    expect_stop(&rt, rt.alloc(), &comment, 2, READ_FAILED, 2);
}

#[test]
fn nothing_is_pulled_after_the_end(rt: HostRuntime) {
    let ended = answer(rt.alloc(), SOLVE, Script::new(NET_A, 4096, true, 10));
    let is_whole = ended.pulls == 9 && !ended.read_failed;
    assert!(rt; is_whole && ended.has_left(SOLVED_A, b"", 0));
}

/// Whether a solve of net A puts as many bytes as there is room for, so many at a time, and tells then that a write
/// failed.
fn is_cut_off(alloc: Global, most: usize, room: usize) -> bool
    requires most { 0 < most }
    requires room { room ≤ 44 }
{
    let ended = run_alone(
        alloc,
        SOLVE,
        Script::new(NET_A, 4096, false, 0),
        Collector::new(most, room),
        Collector::new(64, 64),
    );
    let (put, _) = SOLVED_A.split_at(room.min(SOLVED_A.len()));
    ended.out.failed() && ended.has_left(put, WRITE_FAILED, 4)
}

/// The same for each room that is less than the 44 bytes of the answer's text.
fn is_cut_off_each_time(alloc: Global, most: usize) -> bool
    requires { 0 < most }
{
    for room in 0..44usize {
        if !is_cut_off(alloc, most, room) {
            return false;
        }
    }
    true
}

#[test]
fn each_byte_put_fails(rt: HostRuntime) {
    for most in [1usize, 5, 64] {
        assert!(rt; SOLVED_A.len() == 44 && is_cut_off_each_time(rt.alloc(), most));
    }
}

/// Room for the answer and no byte more is enough.
#[test]
fn one_byte_a_put(rt: HostRuntime) {
    let input = Script::new(NET_A, 4096, false, 0);
    let ended = run_alone(
        rt.alloc(),
        SOLVE,
        input,
        Collector::new(1, 44),
        Collector::new(1, 0),
    );
    let has_failed = ended.out.failed() || ended.err.failed();
    assert!(rt; !has_failed && ended.has_left(SOLVED_A, b"", 0));
}

#[test]
fn a_message_is_cut_short(rt: HostRuntime) {
    let input = Script::new(b"", 1, false, 0);
    let ended = run_alone(
        rt.alloc(),
        SOLVE,
        input,
        Collector::new(1, 64),
        Collector::new(2, 3),
    );
    assert!(rt; ended.err.failed() && ended.has_left(b"", b"flo", 3));
}

/// A solution of net A in one piece and the number of its pull that fails, how many bytes the output takes, and what
/// the run must tell, its status, and the pulls of the solution. Nothing is put.
type Stopped = (&'static [u8], u64, usize, &'static [u8], u8, u64);

const STOPPED_CHECKS: &[Stopped] = &[
    (b"s 0\n", 1, 512, READ_FAILED, 4, 1),
    (b"s 0\n", 2, 512, READ_FAILED, 4, 2),
    (
        b"s -1\n",
        2,
        512,
        b"flow: solution line 1: bad number\n",
        3,
        1,
    ),
    // The verdict would be that the solution isn't maximal, with status 1.
    (b"s 0\n", 0, 0, WRITE_FAILED, 4, 2),
];

/// Whether a check stops as told.
fn is_stopped(alloc: Global, stopped: &Stopped) -> bool {
    let (text, fails_at, room, message, status, pulls) = *stopped;
    let ended = run_over(
        alloc,
        CHECK,
        Script::new(NET_A, 4096, false, 0),
        Script::new(text, 64, false, fails_at),
        Collector::new(16, room.min(512)),
        Collector::new(16, 128),
    );
    ended.solution_pulls == pulls && ended.has_left(b"", message, status)
}

#[test]
fn streams_of_a_check_that_fail(rt: HostRuntime) {
    for stopped in STOPPED_CHECKS {
        assert!(rt; is_stopped(rt.alloc(), stopped));
    }
}

/// A writer that takes nothing of anything, so that nothing has ever come out of it.
#[derive(Drop)]
struct Full;

impl Write for Full {
    fn write(&mut self, _buf: &[u8]) -> std::io::Result<usize> {
        Ok(0)
    }

    fn flush(&mut self) -> std::io::Result<()> {
        Ok(())
    }
}

/// Whether a solve of net A from a reader of std tells this message and ends with this status.
fn is_told<W: Write>(alloc: Global, out: &mut Counted<W>, message: &[u8], status: u8) -> bool {
    let mut input = Counted::new(NET_A);
    let mut unread = Counted::new(b"".as_slice());
    let mut err = Counted::new(Vec::<u8>::new(alloc));
    let ended = run(alloc, SOLVE, &mut input, &mut unread, out, &mut err);
    err.into_inner().as_slice() == message && ended == status
}

/// Whether a vector takes the answer.
fn is_taken(alloc: Global) -> bool {
    let mut out = Counted::new(Vec::<u8>::new(alloc));
    let is_solved = is_told(alloc, &mut out, b"", 0);
    is_solved && out.into_inner().as_slice() == SOLVED_A
}

/// Whether a full writer takes none.
fn is_refused(alloc: Global) -> bool {
    let mut full = Counted::new(Full);
    is_told(alloc, &mut full, WRITE_FAILED, 4) && Output::failed(&full)
}

#[test]
fn streams_of_std(rt: HostRuntime) {
    assert!(rt; is_taken(rt.alloc()) && is_refused(rt.alloc()));
}
