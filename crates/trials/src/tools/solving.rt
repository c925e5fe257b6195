//! Runs of `solve` and `cut` over memory: worked problems with their answers, and faults.
use crate::tools::nets::{NET_A, NET_B, NET_C, NET_D, NO_ARCS, SOLVED_A};
use crate::tools::runs::{CUT, CUT_ARCS, CUT_SINK, CUT_SINK_ARCS, SOLVE, VALUE, is_answered};
use flow_text::LONGEST_LINE;
use flow_tools::Job;
use flow_tools::memory::Script;
use std::alloc::Global;
use std::process::Abort;

/// A job, a problem, and what the run must put.
type Answer = (Job, &'static [u8], &'static [u8]);

/// A job, a text with a fault, and what the run must tell.
type Told = (Job, &'static [u8], &'static [u8]);

const SOLUTIONS: &[Answer] = &[
    (SOLVE, NET_A, SOLVED_A),
    (VALUE, NET_A, b"s 5\n"),
    (SOLVE, NO_ARCS, b"s 0\n"),
    (SOLVE, NET_C, b"s 5\nf 1 2 1\nf 1 2 4\nf 2 1 0\n"),
    (
        SOLVE,
        b"p max 2 2\nn 1 s\nn 2 t\na 1 1 9\na 1 2 1000000000000\n",
        b"s 1000000000000\nf 1 1 0\nf 1 2 1000000000000\n",
    ),
    (
        SOLVE,
        b"p max 2 2\nn 1 s\nn 2 t\na 1 1 9\na 1 2 1000000000001\n",
        b"s 1000000000001\nf 1 1 0\nf 1 2 1000000000001\n",
    ),
    (
        SOLVE,
        b"p max 2 3\nn 2 t\nn 1 s\na 1 2 1000000000000\na 1 2 1000000000000\na 1 2 1000000000000\n",
        b"s 3000000000000\nf 1 2 1000000000000\nf 1 2 1000000000000\nf 1 2 1000000000000\n",
    ),
    (
        SOLVE,
        b"p max 4 2\nn 1 s\nn 2 t\nn 3 t\nn 4 s\na 1 2 5\na 4 3 7\n",
        b"s 12\nf 1 2 5\nf 4 3 7\n",
    ),
    (
        SOLVE,
        b"p max 2 3\nn 1 s\nn 2 t\na 1 2 18446744073709551615\na 1 2 18446744073709551615\n\
          a 1 2 18446744073709551615\n",
        b"s 55340232221128654845\nf 1 2 18446744073709551615\nf 1 2 18446744073709551615\nf 1 2 18446744073709551615\n",
    ),
    (
        SOLVE,
        b"p max 4 5\nn 1 s\nn 4 t\na 1 2 1000000000000\na 1 3 1000000000000\na 2 3 1\na 2 4 1000000000000\n\
          a 3 4 1000000000000\n",
        b"s 2000000000000\nf 1 2 1000000000000\nf 1 3 1000000000000\nf 2 3 0\nf 2 4 1000000000000\n\
          f 3 4 1000000000000\n",
    ),
];

const CUTS: &[Answer] = &[
    (CUT_ARCS, NET_A, b"s 5\nn 1\na 1 2 3\na 1 3 2\n"),
    (
        CUT_SINK_ARCS,
        NET_A,
        b"s 5\nn 1\nn 2\nn 3\na 2 4 2\na 3 4 3\n",
    ),
    (CUT, NET_B, b"s 2\nn 1\n"),
    (CUT_SINK, NET_B, b"s 2\nn 1\nn 2\n"),
    (
        CUT,
        b"p max 3 2\nn 1 s\nn 3 t\na 1 2 5\na 2 3 2\n",
        b"s 2\nn 1\nn 2\n",
    ),
    (CUT_ARCS, NET_D, b"s 3\nn 1\nn 2\nn 3\na 3 4 3\n"),
    (CUT_SINK, NET_D, b"s 3\nn 1\nn 2\nn 3\n"),
    (CUT, NO_ARCS, b"s 0\nn 1\n"),
    (CUT, b"p max 3 0\nn 1 s\nn 3 t\n", b"s 0\nn 1\n"),
    (CUT_SINK, b"p max 3 0\nn 1 s\nn 3 t\n", b"s 0\nn 1\nn 2\n"),
    (
        CUT,
        b"p max 3 2\nn 1 s\nn 2 s\nn 3 t\na 1 2 4\na 2 3 1\n",
        b"s 1\nn 1\nn 2\n",
    ),
    // No flow reaches node 4.
    (
        CUT,
        b"p max 4 3\nn 1 s\nn 3 t\na 1 2 1\na 2 3 1\na 4 3 1\n",
        b"s 1\nn 1\n",
    ),
    (CUT, b"p max 0002 00\nn 1 s\nn 2 t\n", b"s 0\nn 1\n"),
];

const FAULTS: &[Told] = &[
    (SOLVE, b"", b"flow: line 1: problem line missing\n"),
    (
        SOLVE,
        b"p max 2 2\nn 1 s\nn 2 t\na 1 1 9\na 1 2 18446744073709551616\n",
        b"flow: line 5: capacity out of range\n",
    ),
    (
        SOLVE,
        b"p max 2 2\nn 1 s\nn 2 t\na 1 2 1\n",
        b"flow: line 5: too few arcs\n",
    ),
    (
        SOLVE,
        b"p max 2 1\nn 1 s\na 1 2 1\n",
        b"flow: line 3: terminals missing\n",
    ),
    (
        SOLVE,
        b" c note\np max 4 5\nn 1 s\nn 4 t\na 1 2 3\na 1 3 2\na 2 3 1\na 2 4 2\na 3 4 3\n",
        b"flow: line 1: unknown line\n",
    ),
    // The declared numbers are the greatest that there are, and take no memory.
    (
        SOLVE,
        b"p max 1000000 4000000\n",
        b"flow: line 2: terminals missing\n",
    ),
    (SOLVE, b"\xFF\n", b"flow: line 1: unknown line\n"),
    // Byte 11 is no blank.
    (SOLVE, b"p\x0Bmax 2 0\n", b"flow: line 1: unknown line\n"),
    // Nor are the two bytes of a blank that doesn't break lines.
    (
        SOLVE,
        b"p max 2\xC2\xA00\n",
        b"flow: line 1: wrong number of fields\n",
    ),
    // A byte order mark belongs to the first field.
    (
        SOLVE,
        b"\xEF\xBB\xBFp max 4 5\nn 1 s\nn 4 t\na 1 2 3\na 1 3 2\na 2 3 1\na 2 4 2\na 3 4 3\n",
        b"flow: line 1: unknown line\n",
    ),
    (
        SOLVE,
        b"p max 1 0\n",
        b"flow: line 1: number of nodes out of range\n",
    ),
];

/// Whether a text that comes in whole pieces, by single bytes, and by lines, is answered so.
fn answers(alloc: Global, job: Job, text: &[u8], out: &[u8], err: &[u8]) -> bool {
    is_answered(alloc, job, Script::new(text, 4096, false, 0), out, err)
        && is_answered(alloc, job, Script::new(text, 1, false, 0), out, err)
        && is_answered(alloc, job, Script::new(text, 4096, true, 0), out, err)
}

#[test]
fn problems_are_solved(rt: HostRuntime) {
    for &(job, problem, out) in SOLUTIONS {
        assert!(rt; answers(rt.alloc(), job, problem, out, b""));
    }
}

#[test]
fn problems_are_cut(rt: HostRuntime) {
    for &(job, problem, out) in CUTS {
        assert!(rt; answers(rt.alloc(), job, problem, out, b""));
    }
}

#[test]
fn faults_are_told(rt: HostRuntime) {
    for &(job, text, message) in FAULTS {
        assert!(rt; answers(rt.alloc(), job, text, b"", message));
    }
}

/// A text whose first line begins with `front`, goes on with one byte again and again up to a length, and then with
/// `back`; and what a job puts and tells of it.
struct Padded {
    name: &'static str,
    front: &'static [u8],
    byte: u8,
    len: usize,
    back: &'static [u8],
    job: Job,
    out: &'static [u8],
    err: &'static [u8],
}

const PADDED: &[Padded] = &[
    // A line's bytes are counted up to its byte 10: a line that has the most may have blanks behind, and a byte more is
    // a fault, whichever bytes it has.
    Padded {
        name: "a line of the most bytes",
        front: b"p max 2 0",
        byte: b' ',
        len: LONGEST_LINE,
        back: b"\nn 1 s\nn 2 t\n",
        job: CUT,
        out: b"s 0\nn 1\n",
        err: b"",
    },
    Padded {
        name: "a line of a byte more",
        front: b"p max 2 0",
        byte: b' ',
        len: LONGEST_LINE + 1,
        back: b"\nn 1 s\nn 2 t\n",
        job: CUT,
        out: b"",
        err: b"flow: line 1: line too long\n",
    },
    Padded {
        name: "a line of too many blanks before net A",
        front: b"",
        byte: b' ',
        len: LONGEST_LINE + 1,
        back: b"\np max 4 5\nn 1 s\nn 4 t\na 1 2 3\na 1 3 2\na 2 3 1\na 2 4 2\na 3 4 3\n",
        job: SOLVE,
        out: b"",
        err: b"flow: line 1: line too long\n",
    },
    // Zeros before a number don't count, and digits do.
    Padded {
        name: "zeros before a number",
        front: b"p max ",
        byte: b'0',
        len: LONGEST_LINE - 3,
        back: b"2 0\nn 1 s\nn 2 t\n",
        job: CUT,
        out: b"s 0\nn 1\n",
        err: b"",
    },
    Padded {
        name: "a number of the most digits",
        front: b"p max ",
        byte: b'9',
        len: LONGEST_LINE - 3,
        back: b"9 0\n",
        job: SOLVE,
        out: b"",
        err: b"flow: line 1: number of nodes out of range\n",
    },
    Padded {
        name: "net A with byte 13 before each line end, without its last byte 10, behind a comment of 10,001 bytes",
        front: b"c",
        byte: 200,
        len: 10_001,
        back: b"\np max 4 5\r\nn 1 s\r\nn 4 t\r\na 1 2 3\r\na 1 3 2\r\na 2 3 1\r\na 2 4 2\r\na 3 4 3\r",
        job: SOLVE,
        out: SOLVED_A,
        err: b"",
    },
    Padded {
        name: "a comment of 1,000,001 bytes at the end of the input",
        front: b"c",
        byte: 255,
        len: 1_000_001,
        back: b"",
        job: SOLVE,
        out: b"",
        err: b"flow: line 2: problem line missing\n",
    },
    Padded {
        name: "net A behind a comment of 1,000,001 bytes",
        front: b"c",
        byte: 255,
        len: 1_000_001,
        back: b"\np max 4 5\nn 1 s\nn 4 t\na 1 2 3\na 1 3 2\na 2 3 1\na 2 4 2\na 3 4 3\n",
        job: SOLVE,
        out: SOLVED_A,
        err: b"",
    },
];

/// Puts the text into an empty one, and answers whether there is memory.
#[must_use]
fn put_padded(text: &mut Vec<u8>, padded: &Padded) -> bool {
    text.extend_from_slice(padded.front).is_ok()
        && text.resize(padded.len, padded.byte).is_ok()
        && text.extend_from_slice(padded.back).is_ok()
}

/// Whether the text is answered as told.
fn is_padded(alloc: Global, padded: &Padded) -> bool {
    let mut text: Vec<u8> = Vec::new(alloc);
    let is_put = put_padded(&mut text, padded);
    let is_answered = answers(alloc, padded.job, text.as_slice(), padded.out, padded.err);
    is_put && is_answered
}

#[test]
fn lines_that_are_padded(rt: HostRuntime) {
    for padded in PADDED {
        assert!(rt; is_padded(rt.alloc(), padded), "{}", padded.name);
    }
}

/// What is told of a beginning of net A that has at most so many bytes, and more than the row before. A line that was
/// cut has too few fields, until its last field has begun. One that is whole counts, with its byte 10 or without, and
/// then the end comes too early: before a sink, or before the fifth arc.
const BEGINNINGS_OF_A: &[(usize, &[u8])] = &[
    (0, b"flow: line 1: problem line missing\n"),
    (8, b"flow: line 1: wrong number of fields\n"),
    (10, b"flow: line 2: terminals missing\n"),
    (14, b"flow: line 2: wrong number of fields\n"),
    (16, b"flow: line 3: terminals missing\n"),
    (20, b"flow: line 3: wrong number of fields\n"),
    (22, b"flow: line 4: too few arcs\n"),
    (28, b"flow: line 4: wrong number of fields\n"),
    (30, b"flow: line 5: too few arcs\n"),
    (36, b"flow: line 5: wrong number of fields\n"),
    (38, b"flow: line 6: too few arcs\n"),
    (44, b"flow: line 6: wrong number of fields\n"),
    (46, b"flow: line 7: too few arcs\n"),
    (52, b"flow: line 7: wrong number of fields\n"),
    (54, b"flow: line 8: too few arcs\n"),
    (60, b"flow: line 8: wrong number of fields\n"),
];

/// What is told of the first `len` bytes of net A: nothing where only the last byte 10 is missing, or none.
fn told_of_beginning(len: usize) -> &'static [u8] {
    for &(most, message) in BEGINNINGS_OF_A {
        if len <= most {
            return message;
        }
    }
    b""
}

/// Whether a solve of the first `len` bytes of net A puts the answer, or tells what is to be told.
fn is_beginning(alloc: Global, len: usize) -> bool {
    let (text, _) = NET_A.split_at(len.min(NET_A.len()));
    let told = told_of_beginning(len);
    let put = if told.is_empty() { SOLVED_A } else { b"" };
    answers(alloc, SOLVE, text, put, told)
}

#[test]
fn each_beginning_of_a_problem(rt: HostRuntime) {
    for len in 0..63usize {
        assert!(rt; NET_A.len() == 62 && is_beginning(rt.alloc(), len));
    }
}
