//! Texts that are refused, and the fields and numbers of a line.
ghost use Rattle.std.specs.Prelude.{◌<◌};

mod faults;
mod output;
mod reading;

use flow_text::*;
use std::alloc::Global;
use std::process::Abort;

/// Refused problems: the text, the line of the fault and its words.
const PROBLEM_FAULTS: &[(&str, u64, &str)] = &[
    ("p max 2 0\nx\n", 2, "unknown line"),
    ("p max 2 0\npp max 2 0\n", 2, "unknown line"),
    ("p max 2\n", 1, "wrong number of fields"),
    ("p max 2 1\nn 1 s\nn 2 t\na 3 x 1\n", 4, "node out of range"),
    ("p max -2 0\n", 1, "bad number"),
    ("p max 2 0\np\n", 2, "second problem line"),
    ("n 1 s\n", 1, "problem line missing"),
    ("p min x 0\n", 1, "problem is not max"),
    ("p max 1 x\n", 1, "number of nodes out of range"),
    ("p max 1000001 0\n", 1, "number of nodes out of range"),
    ("p max 2 4000001\n", 1, "number of arcs out of range"),
    (
        "p max 2 1\nn 1 s\nn 2 t\na 1 2 1\nn\n",
        5,
        "node line after an arc line",
    ),
    ("p max 2 0\nn 3 x\n", 2, "node out of range"),
    ("p max 2 0\nn 0 s\n", 2, "node out of range"),
    ("p max 2 0\nn 1 source\n", 2, "terminal must be s or t"),
    ("p max 3 0\nn 1 s\nn 1 s\n", 3, "node is already a terminal"),
    ("p max 3 0\nn 2 t\nn 3 t\n", 4, "terminals missing"),
    ("p max 2 0\nn 1 s\nn 1 t\n", 3, "node is already a terminal"),
    ("p max 2 0\nn 1 s\n", 3, "terminals missing"),
    ("p max 2 0\nn 1 s\nn 2 t\na\n", 4, "too many arcs"),
    (
        "p max 2 1\nn 1 s\nn 2 t\na 1 2 18446744073709551616\n",
        4,
        "capacity out of range",
    ),
    ("p max 2 1\nn 1 s\nn 2 t\n", 4, "too few arcs"),
    ("\n", 2, "problem line missing"),
    ("c only\n", 2, "problem line missing"),
];

/// Refused solutions to a problem of two nodes, in the same way.
const SOLUTION_FAULTS: &[(&str, u64, &str)] = &[
    ("", 1, "solution line missing"),
    ("f\n", 1, "solution line missing"),
    ("a 1 2 1\n", 1, "unknown line"),
    ("s 1\ns\n", 2, "second solution line"),
    ("s 1 2\n", 1, "wrong number of fields"),
    ("s -1\n", 1, "bad number"),
    ("s 73786976294838206460000001\n", 1, "value out of range"),
    ("s 1\nf 1 3 1\n", 2, "node out of range"),
    ("s 1\nf 1 2 18446744073709551616\n", 2, "flow out of range"),
    ("c note\ns 1\nf 1 2\n", 3, "wrong number of fields"),
];

const TOO_MANY_FLOW_LINES: ReadFault = ReadFault::Fault {
    line: MOST_FLOW_LINES as u64 + 2,
    code: FaultCode::TooManyFlowLines,
};

/// The greatest number of 128 bits.
const GREATEST: u128 = 340_282_366_920_938_463_463_374_607_431_768_211_455;

/// Fields, limits, and what `number` answers.
const NUMBERS: &[(&[u8], u128, Number)] = &[
    (b"", 5, Number::NotDigits),
    (b"5", 5, Number::Value(5)),
    (b"0005", 5, Number::Value(5)),
    (b"6", 5, Number::Above),
    (b"6x", 5, Number::NotDigits),
    (b"+5", 5, Number::NotDigits),
    (&[b'9'; 150], 18_446_744_073_709_551_615, Number::Above),
    (
        b"340282366920938463463374607431768211455",
        GREATEST,
        Number::Value(GREATEST),
    ),
    (&[b'9'; 39], GREATEST, Number::Above),
    (&[b'0'; 150], 0, Number::Value(0)),
];

/// Ends a test with the row of a table of which something isn't so.
fn expect(rt: &impl Abort, is_so: bool, row: &str) {
    assert!(rt; is_so, "{row}");
}

/// A reader of problems, or of solutions to a problem of two nodes, of whose texts only the refusals count.
trait Refuses {
    fn begin(alloc: Global) -> Self;

    fn take(&mut self, piece: &[u8]) -> Result<(), ReadFault>;

    /// Whether it lends nothing.
    fn is_silent(&self) -> bool;

    /// What the text is refused with that ends here.
    fn end(self) -> Option<ReadFault>;
}

impl Refuses for ProblemReader {
    fn begin(alloc: Global) -> ProblemReader {
        ProblemReader::new(alloc)
    }

    fn take(&mut self, piece: &[u8]) -> Result<(), ReadFault> {
        self.feed(piece)
    }

    fn is_silent(&self) -> bool {
        self.net().is_none()
    }

    fn end(self) -> Option<ReadFault> {
        self.finish().err()
    }
}

impl Refuses for SolutionReader {
    fn begin(alloc: Global) -> SolutionReader {
        SolutionReader::new(alloc, 2)
    }

    fn take(&mut self, piece: &[u8]) -> Result<(), ReadFault> {
        self.feed(piece)
    }

    fn is_silent(&self) -> bool {
        self.lines().is_empty()
    }

    fn end(self) -> Option<ReadFault> {
        self.finish().err()
    }
}

/// Feeds a text whose first piece has a given length, and the others at most another, up to the first refusal.
fn take_pieces<R: Refuses>(
    reader: &mut R,
    text: &[u8],
    first: usize,
    len: usize,
) -> Result<(), ReadFault>
    requires { 0 < len }
{
    let (front, rest) = text.split_at(first.min(text.len()));
    let mut answer = reader.take(front);
    for piece in rest.chunks(len) {
        if answer.is_ok() {
            answer = reader.take(piece);
        }
    }
    answer
}

/// Whether a reader that has refused a piece lends nothing, and answers the same from then on.
fn keeps_refusing<R: Refuses>(mut reader: R, refused: ReadFault) -> bool {
    let is_silent = reader.is_silent() && reader.take(b"c") == Err(refused);
    reader.end() == Some(refused) && is_silent
}

/// What a text in such pieces is refused with; nothing where it is accepted, or its refusal doesn't stay.
fn refusal<R: Refuses>(alloc: Global, text: &[u8], first: usize, len: usize) -> Option<ReadFault>
    requires { 0 < len }
{
    let mut reader = R::begin(alloc);
    match take_pieces(&mut reader, text, first, len) {
        Ok(()) => reader.end(),
        Err(refused) => {
            if keeps_refusing(reader, refused) {
                Some(refused)
            } else {
                None
            }
        }
    }
}

/// Whether a refusal is told at this line and in these words.
fn is_told(refused: Option<ReadFault>, line: u64, words: &str) -> bool {
    match refused {
        Some(ReadFault::Fault { line: at, code }) => at == line && code.text() == words,
        _ => false,
    }
}

/// Whether a text is refused so whole, cut in two at each place, and one byte at a time.
fn is_refused<R: Refuses>(alloc: Global, text: &str, line: u64, words: &str) -> bool {
    let bytes = text.as_bytes();
    for first in 0..bytes.len() + 1 {
        if !is_told(refusal::<R>(alloc, bytes, first, 4096), line, words) {
            return false;
        }
    }
    is_told(refusal::<R>(alloc, bytes, 0, 1), line, words)
}

#[test]
fn problem_faults(rt: HostRuntime) {
    for &(text, line, words) in PROBLEM_FAULTS {
        let is_so = is_refused::<ProblemReader>(rt.alloc(), text, line, words);
        expect(&rt, is_so, text);
    }
}

#[test]
fn solution_faults(rt: HostRuntime) {
    for &(text, line, words) in SOLUTION_FAULTS {
        let is_so = is_refused::<SolutionReader>(rt.alloc(), text, line, words);
        expect(&rt, is_so, text);
    }
}

/// Whether a reader takes as many bytes as a line may have, and refuses what comes then.
fn is_full<R: Refuses>(alloc: Global, more: &[u8], code: FaultCode) -> bool {
    let refused = ReadFault::Fault { line: 1, code };
    let mut reader = R::begin(alloc);
    let is_taken = reader.take(&[b'x'; LONGEST_LINE]).is_ok();
    let is_refused = reader.take(more) == Err(refused);
    keeps_refusing(reader, refused) && is_taken && is_refused
}

/// The same of a byte more, and of the line's end.
fn refuses_long_lines<R: Refuses>(alloc: Global) -> bool {
    is_full::<R>(alloc, b"x", FaultCode::LineTooLong)
        && is_full::<R>(alloc, b"\n", FaultCode::UnknownLine)
}

#[test]
fn lines_of_the_greatest_length(rt: HostRuntime) {
    assert!(rt;
        refuses_long_lines::<ProblemReader>(rt.alloc())
            && refuses_long_lines::<SolutionReader>(rt.alloc())
    );
}

/// The bytes of a solution of one flow line more than there may be: 4, and 8 for each flow line.
const TOO_MANY_BYTES: usize = 4 + 8 * (MOST_FLOW_LINES + 1);

/// Puts such a solution into an empty text, and answers whether there is memory.
#[must_use]
fn put_too_many_flow_lines(text: &mut Vec<u8>) -> bool {
    let mut is_put = text.extend_from_slice(b"s 0\n").is_ok();
    for _ in 0..MOST_FLOW_LINES + 1 {
        is_put = is_put && text.extend_from_slice(b"f 1 2 0\n").is_ok();
    }
    is_put
}

/// Feeds a solution in pieces of so many bytes: how many were taken and how many flow lines were kept before the first
/// that was refused, and its refusal.
fn first_refused(
    reader: &mut SolutionReader,
    text: &[u8],
    len: usize,
) -> Option<(usize, usize, ReadFault)>
    requires { 0 < len }
{
    let mut taken = 0usize;
    for piece in text.chunks(len) {
        let kept = reader.lines().len();
        match reader.feed(piece) {
            Ok(()) => taken = taken.wrapping_add(1),
            Err(refused) => return Some((taken, kept, refused)),
        }
    }
    None
}

/// Whether a solution in pieces of so many bytes is refused for its flow lines after so many pieces, and after so many
/// flow lines that are kept, and stays refused.
fn is_refused_after(alloc: Global, text: &[u8], len: usize, taken: usize, kept: usize) -> bool
    requires { 0 < len }
{
    let mut reader = SolutionReader::new(alloc, 2);
    let refused = first_refused(&mut reader, text, len);
    let stays = keeps_refusing(reader, TOO_MANY_FLOW_LINES);
    stays && refused == Some((taken, kept, TOO_MANY_FLOW_LINES))
}

/// The same of a solution to a problem of two nodes with one flow line more than there may be.
fn is_too_long(alloc: Global, len: usize, taken: usize, kept: usize) -> bool
    requires { 0 < len }
{
    let mut text: Vec<u8> = Vec::new(alloc);
    let is_put = put_too_many_flow_lines(&mut text);
    let is_refused = is_refused_after(alloc, text.as_slice(), len, taken, kept);
    is_put && is_refused && text.len() == TOO_MANY_BYTES
}

/// Ends a test where it isn't so.
fn check_pieces(rt: &impl Abort, alloc: Global, len: usize, taken: usize, kept: usize)
    requires { 0 < len }
{
    assert!(rt; is_too_long(alloc, len, taken, kept));
}

#[test]
fn too_many_flow_lines_at_once(rt: HostRuntime) {
    check_pieces(&rt, rt.alloc(), TOO_MANY_BYTES, 0, 0);
}

/// All but the last line are taken and kept.
#[test]
fn too_many_flow_lines_by_the_last(rt: HostRuntime) {
    check_pieces(&rt, rt.alloc(), TOO_MANY_BYTES - 8, 1, MOST_FLOW_LINES);
}

/// Byte 10 of the last line is refused.
#[test]
fn too_many_flow_lines_byte_by_byte(rt: HostRuntime) {
    check_pieces(&rt, rt.alloc(), 1, TOO_MANY_BYTES - 1, MOST_FLOW_LINES);
}

/// Pieces of 7 bytes cut lines of 8 bytes at each of their places: of the whole pieces and 2 bytes, these 2 are
/// refused. Two pieces cut at every place of the text would be 32 million readings of it, which is out of reach.
#[test]
fn too_many_flow_lines_in_pieces(rt: HostRuntime) {
    check_pieces(&rt, rt.alloc(), 7, TOO_MANY_BYTES / 7, MOST_FLOW_LINES);
}

/// Whether a line has these fields and no more.
fn are_fields(line: &[u8], texts: &[&[u8]]) -> bool {
    let mut found = fields(line);
    for text in texts {
        let Some(field) = found.next() else {
            return false;
        };
        if field != *text {
            return false;
        }
    }
    found.next().is_none()
}

#[test]
fn fields_of_a_line(rt: HostRuntime) {
    assert!(rt; are_fields(b"\ta  12\r 3 \r", &[b"a", b"12", b"3"]));
}

#[test]
fn numbers_of_fields(rt: HostRuntime) {
    for &(field, limit, answer) in NUMBERS {
        assert!(rt; number(field, limit) == answer, "{field:?}");
    }
}
