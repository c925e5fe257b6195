//! The lines that the program writes, each with its byte 10.
//!
//! They follow the DIMACS maximum flow format (1990) where it has them: `s` and `f` lines are those of its solution
//! files, `n` and `a` lines name nodes and arcs as its problem files do.
ghost use Rattle.std.specs.Prelude.{◌≡◌, ◌+◌, ◌<◌, ◌≤◌, [], ◌∷◌, ◌++◌, length, drop, codes, decimal};
ghost use Rattle.arrayvec.specs.ArrayVec.{array_vec_len};
ghost use Rattle.flow_text.specs.FaultTexts.{fault_text};
ghost use Rattle.flow_text.specs.ArcLines.{arc_line};
ghost use Rattle.flow_text.specs.Output.{fault_line, line_of, verdict_line};

use crate::{FaultCode, Verdict};
use arrayvec::ArrayVec;
use flow_net::Arc;
use itoa::{Buffer, Integer, write_digits};

/// No line is longer than this, in bytes.
pub const MOST_LINE_BYTES: usize = 128;

/// A line of output with its byte 10, which takes no memory.
pub type Line = ArrayVec<u8, MOST_LINE_BYTES>;

/// The line `s VALUE` that begins a solution or a cut.
#[tactic(auto, unfolding(crate::specs::Output::line_of))]
pub fn solution_line(value: u128) -> Line
    ensures { result.items ≡ line_of "s" (value ∷ []) }
{
    number_line(b"s ", value)
}

/// The line `f SRC DST FLOW` of the flow on an arc.
#[tactic(auto, unfolding(crate::specs::Output::line_of))]
pub fn flow_line(src: u32, dst: u32, flow: u64) -> Line
    ensures { result.items ≡ line_of "f" (src ∷ dst ∷ flow ∷ []) }
{
    let mut line = Line::new();
    push_pair(&mut line, b'f', src, dst, flow);
    line
}

/// The line `n NODE` of a node on the source side of a cut.
#[tactic(auto, unfolding(crate::specs::Output::line_of))]
pub fn node_line(node: u32) -> Line
    ensures { result.items ≡ line_of "n" (node ∷ []) }
{
    number_line(b"n ", node)
}

/// The line `a SRC DST CAP` of an arc that leaves the source side of a cut.
#[tactic(auto, unfolding(crate::specs::Output::line_of))]
pub fn arc_line(arc: Arc) -> Line
    ensures { result.items ≡ arc_line arc }
{
    let mut line = Line::new();
    push_pair(&mut line, b'a', arc.src, arc.dst, arc.cap);
    line
}

/// Appends the line `f SRC DST FLOW` to lines that have room for one, as `flow_line` makes it.
#[tactic(auto, unfolding(crate::specs::Output::line_of))]
#[inline(always)]
pub fn push_flow_line<const N: usize>(lines: &mut ArrayVec<u8, N>, src: u32, dst: u32, flow: u64)
    requires { array_vec_len lines.old + MOST_LINE_BYTES ≤ N }
    ensures { lines.new.items ≡ lines.old.items ++ line_of "f" (src ∷ dst ∷ flow ∷ []) }
{
    push_pair(lines, b'f', src, dst, flow);
}

/// Appends the line `a SRC DST CAP` to lines that have room for one, as `arc_line` makes it.
#[tactic(auto, unfolding(crate::specs::Output::line_of))]
#[inline(always)]
pub fn push_arc_line<const N: usize>(lines: &mut ArrayVec<u8, N>, arc: Arc)
    requires { array_vec_len lines.old + MOST_LINE_BYTES ≤ N }
    ensures { lines.new.items ≡ lines.old.items ++ arc_line arc }
{
    push_pair(lines, b'a', arc.src, arc.dst, arc.cap);
}

/// Appends the line `n NODE` to lines that have room for one, as `node_line` makes it.
#[tactic(auto, unfolding(crate::specs::Output::line_of), using(crate::proofs::OutputLemmas::decimal_10))]
#[inline(always)]
pub fn push_node_line<const N: usize>(lines: &mut ArrayVec<u8, N>, node: u32)
    requires { array_vec_len lines.old + MOST_LINE_BYTES ≤ N }
    ensures { lines.new.items ≡ lines.old.items ++ line_of "n" (node ∷ []) }
{
    let mut bytes = [b'\n'; 16];
    let end = put_number(&mut bytes, node as u64, 15);
    let start = end - 1;
    bytes[start] = b'n';
    push_short(lines, &bytes[start..]);
}

/// The line `k VALUE` of the edge connectivity.
#[tactic(auto, unfolding(crate::specs::Output::line_of))]
pub fn connect_line(value: u64) -> Line
    ensures { result.items ≡ line_of "k" (value ∷ []) }
{
    number_line(b"k ", value)
}

/// The line of a verdict: its word and its numbers, in the order of the variant's fields.
///
/// The value found may be negative; then `-` stands before its digits.
#[tactic(auto, unfolding(crate::specs::Output::line_of, crate::specs::Output::verdict_line))]
pub fn verdict_line(verdict: &Verdict) -> Line
    ensures { result.items ≡ verdict_line verdict.now }
{
    match *verdict {
        Verdict::Over {
            src,
            dst,
            flow,
            cap,
        } => over_line(src, dst, flow, cap),
        Verdict::Unbalanced { node, into, out } => unbalanced_line(node, into, out),
        Verdict::Value { given, found } => value_line(given, found),
        Verdict::Feasible(value) => number_line(b"feasible ", value),
        Verdict::NotMaximal(value) => number_line(b"not-maximal ", value),
        Verdict::Optimal(value) => number_line(b"optimal ", value),
    }
}

/// The message of a fault at a line: of a solution file where `solution` is true, and else of a problem file.
#[tactic(auto, unfolding(crate::specs::Output::fault_line))]
pub fn fault_line(solution: bool, line: u64, code: FaultCode) -> Line
    ensures { result.items ≡ fault_line solution line code }
{
    if solution {
        return message_line(b"flow: solution line ", line, code);
    }
    message_line(b"flow: line ", line, code)
}

/// A word that ends with a blank, and a number.
fn number_line<I: Integer>(word: &[u8], n: I) -> Line
    requires word { length word.now ≤ 20 }
    requires number { I.MAX_STR_LEN ≤ 40 }
    ensures { result.items ≡ word.now ++ I.text n ++ codes "\n" }
{
    let mut line = Line::new();
    push_bytes(&mut line, word);
    push_number(&mut line, n);
    push_bytes(&mut line, b"\n");
    line
}

/// Appends a letter, two nodes and an amount, which take 45 bytes at most. A solve has such a line for every arc, so it
/// is written backwards into bytes of its own, from the line's end on, and copied once.
#[tactic(auto, using(crate::proofs::OutputLemmas::decimal_10, crate::proofs::OutputLemmas::decimal_20))]
#[inline(always)]
fn push_pair<const N: usize>(
    line: &mut ArrayVec<u8, N>,
    letter: u8,
    src: u32,
    dst: u32,
    amount: u64,
)
    requires { array_vec_len line.old + 48 ≤ N }
    ensures { line.new.items ≡ line.old.items ++ (letter ∷ codes " " ++ decimal src
        ++ codes " " ++ decimal dst ++ codes " " ++ decimal amount ++ codes "\n") }
{
    let mut bytes = [b'\n'; 48];
    let end = put_number(&mut bytes, amount, 47);
    let end = put_number(&mut bytes, dst as u64, end);
    let end = put_number(&mut bytes, src as u64, end);
    let start = end - 1;
    bytes[start] = letter;
    push_bytes(line, &bytes[start..]);
}

/// Writes a blank and the digits of a number so that they end at `end`, and answers where the blank stands.
#[inline(always)]
fn put_number(bytes: &mut [u8], n: u64, end: usize) -> usize
    requires room { length (decimal n) < end }
    requires within { end ≤ length bytes.old }
    ensures start { result + length (decimal n) + 1 ≡ end }
    ensures written { drop result bytes.new ≡ 32 ∷ decimal n ++ drop end bytes.old }
{
    let start = write_digits(n, bytes, end) - 1;
    bytes[start] = b' ';
    start
}

/// The verdict on a pair of nodes whose flow passes its capacity: `over SRC DST FLOW CAP`.
fn over_line(src: u32, dst: u32, flow: u128, cap: u128) -> Line
    ensures { result.items ≡ line_of "over" (src ∷ dst ∷ flow ∷ cap ∷ []) }
{
    let mut line = Line::new();
    push_bytes(&mut line, b"over");
    push_field(&mut line, src);
    push_field(&mut line, dst);
    push_field(&mut line, flow);
    push_field(&mut line, cap);
    push_bytes(&mut line, b"\n");
    line
}

/// The verdict on a node that doesn't send on what it takes in: `unbalanced NODE IN OUT`.
#[tactic(auto, unfolding(crate::specs::Output::line_of))]
fn unbalanced_line(node: u32, into: u128, out: u128) -> Line
    ensures { result.items ≡ line_of "unbalanced" (node ∷ into ∷ out ∷ []) }
{
    let mut line = Line::new();
    push_bytes(&mut line, b"unbalanced");
    push_field(&mut line, node);
    push_field(&mut line, into);
    push_field(&mut line, out);
    push_bytes(&mut line, b"\n");
    line
}

/// The verdict on a value that isn't the flow's: `value GIVEN FOUND`.
#[tactic(auto, unfolding(crate::specs::Output::verdict_line))]
fn value_line(given: u128, found: i128) -> Line
    ensures { result.items ≡ verdict_line (Verdict.Value given found) }
{
    let mut line = Line::new();
    push_bytes(&mut line, b"value");
    push_field(&mut line, given);
    push_field(&mut line, found);
    push_bytes(&mut line, b"\n");
    line
}

/// The beginning of a message, a line number and the words of a fault.
#[tactic(auto, using(crate::proofs::OutputLemmas::fault_text_short))]
fn message_line(start: &[u8], line: u64, code: FaultCode) -> Line
    requires { length start.now ≤ 20 }
    ensures { result.items ≡ start.now ++ decimal line ++ codes ": " ++ fault_text code ++ codes "\n" }
{
    let mut message = Line::new();
    push_bytes(&mut message, start);
    push_number(&mut message, line);
    push_bytes(&mut message, b": ");
    push_bytes(&mut message, code.text().as_bytes());
    push_bytes(&mut message, b"\n");
    message
}

/// Appends bytes for which there is room.
#[inline]
fn push_bytes<const N: usize>(line: &mut ArrayVec<u8, N>, bytes: &[u8])
    requires { array_vec_len line.old + length bytes.now ≤ N }
    ensures { line.new.items ≡ line.old.items ++ bytes.now }
{
    line.try_extend_from_slice(bytes).unwrap();
}

/// Appends a short line for which there is room. A copy takes no call where its length is known, so the lengths of the
/// lines of nodes of four to seven digits are told apart.
#[inline(always)]
fn push_short<const N: usize>(lines: &mut ArrayVec<u8, N>, line: &[u8])
    requires { array_vec_len lines.old + length line.now ≤ N }
    ensures { lines.new.items ≡ lines.old.items ++ line.now }
{
    match line.len() {
        7 => push_bytes(lines, &line[..7]),
        8 => push_bytes(lines, &line[..8]),
        9 => push_bytes(lines, &line[..9]),
        10 => push_bytes(lines, &line[..10]),
        _ => push_bytes(lines, line),
    }
}

/// Appends a number in its fewest digits, for which there is room.
#[inline]
fn push_number<I: Integer>(line: &mut Line, n: I)
    requires { array_vec_len line.old + I.MAX_STR_LEN ≤ MOST_LINE_BYTES }
    ensures items { line.new.items ≡ line.old.items ++ I.text n }
    ensures short { length (I.text n) ≤ I.MAX_STR_LEN }
{
    let mut buffer = Buffer::new();
    push_bytes(line, buffer.format(n).as_bytes());
}

/// Appends a blank and a number, for which there is room.
#[inline]
fn push_field<I: Integer>(line: &mut Line, n: I)
    requires { array_vec_len line.old + I.MAX_STR_LEN < MOST_LINE_BYTES }
    ensures items { line.new.items ≡ line.old.items ++ codes " " ++ I.text n }
    ensures short { length (I.text n) ≤ I.MAX_STR_LEN }
{
    push_bytes(line, b" ");
    push_number(line, n);
}
