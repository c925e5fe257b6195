//! The usual form of an arc line and of a flow line, read in one pass: the letter, and three numbers of at most
//! `SHORT_DIGITS` digits, with at most `MOST_BLANKS` blanks before each of them and before byte 10. A text that is
//! shorter than the longest such line is read the general way: so no byte has to be tested for the end of the text, and
//! the loops have a fixed length.
ghost use Rattle.std.specs.Prelude.{◌+◌, ◌-◌, ◌≤◌, length, drop, IfSome};
ghost use Rattle.flow_text.specs.UsualLines.{AreBlanks, IsLeading, IsNumberBehind, IsLetter, IsUsual};

use crate::limits::SHORT_DIGITS;
use crate::line_fields::is_blank_byte;

/// The most blanks in a row: those of columns side by side, and byte 13 before byte 10.
const MOST_BLANKS: usize = 8;

/// The letter, three numbers with the blanks before each, the blanks behind them, and byte 10.
const USUAL_BYTES: usize = 3 * (MOST_BLANKS + SHORT_DIGITS) + MOST_BLANKS + 2;

/// The place of the first byte from `start` on that is no blank, or that behind `MOST_BLANKS` of them.
#[inline(always)]
fn skip_blanks(text: &[u8], start: usize) -> usize
    requires { start + MOST_BLANKS ≤ length text.now }
    ensures low { start ≤ result }
    ensures short { result ≤ start + MOST_BLANKS }
    ensures blanks { AreBlanks text.now start result }
{
    for i in start..start + MOST_BLANKS {
        if !is_blank_byte(text[i]) {
            return i;
        }
    }
    start + MOST_BLANKS
}

/// The value of the digits from `start` on, at most `SHORT_DIGITS`, and the place behind them.
#[inline(always)]
fn leading_digits(text: &[u8], start: usize) -> (u64, usize)
    requires { start + SHORT_DIGITS ≤ length text.now }
    ensures low { start ≤ result.1 }
    ensures short { result.1 ≤ start + SHORT_DIGITS }
    ensures leading { IsLeading (drop start text.now) result.0 (result.1 - start) }
{
    let mut value: u64 = 0;
    for i in start..start + SHORT_DIGITS {
        let digit = (text[i] as u64).wrapping_sub(b'0' as u64);
        if digit > 9 {
            return (value, i);
        }
        value = value * 10 + digit;
    }
    (value, start + SHORT_DIGITS)
}

/// The value of the number behind the blanks from `start` on, and the place behind it, where there are one to
/// `MOST_BLANKS` blanks and one to `SHORT_DIGITS` digits.
#[inline(always)]
fn number_behind(text: &[u8], start: usize) -> Option<(u64, usize)>
    requires { start + MOST_BLANKS + SHORT_DIGITS ≤ length text.now }
    ensures { IfSome result (λ found. IsNumberBehind text.now start found.0 found.1) }
{
    let begin = skip_blanks(text, start);
    let (value, end) = leading_digits(text, begin);
    if begin == start || end == begin {
        return None;
    }
    Some((value, end))
}

/// The three numbers of the line that the text begins with and the place of its byte 10, where it has the usual form.
#[inline(always)]
pub(crate) fn usual_line(text: &[u8], letter: u8) -> Option<(u64, u64, u64, usize)>
    requires { IsLetter letter }
    ensures { IfSome result (λ found. IsUsual letter text.now found.0 found.1 found.2 found.3) }
{
    if text.len() < USUAL_BYTES || text[0] != letter {
        return None;
    }
    let (src, first) = number_behind(text, 1)?;
    let (dst, second) = number_behind(text, first)?;
    let (number, third) = number_behind(text, second)?;
    let at = skip_blanks(text, third);
    if text[at] != b'\n' {
        return None;
    }
    Some((src, dst, number, at))
}
