//! What a line and a field say.
ghost use Rattle.std.specs.Prelude.{◌≡◌, ◌+◌, ◌*◌, ◌^◌, ◌<◌, ◌≤◌, length, MatchOption};
ghost use Rattle.flow_text.specs.Fields.{fields_of};
ghost use Rattle.flow_text.specs.Numbers.{number_of};

use crate::limits::SHORT_DIGITS;
use crate::line_fields::Fields;
use crate::numbers::Number;

/// The longest runs of bytes that are no blank.
pub fn fields(line: &[u8]) -> Fields<'_>
    ensures { result ≡ fields_of line.now }
{
    Fields::new(line)
}

/// A number with one digit more at its end, if it has 128 bits.
fn with_digit(value: u128, digit: u8) -> Option<u128>
    requires { digit < 10 }
    ensures { MatchOption result (2 ^ 128 ≤ value * 10 + digit) (λ v. v ≡ value * 10 + digit) }
{
    value.checked_mul(10)?.checked_add(digit as u128)
}

/// `number` of a field of at most `SHORT_DIGITS` bytes, whose value has 64 bits.
#[inline(always)]
fn short_number(field: &[u8], limit: u128) -> Number
    requires some { 0 < length field.now }
    requires short { length field.now ≤ SHORT_DIGITS }
    ensures { result ≡ number_of field.now limit }
{
    let mut value: u64 = 0;
    for byte in field {
        if !byte.is_ascii_digit() {
            return Number::NotDigits;
        }
        value = value * 10 + (*byte - b'0') as u64;
    }
    if value as u128 <= limit {
        Number::Value(value as u128)
    } else {
        Number::Above
    }
}

/// `number` of a field of any length.
#[inline(never)]
#[cold]
fn long_number(field: &[u8], limit: u128) -> Number
    requires { 0 < length field.now }
    ensures { result ≡ number_of field.now limit }
{
    let mut value: u128 = 0;
    let mut above = false;
    for byte in field {
        if !byte.is_ascii_digit() {
            return Number::NotDigits;
        }
        match with_digit(value, *byte - b'0') {
            Some(more) => value = more,
            None => above = true,
        }
    }
    if !above && value <= limit {
        Number::Value(value)
    } else {
        Number::Above
    }
}

/// The value of a field of digits, if it is at most the limit.
pub fn number(field: &[u8], limit: u128) -> Number
    ensures { result ≡ number_of field.now limit }
{
    if field.is_empty() {
        Number::NotDigits
    } else if field.len() <= SHORT_DIGITS {
        short_number(field, limit)
    } else {
        long_number(field, limit)
    }
}
