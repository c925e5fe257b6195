//! The fields of a line, one by one, and the numbers among them.
ghost use Rattle.std.specs.Prelude.{◌≡◌, ◌<◌, ◌≤◌, ◌^◌, [], ◌∷◌, ℕ, List, false, Some, None, ◌==◌, length, IfOk};
ghost use Rattle.std.specs.Prelude.{MatchOption, MatchResult};
ghost use Rattle.std.specs.Str.{bytes_eq};
ghost use Rattle.flow_text.specs.Fields.{field_at};
ghost use Rattle.flow_text.specs.Digits.{value_of};
ghost use Rattle.flow_text.specs.Tests.{first_failed, number_tests, ends_tests};

use crate::faults::FaultCode;
use crate::line_fields::Fields;
use crate::numbers::Number;
use crate::scan::number;
use flow_net::GREATEST_CAPACITY;

/// Whether a field is a word.
#[inline(always)]
pub(crate) fn is_word(field: &[u8], word: &[u8]) -> bool
    ensures { result ≡ bytes_eq field.now word.now }
{
    field == word
}

/// The three fields that are left, if there are as many.
pub(crate) fn three<'a>(mut fields: Fields<'a>) -> Option<(&'a [u8], &'a [u8], &'a [u8])>
    ensures { MatchOption result ((length fields.entry == 3) ≡ false)
        (λ found. fields.entry ≡ found.0.now ∷ found.1.now ∷ found.2.now ∷ []) }
{
    let first = fields.next()?;
    let (second, third) = two(fields)?;
    Some((first, second, third))
}

/// The two fields that are left, if there are as many.
#[inline(always)]
pub(crate) fn two<'a>(mut fields: Fields<'a>) -> Option<(&'a [u8], &'a [u8])>
    ensures { MatchOption result ((length fields.entry == 2) ≡ false)
        (λ found. fields.entry ≡ found.0.now ∷ found.1.now ∷ []) }
{
    let first = fields.next()?;
    let second = one(fields)?;
    Some((first, second))
}

/// The one field that is left, if there is but one.
#[inline(always)]
pub(crate) fn one<'a>(mut fields: Fields<'a>) -> Option<&'a [u8]>
    ensures { MatchOption result ((length fields.entry == 1) ≡ false) (λ found. fields.entry ≡ found.now ∷ []) }
{
    let first = fields.next()?;
    if fields.next().is_some() {
        return None;
    }
    Some(first)
}

/// A number from `least` to `greatest`.
pub(crate) fn number_in(
    field: &[u8],
    least: u128,
    greatest: u128,
    code: FaultCode,
) -> Result<u128, FaultCode>
    ensures { MatchResult result
        (λ v. (first_failed (number_tests field.now least greatest code) ≡ None) × (v ≡ value_of field.now)
        × (least ≤ v) × (v ≤ greatest))
        (λ e. first_failed (number_tests field.now least greatest code) ≡ Some e) }
{
    match number(field, greatest) {
        Number::NotDigits => Err(FaultCode::BadNumber),
        Number::Above => Err(code),
        Number::Value(value) => { if value < least { Err(code) } else { Ok(value) } }
    }
}

/// SRC, DST and the number of `SRC DST NUMBER`; `code` is the fault of a number that has more than 64 bits.
pub(crate) fn ends_in(
    others: Fields<'_>,
    nodes: u32,
    code: FaultCode,
) -> Result<(u32, u32, u64), FaultCode>
    ensures tests { (kind : List ℕ) → MatchResult result
        (λ found. (first_failed (ends_tests nodes code (kind ∷ others.entry)) ≡ None)
        × (found.0 ≡ value_of (field_at (kind ∷ others.entry) 1))
        × (found.1 ≡ value_of (field_at (kind ∷ others.entry) 2))
        × (found.2 ≡ value_of (field_at (kind ∷ others.entry) 3)))
        (λ e. first_failed (ends_tests nodes code (kind ∷ others.entry)) ≡ Some e) }
    ensures src { IfOk result (λ found. (1 ≤ found.0) × (found.0 ≤ nodes)) }
    ensures dst { IfOk result (λ found. (1 ≤ found.1) × (found.1 ≤ nodes)) }
    ensures fits { IfOk result (λ found. found.2 < 2 ^ 64) }
{
    let Some((src, dst, number)) = three(others) else {
        return Err(FaultCode::WrongFields);
    };
    let src = number_in(src, 1, nodes as u128, FaultCode::NodeOutOfRange);
    let dst = number_in(dst, 1, nodes as u128, FaultCode::NodeOutOfRange);
    let number = number_in(number, 0, GREATEST_CAPACITY as u128, code);
    match (src, dst, number) {
        (Ok(src), Ok(dst), Ok(number)) => Ok((src as u32, dst as u32, number as u64)),
        (Err(code), _, _) => Err(code),
        (_, Err(code), _) => Err(code),
        (_, _, Err(code)) => Err(code),
    }
}
