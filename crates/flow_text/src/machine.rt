//! The machine under both readers. It cuts a text that comes in pieces into lines and has each line judged. It keeps
//! the bytes of an unfinished line, at most as many as a line may have, and none of a comment.
ghost use Rattle.std.specs.Prelude.{◌≡◌, ◌+◌, ◌++◌, ◌∷◌, [], List, ℕ, None, Some, Err, false, IsErrOf, IfOk, is_some};
ghost use Rattle.std.specs.Prelude.{true, MatchOption};
ghost use Rattle.flow_text.specs.Rules.{Rules, is_comment, fault_of};
ghost use Rattle.flow_text.specs.Reading.{told, Adds, HasRead, Refuses, FeedsBy, ClosesBy, Judges, JudgesFirst};
ghost use Rattle.flow_text.specs.Reading.{with_line, EndsLine, EndsFirst, BuffersTail, Takes, Finals, fault_from};
ghost use Rattle.flow_text.specs.declared.faults.ReadFault.{ReadFault};

use crate::faults::{FaultCode, ReadFault};
use crate::limits::LONGEST_LINE;
use crate::line_fields::Fields;
use crate::scan::fields;
use arrayvec::ArrayVec;
use memchr::memchr;
use std::marker::Model;

/// Why a line is refused.
#[derive(Clone, Copy)]
pub(crate) enum Refusal {
    /// The line has a fault.
    Code(FaultCode),
    /// The memory for what it says was refused.
    Memory,
}

/// Judges the lines of a kind of file by their fields, one after another, and keeps what they say.
pub(crate) trait Judge: Drop {
    ghost rules: { Rules Self };

    ghost with_record: { Self → List (List ℕ) → Self };

    /// Judges the fields of the next line, and keeps what they say.
    fn judge_fields(&mut self, letter: &[u8], others: Fields<'_>) -> Result<(), Refusal>
        ensures { Judges (rules.record_fault self.old (letter.now ∷ others.entry))
            (with_record self.old (letter.now ∷ others.entry)) result self.new };

    /// Judges the first line of a text in one pass and keeps what it says, where it has the usual form and no fault,
    /// and answers the place of its byte 10. Any other line is left to `judge_fields`.
    fn judge_usual(&mut self, text: &[u8]) -> Result<Option<usize>, Refusal>
        ensures { JudgesFirst rules with_record self.old text.now result self.new };

    /// The fault of the end of input.
    fn end_fault(&self) -> Option<FaultCode>
        ensures { result ≡ rules.end_fault self.now };
}

/// A judge, and the unfinished line so far.
#[derive(Drop)]
pub(crate) struct Machine<J> {
    refused: Option<ReadFault>,
    count: u64,
    judge: J,
    comment: bool,
    partial: ArrayVec<u8, LONGEST_LINE>,
}

impl<J> Model for Machine<J> {
    ghost use Rattle.std.specs.Prelude.{◌≡◌, ◌≤◌, length, true, false, []};
    ghost use Rattle.flow_text.specs.Rules.{is_comment};
    ghost use Rattle.flow_text.specs.declared.limits.TheConstants.{LONGEST_LINE};
    ghost use Rattle.flow_text.specs.Reading.{State};

    ghost Value = { State J };

    ghost view = { λ m. record {
      refused = m.refused;
      count = m.count;
      known = m.judge;
      comment = m.comment;
      partial = m.partial.items;
    } };

    ghost invariant = { λ m. record {
      plain : is_comment m.partial.items ≡ false;
      short : length m.partial.items ≤ LONGEST_LINE;
      empty : m.comment ≡ true → m.partial.items ≡ [];
    } };
}

/// Whether a line is a comment, by its first byte.
#[inline(always)]
fn begins_comment(line: &[u8]) -> bool
    ensures { result ≡ is_comment line.now }
{
    match line {
        [] => false,
        [first, ..] => *first == b'c',
    }
}

/// A refusal in the line that follows so many lines.
fn read_fault(count: u64, refusal: Refusal) -> ReadFault
    ensures { result ≡ fault_from count refusal }
{
    match refusal {
        Refusal::Code(code) => ReadFault::Fault {
            line: count.saturating_add(1),
            code,
        },
        Refusal::Memory => ReadFault::OutOfMemory,
    }
}

/// Judges a whole line.
fn judge_line<J: Judge>(judge: &mut J, line: &[u8]) -> Result<(), Refusal>
    ensures { Judges (fault_of J.rules judge.old line.now)
        (with_line J.with_record judge.old line.now) result judge.new }
{
    if begins_comment(line) {
        return Ok(());
    }
    if line.len() > LONGEST_LINE {
        return Err(Refusal::Code(FaultCode::LineTooLong));
    }
    let mut others = fields(line);
    let Some(letter) = others.next() else {
        return Ok(());
    };
    judge.judge_fields(letter, others)
}

impl<J: Judge> Machine<J> {
    /// A machine that has read nothing.
    pub(crate) fn new(judge: J) -> Machine<J>
        ensures { (known_of : List (List ℕ) → J) → judge ≡ known_of [] → HasRead J.rules known_of result [] }
    {
        Machine {
            refused: None,
            count: 0,
            judge,
            comment: false,
            partial: ArrayVec::new(),
        }
    }

    /// Judges the line that began in earlier pieces, if one did, and that ends with these bytes.
    fn judge_rest(&mut self, tail: &[u8]) -> Result<(), Refusal>
        ensures { EndsLine J.rules J.with_record self.old tail.now self.old.count result self.new }
    {
        if self.comment {
            self.comment = false;
            return Ok(());
        }
        if self.partial.is_empty() {
            return judge_line(&mut self.judge, tail);
        }
        match self.partial.try_extend_from_slice(tail) {
            Ok(()) => {}
            Err(_) => return Err(Refusal::Code(FaultCode::LineTooLong)),
        }
        match judge_line(&mut self.judge, self.partial.as_slice()) {
            Ok(()) => {
                self.partial.clear();
                Ok(())
            }
            Err(refusal) => Err(refusal),
        }
    }

    /// Judges the line that ends with these bytes, and counts it.
    fn end_line(&mut self, tail: &[u8]) -> Result<(), Refusal>
        ensures { EndsLine J.rules J.with_record self.old tail.now (told (self.old.count + 1)) result self.new }
    {
        match self.judge_rest(tail) {
            Ok(()) => {
                self.count = self.count.saturating_add(1);
                Ok(())
            }
            Err(refusal) => Err(refusal),
        }
    }

    /// Judges the line that ends first in the text, and answers the place of its byte 10, if a line ends there.
    fn end_first(&mut self, text: &[u8]) -> Result<Option<usize>, Refusal>
        ensures { EndsFirst J.rules J.with_record self.old text.now result self.new }
    {
        if !self.comment && self.partial.is_empty() {
            match self.judge.judge_usual(text) {
                Ok(Some(at)) => {
                    self.count = self.count.saturating_add(1);
                    return Ok(Some(at));
                }
                Ok(None) => {}
                Err(refusal) => return Err(refusal),
            }
        }
        let Some(at) = memchr(b'\n', text) else {
            return Ok(None);
        };
        match self.end_line(&text[..at]) {
            Ok(()) => Ok(Some(at)),
            Err(refusal) => Err(refusal),
        }
    }

    /// Keeps the last bytes of a piece, in which no line ends, as those of an unfinished line.
    fn buffer(&mut self, tail: &[u8]) -> Result<(), Refusal>
        ensures { BuffersTail self.old tail.now result self.new }
    {
        if self.comment {
            return Ok(());
        }
        if self.partial.is_empty() && begins_comment(tail) {
            self.comment = true;
            return Ok(());
        }
        match self.partial.try_extend_from_slice(tail) {
            Ok(()) => Ok(()),
            Err(_) => Err(Refusal::Code(FaultCode::LineTooLong)),
        }
    }

    /// Takes a piece: judges each line that ends in it, and keeps what is left.
    fn take(&mut self, piece: &[u8]) -> Result<(), Refusal>
        ensures { (known_of : List (List ℕ) → J) → Adds J.rules known_of J.with_record
            → (b : List ℕ) → HasRead J.rules known_of self.old b
            → Takes J.rules known_of (b ++ piece.now) result self.new }
    {
        let mut start = 0;
        loop {
            match self.end_first(&piece[start..]) {
                Ok(Some(at)) => start += at + 1,
                Ok(None) => return self.buffer(&piece[start..]),
                Err(refusal) => return Err(refusal),
            }
        }
    }

    /// Takes the next piece of the text.
    pub(crate) fn feed(&mut self, piece: &[u8]) -> Result<(), ReadFault>
        ensures fed { (known_of : List (List ℕ) → J) → Adds J.rules known_of J.with_record
            → (b : List ℕ) → HasRead J.rules known_of self.old b
            → FeedsBy J.rules known_of (b ++ piece.now) result self.new }
        ensures refused { (fault : ReadFault) → Refuses self.old fault → (result ≡ Err fault) × Refuses self.new fault }
    {
        if let Some(fault) = self.refused {
            return Err(fault);
        }
        match self.take(piece) {
            Ok(()) => Ok(()),
            Err(refusal) => {
                let fault = read_fault(self.count, refusal);
                self.refused = Some(fault);
                Err(fault)
            }
        }
    }

    /// Judges the last line, if no byte 10 ends it.
    fn end_text(&mut self) -> Result<(), Refusal>
        ensures { (known_of : List (List ℕ) → J) → Adds J.rules known_of J.with_record
            → (b : List ℕ) → HasRead J.rules known_of self.old b → Finals J.rules known_of b result self.new }
    {
        if self.comment {
            return self.end_line(&[]);
        }
        if self.partial.is_empty() {
            return Ok(());
        }
        self.end_line(&[])
    }

    /// The judge after the whole text, which ends here.
    pub(crate) fn finish(mut self) -> Result<J, ReadFault>
        ensures whole { (known_of : List (List ℕ) → J) → Adds J.rules known_of J.with_record
            → (b : List ℕ) → HasRead J.rules known_of self b → ClosesBy J.rules known_of b result }
        ensures done { IfOk result (λ judge. J.rules.end_fault judge ≡ None) }
        ensures refused { (fault : ReadFault) → Refuses self fault → IsErrOf result fault }
    {
        if let Some(fault) = self.refused {
            return Err(fault);
        }
        match self.end_text() {
            Ok(()) => match self.judge.end_fault() {
                None => Ok(self.judge),
                Some(code) => Err(read_fault(self.count, Refusal::Code(code))),
            },
            Err(refusal) => Err(read_fault(self.count, refusal)),
        }
    }

    /// The judge, unless the machine has refused.
    pub(crate) fn judge(&self) -> Option<&J>
        ensures { MatchOption result (is_some self.now.refused ≡ true)
            (λ judge. (self.now.refused ≡ None) × (judge.now ≡ self.now.known)) }
    {
        match self.refused {
            None => Some(&self.judge),
            Some(_) => None,
        }
    }
}
