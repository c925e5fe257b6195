//! The limits of texts. Each stands here alone: code, definitions and proofs cite it by its name.
use flow_net::GREATEST_CAPACITY;

/// The most bytes that a line has, its byte 10 not counted, if it is no comment.
pub const LONGEST_LINE: usize = 200;

/// The most flow lines that a solution has.
pub const MOST_FLOW_LINES: usize = 4_000_000;

/// The greatest value that a solution claims: that of as many flow lines, each of the greatest capacity.
pub const GREATEST_VALUE: u128 = MOST_FLOW_LINES as u128 * GREATEST_CAPACITY as u128;

/// The greatest number by which a line is told: later lines are told by it too.
pub const GREATEST_LINE_NUMBER: u64 = u64::MAX;

/// The most digits of a number that is read in 64 bits.
pub(crate) const SHORT_DIGITS: usize = 19;
