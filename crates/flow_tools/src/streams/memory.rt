//! Streams over memory, for tests: they ask for no memory, and fail where they are told to.
ghost use Rattle.std.specs.Prelude.{◌≡◌, ◌≢◌, ◌≤◌, ◌<◌, ◌+◌, ◌-◌, ◌^◌, ℕ, [], Some, length, slice_index, true, false};
ghost use Rattle.std.specs.Prelude.{IfOk, OnOk, OnErr};
ghost use Rattle.std.specs.Io.KnownBytes.{ReadConsumes, WriteAppends};
ghost use Rattle.arrayvec.specs.ArrayVec.{array_vec_len};
ghost use Rattle.flow_tools.specs.streams.Streams.{Flags};

use crate::streams::{Failed, Input, Output};
use arrayvec::ArrayVec;

/// An input that delivers given bytes in pieces, and fails at the pull with a given number.
#[derive(Drop)]
pub struct Script<'a> {
    /// The bytes that are left.
    pub rest: &'a [u8],
    /// The most bytes that a pull delivers.
    pub most: usize,
    /// Whether a pull delivers no byte past the end of a line.
    pub lines: bool,
    /// The number of the pull that fails, counted from 1; 0 where none does.
    pub fails_at: u64,
    /// How many pulls were made, those that failed among them.
    pub pulls: u64,
    /// Whether a pull has failed.
    pub failed: bool,
    ghost most_fits: { (0 < most) × (most ≤ 4096) },
}

impl<'a> Script<'a> {
    /// Delivers at most `most` bytes a pull, and where `lines` is true at most a line. The pull with the number
    /// `fails_at`, counted from 1, fails; 0 is the number of none.
    pub fn new(bytes: &'a [u8], most: usize, lines: bool, fails_at: u64) -> Script<'a>
        requires positive { 0 < most }
        requires fits { most ≤ 4096 }
        ensures rest { result.rest ≡ bytes.entry }
        ensures most { result.most ≡ most }
        ensures lines { result.lines ≡ lines }
        ensures fails_at { result.fails_at ≡ fails_at }
        ensures unused { result.pulls ≡ 0 }
        ensures fresh { result.failed ≡ false }
    {
        Script {
            rest: bytes,
            most,
            lines,
            fails_at,
            pulls: 0,
            failed: false,
        }
    }

    /// How many bytes the next pull delivers.
    fn next_len(&self) -> usize
        ensures fits { result ≤ 4096 }
        ensures most { result ≤ self.now.most }
        ensures within { result ≤ length self.now.rest.now }
        ensures some { 0 < length self.now.rest.now → 0 < result }
        ensures lines { self.now.lines ≡ true → (k : ℕ) → k + 1 < result → slice_index self.now.rest.now k ≢ 10 }
    {
        let most = self.most.min(self.rest.len());
        if self.lines {
            for i in 0..most {
                if self.rest[i] == b'\n' {
                    return i + 1;
                }
            }
        }
        most
    }
}

impl Input for Script<'_> {
    ghost state = { λ s. record { bytes = Some s.rest.now; failed = s.failed } };

    ghost bound = { λ s. length s.rest.now };

    fn pull(&mut self, buf: &mut [u8; 4096]) -> Result<usize, Failed>
        ensures fits { IfOk result (λ n. n ≤ 4096) }
        ensures bytes { ReadConsumes (Some self.old.rest.now) (Some self.new.rest.now) result buf.new }
        ensures falls { IfOk result (λ n. 0 < n → length self.new.rest.now < length self.old.rest.now) }
        ensures flag { Flags self.old.failed self.new.failed result }
        ensures most { IfOk result (λ n. n ≤ self.old.most) }
        ensures lines { IfOk result (λ n. self.old.lines ≡ true → (k : ℕ) → k + 1 < n
            → slice_index self.old.rest.now k ≢ 10) }
        ensures fails_there { OnErr result (self.new.pulls ≡ self.old.fails_at) }
        ensures fails_only_there { OnOk result (self.new.pulls ≢ self.old.fails_at) }
        ensures counted { self.old.pulls < 2 ^ 64 - 1 → self.new.pulls ≡ self.old.pulls + 1 }
        ensures same_most { self.new.most ≡ self.old.most }
        ensures same_lines { self.new.lines ≡ self.old.lines }
        ensures same_fails_at { self.new.fails_at ≡ self.old.fails_at }
    {
        self.pulls = self.pulls.saturating_add(1);
        if self.pulls == self.fails_at {
            self.failed = true;
            return Err(Failed);
        }
        let count = self.next_len();
        let (piece, rest) = self.rest.split_at(count);
        buf[..count].copy_from_slice(piece);
        self.rest = rest;
        Ok(count)
    }

    fn failed(&self) -> bool
        ensures flag { result ≡ self.now.failed }
        ensures tells { (⟦<Script<'static> as Input>⟧.state self.now).bytes ≡ Some self.now.rest.now }
    {
        self.failed
    }
}

/// An output that keeps what it takes: at most so many bytes a put and so many in all, and then it fails.
#[derive(Drop)]
pub struct Collector<const N: usize> {
    /// What was taken.
    pub bytes: ArrayVec<u8, N>,
    /// The most bytes that a put takes.
    pub most: usize,
    /// How many more bytes are taken in all.
    pub room: usize,
    /// Whether a put has failed.
    pub failed: bool,
    ghost some: { 0 < most },
    ghost fits: { array_vec_len bytes + room ≤ N },
}

impl<const N: usize> Collector<N> {
    /// Takes at most `most` bytes a put, and fails where `room` bytes were taken.
    pub fn new(most: usize, room: usize) -> Collector<N>
        requires positive { 0 < most }
        requires fits { room ≤ N }
        ensures bytes { result.bytes.items ≡ [] }
        ensures most { result.most ≡ most }
        ensures room { result.room ≡ room }
        ensures fresh { result.failed ≡ false }
    {
        Collector {
            bytes: ArrayVec::new(),
            most,
            room,
            failed: false,
        }
    }

    /// What was taken.
    pub fn bytes(&self) -> &[u8]
        ensures { result.now ≡ self.now.bytes.items }
    {
        self.bytes.as_slice()
    }
}

impl<const N: usize> Output for Collector<N> {
    ghost state = { λ s. record { bytes = Some s.bytes.items; failed = s.failed } };

    fn put(&mut self, bytes: &[u8]) -> Result<usize, Failed>
        ensures fits { IfOk result (λ n. n ≤ length bytes.now) }
        ensures some { IfOk result (λ n. 0 < length bytes.now → 0 < n) }
        ensures bytes { WriteAppends (Some self.old.bytes.items) (Some self.new.bytes.items) result bytes.now }
        ensures flag { Flags self.old.failed self.new.failed result }
        ensures most { IfOk result (λ n. n ≤ self.old.most) }
        ensures room { IfOk result (λ n. self.new.room + n ≡ self.old.room) }
        ensures full { OnErr result (self.old.room ≡ 0) }
        ensures same_most { self.new.most ≡ self.old.most }
    {
        if bytes.is_empty() {
            return Ok(0);
        }
        if self.room == 0 {
            self.failed = true;
            return Err(Failed);
        }
        let count = bytes.len().min(self.most).min(self.room);
        self.room -= count;
        let _ = self.bytes.try_extend_from_slice(&bytes[..count]);
        Ok(count)
    }

    fn failed(&self) -> bool
        ensures flag { result ≡ self.now.failed }
        ensures tells { (⟦<Collector<N> as Output>⟧.state self.now).bytes ≡ Some self.now.bytes.items }
    {
        self.failed
    }
}
