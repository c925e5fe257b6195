//! Streams over the standard library's readers and writers.
ghost use Rattle.std.specs.Prelude.{◌≡◌, ◌≤◌, ◌<◌, ◌^◌, ◌-◌, false, length, IfOk};
ghost use Rattle.std.specs.Io.KnownBytes.{ReadConsumes, WriteAppends};
ghost use Rattle.flow_tools.specs.streams.Streams.{Flags};

use crate::streams::{Failed, Input, Output};
use std::io::{Read, Write};

/// A reader or a writer of std as an input or an output: one pull is one read, and one put is one write.
///
/// It counts down from 18,446,744,073,709,551,615 the pulls that may still deliver, so that a run over a reader without
/// an end is bounded too. A pull past them fails, and so does a put of which the writer takes nothing.
#[derive(Drop)]
pub struct Counted<T> {
    /// The reader or writer itself.
    inner: T,
    /// Whether a pull or a put has failed.
    failed: bool,
    /// How many pulls may still deliver a byte.
    pulls: u64,
}

impl<T> Counted<T> {
    /// A stream that hasn't failed. It takes no memory.
    pub fn new(inner: T) -> Counted<T>
        ensures inner { result.inner ≡ inner }
        ensures fresh { result.failed ≡ false }
        ensures pulls { result.pulls ≡ 2 ^ 64 - 1 }
    {
        Counted {
            inner,
            failed: false,
            pulls: u64::MAX,
        }
    }

    /// The reader or the writer, with what was read from it or written to it.
    pub fn into_inner(self) -> T
        ensures { result ≡ self.inner }
    {
        let Counted {
            inner,
            failed: _,
            pulls: _,
        } = self;
        inner
    }
}

impl<T: Read> Input for Counted<T> {
    ghost state = { λ s. record { bytes = T.remaining s.inner; failed = s.failed } };

    ghost bound = { λ s. s.pulls };

    fn pull(&mut self, buf: &mut [u8; 4096]) -> Result<usize, Failed>
        ensures fits { IfOk result (λ n. n ≤ 4096) }
        ensures bytes { ReadConsumes (T.remaining self.old.inner) (T.remaining self.new.inner) result buf.new }
        ensures falls { IfOk result (λ n. 0 < n → self.new.pulls < self.old.pulls) }
        ensures flag { Flags self.old.failed self.new.failed result }
    {
        if self.pulls == 0 {
            self.failed = true;
            return Err(Failed);
        }
        match self.inner.read(buf.as_mut_slice()) {
            Ok(count) => {
                self.pulls -= 1;
                Ok(count)
            }
            Err(_) => {
                self.failed = true;
                Err(Failed)
            }
        }
    }

    fn failed(&self) -> bool
        ensures flag { result ≡ self.now.failed }
        ensures tells { (⟦<Counted<T> as Input>⟧.state self.now).bytes ≡ T.remaining self.now.inner }
    {
        self.failed
    }
}

impl<T: Write> Output for Counted<T> {
    ghost state = { λ s. record { bytes = T.contents s.inner; failed = s.failed } };

    fn put(&mut self, bytes: &[u8]) -> Result<usize, Failed>
        ensures fits { IfOk result (λ n. n ≤ length bytes.now) }
        ensures some { IfOk result (λ n. 0 < length bytes.now → 0 < n) }
        ensures bytes { WriteAppends (T.contents self.old.inner) (T.contents self.new.inner) result bytes.now }
        ensures flag { Flags self.old.failed self.new.failed result }
    {
        match self.inner.write(bytes) {
            Ok(count) if count > 0 || bytes.is_empty() => Ok(count),
            _ => {
                self.failed = true;
                Err(Failed)
            }
        }
    }

    fn failed(&self) -> bool
        ensures flag { result ≡ self.now.failed }
        ensures tells { (⟦<Counted<T> as Output>⟧.state self.now).bytes ≡ T.contents self.now.inner }
    {
        self.failed
    }
}
