//! Where a run reads its bytes from, and where it writes them.
ghost use Rattle.std.specs.Prelude.{◌≡◌, ◌≤◌, ◌<◌, ℕ, length, IfOk};
ghost use Rattle.std.specs.Io.KnownBytes.{ReadConsumes, WriteAppends};
ghost use Rattle.flow_tools.specs.streams.Streams.{Flags, StreamState};

pub(crate) mod counted;
pub mod memory;
pub(crate) mod sending;

use thiserror::Error;

/// A read or a write that a device refused, or that found no memory. It tells no more.
#[derive(Clone, Copy, Debug, PartialEq, Eq, Error)]
#[error("the stream failed")]
pub struct Failed;

/// A stream of bytes that is read to its end.
pub trait Input {
    /// The bytes that are left to read, `None` where no contract can know them, as of a file; and whether a pull has
    /// failed.
    ghost state: { Self → StreamState };

    /// How many pulls may still deliver a byte.
    ghost bound: { Self → ℕ };

    /// Delivers a front of what is left at the front of the buffer, and answers how many bytes that are: 0 only at the
    /// end. A pull that delivers a byte lowers the bound on such pulls.
    ///
    /// # Errors
    ///
    /// `Failed` where the device refused. Such a call delivers nothing, and from then on [`failed`](Input::failed) is
    /// true.
    fn pull(&mut self, buf: &mut [u8; 4096]) -> Result<usize, Failed>
        ensures fits { IfOk result (λ n. n ≤ 4096) }
        ensures bytes { ReadConsumes (state self.old).bytes (state self.new).bytes result buf.new }
        ensures falls { IfOk result (λ n. 0 < n → bound self.new < bound self.old) }
        ensures flag { Flags (state self.old).failed (state self.new).failed result };

    /// Whether a pull has failed.
    fn failed(&self) -> bool
        ensures { result ≡ (state self.now).failed };
}

/// A stream that takes bytes.
pub trait Output {
    /// The bytes that were taken, `None` where no contract can know them, as of a file; and whether a put has failed.
    ghost state: { Self → StreamState };

    /// Takes a front of the bytes, and answers how many they are: at least 1 of a non-empty slice.
    ///
    /// # Errors
    ///
    /// `Failed` where the device refused. Such a call takes nothing, and from then on [`failed`](Output::failed) is
    /// true.
    fn put(&mut self, bytes: &[u8]) -> Result<usize, Failed>
        ensures fits { IfOk result (λ n. n ≤ length bytes.now) }
        ensures some { IfOk result (λ n. 0 < length bytes.now → 0 < n) }
        ensures bytes { WriteAppends (state self.old).bytes (state self.new).bytes result bytes.now }
        ensures flag { Flags (state self.old).failed (state self.new).failed result };

    /// Whether a put has failed.
    fn failed(&self) -> bool
        ensures { result ≡ (state self.now).failed };
}
