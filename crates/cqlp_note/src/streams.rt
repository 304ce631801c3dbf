//! Where bytes come from, and where they go.

ghost use Rattle.std.specs.Prelude.{◌≡◌, ◌≤◌, true, length, IfOk, is_err};
ghost use Rattle.cqlp_note.specs.Streams.{counted, counted_up, took_all, took_none};

use std::io::{Read, Write};
use thiserror::Error;

/// A reader or a writer that fails.
#[derive(Clone, Copy, Debug, PartialEq, Eq, Error)]
#[error("a read or a write failed")]
pub struct IoFault;

/// What gives bytes, as std's `Read`.
pub trait Source {
    ghost use Rattle.std.specs.Prelude.{ℕ, List, Option, None};
    ghost use Rattle.std.specs.Io.KnownBytes.{ReadConsumes};

    /// The bytes that are still to come, where they are known.
    ghost left: { Self → Option (List ℕ) } = { λ _. None };

    /// How many calls failed, up to 2^64 - 1.
    ghost failures: { Self → ℕ };

    /// How many calls were made, failed ones among them, up to 2^64 - 1.
    ghost reads: { Self → ℕ };

    /// How many bytes of room all calls had, up to 2^64 - 1.
    ghost asked: { Self → ℕ };

    /// Reads some bytes into the buffer, and answers how many; 0 where it has some room, only at the end.
    ///
    /// # Errors
    ///
    /// A read that failed; it gave no bytes.
    fn read(&mut self, buffer: &mut [u8]) -> Result<usize, IoFault>
        ensures bound { IfOk result (λ n. n ≤ length buffer.new) }
        ensures bytes { ReadConsumes (left self.old) (left self.new) result buffer.new }
        ensures failures { failures self.new ≡ counted (is_err result) (failures self.old) }
        ensures reads { reads self.new ≡ counted true (reads self.old) }
        ensures asked { asked self.new ≡ counted_up (length buffer.new) (asked self.old) };
}

/// What takes bytes, as std's `Write`.
pub trait Target {
    ghost use Rattle.std.specs.Prelude.{ℕ, List, Option, None};
    ghost use Rattle.std.specs.Io.KnownBytes.{WriteAppends};

    /// The bytes that it was given, where they are known.
    ghost contents: { Self → Option (List ℕ) } = { λ _. None };

    /// How many calls failed, or took nothing of some bytes, up to 2^64 - 1.
    ghost failures: { Self → ℕ };

    /// How many calls took all of their bytes, up to 2^64 - 1. What calls beside these took was less than they were given.
    ghost writes: { Self → ℕ };

    /// Takes the first bytes, and answers how many.
    ///
    /// # Errors
    ///
    /// A write that failed; it took no bytes.
    fn write(&mut self, bytes: &[u8]) -> Result<usize, IoFault>
        ensures bound { IfOk result (λ n. n ≤ length bytes.now) }
        ensures bytes { WriteAppends (contents self.old) (contents self.new) result bytes.now }
        ensures failures { failures self.new ≡ counted (took_none result bytes.now) (failures self.old) }
        ensures writes { writes self.new ≡ counted (took_all result bytes.now) (writes self.old) };
}

/// A reader or a writer of std's as a [`Source`] or a [`Target`]. A call is one call of the inner reader or writer,
/// with the whole buffer, and is not tried again. No contract of std's `Read` and `Write` counts calls, so that is
/// tested; which bytes came or went, how many calls failed, how many reads were made into how much room, and how many writes took
/// all of their bytes, is in the contracts.
#[derive(Drop)]
pub struct OfStd<X> {
    /// The reader or writer.
    pub inner: X,
    /// How many calls failed, or took nothing of some bytes, up to 2^64 - 1.
    pub failures: u64,
    /// How many reads were made, up to 2^64 - 1.
    pub reads: u64,
    /// How many bytes of room all reads had, up to 2^64 - 1.
    pub asked: u64,
    /// How many writes took all of their bytes, up to 2^64 - 1.
    pub writes: u64,
}

impl<X> OfStd<X> {
    /// With no call made.
    pub fn new(inner: X) -> Self
        ensures { result ≡ record { inner = inner; failures = 0; reads = 0; asked = 0; writes = 0 } }
    {
        OfStd {
            inner,
            failures: 0,
            reads: 0,
            asked: 0,
            writes: 0,
        }
    }

    /// The reader or writer.
    pub fn into_inner(self) -> X
        ensures { result ≡ self.inner }
    {
        let OfStd {
            inner,
            failures: _,
            reads: _,
            asked: _,
            writes: _,
        } = self;
        inner
    }
}

impl<R: Read> Source for OfStd<R> {
    ghost left = { λ reader. R.remaining reader.inner };

    ghost failures = { λ reader. reader.failures };

    ghost reads = { λ reader. reader.reads };

    ghost asked = { λ reader. reader.asked };

    fn read(&mut self, buffer: &mut [u8]) -> Result<usize, IoFault> {
        self.reads = self.reads.saturating_add(1);
        self.asked = self.asked.saturating_add(buffer.len() as u64);
        match self.inner.read(buffer) {
            Ok(count) => Ok(count),
            Err(_) => {
                self.failures = self.failures.saturating_add(1);
                Err(IoFault)
            }
        }
    }
}

impl<W: Write> Target for OfStd<W> {
    ghost contents = { λ writer. W.contents writer.inner };

    ghost failures = { λ writer. writer.failures };

    ghost writes = { λ writer. writer.writes };

    fn write(&mut self, bytes: &[u8]) -> Result<usize, IoFault> {
        match self.inner.write(bytes) {
            Ok(count) => {
                if count == bytes.len() {
                    self.writes = self.writes.saturating_add(1);
                } else if count == 0 {
                    self.failures = self.failures.saturating_add(1);
                }
                Ok(count)
            }
            Err(_) => {
                self.failures = self.failures.saturating_add(1);
                Err(IoFault)
            }
        }
    }
}
