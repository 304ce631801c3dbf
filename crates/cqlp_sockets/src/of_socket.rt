//! Readers and writers of std's that keep why a call failed.

ghost use Rattle.std.specs.Prelude.{◌≡◌, ◌≤◌, ◌<◌, true, false, length, None, Some, IfOk, is_err, is_some};
ghost use Rattle.cqlp_note.specs.Streams.{counted, counted_up, took_all, took_none};

use crate::cause::Cause;
use cqlp_note::{IoFault, Source, Target};
use std::io;
use std::io::{Read, Write};

/// A reader or a writer of std's as a [`Source`] or a [`Target`], which keeps why the last call failed that did. A call is one
/// call of the inner reader or writer, with the whole buffer, and is not tried again.
///
/// After [`Outcome::ReadFault`](../cqlp_decode/enum.Outcome.html) of `run`, and after a Write error of the encoder, `cause` says whether
/// the socket is to be waited for.
#[derive(Drop)]
pub struct OfSocket<X> {
    /// The reader or writer.
    pub inner: X,
    /// How many calls failed, or took nothing of some bytes, up to 2^64 - 1.
    pub failures: u64,
    /// How many reads were made, up to 2^64 - 1.
    pub reads: u64,
    /// How many bytes of room all reads had, up to 2^64 - 1.
    pub asked: u64,
    /// How many writes took all of their bytes, up to 2^64 - 1.
    pub writes: u64,
    /// Why the last of the calls that failed did; None where none has failed.
    pub cause: Option<Cause>,
    ghost has_cause: { 0 < failures → is_some cause ≡ true },
}

impl<X> OfSocket<X> {
    ghost use Rattle.cqlp_sockets.specs.Causes.{KeepsCause};

    /// With no call made.
    pub fn new(inner: X) -> Self
        ensures inner { result.inner ≡ inner }
        ensures failures { result.failures ≡ 0 }
        ensures reads { result.reads ≡ 0 }
        ensures asked { result.asked ≡ 0 }
        ensures writes { result.writes ≡ 0 }
        ensures cause { result.cause ≡ None }
    {
        OfSocket {
            inner,
            failures: 0,
            reads: 0,
            asked: 0,
            writes: 0,
            cause: None,
        }
    }

    /// The reader or writer.
    pub fn into_inner(self) -> X
        ensures { result ≡ self.inner }
    {
        let OfSocket {
            inner,
            failures: _,
            reads: _,
            asked: _,
            writes: _,
            cause: _,
        } = self;
        inner
    }

    /// Keeps why a call failed.
    fn fail(&mut self, cause: Cause)
        ensures inner { self.new.inner ≡ self.old.inner }
        ensures failures { self.new.failures ≡ counted true self.old.failures }
        ensures reads { self.new.reads ≡ self.old.reads }
        ensures asked { self.new.asked ≡ self.old.asked }
        ensures writes { self.new.writes ≡ self.old.writes }
        ensures cause { self.new.cause ≡ Some cause }
    {
        self.cause = Some(cause);
        self.failures = self.failures.saturating_add(1);
    }

    /// Keeps why a call failed that answered this, if it did.
    fn keep(&mut self, answer: io::Result<usize>) -> Result<usize, IoFault>
        ensures inner { self.new.inner ≡ self.old.inner }
        ensures failures { self.new.failures ≡ counted (is_err answer) self.old.failures }
        ensures reads { self.new.reads ≡ self.old.reads }
        ensures asked { self.new.asked ≡ self.old.asked }
        ensures writes { self.new.writes ≡ self.old.writes }
        ensures cause { KeepsCause self.old.cause answer result self.new.cause }
    {
        match answer {
            Ok(count) => Ok(count),
            Err(error) => {
                self.fail(Cause::of(&error));
                Err(IoFault)
            }
        }
    }
}

impl<R: Read> Source for OfSocket<R> {
    ghost use Rattle.std.specs.Io.KnownBytes.{ReadConsumes};
    ghost use Rattle.cqlp_sockets.specs.Causes.{LeavesCause};

    ghost left = { λ reader. R.remaining reader.inner };

    ghost failures = { λ reader. reader.failures };

    ghost reads = { λ reader. reader.reads };

    ghost asked = { λ reader. reader.asked };

    fn read(&mut self, buffer: &mut [u8]) -> Result<usize, IoFault>
        ensures bound { IfOk result (λ n. n ≤ length buffer.new) }
        ensures bytes { ReadConsumes (R.remaining self.old.inner) (R.remaining self.new.inner) result buffer.new }
        ensures failures { self.new.failures ≡ counted (is_err result) self.old.failures }
        ensures reads { self.new.reads ≡ counted true self.old.reads }
        ensures asked { self.new.asked ≡ counted_up (length buffer.new) self.old.asked }
        ensures cause { LeavesCause self.old.cause result false self.new.cause }
    {
        self.reads = self.reads.saturating_add(1);
        self.asked = self.asked.saturating_add(buffer.len() as u64);
        let read = self.inner.read(buffer);
        self.keep(read)
    }
}

impl<W: Write> Target for OfSocket<W> {
    ghost use Rattle.std.specs.Io.KnownBytes.{WriteAppends};
    ghost use Rattle.cqlp_sockets.specs.Causes.{LeavesCause};

    ghost contents = { λ writer. W.contents writer.inner };

    ghost failures = { λ writer. writer.failures };

    ghost writes = { λ writer. writer.writes };

    fn write(&mut self, bytes: &[u8]) -> Result<usize, IoFault>
        ensures bound { IfOk result (λ n. n ≤ length bytes.now) }
        ensures bytes { WriteAppends (W.contents self.old.inner) (W.contents self.new.inner) result bytes.now }
        ensures failures { self.new.failures ≡ counted (took_none result bytes.now) self.old.failures }
        ensures writes { self.new.writes ≡ counted (took_all result bytes.now) self.old.writes }
        ensures cause { LeavesCause self.old.cause result (took_none result bytes.now) self.new.cause }
    {
        let written = self.inner.write(bytes);
        let count = self.keep(written)?;
        if count == bytes.len() {
            self.writes = self.writes.saturating_add(1);
        } else if count == 0 {
            self.fail(Cause::TookNothing);
        }
        Ok(count)
    }
}
