//! Bytes that are written into memory.

ghost use Rattle.std.specs.Prelude.{◌≡◌, Some, length, take};

use cqlp_note::{IoFault, Target};

/// Takes bytes behind those that it has. It fails where memory is refused.
#[derive(Drop)]
pub struct VecTarget {
    bytes: Vec<u8>,
    /// How many calls found no memory, up to 2^64 - 1.
    failures: u64,
    /// How many calls took all of their bytes, up to 2^64 - 1.
    writes: u64,
}

impl VecTarget {
    /// With these bytes, and no call made.
    pub fn new(bytes: Vec<u8>) -> VecTarget
        ensures { result ≡ record { bytes = bytes; failures = 0; writes = 0 } }
    {
        VecTarget {
            bytes,
            failures: 0,
            writes: 0,
        }
    }

    /// How many bytes it has.
    pub fn len(&self) -> usize
        ensures { result ≡ length self.now.bytes.items }
    {
        self.bytes.len()
    }

    /// Keeps the first bytes, this many, if it has more.
    pub fn truncate(&mut self, len: usize)
        ensures { self.new.bytes.items ≡ take len self.old.bytes.items }
    {
        self.bytes.truncate(len);
    }

    /// The bytes.
    pub fn into_bytes(self) -> Vec<u8>
        ensures { result ≡ self.bytes }
    {
        let VecTarget {
            bytes,
            failures: _,
            writes: _,
        } = self;
        bytes
    }
}

impl Target for VecTarget {
    ghost contents = { λ target. Some target.bytes.items };

    ghost failures = { λ target. target.failures };

    ghost writes = { λ target. target.writes };

    fn write(&mut self, bytes: &[u8]) -> Result<usize, IoFault> {
        match self.bytes.extend_from_slice(bytes) {
            Ok(()) => {
                self.writes = self.writes.saturating_add(1);
                Ok(bytes.len())
            }
            Err(_) => {
                self.failures = self.failures.saturating_add(1);
                Err(IoFault)
            }
        }
    }
}
