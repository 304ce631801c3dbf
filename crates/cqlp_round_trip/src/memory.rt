//! Bytes that lie in memory, as a source.

ghost use Rattle.std.specs.Prelude.{◌≡◌, Some};

use cqlp_note::{IoFault, Source};

/// Gives bytes that lie in memory, from the first on. No read of it fails.
#[derive(Drop)]
pub struct SliceSource<'a> {
    bytes: &'a [u8],
    reads: u64,
    asked: u64,
}

impl<'a> SliceSource<'a> {
    /// With all of these bytes still to come.
    pub fn new(bytes: &'a [u8]) -> SliceSource<'a>
        ensures { result.bytes.now ≡ bytes.now }
    {
        SliceSource {
            bytes,
            reads: 0,
            asked: 0,
        }
    }
}

impl Source for SliceSource<'_> {
    ghost left = { λ source. Some source.bytes.now };

    ghost failures = { λ _. 0 };

    ghost reads = { λ source. source.reads };

    ghost asked = { λ source. source.asked };

    fn read(&mut self, buffer: &mut [u8]) -> Result<usize, IoFault> {
        self.reads = self.reads.saturating_add(1);
        self.asked = self.asked.saturating_add(buffer.len() as u64);
        let count = self.bytes.len().min(buffer.len());
        buffer[..count].copy_from_slice(&self.bytes[..count]);
        self.bytes = &self.bytes[count..];
        Ok(count)
    }
}
