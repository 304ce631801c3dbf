//! The first bytes of a text, as many as a summary keeps of a name.

ghost use Rattle.std.specs.Prelude.{◌≡◌, ◌+◌, ◌<◌, ◌≤◌, ◌++◌, length};
ghost use Rattle.cqlp_capture_exchanges.specs.Labels.{label, taken};

use cqlp_note::{IoFault, Target};
use std::marker::Model;

/// How many bytes there is room for.
const ROOM: usize = 256;

/// Takes a text as far as there is room for it.
#[derive(Drop)]
pub(crate) struct Label {
    bytes: [u8; ROOM],
    len: usize,
    /// How many calls found no room, up to 2^64 - 1.
    failures: u64,
    /// How many calls took all of their bytes, up to 2^64 - 1.
    writes: u64,
}

impl Model for Label {
    ghost use Rattle.std.specs.Prelude.{◌≡◌, ◌<◌, ◌≤◌, length, take};
    ghost use Rattle.cqlp_capture_exchanges.specs.Labels.{Label, label};

    ghost Value = { Label };

    ghost view = { λ l. label (take l.len l.bytes) l.failures l.writes };

    ghost invariant = { λ l. (l.len ≤ 256) × (length l.bytes ≡ 256) × (0 < l.failures → l.len ≡ 256) };
}

impl Label {
    ghost use Rattle.std.specs.Prelude.{[]};

    /// With nothing taken.
    pub(crate) fn new() -> Self
        ensures { result ≡ label [] 0 0 }
    {
        Label {
            bytes: [0; ROOM],
            len: 0,
            failures: 0,
            writes: 0,
        }
    }

    /// What was taken. Where a call found no room, all of it is taken up.
    pub(crate) fn as_slice(&self) -> &[u8]
        ensures bytes { result.now ≡ self.now.text }
        ensures within { length result.now ≤ 256 }
        ensures full { 0 < self.now.failures → length result.now ≡ 256 }
    {
        &self.bytes[..self.len]
    }

    /// Takes bytes that there is room for.
    pub(crate) fn add(&mut self, bytes: &[u8])
        requires { length self.old.text + length bytes.now ≤ 256 }
        ensures { self.new ≡ label (self.old.text ++ bytes.now) self.old.failures self.old.writes }
    {
        let end = self.len + bytes.len();
        self.bytes[self.len..end].copy_from_slice(bytes);
        self.len = end;
    }

    /// Takes a byte, if there is room for it.
    pub(crate) fn push(&mut self, byte: u8)
        ensures { self.new ≡ taken byte self.old }
    {
        if self.len < ROOM {
            self.bytes[self.len] = byte;
            self.len += 1;
        }
    }

    /// Lets go of what was taken.
    pub(crate) fn clear(&mut self)
        ensures { self.new ≡ label [] 0 0 }
    {
        self.len = 0;
        self.failures = 0;
        self.writes = 0;
    }
}

impl Target for Label {
    ghost use Rattle.std.specs.Prelude.{Some};

    ghost contents = { λ l. Some l.text };

    ghost failures = { λ l. l.failures };

    ghost writes = { λ l. l.writes };

    fn write(&mut self, bytes: &[u8]) -> Result<usize, IoFault> {
        let room = ROOM - self.len;
        if bytes.len() <= room {
            self.add(bytes);
            self.writes = self.writes.saturating_add(1);
            return Ok(bytes.len());
        }
        if room == 0 {
            self.failures = self.failures.saturating_add(1);
            return Err(IoFault);
        }
        self.add(&bytes[..room]);
        Ok(room)
    }
}
