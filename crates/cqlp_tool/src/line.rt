//! The line of a mark.

ghost use Rattle.std.specs.Prelude.{◌≡◌, ◌+◌, ◌*◌, ◌^◌, ◌<◌, ◌≤◌, ◌++◌, [], length};
ghost use Rattle.cqlp_tool.specs.Marks.{mark_line};

use std::marker::Model;

/// How many bytes a line has at most.
const ROOM: usize = 64;

/// A short text.
#[derive(Drop)]
pub(crate) struct Line {
    bytes: [u8; ROOM],
    len: usize,
}

impl Model for Line {
    ghost use Rattle.std.specs.Prelude.{List, ℕ, ◌≡◌, ◌≤◌, length, take};

    ghost Value = { List ℕ };

    ghost view = { λ l. take l.len l.bytes };

    ghost invariant = { λ l. (l.len ≤ 64) × (length l.bytes ≡ 64) };
}

impl Line {
    fn new() -> Self
        ensures { result ≡ [] }
    {
        Line {
            bytes: [0; ROOM],
            len: 0,
        }
    }

    pub(crate) fn as_slice(&self) -> &[u8]
        ensures { result.now ≡ self.now }
    {
        &self.bytes[..self.len]
    }

    /// Puts bytes behind the others.
    fn add(&mut self, bytes: &[u8])
        requires { length self.old + length bytes.now ≤ 64 }
        ensures { self.new ≡ self.old ++ bytes.now }
    {
        let end = self.len + bytes.len();
        self.bytes[self.len..end].copy_from_slice(bytes);
        self.len = end;
    }
}

const MEGABYTE: u64 = 1_000_000;

const MEGABYTES_PER_MARK: u64 = 64;

/// The line of a mark in a file of this length.
pub(crate) fn mark_line(length: u64, mark: u64) -> Line
    requires { 64 * mark < 2 ^ 64 }
    ensures { result ≡ mark_line length mark }
{
    let mut digits = itoa::Buffer::new();
    let mut line = Line::new();
    line.add(b"cqlp: ");
    line.add(digits.format(MEGABYTES_PER_MARK * mark).as_bytes());
    line.add(b" of ");
    line.add(digits.format(length / MEGABYTE).as_bytes());
    line.add(b" MB\n");
    line
}
