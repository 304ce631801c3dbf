//! The lines of a file with objects.

use crate::fault::StatementsFault;
use crate::objects::{TakesObjects, take_line};
use crate::undoubled::write_undoubled;
use json::Scratch;
use std::alloc::Global;

/// How many bytes a line has at most.
const LONGEST: usize = 1 << 20;

/// Takes a file piece by piece, and hands on the objects of its lines.
#[derive(Drop)]
pub(crate) struct Lines {
    alloc: Global,
    /// What came of the present line.
    line: Vec<u8>,
    /// How many lines came before it.
    before: u64,
    /// A line with each pair of backslashes as one.
    plain: Vec<u8>,
    scratch: Scratch,
    /// Whether a line had an object.
    has_object: bool,
}

impl Lines {
    /// Before the first one.
    pub(crate) fn new(alloc: Global) -> Self {
        Lines {
            alloc,
            line: Vec::new(alloc),
            before: 0,
            plain: Vec::new(alloc),
            scratch: Scratch::new(alloc),
            has_object: false,
        }
    }

    /// Takes the next bytes.
    pub(crate) fn take<T: TakesObjects>(
        &mut self,
        bytes: &[u8],
        objects: &mut T,
    ) -> Result<(), StatementsFault> {
        for byte in bytes {
            self.take_byte(*byte, objects)?;
        }
        Ok(())
    }

    fn take_byte<T: TakesObjects>(
        &mut self,
        byte: u8,
        objects: &mut T,
    ) -> Result<(), StatementsFault> {
        if byte == b'\n' {
            return self.end_line(objects);
        }
        if self.line.len() >= LONGEST {
            return Err(StatementsFault::TooLong {
                line: self.number(),
            });
        }
        match self.line.push(byte) {
            Ok(()) => Ok(()),
            Err(_) => Err(StatementsFault::NoMemory),
        }
    }

    /// The file ends. A line had an object, or it is a fault.
    pub(crate) fn finish<T: TakesObjects>(
        &mut self,
        objects: &mut T,
    ) -> Result<(), StatementsFault> {
        self.end_line(objects)?;
        if self.has_object {
            Ok(())
        } else {
            Err(StatementsFault::NoStatement)
        }
    }

    /// The number of the present line.
    fn number(&self) -> u64 {
        self.before.saturating_add(1)
    }

    /// Hands on the present line, if it is an object, and begins the next one.
    fn end_line<T: TakesObjects>(&mut self, objects: &mut T) -> Result<(), StatementsFault> {
        if is_object(self.line.as_slice()) {
            if !self.hand_on(objects)? {
                return Err(StatementsFault::NoObject {
                    line: self.number(),
                });
            }
            self.has_object = true;
        }
        self.line.clear();
        self.before = self.number();
        Ok(())
    }

    /// Hands on the present line, whose backslashes may be doubled. Answers whether it has an object, of those that a file has.
    fn hand_on<T: TakesObjects>(&mut self, objects: &mut T) -> Result<bool, StatementsFault> {
        if write_undoubled(self.line.as_slice(), &mut self.plain)?
            && take_line(
                self.alloc,
                self.plain.as_slice(),
                &mut self.scratch,
                objects,
            )?
        {
            return Ok(true);
        }
        let is_one = take_line(self.alloc, self.line.as_slice(), &mut self.scratch, objects)?;
        Ok(is_one)
    }
}

/// Whether the first character of a line but spaces begins an object.
fn is_object(line: &[u8]) -> bool {
    for byte in line {
        if *byte == b'{' {
            return true;
        }
        if *byte != b' ' && *byte != b'\t' {
            return false;
        }
    }
    false
}
