//! Fields in each notation, written.

ghost use Rattle.std.specs.Prelude.{◌≡◌, ◌≤◌, ◌++◌, length};
ghost use Rattle.std.specs.Int.{w8, w16, w32, to_be_bytes};
ghost use Rattle.cqlp_note.specs.declared.field.Notation.TheVariants as notation;
ghost use Rattle.cqlp_note.specs.Field as note;
ghost use Rattle.cqlp_note.specs.Spelling.{field_bytes};
ghost use Rattle.cqlp_message.specs.Owned.{bound_of};
ghost use Rattle.cqlp_encode.specs.Fields.{bytes_of};
ghost use Rattle.cqlp_encode.specs.Progress.{Keeps, Puts};

use crate::staged::Staged;
use cqlp_message::OwnedBound;
use cqlp_note::{Address, Target};

impl<'a, W: Target> Staged<'a, W> {
    /// Takes a \[byte\].
    pub fn put_byte(&mut self, value: u8)
        ensures { Puts self.old (field_bytes notation.Byte (note.Byte value)) self.new }
    {
        self.put(&[value]);
    }

    /// Takes a \[short\].
    pub fn put_short(&mut self, value: u16)
        ensures { Puts self.old (field_bytes notation.Short (note.Short value)) self.new }
    {
        self.put(&value.to_be_bytes());
    }

    /// Takes an \[int\].
    #[inline]
    pub fn put_int(&mut self, value: i32)
        ensures { Puts self.old (field_bytes notation.Int (note.Int value)) self.new }
    {
        self.put(&value.to_be_bytes());
    }

    /// Takes a \[long\].
    pub fn put_long(&mut self, value: i64)
        ensures { Puts self.old (field_bytes notation.Long (note.Long value)) self.new }
    {
        self.put(&value.to_be_bytes());
    }

    /// Takes a \[uuid\].
    pub fn put_uuid(&mut self, id: [u8; 16])
        ensures puts { Puts self.old (field_bytes notation.Uuid (note.Uuid id)) self.new }
        ensures size { length id ≡ 16 }
    {
        self.put(&id);
    }

    /// Takes a number of two bytes, the lowest two of this.
    pub fn put_count16(&mut self, count: usize)
        ensures { Puts self.old (to_be_bytes w16 count) self.new }
    {
        let bytes = count.to_be_bytes();
        self.put(&bytes[6..]);
    }

    /// Takes a number of four bytes, the lowest four of this.
    #[inline(always)]
    pub fn put_count32(&mut self, count: usize)
        ensures { Puts self.old (to_be_bytes w32 count) self.new }
    {
        let bytes = count.to_be_bytes();
        self.put_few(&bytes[4..]);
    }

    /// Takes a content after its length of two bytes.
    pub fn put_short_content(&mut self, content: &[u8])
        ensures { Puts self.old (to_be_bytes w16 (length content.now) ++ content.now) self.new }
    {
        self.put_count16(content.len());
        self.put(content);
    }

    /// Takes the bytes of a number, at most eight, after their length, in one step.
    #[inline(always)]
    pub fn put_number(&mut self, content: &[u8])
        requires { length content.now ≤ 8 }
        ensures { Puts self.old (to_be_bytes w32 (length content.now) ++ content.now) self.new }
    {
        let mut bytes = [0; 12];
        let end = content.len() + 4;
        bytes[..4].copy_from_slice(&content.len().to_be_bytes()[4..]);
        bytes[4..end].copy_from_slice(content);
        self.put_few(&bytes[..end]);
    }

    /// Keeps the bytes of a number, at most eight, after their length, where there is room for them, and answers whether there is.
    #[inline(always)]
    pub fn keep_number(&mut self, content: &[u8]) -> bool
        requires { length content.now ≤ 8 }
        ensures { Keeps self.old result (to_be_bytes w32 (length content.now) ++ content.now) self.new }
    {
        let mut bytes = [0; 12];
        let end = content.len() + 4;
        bytes[..4].copy_from_slice(&content.len().to_be_bytes()[4..]);
        bytes[4..end].copy_from_slice(content);
        self.keep_few(&bytes[..end])
    }

    /// The same of a number of four bytes, the lowest four of this.
    #[inline(always)]
    pub fn keep_count32(&mut self, count: usize) -> bool
        ensures { Keeps self.old result (to_be_bytes w32 count) self.new }
    {
        let bytes = count.to_be_bytes();
        self.keep_few(&bytes[4..])
    }

    /// The same of a content after its length of four bytes, of which the length may be kept alone where there is no room for both.
    #[inline(always)]
    pub fn keep_content(&mut self, content: &[u8]) -> bool
        ensures { Keeps self.old result (to_be_bytes w32 (length content.now) ++ content.now) self.new }
    {
        if !self.keep_count32(content.len()) {
            return false;
        }
        self.keep_many(content)
    }

    /// Takes \[bytes\], a null as the length -1.
    pub fn put_bytes(&mut self, bytes: Option<&[u8]>)
        ensures { Puts self.old (field_bytes notation.Bytes32 (bytes_of bytes.entry)) self.new }
    {
        match bytes {
            Some(content) => self.put_content(content),
            None => self.put_int(-1),
        }
    }

    /// Takes a \[value\], a null as the length -1 and one that is not set as -2.
    pub fn put_bound(&mut self, value: &OwnedBound)
        ensures { Puts self.old (field_bytes notation.Bound (note.Bound (bound_of value.now))) self.new }
    {
        match value {
            OwnedBound::Null => self.put_int(-1),
            OwnedBound::Unset => self.put_int(-2),
            OwnedBound::Bytes(content) => self.put_content(content.as_slice()),
        }
    }

    /// Takes an \[inet\].
    pub fn put_inet(&mut self, address: &Address, port: i32)
        ensures { Puts self.old (field_bytes notation.Inet (note.Inet address.now port)) self.new }
    {
        match address {
            Address::V4(bytes) => {
                self.put_address(bytes);
                self.put_int(port);
            }
            Address::V6(bytes) => {
                self.put_address(bytes);
                self.put_int(port);
            }
        }
    }

    /// Takes an address after the number of its bytes, of which there are fewer than 256.
    fn put_address(&mut self, bytes: &[u8])
        ensures { Puts self.old (to_be_bytes w8 (length bytes.now) ++ bytes.now) self.new }
    {
        self.put(&bytes.len().to_be_bytes()[7..]);
        self.put(bytes);
    }
}
