//! Values as text.

ghost use Rattle.std.specs.Prelude.{◌≡◌, ◌<◌, length, decimal};
ghost use Rattle.std.specs.Fmt.{signed_decimal};
ghost use Rattle.std.specs.List.{flat_map};
ghost use Rattle.hex.specs.Hex.{encode_lower};
ghost use Rattle.uuid.specs.Text.{hyphenated_text, lower};
ghost use Rattle.cqlp_text.specs.Text.{hex_text, quoted, address_text};
ghost use Rattle.cqlp_note.specs.declared.prim.Address.TheVariants.{V4, V6};
ghost use Rattle.cqlp_text.specs.Written.{Writes};

use crate::hex_digits::{BLOCK, digits_of};
use crate::pen::Pen;
use crate::text_writer::TextWriter;
use cqlp_grammar::SinkFault;
use cqlp_note::Address;
use uuid::Uuid;

impl<P: Pen> TextWriter<P> {
    /// Takes a number as decimal digits, after a `-` where it is negative.
    #[inline(always)]
    pub fn put_signed(&mut self, number: i64) -> Result<(), SinkFault>
        ensures { Writes self.old (signed_decimal number) result self.new }
    {
        if number >= 0 {
            return self.put_number(number.unsigned_abs());
        }
        self.put(b"-")?;
        self.put_number(number.unsigned_abs())
    }

    /// Takes a number as decimal digits, after a `-` where it is negative.
    #[inline(always)]
    pub fn put_int(&mut self, number: i32) -> Result<(), SinkFault>
        ensures { Writes self.old (signed_decimal number) result self.new }
    {
        self.put_signed(i64::from(number))
    }

    /// Takes a number as decimal digits.
    #[inline(always)]
    pub fn put_count(&mut self, number: u32) -> Result<(), SinkFault>
        ensures { Writes self.old (decimal number) result self.new }
    {
        self.put_number(u64::from(number))
    }

    /// Takes a text as it is.
    #[inline(always)]
    pub fn put_str(&mut self, text: &str) -> Result<(), SinkFault>
        ensures { Writes self.old text.now result self.new }
    {
        self.put(text.as_bytes())
    }

    /// Takes bytes as two lower case hexadecimal digits each.
    #[inline(never)]
    pub fn put_hex(&mut self, bytes: &[u8]) -> Result<(), SinkFault>
        ensures { Writes self.old (encode_lower bytes.now) result self.new }
    {
        let mut rest = bytes;
        while let Some((block, behind)) = rest.split_first_chunk::<BLOCK>() {
            self.put(&digits_of(block))?;
            rest = behind;
        }
        self.put_few_as_hex(rest)
    }

    /// Takes fewer bytes than a block as two lower case hexadecimal digits each.
    #[inline(always)]
    fn put_few_as_hex(&mut self, bytes: &[u8]) -> Result<(), SinkFault>
        requires { length bytes.now < 64 }
        ensures { Writes self.old (encode_lower bytes.now) result self.new }
    {
        let mut room = [0; 2 * BLOCK];
        let digits = &mut room[..2 * bytes.len()];
        hex::encode_to_slice(bytes, digits).unwrap();
        self.put(digits)
    }

    /// Takes bytes as `0x` and two lower case hexadecimal digits each.
    #[inline(never)]
    pub fn put_hex_text(&mut self, bytes: &[u8]) -> Result<(), SinkFault>
        ensures { Writes self.old (hex_text bytes.now) result self.new }
    {
        self.put(b"0x")?;
        self.put_hex(bytes)
    }

    /// Takes a uuid as lower case hexadecimal digits with hyphens.
    #[inline(never)]
    pub fn put_uuid(&mut self, bytes: [u8; 16]) -> Result<(), SinkFault>
        ensures { Writes self.old (hyphenated_text lower bytes) result self.new }
    {
        let mut buffer = Uuid::encode_buffer();
        let text = Uuid::from_bytes(bytes)
            .hyphenated()
            .encode_lower(&mut buffer);
        self.put(text.as_bytes())
    }

    /// Takes a text in quotes, where a quote, a backslash and each byte that does not print is escaped.
    #[inline(always)]
    pub fn put_quoted(&mut self, text: &str) -> Result<(), SinkFault>
        ensures { Writes self.old (quoted text.now) result self.new }
    {
        self.put(b"\"")?;
        self.put_escaped(text.as_bytes())?;
        self.put(b"\"")
    }

    /// Takes an address: four decimal numbers with dots, or eight groups of four hexadecimal digits with colons.
    #[inline(never)]
    pub fn put_address(&mut self, address: Address) -> Result<(), SinkFault>
        ensures { Writes self.old (address_text address) result self.new }
    {
        match address {
            Address::V4(bytes) => self.put_dotted(bytes),
            Address::V6(bytes) => self.put_groups(bytes),
        }
    }

    /// Takes four bytes as decimal numbers with dots.
    fn put_dotted(&mut self, bytes: [u8; 4]) -> Result<(), SinkFault>
        ensures { Writes self.old (address_text (V4 bytes)) result self.new }
    {
        self.put_number(u64::from(bytes[0]))?;
        let mut rest = &bytes[1..];
        while let [byte, after @ ..] = rest {
            self.put(b".")?;
            self.put_number(u64::from(*byte))?;
            rest = after;
        }
        Ok(())
    }

    /// Takes sixteen bytes as groups of four hexadecimal digits with colons.
    fn put_groups(&mut self, bytes: [u8; 16]) -> Result<(), SinkFault>
        ensures { Writes self.old (address_text (V6 bytes)) result self.new }
    {
        self.put_group(&bytes[..2])?;
        let mut rest = &bytes[2..];
        while let [high, low, after @ ..] = rest {
            self.put(b":")?;
            self.put_group(&[*high, *low])?;
            rest = after;
        }
        Ok(())
    }

    /// Takes two bytes as four hexadecimal digits.
    #[inline(always)]
    fn put_group(&mut self, bytes: &[u8]) -> Result<(), SinkFault>
        requires { length bytes.now ≡ 2 }
        ensures { Writes self.old (encode_lower bytes.now) result self.new }
    {
        let mut digits = [0; 4];
        hex::encode_to_slice(bytes, &mut digits).unwrap();
        self.put(&digits)
    }
}
