//! Cells as text.

ghost use Rattle.std.specs.Prelude.{◌≡◌, ◌≤◌, IsSome, length};
ghost use Rattle.cqlp_text.specs.CellText.{boolean_text, cell_text as text_of, extended as extended_bytes, sign_byte};
ghost use Rattle.cqlp_text.specs.Outputs.{AppendsText, written};
ghost use Rattle.cqlp_kind.specs.Contents.{value_of};

use crate::line_pen::LinePen;
use crate::pen::Pen;
use crate::text_writer::TextWriter;
use cqlp_grammar::SinkFault;
use cqlp_kind::Scalar;
use cqlp_note::Target;

/// How many bytes a number has at most that is written in decimal digits.
const WIDE: usize = 16;

/// Appends the text of a cell: a number in decimal digits, a text in quotes, bytes as hex text, and so on. A fault is
/// the writer's own.
///
/// # Errors
///
/// The fault of the target.
pub fn cell_text<W: Target>(scalar: &Scalar<'_>, w: &mut W) -> Result<(), SinkFault>
    ensures { AppendsText (written W.Target w.old) (text_of (value_of scalar.now)) result (written W.Target w.new) }
{
    let mut writer = TextWriter::over(w);
    let written = writer.put_whole_cell(scalar);
    let _ = writer.into_target();
    written
}

impl<W: Target> TextWriter<LinePen<'_, W>> {
    ghost use Rattle.std.specs.Prelude.{[]};
    ghost use Rattle.cqlp_text.specs.Written.{Writes};

    /// Takes the text of a cell, and passes all on.
    fn put_whole_cell(&mut self, scalar: &Scalar<'_>) -> Result<(), SinkFault>
        ensures text { Writes self.old (text_of (value_of scalar.now)) result self.new }
        ensures passed { self.new.waiting ≡ [] }
    {
        self.put_cell(scalar)?;
        self.flush()
    }
}

impl<P: Pen> TextWriter<P> {
    ghost use Rattle.std.specs.Prelude.{◌-ℤ◌, pos};
    ghost use Rattle.std.specs.Fmt.{signed_decimal};
    ghost use Rattle.hex.specs.Hex.{encode_lower};
    ghost use Rattle.cqlp_text.specs.CellText.{decimal_text, time_text, varint_text};
    ghost use Rattle.cqlp_text.specs.Text.{hex_text};
    ghost use Rattle.cqlp_text.specs.Written.{Writes};

    /// Takes the text of a cell. Those of the most common kinds are written in line.
    #[inline(always)]
    pub fn put_cell(&mut self, scalar: &Scalar<'_>) -> Result<(), SinkFault>
        ensures { Writes self.old (text_of (value_of scalar.now)) result self.new }
    {
        match *scalar {
            Scalar::Int(number) => self.put_signed(i64::from(number)),
            Scalar::Bigint(number) => self.put_signed(number),
            Scalar::Varchar(text) => self.put_quoted(text),
            Scalar::Boolean(value) => self.put_boolean(value),
            _ => self.put_any_cell(scalar),
        }
    }

    /// Takes the text of a cell of any kind, in code of its own.
    #[inline(never)]
    pub(crate) fn put_any_cell(&mut self, scalar: &Scalar<'_>) -> Result<(), SinkFault>
        ensures { Writes self.old (text_of (value_of scalar.now)) result self.new }
    {
        match *scalar {
            Scalar::Custom(bytes) | Scalar::Blob(bytes) | Scalar::Raw(bytes) => {
                self.put_hex_text(bytes)
            }
            Scalar::Double(bytes) => self.put_double(bytes),
            Scalar::Float(bytes) => self.put_float(bytes),
            Scalar::Varint(bytes) => self.put_varint(bytes),
            Scalar::Decimal { scale, unscaled } => self.put_decimal(scale, unscaled),
            Scalar::Uuid(bytes) | Scalar::Timeuuid(bytes) => self.put_uuid(bytes),
            Scalar::Ascii(text) | Scalar::Varchar(text) => self.put_quoted(text),
            Scalar::Bigint(number) | Scalar::Counter(number) | Scalar::Timestamp(number) => {
                self.put_signed(number)
            }
            Scalar::Int(number) => self.put_signed(i64::from(number)),
            Scalar::Smallint(number) => self.put_signed(i64::from(number)),
            Scalar::Tinyint(number) => self.put_signed(i64::from(number)),
            Scalar::Time(nanoseconds) => self.put_time(nanoseconds),
            Scalar::Date(number) => self.put_date(number),
            Scalar::Boolean(value) => self.put_boolean(value),
            Scalar::Inet(address) => self.put_address(address),
        }
    }

    /// Takes the name of a truth value, whose length each of the two calls knows.
    #[inline(always)]
    pub(crate) fn put_boolean(&mut self, value: bool) -> Result<(), SinkFault>
        ensures { Writes self.old (boolean_text value) result self.new }
    {
        if value {
            self.put(b"true")
        } else {
            self.put(b"false")
        }
    }

    /// Takes the bytes of a floating-point number.
    fn put_float(&mut self, bytes: [u8; 4]) -> Result<(), SinkFault>
        ensures { Writes self.old (hex_text bytes) result self.new }
    {
        self.put(b"0x")?;
        self.put_four(&bytes)
    }

    /// Takes the bytes of a floating-point number of twice as many.
    fn put_double(&mut self, bytes: [u8; 8]) -> Result<(), SinkFault>
        ensures { Writes self.old (hex_text bytes) result self.new }
    {
        self.put(b"0x")?;
        self.put_eight(&bytes)
    }

    /// Takes four bytes as eight hexadecimal digits.
    #[inline(always)]
    fn put_four(&mut self, bytes: &[u8; 4]) -> Result<(), SinkFault>
        ensures { Writes self.old (encode_lower bytes.now) result self.new }
    {
        let mut digits = [0; 8];
        hex::encode_to_slice(bytes, &mut digits).unwrap();
        self.put(&digits)
    }

    /// Takes eight bytes as sixteen hexadecimal digits.
    #[inline(always)]
    fn put_eight(&mut self, bytes: &[u8; 8]) -> Result<(), SinkFault>
        ensures { Writes self.old (encode_lower bytes.now) result self.new }
    {
        let mut digits = [0; 16];
        hex::encode_to_slice(bytes, &mut digits).unwrap();
        self.put(&digits)
    }

    /// Takes a number of any length: in decimal digits up to 16 bytes, and else its bytes.
    #[inline(never)]
    pub fn put_varint(&mut self, bytes: &[u8]) -> Result<(), SinkFault>
        ensures { Writes self.old (varint_text bytes.now) result self.new }
    {
        if bytes.len() > WIDE {
            return self.put_hex_text(bytes);
        }
        let number = i128::from_be_bytes(extended(bytes));
        match i64::try_from(number) {
            Ok(number) => self.put_signed(number),
            Err(_) => self.put_wide(number),
        }
    }

    /// Takes a number of up to 128 bits as decimal digits.
    #[inline(never)]
    fn put_wide(&mut self, number: i128) -> Result<(), SinkFault>
        ensures { Writes self.old (signed_decimal number) result self.new }
    {
        let mut digits = itoa::Buffer::new();
        self.put(digits.format(number).as_bytes())
    }

    /// Takes a decimal: the unscaled number, `e`, and the negated scale.
    #[inline(never)]
    pub fn put_decimal(&mut self, scale: i32, unscaled: &[u8]) -> Result<(), SinkFault>
        ensures { Writes self.old (decimal_text scale unscaled.now) result self.new }
    {
        self.put_varint(unscaled)?;
        self.put(b"e")?;
        self.put_negated(scale)
    }

    fn put_negated(&mut self, number: i32) -> Result<(), SinkFault>
        ensures { Writes self.old (signed_decimal (pos 0 -ℤ number)) result self.new }
    {
        self.put_signed(-i64::from(number))
    }

    /// Takes a time of day in nanoseconds since midnight; a negative number, which no cell has, as a number.
    #[inline(never)]
    pub fn put_time(&mut self, nanoseconds: i64) -> Result<(), SinkFault>
        ensures { Writes self.old (time_text nanoseconds) result self.new }
    {
        match u64::try_from(nanoseconds) {
            Ok(nanoseconds) => self.put_time_of_day(nanoseconds),
            Err(_) => self.put_signed(nanoseconds),
        }
    }

    fn put_time_of_day(&mut self, nanoseconds: u64) -> Result<(), SinkFault>
        ensures { Writes self.old (time_text (pos nanoseconds)) result self.new }
    {
        self.put_digits(2, nanoseconds / 3_600_000_000_000)?;
        self.put(b":")?;
        self.put_digits(2, nanoseconds / 60_000_000_000 % 60)?;
        self.put(b":")?;
        self.put_digits(2, nanoseconds / 1_000_000_000 % 60)?;
        self.put(b".")?;
        self.put_digits(9, nanoseconds % 1_000_000_000)
    }
}

/// At most 16 bytes of a two's complement, with their sign extended to 16.
fn extended(bytes: &[u8]) -> [u8; WIDE]
    requires { length bytes.now ≤ 16 }
    ensures { result ≡ extended_bytes bytes.now }
{
    let mut wide = [sign_byte(bytes); WIDE];
    wide[WIDE - bytes.len()..].copy_from_slice(bytes);
    wide
}

/// The byte that goes before a two's complement and leaves its number.
fn sign_byte(bytes: &[u8]) -> u8
    ensures { result ≡ sign_byte bytes.now }
{
    match bytes {
        [first, ..] if *first >= 128 => 255,
        _ => 0,
    }
}
