//! Words of lines.

ghost use Rattle.std.specs.Prelude.{◌≡◌, map};

use crate::pen::Pen;
use crate::text_writer::TextWriter;
use cqlp_grammar::SinkFault;
use cqlp_kind::Scalar;
use cqlp_note::Address;

/// A word of a line.
#[derive(Clone, Copy)]
pub enum Word<'a> {
    Name(&'a str),
    /// A text that someone else wrote, in one line.
    Foreign(&'a str),
    Number(u64),
    Signed(i64),
    /// Two hexadecimal digits.
    Digits(u8),
    /// Bytes as hex text.
    Hex(&'a [u8]),
    Quoted(&'a str),
    Uuid([u8; 16]),
    Address(Address),
    /// The text of a cell.
    Cell(Scalar<'a>),
}

impl<P: Pen> TextWriter<P> {
    ghost use Rattle.cqlp_text.specs.Lines.{spaced};
    ghost use Rattle.cqlp_text.specs.Words.{word_text};
    ghost use Rattle.cqlp_text.specs.Written.{Writes};

    /// Takes words, each after a space.
    pub fn put_words(&mut self, words: &[Word<'_>]) -> Result<(), SinkFault>
        ensures { Writes self.old (spaced (map word_text words.now)) result self.new }
    {
        for word in words {
            self.put(b" ")?;
            self.put_word(*word)?;
        }
        Ok(())
    }

    /// Takes the text of a word.
    #[inline(always)]
    pub fn put_word(&mut self, word: Word<'_>) -> Result<(), SinkFault>
        ensures { Writes self.old (word_text word.entry) result self.new }
    {
        match word {
            Word::Name(name) => self.put(name.as_bytes()),
            Word::Foreign(text) => self.put_in_one_line(text.as_bytes()),
            Word::Number(number) => self.put_number(number),
            Word::Signed(number) => self.put_signed(number),
            Word::Digits(byte) => self.put_hex(&[byte]),
            Word::Hex(bytes) => self.put_hex_text(bytes),
            Word::Quoted(text) => self.put_quoted(text),
            Word::Uuid(bytes) => self.put_uuid(bytes),
            Word::Address(address) => self.put_address(address),
            Word::Cell(scalar) => self.put_cell(&scalar),
        }
    }
}
