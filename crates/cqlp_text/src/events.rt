//! Events as lines.

ghost use Rattle.std.specs.Prelude.{◌≡◌, IsSome, []};
ghost use Rattle.cqlp_grammar.specs.Events.{bound_of, event_of};
ghost use Rattle.cqlp_text.specs.Lines.{line as line_of};
ghost use Rattle.cqlp_text.specs.Outputs.{AppendsText, written};

use crate::line_pen::LinePen;
use crate::names::{field_name, kind_name, opcode_name};
use crate::pen::Pen;
use crate::text_writer::TextWriter;
use crate::word::Word;
use cqlp_grammar::{Event, SinkFault};
use cqlp_kind::{Kind, Scalar};
use cqlp_note::{Address, BoundValue, Field, Header, Target};

/// Appends the line of an event at an offset. A fault is the writer's own.
///
/// # Errors
///
/// The fault of the target.
#[inline]
pub fn event_line<W: Target>(at: u64, event: &Event<'_>, w: &mut W) -> Result<(), SinkFault>
    ensures { AppendsText (written W.Target w.old) (line_of at (event_of event.now)) result (written W.Target w.new) }
{
    let mut writer = TextWriter::over(w);
    let written = writer.put_whole_event(at, event);
    let _ = writer.into_target();
    written
}

impl<W: Target> TextWriter<LinePen<'_, W>> {
    ghost use Rattle.cqlp_text.specs.Written.{Writes};

    /// Takes the line of an event at an offset, and passes all on.
    #[inline]
    fn put_whole_event(&mut self, at: u64, event: &Event<'_>) -> Result<(), SinkFault>
        ensures line { Writes self.old (line_of at (event_of event.now)) result self.new }
        ensures passed { self.new.waiting ≡ [] }
    {
        self.put_event(at, event)?;
        self.flush()
    }
}

impl<P: Pen> TextWriter<P> {
    ghost use Rattle.cqlp_grammar.specs.Events as reading;
    ghost use Rattle.std.specs.Prelude.{◌∷◌, ◌++◌, decimal};
    ghost use Rattle.std.specs.Fmt.{signed_decimal};
    ghost use Rattle.cqlp_kind.specs.CellStep as cell;
    ghost use Rattle.cqlp_kind.specs.Contents.{value_of};
    ghost use Rattle.cqlp_note.specs.Field as value;
    ghost use Rattle.cqlp_text.specs.Lines.{cell_words, field_words, line, part_place, spaced, words};
    ghost use Rattle.cqlp_text.specs.Names.{field_name, kind_name};
    ghost use Rattle.cqlp_text.specs.Written.{Writes};

    /// Takes the line of an event at an offset.
    #[inline]
    pub fn put_event(&mut self, at: u64, event: &Event<'_>) -> Result<(), SinkFault>
        ensures { Writes self.old (line at (event_of event.now)) result self.new }
    {
        self.put_number(at)?;
        self.put_event_words(event)?;
        self.put(b"\n")
    }

    #[inline]
    fn put_event_words(&mut self, event: &Event<'_>) -> Result<(), SinkFault>
        ensures { Writes self.old (spaced (words (event_of event.now))) result self.new }
    {
        match *event {
            Event::Frame(header) => self.put_header_words(header),
            Event::Byte { field, value } => self.put_natural(" Byte ", field, u64::from(value)),
            Event::Short { field, value } => self.put_natural(" Short ", field, u64::from(value)),
            Event::Int { field, value } => self.put_integer(" Int ", field, i64::from(value)),
            Event::Long { field, value } => self.put_integer(" Long ", field, value),
            Event::Uuid { field, value } => self.put_field(" Uuid ", field, Word::Uuid(value)),
            Event::Count { field, count } => self.put_natural(" Count ", field, u64::from(count)),
            Event::Text { field, text } => self.put_field(" Text ", field, Word::Quoted(text)),
            Event::Bytes { field, bytes } => self.put_field(
                " Bytes ",
                field,
                bytes.map_or(Word::Name("null"), Word::Hex),
            ),
            Event::Bound { field, value } => self.put_field(" Bound ", field, bound_word(value)),
            Event::Inet {
                field,
                address,
                port,
            } => self.put_inet_words(field, address, port),
            Event::TypeNode(kind) => self.put_node_words(kind),
            Event::Leaf {
                row,
                column,
                level,
                scalar,
            } => self.put_leaf_words(row, column, level, &scalar),
            Event::Null { row, column, level } => self.put_place(" Null ", row, column, level),
            Event::Empty { row, column, level } => self.put_place(" Empty ", row, column, level),
            Event::Enter {
                row,
                column,
                level,
                kind,
                items,
            } => self.put_enter_words(row, column, level, kind, items),
            Event::Leave { level, items } => self.put_leave_words(level, items),
            Event::Part {
                row,
                column,
                level,
                offset,
                bytes,
                last,
            } => self.put_part_words(row, column, level, offset, bytes, last),
            Event::End { extra } => self.put_end_words(extra),
        }
    }

    /// Takes the words of a field that is a number without a sign.
    #[inline(always)]
    fn put_natural(&mut self, notation: &str, field: Field, value: u64) -> Result<(), SinkFault>
        ensures { Writes self.old (notation.now ++ (field_name field ++ spaced (decimal value ∷ []))) result self.new }
    {
        self.put_field(notation, field, Word::Number(value))
    }

    /// The same of a number with a sign.
    #[inline(always)]
    fn put_integer(&mut self, notation: &str, field: Field, value: i64) -> Result<(), SinkFault>
        ensures { Writes self.old (notation.now ++ (field_name field ++ spaced (signed_decimal value ∷ [])))
            result self.new }
    {
        self.put_field(notation, field, Word::Signed(value))
    }

    /// Takes the words of a field: how it is written, between spaces, its name, and its value.
    #[inline(always)]
    fn put_field(&mut self, notation: &str, field: Field, value: Word<'_>) -> Result<(), SinkFault>
        ensures { Writes self.old (notation.now ++ (field_name field ++ spaced (word_text value.entry ∷ [])))
            result self.new }
    {
        self.put_str(notation)?;
        self.put_field_name(field)?;
        self.put(b" ")?;
        self.put_word(value)
    }

    fn put_inet_words(&mut self, field: Field, address: Address, port: i32) -> Result<(), SinkFault>
        ensures { Writes self.old (spaced (field_words field (value.Inet address port))) result self.new }
    {
        self.put(b" Inet ")?;
        self.put_field_name(field)?;
        self.put(b" ")?;
        self.put_address(address)?;
        self.put(b" ")?;
        self.put_int(port)
    }

    #[inline(always)]
    fn put_node_words(&mut self, kind: Kind) -> Result<(), SinkFault>
        ensures { Writes self.old (spaced (words (reading.Node_of kind))) result self.new }
    {
        self.put(b" TypeNode ")?;
        self.put_kind_name(kind)
    }

    /// Takes the words of a value's place: its name, between spaces, its row, its column and its level.
    #[inline(always)]
    fn put_place(&mut self, name: &str, row: u32, column: u32, level: u32) -> Result<(), SinkFault>
        ensures { Writes self.old (name.now ++ (decimal row ++ spaced (decimal column ∷ decimal level ∷ [])))
            result self.new }
    {
        self.put_str(name)?;
        self.put_count(row)?;
        self.put(b" ")?;
        self.put_count(column)?;
        self.put(b" ")?;
        self.put_count(level)
    }

    #[inline(always)]
    fn put_leaf_words(
        &mut self,
        row: u32,
        column: u32,
        level: u32,
        scalar: &Scalar<'_>,
    ) -> Result<(), SinkFault>
        ensures { Writes self.old (spaced (cell_words row column (cell.Leaf level (value_of scalar.now))))
            result self.new }
    {
        self.put_place(" Leaf ", row, column, level)?;
        self.put(b" ")?;
        self.put_cell(scalar)
    }

    #[inline(always)]
    fn put_enter_words(
        &mut self,
        row: u32,
        column: u32,
        level: u32,
        kind: Kind,
        items: u32,
    ) -> Result<(), SinkFault>
        ensures { Writes self.old (spaced (cell_words row column (cell.Enter level kind items))) result self.new }
    {
        self.put_place(" Enter ", row, column, level)?;
        self.put(b" ")?;
        self.put_kind_name(kind)?;
        self.put(b" ")?;
        self.put_count(items)
    }

    #[inline(always)]
    fn put_leave_words(&mut self, level: u32, items: u32) -> Result<(), SinkFault>
        ensures { Writes self.old (spaced (words (reading.Leave level items))) result self.new }
    {
        self.put(b" Leave ")?;
        self.put_count(level)?;
        self.put(b" ")?;
        self.put_count(items)
    }

    fn put_part_words(
        &mut self,
        row: u32,
        column: u32,
        level: u32,
        offset: u32,
        bytes: &[u8],
        last: bool,
    ) -> Result<(), SinkFault>
        ensures { Writes self.old (spaced (cell_words row column (cell.Part level offset bytes.now last)))
            result self.new }
    {
        self.put_place(" Part ", row, column, level)?;
        self.put(b" ")?;
        self.put_count(offset)?;
        self.put(b" ")?;
        self.put_part_place(last)?;
        self.put(b" ")?;
        self.put_hex_text(bytes)
    }

    #[inline(always)]
    fn put_end_words(&mut self, extra: u32) -> Result<(), SinkFault>
        ensures { Writes self.old (spaced (words (reading.End extra))) result self.new }
    {
        self.put(b" End ")?;
        self.put_count(extra)
    }

    fn put_header_words(&mut self, header: Header) -> Result<(), SinkFault>
        ensures { Writes self.old (spaced (words (reading.Frame header))) result self.new }
    {
        self.put_words(&[
            Word::Name("Frame"),
            Word::Name(direction(header.response)),
            Word::Digits(header.flags),
            Word::Signed(i64::from(header.stream)),
            Word::Name(opcode_name(header.opcode)),
            Word::Number(u64::from(header.length)),
        ])
    }

    fn put_field_name(&mut self, field: Field) -> Result<(), SinkFault>
        ensures { Writes self.old (field_name field) result self.new }
    {
        self.put(field_name(field).as_bytes())
    }

    #[inline]
    fn put_kind_name(&mut self, kind: Kind) -> Result<(), SinkFault>
        ensures { Writes self.old (kind_name kind) result self.new }
    {
        self.put(kind_name(kind).as_bytes())
    }

    #[inline]
    fn put_part_place(&mut self, last: bool) -> Result<(), SinkFault>
        ensures { Writes self.old (part_place last) result self.new }
    {
        self.put(part_place(last).as_bytes())
    }
}

ghost use Rattle.cqlp_text.specs.Lines.{direction as direction_text, bound_text, part_place as part_place_text};
ghost use Rattle.cqlp_text.specs.Words.{word_text};

fn direction(response: bool) -> &'static str
    ensures { result.now ≡ direction_text response }
{
    if response { "response" } else { "request" }
}

fn part_place(last: bool) -> &'static str
    ensures { result.now ≡ part_place_text last }
{
    if last { "last" } else { "more" }
}

fn bound_word(value: BoundValue<'_>) -> Word<'_>
    ensures { word_text result ≡ bound_text (bound_of value.entry) }
{
    match value {
        BoundValue::Null => Word::Name("null"),
        BoundValue::Unset => Word::Name("unset"),
        BoundValue::Bytes(bytes) => Word::Hex(bytes),
    }
}
