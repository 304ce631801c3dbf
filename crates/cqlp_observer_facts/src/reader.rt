//! The bytes of a body, as they pass.

ghost use Rattle.std.specs.Prelude.{◌≡◌, ◌≤◌, IfSome, false, if◌then◌else◌, length, take};
ghost use Rattle.cqlp_observer_facts.specs.Due.{is_idle};

use crate::announced::first_due;
use crate::batch::{BatchField, entry_values_due, id_following, kind_following};
use crate::columns::plain_column_of;
use crate::due::{Due, Next, past_text, result_kind};
use crate::facts::{Fact, Facts};
use crate::field_front::FieldFront;
use crate::numbers::{byte, has, int, is_negative, short};
use crate::query::{
    QueryField, ValueForm, consistency_due, consistency_following, page_size_following, past_value,
};
use crate::rows::{RowsField, columns_following, page_flags_following, row_count};
use cqlp_note::{Header, Opcode};

/// What a message says, as the bytes of its body pass, in pieces of any size.
///
/// Lengths are passed over by number, and nothing of their contents is looked at. Where a count or a length is negative, where a value is none of those
/// that the standard knows, and where fields of UDTs lie within more than three others, the reading gives up: what it knows stays, and no more is
/// known. It gives up so too where the bytes end early, and takes no memory.
#[derive(Drop)]
pub struct FactsReader {
    /// The flags and the kind of the message, by its header.
    flags: u8,
    opcode: Opcode,
    /// The field that comes next, and the bytes of it that came.
    due: Due,
    front: FieldFront,
    /// How many bytes are passed over before it.
    passing: u32,
    facts: Facts,
}

impl FactsReader {
    ghost use Rattle.cqlp_observer_facts.specs.Bodies.{width};
    ghost use Rattle.cqlp_observer_facts.specs.Columns.{PassesColumn, next_column};
    ghost use Rattle.cqlp_observer_facts.specs.Contents.{past_value};
    ghost use Rattle.cqlp_observer_facts.specs.Due.{past};
    ghost use Rattle.cqlp_observer_facts.specs.Queries.{flags_next, values_due};
    ghost use Rattle.cqlp_observer_facts.specs.Reading.{before, begun, gone_on, gone_to, idle, is_before, passed, read, taken, with_due};

    /// Nothing is read.
    #[must_use]
    pub fn idle() -> FactsReader
        ensures { result ≡ idle }
    {
        FactsReader {
            flags: 0,
            opcode: Opcode::Options,
            due: Due::Over,
            front: FieldFront::new(),
            passing: 0,
            facts: Facts::new(),
        }
    }

    /// Nothing came of a body with this header.
    #[must_use]
    #[inline(always)]
    pub fn new(header: &Header) -> FactsReader
        ensures { result ≡ begun header.now }
    {
        FactsReader {
            flags: header.flags,
            opcode: header.opcode,
            due: first_due(header),
            front: FieldFront::new(),
            passing: 0,
            facts: Facts::new(),
        }
    }

    /// What the bytes say that came so far.
    #[must_use]
    #[inline(always)]
    pub fn facts(&self) -> Facts
        ensures { result ≡ self.now.facts }
    {
        self.facts
    }

    /// Takes the next bytes of the body, and says how many of them lie before the message proper: what the header's flags announce there, a
    /// tracing id, warnings and a custom payload. Section 2.2 of `native_protocol_v4.spec`.
    pub fn read(&mut self, piece: &[u8]) -> usize
        ensures after { self.new ≡ read piece.now self.old }
        ensures before { result ≡ before piece.now self.old }
        ensures within { result ≤ length piece.now }
    {
        let mut rest = piece;
        let mut before = 0;
        while !rest.is_empty() && self.is_before() {
            let used = self.step_before(rest);
            before += used;
            rest = &rest[used..];
        }
        while !rest.is_empty() {
            let used = self.step(rest);
            rest = &rest[used..];
        }
        before
    }

    /// Whether the next byte lies before the message proper.
    #[inline(always)]
    fn is_before(&self) -> bool
        ensures { result ≡ is_before self.now }
    {
        match &self.due {
            Due::Announced(_) => true,
            due => self.passing > 0 && due.is_opening(),
        }
    }

    /// What `step` does, out of line: few messages have something before them.
    #[inline(never)]
    fn step_before(&mut self, rest: &[u8]) -> usize
        requires { 1 ≤ length rest.now }
        ensures some { 1 ≤ result }
        ensures within { result ≤ length rest.now }
        ensures after { self.new ≡ read (take result rest.now) self.old }
        ensures before { before (take result rest.now) self.old ≡ (if is_before self.old then result else 0) }
    {
        self.step(rest)
    }

    /// Takes some of these bytes, which lie all before the message proper or none of them.
    #[inline(always)]
    fn step(&mut self, rest: &[u8]) -> usize
        requires { 1 ≤ length rest.now }
        ensures some { 1 ≤ result }
        ensures within { result ≤ length rest.now }
        ensures after { self.new ≡ read (take result rest.now) self.old }
        ensures before { before (take result rest.now) self.old ≡ (if is_before self.old then result else 0) }
    {
        if self.passing > 0 {
            let used = rest.len().min(self.passing as usize);
            self.pass(used as u32);
            return used;
        }
        if self.due.is_idle() {
            return rest.len();
        }
        self.take_fields(rest)
    }

    /// Takes a column that is due, if it lies whole in these bytes and is plain; else bytes of the field that is due.
    #[inline(always)]
    fn take_fields(&mut self, rest: &[u8]) -> usize
        requires some { 1 ≤ length rest.now }
        requires none_passing { self.old.passing ≡ 0 }
        requires busy { is_idle self.old.due ≡ false }
        ensures some { 1 ≤ result }
        ensures within { result ≤ length rest.now }
        ensures after { self.new ≡ read (take result rest.now) self.old }
        ensures before { before (take result rest.now) self.old ≡ (if is_before self.old then result else 0) }
    {
        match self.plain_column(rest) {
            Some(used) => {
                self.go_to_next_column();
                used
            }
            None => self.take_field(rest),
        }
    }

    /// How many bytes the column has that is due, if it lies whole in these bytes, its type is plain and one more column comes after it.
    #[inline(always)]
    fn plain_column(&self, rest: &[u8]) -> Option<usize>
        requires { self.now.passing ≡ 0 }
        ensures { IfSome result (λ used. PassesColumn rest.now used (next_column self.now.due) self.now) }
    {
        match &self.due {
            Due::Rows(field) => {
                if self.front.is_empty() {
                    plain_column_of(field, rest)
                } else {
                    None
                }
            }
            _ => None,
        }
    }

    /// Goes on after a column of a plain type.
    #[inline(always)]
    fn go_to_next_column(&mut self)
        ensures { self.new ≡ with_due (next_column self.old.due) self.old }
    {
        if let Due::Rows(RowsField::Name { more: _, types }) = &mut self.due {
            types.first.fields = types.first.fields.saturating_sub(1);
        }
    }

    /// Takes bytes of the field that is due: all of it, if it has not begun and lies whole in these bytes; else one byte.
    #[inline(always)]
    fn take_field(&mut self, rest: &[u8]) -> usize
        requires some { 1 ≤ length rest.now }
        requires none_passing { self.old.passing ≡ 0 }
        requires busy { is_idle self.old.due ≡ false }
        ensures some { 1 ≤ result }
        ensures within { result ≤ length rest.now }
        ensures after { self.new ≡ read (take result rest.now) self.old }
        ensures before { before (take result rest.now) self.old ≡ (if is_before self.old then result else 0) }
    {
        let width = self.due.width();
        if self.front.is_empty() && width <= rest.len() {
            self.pass_field(&rest[..width]);
            return width;
        }
        self.take(rest[0]);
        1
    }

    /// Passes over so many bytes.
    #[inline(always)]
    fn pass(&mut self, count: u32)
        requires { count ≤ self.old.passing }
        ensures { self.new ≡ passed count self.old }
    {
        self.passing -= count;
    }

    /// Takes a byte of a field.
    #[inline(never)]
    fn take(&mut self, byte: u8)
        ensures { self.new ≡ taken byte self.old }
    {
        let (bytes, len) = self.front.with(byte);
        if len < self.due.width() {
            self.front = FieldFront::of(bytes, len);
        } else {
            self.pass_field(&bytes[..len]);
        }
    }

    /// Goes on after a field. Of each field its parts alone are read, where they lie.
    #[inline(always)]
    fn pass_field(&mut self, bytes: &[u8])
        requires { width self.old.due ≤ length bytes.now }
        ensures { self.new ≡ gone_on bytes.now self.old }
    {
        match self.due {
            Due::StatementId => self.go_to(Next::past(short(bytes).into(), consistency_due())),
            Due::Query(QueryField::Consistency) => self.go_to(consistency_following(bytes)),
            Due::Query(QueryField::Flags) => self.go_past_flags(byte(bytes).into()),
            Due::Query(QueryField::ValueCount(ValueForm { named, paged })) => {
                self.go_to_values(0, short(bytes), ValueForm { named, paged })
            }
            Due::Query(
                QueryField::Value {
                    more,
                    form: ValueForm { named, paged },
                },
            ) => self.go_past_value(int(bytes), more, ValueForm { named, paged }),
            Due::Query(QueryField::PageSize) => self.go_to(page_size_following(bytes)),
            _ => self.pass_other(bytes),
        }
    }

    /// Goes on after the flags of a QUERY or an EXECUTE. What is due is made where it stays, here and below.
    #[inline(always)]
    fn go_past_flags(&mut self, flags: u32)
        ensures { self.new ≡ gone_to (flags_next flags) self.old }
    {
        self.go_past(0);
        self.facts.add(Fact::HasPagingState(has(flags, 0x08)));
        let paged = has(flags, 0x04);
        if has(flags, 0x01) {
            let named = has(flags, 0x40);
            self.due = Due::Query(QueryField::ValueCount(ValueForm { named, paged }));
        } else if paged {
            self.due = Due::Query(QueryField::PageSize);
        } else {
            self.due = Due::Over;
        }
    }

    /// Goes on after a value of this length, before so many more.
    #[inline(always)]
    fn go_past_value(&mut self, length: u32, more: u16, form: ValueForm)
        ensures { self.new ≡ gone_to (past_value length (values_due more form)) self.old }
    {
        if length == u32::MAX || length == u32::MAX - 1 {
            self.go_to_values(0, more, form);
        } else if is_negative(length) {
            self.go_to(Next::at(Due::Over));
        } else {
            self.go_to_values(length, more, form);
        }
    }

    /// Goes on with so many values, after so many bytes.
    #[inline(always)]
    fn go_to_values(&mut self, passing: u32, count: u16, form: ValueForm)
        ensures { self.new ≡ gone_to (past passing (values_due count form)) self.old }
    {
        self.go_past(passing);
        if count == 0 {
            if form.paged {
                self.due = Due::Query(QueryField::PageSize);
            } else {
                self.due = Due::Over;
            }
        } else if form.named {
            self.due = Due::Query(QueryField::ValueName {
                more: count - 1,
                form,
            });
        } else {
            self.due = Due::Query(QueryField::Value {
                more: count - 1,
                form,
            });
        }
    }

    /// Goes on with what is due, after so many bytes.
    #[inline(always)]
    fn go_past(&mut self, passing: u32)
        ensures { self.new ≡ gone_to (past passing self.old.due) self.old }
    {
        self.passing = passing;
        self.front.clear();
    }

    /// Goes on after a field, out of line.
    #[inline(never)]
    fn pass_other(&mut self, bytes: &[u8])
        requires { width self.old.due ≤ length bytes.now }
        ensures { self.new ≡ gone_on bytes.now self.old }
    {
        match self.due {
            Due::QueryText => self.go_to(past_text(bytes, consistency_due())),
            Due::ResultKind => self.go_to(result_kind(int(bytes))),
            Due::Batch(BatchField::Kind { more }) => self.go_to(Next::at(kind_following(
                byte(bytes),
                more,
            ))),
            Due::Batch(BatchField::Id { more }) => self.go_to(id_following(bytes, more)),
            Due::Batch(BatchField::ValueCount { more }) => self.go_to(Next::at(entry_values_due(
                short(bytes),
                more,
            ))),
            Due::Batch(BatchField::Value { values, more }) => self.go_to(past_value(
                int(bytes),
                entry_values_due(values, more),
            )),
            Due::Rows(RowsField::Flags) => self.go_to(page_flags_following(bytes)),
            Due::Rows(RowsField::ColumnCount { flags }) => self.go_to(columns_following(
                flags, bytes,
            )),
            Due::Rows(RowsField::RowCount) => self.go_to(row_count(bytes)),
            _ => self.pass_rare(bytes),
        }
    }

    /// Goes on after any field.
    #[inline(never)]
    fn pass_rare(&mut self, bytes: &[u8])
        requires { width self.old.due ≤ length bytes.now }
        ensures { self.new ≡ gone_on bytes.now self.old }
    {
        let next = self.due.following(self.flags, self.opcode, bytes);
        self.go_to(next);
    }

    /// Goes on with what follows a field.
    #[inline(always)]
    fn go_to(&mut self, next: Next)
        ensures { self.new ≡ gone_to next self.old }
    {
        self.due = next.due;
        self.passing = next.passing;
        self.front.clear();
        if let Some(fact) = next.fact {
            self.facts.add(fact);
        }
    }
}
