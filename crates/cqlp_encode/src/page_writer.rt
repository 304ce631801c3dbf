//! A page whose cells are written one by one.

ghost use Rattle.std.specs.Prelude.{◌≡◌, ◌+◌, ◌-◌, ◌^◌, ◌<◌, ◌≤◌, List, ℕ, IfOk, IfSome, Some, is_some, false, length, true};
ghost use Rattle.cqlp_note.specs.declared.header.TheConstants.Header.{LONGEST_BODY};
ghost use Rattle.cqlp_note.specs.Outputs.{written};
ghost use Rattle.cqlp_kind.specs.Scalars.{content_of};
ghost use Rattle.cqlp_value.specs.Measures.{content_in, fits_tree};
ghost use Rattle.cqlp_value.specs.Owned.{atom_of, value_of};
ghost use Rattle.cqlp_value.specs.Values.{NoValue, Scalar_and, Values, values_size};
ghost use Rattle.cqlp_message.specs.Owned.{message_of};
ghost use Rattle.cqlp_encode.specs.PagePlaces.{HasSize};
ghost use Rattle.cqlp_encode.specs.Laws.{head_taken};
ghost use Rattle.cqlp_encode.specs.Progress.{FewCalls};
ghost use Rattle.cqlp_encode.specs.UndescribedPages.{fits_undescribed};

use crate::value_writing::{offer_decimal, offer_lent, offer_number, offer_value};
use crate::writing::write_parts;
use cqlp_message::{Frame, Message, Spec, Unfit};
use cqlp_note::Target;
use cqlp_type::TypeTree;
use cqlp_value::{Atom, Content, Value, fitting_size};
use std::marker::Model;
use thiserror::Error;

/// Why a page was not begun, a cell was not written, or a page is not done.
#[derive(Clone, Copy, Debug, PartialEq, Eq, Error)]
pub enum PageError {
    /// The frame is no page that can be written with its cells after it, or the value is none of its column's type. Nothing
    /// was written.
    #[error("{0}")]
    Unfit(Unfit),
    /// All cells are written.
    #[error("all cells are written")]
    OutOfTurn,
    /// The cells would have more bytes than were said.
    #[error("the cells would have more bytes than were said")]
    PastLength,
    /// Cells, or bytes of them, are still to come.
    #[error("cells, or bytes of them, are still to come")]
    NotDone,
    /// The target failed, or took nothing, after the frame's first bytes, this many, which the targets of all calls took.
    #[error("the target failed after {written} bytes of the frame")]
    Write {
        /// How many bytes of the frame are written, from its header on, by this call and those before it.
        written: u32,
    },
}

/// Writes a page whose cells come one by one, in order, row after row. Section 4.2.5.2 of `native_protocol_v4.spec`.
///
/// It holds no memory of its own: the caller says before the first cell how many bytes all cells have, which the frame's
/// header counts, and each cell goes to the target at once. [`laws::page_is_as_encoded`](crate::laws::page_is_as_encoded)
/// says that it is then the frame with these cells, as [`encode`](crate::encode) writes it, where all calls are given one target.
///
/// Each call writes to the target that it is given, and the writer keeps none. Where calls are given several, each target gets what
/// its own calls write; the frame is all that was written, in the order of the calls, and no target alone has it.
#[derive(Drop)]
pub struct PageWriter<'a> {
    frame: &'a Frame,
    /// The columns, none where they are not described.
    specs: &'a [Spec],
    /// How many columns there are.
    columns: u32,
    /// How many cells are still to come.
    left: u64,
    /// The column of the next, the first of which is 0.
    column: usize,
    /// How many bytes of cells are still to come.
    free: u32,
    /// How many bytes of the frame targets took.
    written: u32,
    /// Whether a target failed.
    failed: bool,
    /// How many bytes targets took of the cell in which one failed; 0 where none has.
    cut: u32,
}

impl<'a> Model for PageWriter<'a> {
    ghost use Rattle.std.specs.Coded.{codes};
    ghost use Rattle.cqlp_message.specs.contracts.frame.Frame as lent;
    ghost use Rattle.cqlp_encode.specs.PagePlaces.{HasColumns, IsPlace};
    ghost use Rattle.cqlp_encode.specs.PageWriting.{PageState};

    ghost Value = { PageState };

    ghost coded = { Prim.hlevel (codes, lent.the_row.coded) };

    ghost view = { λ w. record {
      frame = w.frame.now;
      left = w.left;
      free = w.free;
      written = w.written;
      failed = w.failed;
      cut = w.cut;
    } };

    ghost invariant = { λ w. IsPlace (record {
      frame = w.frame.now;
      left = w.left;
      free = w.free;
      written = w.written;
      failed = w.failed;
      cut = w.cut;
    }) w.column × HasColumns w.frame.now w.specs.now w.columns };
}

impl<'a> PageWriter<'a> {
    ghost use Rattle.cqlp_encode.specs.PagePlaces.{Checks, IsSized, IsTaken, Represents};
    ghost use Rattle.cqlp_encode.specs.PageWriting.{Adds, AddsRest, After, Begins, BeginsFrom, Finishes, before_cut, cells_after, failed_after};
    ghost use Rattle.cqlp_encode.specs.PageWriting.{one_more, page};
    ghost use Rattle.cqlp_encode.specs.UndescribedPages.{cell_of};

    /// Writes all of a page that comes before its first cell: the header, whose length counts the cells, and all other parts.
    /// All cells together are to have `cells_len` bytes, as [`value_size`](cqlp_value::value_size) counts them.
    ///
    /// # Errors
    ///
    /// [`PageError::Unfit`] where [`Frame::page_unfit`] says why the frame is no page without cells, or its body would be too
    /// long, before anything is written, and [`PageError::Write`] at the first call of the target that fails or takes nothing.
    pub fn begin<W: Target>(
        frame: &'a Frame,
        cells_len: u32,
        target: &mut W,
    ) -> Result<PageWriter<'a>, PageError>
        ensures begins { Begins frame.now cells_len (written W.Target target.old) result (written W.Target target.new) }
        ensures calls { FewCalls (head_taken result) (W.writes target.old) (W.writes target.new) }
    {
        Self::begin_from(frame, cells_len, 0, target)
    }

    /// Goes on where an earlier call of [`begin`](Self::begin), or of this one, stopped: writes what comes before the first cell, but for
    /// its first bytes, `before` many, which targets took. `before` is what [`PageError::Write`] says.
    ///
    /// # Errors
    ///
    /// Those of [`begin`](Self::begin); [`PageError::Write`] counts the bytes before, too.
    pub fn begin_from<W: Target>(
        frame: &'a Frame,
        cells_len: u32,
        before: u32,
        target: &mut W,
    ) -> Result<PageWriter<'a>, PageError>
        ensures begins { BeginsFrom frame.now cells_len before (written W.Target target.old) result (written W.Target target.new) }
        ensures calls { FewCalls (head_taken result - before) (W.writes target.old) (W.writes target.new) }
    {
        let page_len = match frame.page_measure(cells_len) {
            Ok(len) => len,
            Err(why) => return Err(PageError::Unfit(why)),
        };
        let taken = write_parts(frame, page_len - 9, before, target);
        if taken < page_len - cells_len {
            return Err(PageError::Write { written: taken });
        }
        Ok(PageWriter {
            frame,
            specs: frame.specs(),
            columns: frame.columns(),
            left: frame.cells_wanted(),
            column: 0,
            free: cells_len,
            written: taken,
            failed: false,
            cut: 0,
        })
    }

    /// Writes the next cell to this target. A cell without bytes, as an empty text, is [`Value::Empty`], which
    /// [`Value::scalar`] makes of a scalar; a leaf without bytes is none of any type.
    ///
    /// # Errors
    ///
    /// In this order: [`PageError::Write`] with the same number where an earlier call answered it; [`PageError::OutOfTurn`]
    /// where all cells are written; [`PageError::Unfit`] where the value is none of its column's type;
    /// [`PageError::PastLength`] where the cells would have more bytes than were said. Nothing is written then, and the writer
    /// is as it was. Then [`PageError::Write`] at the first call of the target that fails or takes nothing.
    pub fn cell<W: Target>(&mut self, value: &Value, target: &mut W) -> Result<(), PageError>
        ensures adds { (n : ℕ) (cells : List Values) → After self.old n cells →
            Adds self.old cells (value_of value.now) (written W.Target target.old) result (written W.Target target.new) self.new }
        ensures after { (n : ℕ) (cells : List Values) → After self.old n cells →
            After self.new n (cells_after result cells (value_of value.now)) }
        ensures calls { FewCalls (self.new.written - self.old.written) (W.writes target.old) (W.writes target.new) }
    {
        match self.specs.get(self.column) {
            Some(spec) => self.put_as(value, &spec.tree, target),
            None => {
                let size = self.frame.column_size(self.column, value);
                self.put(value, size, target)
            }
        }
    }

    /// Writes the next cell of a page whose columns are not described to this target, where it is a value of a type that the caller names: as
    /// [`raw_value`](crate::raw_value) makes it a cell of such a page, and [`cell`](Self::cell) would write it then.
    ///
    /// # Errors
    ///
    /// Those of [`cell`](Self::cell): [`PageError::Unfit`] where the value is none of its type, as [`fits`](cqlp_value::fits) says, and where the
    /// page's columns are described.
    pub fn cell_as<W: Target>(
        &mut self,
        value: &Value,
        of: &TypeTree,
        target: &mut W,
    ) -> Result<(), PageError>
        ensures adds { (n : ℕ) (cells : List Values) → After self.old n cells →
            Adds self.old cells (cell_of (page self.old) value.now of.now) (written W.Target target.old) result
            (written W.Target target.new) self.new }
        ensures after { (n : ℕ) (cells : List Values) → After self.old n cells →
            After self.new n (cells_after result cells (cell_of (page self.old) value.now of.now)) }
        ensures calls { FewCalls (self.new.written - self.old.written) (W.writes target.old) (W.writes target.new) }
    {
        let size = undescribed_size(&self.frame.message, value, of);
        self.put(value, size, target)
    }

    /// Goes on with the cell in which an earlier call stopped: writes the bytes of the value behind those that targets took, and is then
    /// where [`cell`](Self::cell) would be, had it not stopped. The value is to be that of the cell; of another one as much is written as it
    /// has behind them. [`laws::cell_is_whole`](crate::laws::cell_is_whole) says that all bytes of the cell are there then, each once.
    ///
    /// # Errors
    ///
    /// In this order, with nothing changed: [`PageError::OutOfTurn`] where no call stopped within a cell; [`PageError::Unfit`] and
    /// [`PageError::PastLength`] as [`cell`](Self::cell) says them; [`PageError::OutOfTurn`] where the value has no more bytes than targets
    /// took. Then [`PageError::Write`] at the first call of the target that fails or takes nothing; this may be called again.
    pub fn resume<W: Target>(&mut self, value: &Value, target: &mut W) -> Result<(), PageError>
        ensures adds { (n : ℕ) (cells : List Values) → After self.old n cells →
            AddsRest self.old cells (value_of value.now) (written W.Target target.old) result (written W.Target target.new)
            self.new }
        ensures after { (n : ℕ) (cells : List Values) → After self.old n cells →
            After self.new n (cells_after result cells (value_of value.now)) }
        ensures calls { FewCalls (self.new.written - self.old.written) (W.writes target.old) (W.writes target.new) }
    {
        let size = self.frame.column_size(self.column, value);
        self.put_rest(value, size, target)
    }

    /// The same of a cell that [`cell_as`](Self::cell_as) writes.
    ///
    /// # Errors
    ///
    /// Those of [`resume`](Self::resume); [`PageError::Unfit`] as [`cell_as`](Self::cell_as) says it.
    pub fn resume_as<W: Target>(
        &mut self,
        value: &Value,
        of: &TypeTree,
        target: &mut W,
    ) -> Result<(), PageError>
        ensures adds { (n : ℕ) (cells : List Values) → After self.old n cells →
            AddsRest self.old cells (cell_of (page self.old) value.now of.now) (written W.Target target.old) result
            (written W.Target target.new) self.new }
        ensures after { (n : ℕ) (cells : List Values) → After self.old n cells →
            After self.new n (cells_after result cells (cell_of (page self.old) value.now of.now)) }
        ensures calls { FewCalls (self.new.written - self.old.written) (W.writes target.old) (W.writes target.new) }
    {
        let size = undescribed_size(&self.frame.message, value, of);
        self.put_rest(value, size, target)
    }

    /// How many bytes the frame has, with all its cells, all of which the targets of the calls took: where they were several, all
    /// together. It writes nothing, and may be called again.
    ///
    /// # Errors
    ///
    /// [`PageError::Write`] where an earlier call answered it, and [`PageError::NotDone`] where cells, or bytes of them, are
    /// still to come.
    pub fn finish(&self) -> Result<u32, PageError>
        ensures { (n : ℕ) (cells : List Values) → After self.now n cells → Finishes self.now n cells result }
    {
        if self.failed {
            return Err(PageError::Write {
                written: self.written,
            });
        }
        if self.left > 0 || self.free > 0 {
            return Err(PageError::NotDone);
        }
        Ok(self.written)
    }

    /// Writes the next cell, if it is a value of this type.
    #[inline(always)]
    fn put_as<W: Target>(
        &mut self,
        value: &Value,
        of: &TypeTree,
        target: &mut W,
    ) -> Result<(), PageError>
        ensures adds { (cells : List Values) (cell : Values) → Represents self.old cells (fits_tree value.now of.now) (value_of value.now) cell →
            Adds self.old cells cell (written W.Target target.old) result (written W.Target target.new) self.new }
        ensures calls { FewCalls (self.new.written - self.old.written) (W.writes target.old) (W.writes target.new) }
    {
        match value {
            Value::Leaf(atom) => match of {
                TypeTree::Plain(kind) => match atom.content_as(*kind) {
                    Some(content) => self.put_content(atom, content, target),
                    None => self.put(value, None, target),
                },
                _ => self.put_any(value, of, target),
            },
            _ => self.put_any(value, of, target),
        }
    }

    /// The same of a value that is mostly no scalar.
    fn put_any<W: Target>(
        &mut self,
        value: &Value,
        of: &TypeTree,
        target: &mut W,
    ) -> Result<(), PageError>
        ensures adds { (cells : List Values) (cell : Values) → Represents self.old cells (fits_tree value.now of.now) (value_of value.now) cell →
            Adds self.old cells cell (written W.Target target.old) result (written W.Target target.new) self.new }
        ensures calls { FewCalls (self.new.written - self.old.written) (W.writes target.old) (W.writes target.new) }
    {
        let size = fitting_size(value, Some(of));
        self.put(value, size, target)
    }

    /// Writes the next cell: a scalar that fits, which has this content.
    #[inline(always)]
    fn put_content<W: Target>(
        &mut self,
        atom: &Atom,
        content: Content<'_>,
        target: &mut W,
    ) -> Result<(), PageError>
        requires is { content_in content ≡ content_of (atom_of atom.now) }
        ensures adds { (cells : List Values) (cell : Values) → Represents self.old cells true (Scalar_and (atom_of atom.now) NoValue) cell →
            Adds self.old cells cell (written W.Target target.old) result (written W.Target target.new) self.new }
        ensures calls { FewCalls (self.new.written - self.old.written) (W.writes target.old) (W.writes target.new) }
    {
        match content {
            Content::One(number) => self.put_number(&[number], target),
            Content::Two(number) => self.put_number(&number.to_be_bytes(), target),
            Content::Four(number) => self.put_number(&number.to_be_bytes(), target),
            Content::Eight(number) => self.put_number(&number.to_be_bytes(), target),
            Content::Lent(bytes) => self.put_lent(bytes, target),
            Content::Decimal(_, unscaled) => self.put_decimal(atom, unscaled.len() as u64, target),
        }
    }

    /// The same of the bytes of a number, which are at most eight.
    #[inline(always)]
    fn put_number<W: Target>(&mut self, content: &[u8], target: &mut W) -> Result<(), PageError>
        requires { length content.now ≤ 8 }
        ensures adds { (v : Values) → IsSized v content.now → (cells : List Values) (cell : Values) → Represents self.old cells true v cell →
            Adds self.old cells cell (written W.Target target.old) result (written W.Target target.new) self.new }
        ensures calls { FewCalls (self.new.written - self.old.written) (W.writes target.old) (W.writes target.new) }
    {
        let size = self.check(Some(content.len() as u64 + 4))?;
        let taken = offer_number(content, target);
        self.took(size, taken)
    }

    /// The same of a content that is lent.
    #[inline(always)]
    fn put_lent<W: Target>(&mut self, content: &[u8], target: &mut W) -> Result<(), PageError>
        ensures adds { (v : Values) → IsSized v content.now → (cells : List Values) (cell : Values) → Represents self.old cells true v cell →
            Adds self.old cells cell (written W.Target target.old) result (written W.Target target.new) self.new }
        ensures calls { FewCalls (self.new.written - self.old.written) (W.writes target.old) (W.writes target.new) }
    {
        let size = self.check(Some(content.len() as u64 + 4))?;
        let taken = offer_lent(content, target);
        self.took(size, taken)
    }

    /// The same of a decimal whose unscaled number has this many bytes.
    fn put_decimal<W: Target>(
        &mut self,
        atom: &Atom,
        unscaled: u64,
        target: &mut W,
    ) -> Result<(), PageError>
        requires long { length (content_of (atom_of atom.now)) ≡ 4 + unscaled }
        requires bounded { unscaled < 2 ^ 63 }
        ensures adds { (cells : List Values) (cell : Values) → Represents self.old cells true (Scalar_and (atom_of atom.now) NoValue) cell →
            Adds self.old cells cell (written W.Target target.old) result (written W.Target target.new) self.new }
        ensures calls { FewCalls (self.new.written - self.old.written) (W.writes target.old) (W.writes target.new) }
    {
        let size = self.check(Some(unscaled + 8))?;
        let taken = offer_decimal(atom, target);
        self.took(size, taken)
    }

    /// Counts a cell of this many bytes, of which a target took this many.
    #[inline(always)]
    fn took(&mut self, size: u32, taken: u32) -> Result<(), PageError>
        requires sound { self.old.failed ≡ false }
        requires left { 0 < self.old.left }
        requires room { size ≤ self.old.free }
        ensures { IsTaken self.old size taken result self.new }
    {
        if taken < size {
            self.fail(taken);
            return Err(PageError::Write {
                written: self.written,
            });
        }
        self.count(size);
        Ok(())
    }

    /// Writes the next cell, if it is a value that fits and so has a size.
    fn put<W: Target>(
        &mut self,
        value: &Value,
        size: Option<u64>,
        target: &mut W,
    ) -> Result<(), PageError>
        requires { IfSome size (HasSize (value_of value.now)) }
        ensures adds { (cells : List Values) (cell : Values) → Represents self.old cells (is_some size) (value_of value.now) cell →
            Adds self.old cells cell (written W.Target target.old) result (written W.Target target.new) self.new }
        ensures calls { FewCalls (self.new.written - self.old.written) (W.writes target.old) (W.writes target.new) }
    {
        let size = self.check(size)?;
        let taken = offer_value(value, size, 0, target);
        self.took(size, taken)
    }

    /// Writes what targets have not taken of the cell in which one failed, if it is a value that fits and so has a size.
    fn put_rest<W: Target>(
        &mut self,
        value: &Value,
        size: Option<u64>,
        target: &mut W,
    ) -> Result<(), PageError>
        requires { IfSome size (HasSize (value_of value.now)) }
        ensures adds { (cells : List Values) (cell : Values) → Represents self.old cells (is_some size) (value_of value.now) cell →
            AddsRest self.old cells cell (written W.Target target.old) result (written W.Target target.new) self.new }
        ensures calls { FewCalls (self.new.written - self.old.written) (W.writes target.old) (W.writes target.new) }
    {
        if !self.failed {
            return Err(PageError::OutOfTurn);
        }
        let mut writer = self.before_cut();
        let size = writer.check(size)?;
        if size <= self.cut {
            return Err(PageError::OutOfTurn);
        }
        let taken = offer_value(value, size, self.cut, target);
        if taken < size {
            writer.fail(taken);
            *self = writer;
            return Err(PageError::Write {
                written: self.written,
            });
        }
        writer.count(size);
        *self = writer;
        Ok(())
    }

    /// The writer as it was before the cell in which a target failed.
    fn before_cut(&self) -> PageWriter<'a>
        ensures { result ≡ before_cut self.now }
    {
        PageWriter {
            frame: self.frame,
            specs: self.specs,
            columns: self.columns,
            left: self.left,
            column: self.column,
            free: self.free,
            written: self.written - self.cut,
            failed: false,
            cut: 0,
        }
    }

    /// How many bytes the next cell has, or why a value of this size is not it.
    #[inline(always)]
    fn check(&self, size: Option<u64>) -> Result<u32, PageError>
        ensures checks { (v : Values) → IfSome size (HasSize v) → (cells : List Values) (cell : Values) →
            Represents self.now cells (is_some size) v cell → Checks self.now cells cell result }
        ensures size { IfOk result (λ len. size ≡ Some len) }
        ensures sound { IfOk result (λ _. self.now.failed ≡ false) }
        ensures left { IfOk result (λ _. 0 < self.now.left) }
        ensures room { IfOk result (λ size. size ≤ self.now.free) }
        ensures small { IfOk result (λ size. size ≤ LONGEST_BODY) }
    {
        if self.failed {
            return Err(PageError::Write {
                written: self.written,
            });
        }
        if self.left == 0 {
            return Err(PageError::OutOfTurn);
        }
        let size = match size {
            Some(size) => size,
            None => return Err(PageError::Unfit(Unfit::CellType)),
        };
        if size > u64::from(self.free) {
            return Err(PageError::PastLength);
        }
        Ok(size as u32)
    }

    /// Counts a cell of this many bytes that was written.
    fn count(&mut self, size: u32)
        requires sound { self.old.failed ≡ false }
        requires left { 0 < self.old.left }
        requires room { size ≤ self.old.free }
        ensures { self.new ≡ one_more self.old size }
    {
        let next = self.column + 1;
        self.column = if next < self.columns as usize {
            next
        } else {
            0
        };
        self.left -= 1;
        self.free -= size;
        self.written += size;
    }

    /// Notes that a target failed after this many bytes of a cell.
    fn fail(&mut self, taken: u32)
        requires sound { self.old.failed ≡ false }
        requires room { taken ≤ self.old.free }
        ensures { self.new ≡ failed_after self.old (self.old.written + taken) }
    {
        self.written += taken;
        self.failed = true;
        self.cut = taken;
    }
}

/// How many bytes spell a value of this type, if it is one and a cell of a page whose columns are not described.
fn undescribed_size(message: &Message, value: &Value, of: &TypeTree) -> Option<u64>
    ensures fits { is_some result ≡ fits_undescribed (message_of message.now) value.now of.now }
    ensures size { IfSome result (HasSize (value_of value.now)) }
{
    match message {
        Message::Rows(page) => match &page.meta.specs {
            None => fitting_size(value, Some(of)),
            Some(_) => None,
        },
        _ => None,
    }
}
