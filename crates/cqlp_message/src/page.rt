//! Pages whose cells are written one by one, after all else of their frame.

ghost use Rattle.std.specs.Prelude.{◌≡◌, ◌-◌, ◌^◌, IfOk, IfSome, None, is_some, map, min};
ghost use Rattle.cqlp_value.specs.Owned.{value_of};
ghost use Rattle.cqlp_value.specs.Values.{values_size};
ghost use Rattle.cqlp_message.specs.Bodies.{cell_types, column_types};
ghost use Rattle.cqlp_message.specs.Owned.{frame_of, message_of, metadata_of, spec_of};
ghost use Rattle.cqlp_message.specs.Pages as pages;

use crate::frame::Frame;
use crate::message::Message;
use crate::response::{Metadata, Spec};
use crate::unfit::Unfit;
use cqlp_note::Header;
use cqlp_value::{Value, fitting_size};

impl Frame {
    ghost use Rattle.cqlp_message.specs.Frames.{FrameIsInRange, frame_size, if_none};
    ghost use Rattle.cqlp_message.specs.Pages.{page_unfit_of, types_of_page};

    /// How many bytes it has, with its header and cells of this many bytes after its parts; or why it is no page that can be
    /// written with them.
    ///
    /// # Errors
    ///
    /// The first reason, as [`Frame::page_unfit`] gives it.
    pub fn page_measure(&self, cells_len: u32) -> Result<u32, Unfit>
        ensures is { let f = frame_of self.now in
            result ≡ if_none (page_unfit_of f cells_len) (frame_size f cells_len) }
        ensures range { IfOk result (λ _. FrameIsInRange (frame_of self.now)) }
    {
        let tally = self.frame_tally()?;
        if !self.message.is_bare() {
            return Err(Unfit::RowShape);
        }
        let body = tally.size.saturating_add(u64::from(cells_len));
        if body > u64::from(Header::LONGEST_BODY) {
            return Err(Unfit::BodyTooLong);
        }
        Ok(body as u32 + 9)
    }

    /// Why it is no page that can be written with cells of this many bytes after its parts, or None where it is one.
    ///
    /// In this order: [`Unfit::Direction`], [`Unfit::Parts`], [`Unfit::TooManyItems`] and [`Unfit::TextTooLong`] as [`unfit`](Self::unfit)
    /// has them; [`Unfit::RowShape`] where it is no page or holds cells; [`Unfit::BodyTooLong`] where its body and the cells together
    /// pass 268,435,456 bytes. Whether some cells have just this many bytes is for the caller to know.
    #[must_use]
    pub fn page_unfit(&self, cells_len: u32) -> Option<Unfit>
        ensures is { result ≡ page_unfit_of (frame_of self.now) cells_len }
        ensures range { page_unfit_of (frame_of self.now) cells_len ≡ None → FrameIsInRange (frame_of self.now) }
    {
        match self.page_measure(cells_len) {
            Ok(_) => None,
            Err(why) => Some(why),
        }
    }

    /// How many bytes it has, with its header and cells of this many bytes after its parts.
    pub fn page_len(&self, cells_len: u32) -> u32
        requires { page_unfit_of (frame_of self.now) cells_len ≡ None }
        ensures { result ≡ frame_size (frame_of self.now) cells_len }
    {
        match self.page_measure(cells_len) {
            Ok(len) => len,
            Err(_) => unreachable!(),
        }
    }

    /// The columns of its page; none where they are not described, and where it is no page.
    #[must_use]
    pub fn specs(&self) -> &[Spec]
        ensures { result.now ≡ pages.columns_described self.now.message }
    {
        match &self.message {
            Message::Rows(page) => match &page.meta.specs {
                Some(specs) => specs,
                None => &[],
            },
            _ => &[],
        }
    }

    /// How many columns the cells of its page are of; 0 where it is no page.
    #[must_use]
    pub fn columns(&self) -> u32
        ensures { result ≡ pages.page_columns (message_of self.now.message) }
    {
        match &self.message {
            Message::Rows(page) => page.meta.columns,
            _ => 0,
        }
    }

    /// How many cells its page is to have: rows times columns; 0 where it is no page.
    #[must_use]
    pub fn cells_wanted(&self) -> u64
        ensures { result ≡ pages.cells_wanted (message_of self.now.message) }
    {
        match &self.message {
            Message::Rows(page) => u64::from(page.rows) * u64::from(page.meta.columns),
            _ => 0,
        }
    }

    /// Whether a value is one of the type of this column of its page, the first of which is 0. Where no columns are described, it is
    /// Null, Empty or a Raw leaf. False past the last column, and where it is no page.
    #[must_use]
    pub fn fits_column(&self, column: usize, value: &Value) -> bool
        ensures { result ≡ pages.fits_column (types_of_page (frame_of self.now).message) column (value_of value.now) }
    {
        self.column_size(column, value).is_some()
    }

    /// How many bytes spell a value of the type of this column of its page, as [`fitting_size`] says it; None where
    /// [`fits_column`](Self::fits_column) is false.
    #[must_use]
    #[inline]
    pub fn column_size(&self, column: usize, value: &Value) -> Option<u64>
        ensures fits { is_some result ≡ pages.fits_column (types_of_page (frame_of self.now).message) column (value_of value.now) }
        ensures size { IfSome result (λ size. size ≡ min (values_size (value_of value.now)) (2 ^ 64 - 1)) }
    {
        match &self.message {
            Message::Rows(page) => page.meta.column_size(column, value),
            _ => None,
        }
    }
}

impl Message {
    /// Whether it is a page that holds no cells.
    fn is_bare(&self) -> bool
        ensures { result ≡ pages.is_bare (message_of self.now) }
    {
        match self {
            Message::Rows(page) => page.cells.is_empty(),
            _ => false,
        }
    }
}

impl Metadata {
    /// How many bytes spell a value of the type of this column, or None where it is none.
    #[inline]
    fn column_size(&self, column: usize, value: &Value) -> Option<u64>
        ensures fits { is_some result ≡ pages.fits_column (cell_types (metadata_of self.now)) column (value_of value.now) }
        ensures size { IfSome result (λ size. size ≡ min (values_size (value_of value.now)) (2 ^ 64 - 1)) }
    {
        match &self.specs {
            Some(specs) => spec_size(specs, column, value),
            None => {
                if column < self.columns as usize {
                    fitting_size(value, None)
                } else {
                    None
                }
            }
        }
    }
}

/// The same of the type that is described of this column.
#[inline]
fn spec_size(specs: &[Spec], column: usize, value: &Value) -> Option<u64>
    ensures fits { is_some result ≡ pages.fits_column (column_types (map spec_of specs.now)) column (value_of value.now) }
    ensures size { IfSome result (λ size. size ≡ min (values_size (value_of value.now)) (2 ^ 64 - 1)) }
{
    match specs.get(column) {
        Some(spec) => fitting_size(value, Some(&spec.tree)),
        None => None,
    }
}
