//! Where a page is whose cells come some at a time.

ghost use Rattle.std.specs.Prelude.{◌≡◌, None};
ghost use Rattle.cqlp_message.specs.Frames.{FrameIsInRange};
ghost use Rattle.cqlp_message.specs.Owned.{frame_of};
ghost use Rattle.cqlp_message.specs.Pages.{page_unfit_of};
ghost use Rattle.cqlp_compose.specs.Places as model;

use cqlp_message::{Frame, Unfit};

/// How many cells of a page have come, row after row, and how many bytes of cells are still to come.
///
/// It is a copy of two numbers, and knows nothing of its page: each call is given both. So whoever holds a page holds the frame without its
/// cells, and this.
#[derive(Clone, Copy, Debug, PartialEq, Eq)]
pub struct PageProgress {
    pub(crate) cells: u64,
    pub(crate) free: u32,
}

impl PageProgress {
    /// Before the first cell of a page, whose cells are to have `cells_len` bytes, as [`event_size`](crate::event_size) counts those of
    /// each event.
    ///
    /// # Errors
    ///
    /// What [`Frame::page_unfit`] says, where the frame is no page that can be written with cells of as many bytes.
    pub fn start(frame: &Frame, cells_len: u32) -> Result<PageProgress, Unfit>
        ensures is { result ≡ model.place_unless (page_unfit_of (frame_of frame.now) cells_len) cells_len }
        ensures range { page_unfit_of (frame_of frame.now) cells_len ≡ None → FrameIsInRange (frame_of frame.now) }
    {
        match frame.page_unfit(cells_len) {
            Some(why) => Err(why),
            None => Ok(PageProgress {
                cells: 0,
                free: cells_len,
            }),
        }
    }

    /// How many cells have come.
    #[must_use]
    pub fn cells(&self) -> u64
        ensures { result ≡ self.now.cells }
    {
        self.cells
    }

    /// How many bytes of cells are still to come.
    #[must_use]
    pub fn free(&self) -> u32
        ensures { result ≡ self.now.free }
    {
        self.free
    }

    /// Whether all cells of this page have come, and all bytes that they were to have.
    #[must_use]
    pub fn is_done(&self, frame: &Frame) -> bool
        ensures { result ≡ model.is_done (frame_of frame.now) self.now }
    {
        self.cells == frame.cells_wanted() && self.free == 0
    }
}
