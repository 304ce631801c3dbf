//! What comes before the cells of a page.

ghost use Rattle.cqlp_message.specs.Owned.{frame_of};
ghost use Rattle.cqlp_compose.specs.Places.{IsHeadOf};

use crate::error::HeadError;
use crate::memory::VecTarget;
use cqlp_encode::{PageError, PageWriter};
use cqlp_message::Frame;
use std::alloc::Global;

/// All of a page that comes before its first cell: the header, whose length counts the cells, which are to have `cells_len` bytes, and all
/// other parts.
///
/// # Errors
///
/// [`HeadError::Unfit`] where [`Frame::page_unfit`] says why the frame is no page that can be written with cells of as many bytes, and
/// [`HeadError::NoMemory`] where memory was refused.
pub fn page_head(alloc: Global, frame: &Frame, cells_len: u32) -> Result<Vec<u8>, HeadError>
    ensures { IsHeadOf (frame_of frame.now) cells_len result }
{
    let mut target = VecTarget::new(Vec::new(alloc));
    let begun = match PageWriter::begin(frame, cells_len, &mut target) {
        Ok(_) => None,
        Err(PageError::Unfit(why)) => Some(HeadError::Unfit(why)),
        Err(_) => Some(HeadError::NoMemory),
    };
    match begun {
        None => Ok(target.into_bytes()),
        Some(why) => Err(why),
    }
}
