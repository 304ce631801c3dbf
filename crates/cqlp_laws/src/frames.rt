//! The laws of frames: what is spelled is read, what is read is spelled, and what is refused is no frame. They hold
//! while types are given too, of frames in which no given types are in use.
//!
//! A law of what is written takes the frame that it speaks of, and its body reads it: so it is known that what the frame holds is
//! in the ranges of its types, and the law holds of every [`Frame`].

ghost use Rattle.std.specs.Prelude.{map};
ghost use Rattle.cqlp_value.specs.Owned.{value_of};
ghost use Rattle.cqlp_message.specs.Owned.{frame_of};
ghost use Rattle.cqlp_laws.specs.Frames.{SpelledIsRead, SpelledIsReadWithGifts};
ghost use Rattle.cqlp_laws.specs.ReadFrames.{ReadIsSpelled, ReadIsSpelledWithGifts};
ghost use Rattle.cqlp_laws.specs.Untyped.{GivenTypesAreForPagesWithoutMetadata};
ghost use Rattle.cqlp_laws.specs.Written.{PageIsRead, PageIsReadWithGifts, WrittenIsRead, WrittenIsReadWithGifts};
ghost use Rattle.cqlp_laws.specs.Refused.{DecoderRefusesNoFrame, DecoderRefusesNoFrameWithGifts};
ghost use Rattle.cqlp_laws.specs.Refused.{RefusedIsNoFrame, RefusedIsNoFrameWithGifts};

use cqlp_message::Frame;
use cqlp_value::{Value, value_size};

/// What is spelled is read: frames within the limits, one after the other, say their own events, and nothing is
/// refused, but that no frame begins past offset 2^63.
pub fn spelled_is_read()
    ensures stream { SpelledIsRead }
    ensures with_gifts { SpelledIsReadWithGifts }
{}

/// What is written is read back: the bytes that are written of a frame within the limits are read as its own events, and
/// nothing is left.
pub fn written_is_read(frame: &Frame)
    ensures stream { WrittenIsRead (frame_of frame.now) }
    ensures with_gifts { WrittenIsReadWithGifts (frame_of frame.now) }
{
    let _ = frame.unfit();
}

/// What is written of a page cell by cell is read back as the page with those cells, and nothing is left.
pub fn page_is_read(frame: &Frame, cells_len: u32, cells: &[Value])
    ensures stream { PageIsRead (frame_of frame.now) cells_len (map value_of cells.now) }
    ensures with_gifts { PageIsReadWithGifts (frame_of frame.now) cells_len (map value_of cells.now) }
{
    let _ = frame.page_unfit(cells_len);
    for cell in cells {
        let _ = value_size(cell);
    }
}

/// What is read is spelled: where cells are read as their types, the bytes from a header to the end of its frame spell a
/// frame value, with as many bytes more as the end has, and the events there are its own.
pub fn read_is_spelled()
    ensures stream { ReadIsSpelled }
    ensures with_gifts { ReadIsSpelledWithGifts }
{}

/// What is refused, but for a limit, is no frame: where cells are read as their types, no bytes that follow make frames
/// of it, nor of what a decoder has used and the input that it refuses.
pub fn refused_is_no_frame()
    ensures stream { RefusedIsNoFrame }
    ensures stream_with_gifts { RefusedIsNoFrameWithGifts }
    ensures decoder { DecoderRefusesNoFrame }
    ensures decoder_with_gifts { DecoderRefusesNoFrameWithGifts }
{}

/// Given types are for pages without metadata alone: whatever is given, none are in use in frames that do not say the
/// flag No_metadata (0x04, section 4.2.5.2 of `native_protocol_v4.spec`).
pub fn given_types_are_for_pages_without_metadata()
    ensures { GivenTypesAreForPagesWithoutMetadata }
{}
