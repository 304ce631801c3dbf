//! A frame, written.

ghost use Rattle.std.specs.Prelude.{◌≡◌, ◌≤◌, ◌-◌, length};
ghost use Rattle.cqlp_note.specs.Heading.{IsLawful};
ghost use Rattle.cqlp_note.specs.Outputs.{written};
ghost use Rattle.cqlp_message.specs.Frames.{frame_parts, frame_size, header_of};
ghost use Rattle.cqlp_message.specs.Owned.{frame_of};
ghost use Rattle.cqlp_message.specs.Parts.{parts_size};
ghost use Rattle.cqlp_encode.specs.Encoding.{Continued, Encodes, EncodesFrom, header_and_parts};
ghost use Rattle.cqlp_encode.specs.Laws.{taken};
ghost use Rattle.cqlp_encode.specs.Progress.{FewCalls};

use crate::staged::Staged;
use cqlp_message::{Frame, Unfit};
use cqlp_note::Target;
use thiserror::Error;

/// Why a frame was not written, or not whole.
#[derive(Clone, Copy, Debug, PartialEq, Eq, Error)]
pub enum EncodeError {
    /// No bytes spell the frame, and nothing was written.
    #[error("{0}")]
    Unfit(Unfit),
    /// The target failed, or took nothing, after the frame's first bytes, this many.
    #[error("the target failed after {written} bytes of the frame")]
    Write {
        /// How many bytes of the frame are written, from its header on: what [`encode_from`] is to be given.
        written: u32,
    },
}

/// Writes a frame, and answers how many bytes it has: its header, what its flags announce, and its message. Section 2 of
/// `native_protocol_v4.spec`. Each null has the length -1, and each true is 01.
///
/// It takes no memory. Small fields go to the target together, and a content longer than 512 bytes by a call of its own: but for two, the calls that take
/// all of their bytes have 256 bytes each on average.
///
/// # Errors
///
/// [`EncodeError::Unfit`] where [`Frame::unfit`] says why no bytes spell the frame, before anything is written, and
/// [`EncodeError::Write`] at the first call of the target that fails or takes nothing.
pub fn encode<W: Target>(frame: &Frame, target: &mut W) -> Result<u32, EncodeError>
    ensures encodes { Encodes (frame_of frame.now) (written W.Target target.old) result (written W.Target target.new) }
    ensures calls { FewCalls (taken result) (W.writes target.old) (W.writes target.new) }
{
    encode_from(frame, 0, target)
}

/// Goes on with a frame whose first bytes, `before` many, targets took in earlier calls: writes the others, and answers how many bytes the
/// frame has. `before` is what [`EncodeError::Write`] of the call before says, and 0 in the first. So over all calls together each byte
/// of the frame is written once, in order, up to where the last of them stopped: [`laws::attempts_are_one`](crate::laws::attempts_are_one).
/// Where `before` is as much as the frame has, or more, nothing is written.
///
/// The bytes before are made again and left out; it takes no memory.
///
/// # Errors
///
/// Those of [`encode`]; [`EncodeError::Write`] counts the bytes before, too.
pub fn encode_from<W: Target>(
    frame: &Frame,
    before: u32,
    target: &mut W,
) -> Result<u32, EncodeError>
    ensures encodes { EncodesFrom (frame_of frame.now) before (written W.Target target.old) result (written W.Target target.new) }
    ensures calls { FewCalls (taken result - before) (W.writes target.old) (W.writes target.new) }
{
    let len = match frame.measure() {
        Ok(len) => len,
        Err(why) => return Err(EncodeError::Unfit(why)),
    };
    let taken = write_parts(frame, len - 9, before, target);
    if taken < len {
        Err(EncodeError::Write { written: taken })
    } else {
        Ok(len)
    }
}

/// Writes a frame's header, where its body has this many bytes, and its parts, but for their first bytes, `before` many, and
/// answers how many of their bytes the target took or had from before.
pub fn write_parts<W: Target>(frame: &Frame, body_len: u32, before: u32, target: &mut W) -> u32
    requires lawful { IsLawful (header_of (frame_of frame.now) body_len) }
    requires size { parts_size (frame_parts (frame_of frame.now)) ≤ body_len }
    ensures continued { Continued before (written W.Target target.old) (header_and_parts (frame_of frame.now) body_len) result
        (written W.Target target.new) }
    ensures size { length (header_and_parts (frame_of frame.now) body_len) ≡ frame_size (frame_of frame.now) 0 }
    ensures calls { FewCalls (result - before) (W.writes target.old) (W.writes target.new) }
{
    let header = frame.header(body_len);
    let mut out = Staged::new(target, u64::from(before));
    out.put(&header.write());
    frame.walk(&mut out);
    out.flush();
    let taken = out.taken();
    let _ = out.into_inner();
    taken as u32
}
