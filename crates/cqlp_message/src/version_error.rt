//! What a server answers to a request of another version of the protocol.

ghost use Rattle.std.specs.Prelude.{◌≡◌, IfOk, None};
ghost use Rattle.cqlp_message.specs.Frames.{frame_bytes, unfit_of};
ghost use Rattle.cqlp_message.specs.Owned.{frame_of};
ghost use Rattle.cqlp_message.specs.VersionError.{stream_under, version_error, version_error_bytes};

use crate::frame::Frame;
use crate::message::Message;
use crate::response::ErrorExtra;
use std::alloc::{AllocError, Global};

/// The code of a protocol error. Section 9 of `native_protocol_v4.spec`.
const PROTOCOL_ERROR: i32 = 0x000A;

impl Frame {
    /// The answer to a request whose header `Header::read` refuses for its version: an ERROR of version 4 by which drivers
    /// negotiate. It has the code 000A, and its text names the version of the request and those that are supported.
    ///
    /// Its stream id is the request's: the third byte of a header of version 1 or 2, which has eight bytes, and the third and
    /// the fourth of any other. The frame has a spelling, so it can be encoded.
    ///
    /// # Errors
    ///
    /// Memory that is refused: the text of the message takes some.
    pub fn version_error(alloc: Global, header: &[u8; 9]) -> Result<Frame, AllocError>
        ensures says { IfOk result (λ frame. frame_of frame ≡ version_error header.now) }
        ensures fits { unfit_of (version_error header.now) ≡ None }
        ensures bytes { frame_bytes (version_error header.now) ≡ version_error_bytes header.now }
    {
        let version = header[0] & 0x7F;
        let message = format!(in alloc;
            "Invalid or unsupported protocol version ({version}); the lowest supported version is 4 and the greatest is 4"
        )?;
        let error = Message::Error {
            code: PROTOCOL_ERROR,
            message,
            extra: ErrorExtra::Plain,
        };
        Ok(Frame::plain(stream_under(version, header), error))
    }
}

/// The stream id of a header of this version.
fn stream_under(version: u8, header: &[u8; 9]) -> i16
    ensures { result ≡ stream_under version header.now }
{
    match version {
        1 | 2 => i16::from(header[2].cast_signed()),
        _ => i16::from_be_bytes([header[2], header[3]]),
    }
}
