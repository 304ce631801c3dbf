//! Frames with nothing before their message, and the flags of those that have something there.

ghost use Rattle.std.specs.Prelude.{◌≡◌, if◌then◌else◌};
ghost use Rattle.cqlp_message.specs.Owned.{frame_of, message_of};
ghost use Rattle.cqlp_message.specs.Plain.{flags_of_parts, plain_frame};

use crate::frame::Frame;
use crate::message::Message;

impl Frame {
    /// The frame of a message with no flags, and with no tracing id, warnings or custom payload before it.
    #[must_use]
    pub fn plain(stream: i16, message: Message) -> Frame
        ensures { frame_of result ≡ plain_frame stream (message_of message) }
    {
        Frame {
            flags: 0,
            stream,
            tracing: None,
            warnings: None,
            payload: None,
            message,
        }
    }

    /// The flags that announce the parts that are there: 02 a tracing id, 04 a custom payload, 08 warnings. Section 2.2 of
    /// `native_protocol_v4.spec`.
    ///
    /// With these flags the parts before a message are those that are announced: if [`Frame::unfit`] then says
    /// [`Unfit::Parts`](crate::Unfit::Parts), something in the message disagrees. A request that asks for tracing has 02
    /// beside them.
    #[must_use]
    pub fn derived_flags(&self) -> u8
        ensures { result ≡ flags_of_parts (frame_of self.now) }
    {
        flag(self.tracing.is_some(), 0x02)
            | flag(self.payload.is_some(), 0x04)
            | flag(self.warnings.is_some(), 0x08)
    }
}

/// This flag, where its part is there.
fn flag(there: bool, bit: u8) -> u8
    ensures { result ≡ (if there then bit else 0) }
{
    if there { bit } else { 0 }
}
