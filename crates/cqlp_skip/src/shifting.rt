//! A sink that gets offsets in the whole stream.

ghost use Rattle.std.specs.Prelude.{◌≡◌};

use crate::frame::{OpenFrame, frame_after, stream_offset};
use cqlp_grammar::{Event, Sink, SinkFault};

/// Hands events on to a sink, at their offsets in the whole stream, and notes the frame under way.
pub(crate) struct Shifting<S: Sink> {
    pub sink: S,
    /// Where the stretch begins.
    pub base: u64,
    pub frame: Option<OpenFrame>,
}

impl<S: Sink> Sink for Shifting<S> {
    ghost use Rattle.cqlp_skip.specs.Shifted.{Shifted, shifted, with_event, FailsAtEvent, stream_offset};

    ghost View = { Shifted S.View };

    ghost view = { λ s. shifted (S.view s.sink) s.base s.frame };

    ghost reports = { λ s. S.reports s.sink };

    ghost after = { with_event S.after };

    ghost faulted = { FailsAtEvent S.faulted };

    ghost also = { λ old at e new. S.also old.sink (stream_offset old.base at) e new.sink × (new.base ≡ old.base) };

    #[inline]
    fn take(&mut self, at: u64, event: &Event<'_>) -> Result<(), SinkFault> {
        self.frame = frame_after(self.frame, at, event);
        self.sink.take(stream_offset(self.base, at), event)
    }
}
