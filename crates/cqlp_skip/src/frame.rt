//! The frame under way.

ghost use Rattle.std.specs.Prelude.{◌≡◌, ◌+◌, ◌^◌, ◌-◌, min};
ghost use Rattle.cqlp_grammar.specs.Events.{event_of};
ghost use Rattle.cqlp_skip.specs.Stretches.{end_within, frame_after, stream_offset};

use cqlp_grammar::Event;
use cqlp_note::Header;

/// A frame whose header was handed out, and whose end was not.
#[derive(Clone, Copy)]
pub struct OpenFrame {
    /// The offset of its header, from where the present stretch begins.
    pub at: u64,
    pub header: Header,
}

impl OpenFrame {
    /// The offset of its end in the whole stream, of which this many bytes were used, where the stretch begins at `base`.
    /// None where the end is the greatest number or greater, or lies before what was used.
    pub(crate) fn end_within(&self, base: u64, used: u64) -> Option<u64>
        ensures { result ≡ end_within self.now base used }
    {
        let length = self.header.length;
        let end = u128::from(base) + u128::from(self.at) + u128::from(length) + 9;
        if end < u128::from(u64::MAX) && u128::from(used) <= end {
            Some(end as u64)
        } else {
            None
        }
    }
}

/// The frame under way after an event at an offset.
#[inline]
pub(crate) fn frame_after(frame: Option<OpenFrame>, at: u64, event: &Event<'_>) -> Option<OpenFrame>
    ensures { result ≡ frame_after frame at (event_of event.now) }
{
    match event {
        Event::Frame(header) => Some(OpenFrame {
            at,
            header: *header,
        }),
        Event::End { .. } => None,
        _ => frame,
    }
}

/// The offset in the whole stream of what lies at an offset from where a stretch begins.
#[inline]
pub(crate) fn stream_offset(base: u64, at: u64) -> u64
    ensures { result ≡ stream_offset base at }
{
    base.saturating_add(at)
}
