//! A segment, and where it lies.

ghost use Rattle.std.specs.Prelude.{◌≡◌, ◌+◌, ◌<◌, ◌≤◌, ◌^◌, length};
ghost use Rattle.cqlp_tcp_reassembly.specs.Segments.{begins_stream, first_number, next_number, place, captured};

use crate::sequence::{Distance, distance_to};

/// What the header of a segment says, beside its payload. RFC 9293, section 3.1.
#[derive(Clone, Copy, Debug, PartialEq, Eq)]
pub struct Control {
    /// The sequence number of the payload's first byte, or with SYN the number before it.
    pub sequence: u32,
    /// SYN: the sequence number is the one before the first byte of the stream.
    pub syn: bool,
    /// FIN: the stream ends behind the payload, the bytes that were cut off included.
    pub fin: bool,
    /// RST: the connection is reset, and the stream ends.
    pub rst: bool,
    /// How many bytes behind the payload were cut off by the snap length.
    pub missing: u32,
}

/// A segment as it was captured.
#[derive(Clone, Copy, Debug)]
pub struct StreamSegment<'a> {
    /// What its header says.
    pub control: Control,
    /// The bytes that were captured.
    pub payload: &'a [u8],
    /// When its packet was captured, in nanoseconds, if that is known.
    pub time: Option<u64>,
}

/// Where a segment lies, from the position on.
#[derive(Clone, Copy)]
pub(crate) struct Place {
    /// How many of its bytes, captured or not, lie before the position.
    pub(crate) skip: usize,
    /// The position of the first that does not, and the end of the last.
    pub(crate) at: u64,
    pub(crate) to: u64,
}

impl Control {
    /// The sequence number of the payload's first byte.
    pub(crate) fn first_number(self) -> u32
        ensures { result ≡ first_number self }
    {
        if self.syn {
            self.sequence.wrapping_add(1)
        } else {
            self.sequence
        }
    }
}

impl StreamSegment<'_> {
    /// Whether a stream can begin with it: it has SYN, FIN or bytes.
    pub(crate) fn begins_stream(&self) -> bool
        ensures { result ≡ begins_stream (captured self.now) }
    {
        let control = self.control;
        control.syn || control.fin || !self.payload.is_empty() || control.missing > 0
    }

    /// Where it lies in a stream at this position, whose first byte has this sequence number.
    pub(crate) fn place(&self, first: u32, position: u64) -> Place
        requires { position ≤ 2 ^ 62 }
        ensures place { result ≡ place first position (captured self.now) }
        ensures bound { result.to + 1 < 2 ^ 64 }
    {
        let length = self.payload.len() as u64 + u64::from(self.control.missing);
        let next = next_number(first, position);
        match distance_to(self.control.first_number(), next) {
            Distance::Ahead(n) => {
                let at = position + u64::from(n);
                Place {
                    skip: 0,
                    at,
                    to: at + length,
                }
            }
            Distance::Behind(n) => Place {
                skip: n as usize,
                at: position,
                to: position + length.saturating_sub(u64::from(n)),
            },
        }
    }
}

/// The sequence number at a position of a stream whose first byte has this one.
pub(crate) fn next_number(first: u32, position: u64) -> u32
    requires { position ≤ 2 ^ 62 }
    ensures { result ≡ next_number first position }
{
    ((u64::from(first) + position) % 0x1_0000_0000) as u32
}
