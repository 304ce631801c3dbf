//! Laws of segments. No code needs them.

ghost use Rattle.cqlp_tcp_segment.specs.Laws.{HasOneAnswer, IsAllOfThePayload, IsThePacketsBytes};

/// The payload of a segment is the packet's own bytes at its offset, and with the bytes that are missing it is all that IP carries
/// after the header of TCP.
pub fn payload_of_packets()
    ensures there { IsThePacketsBytes }
    ensures all { IsAllOfThePayload }
{}

/// `read_segment` has one answer.
pub fn one_answer()
    ensures { HasOneAnswer }
{}
