//! A capture whose frames are written.

ghost use Rattle.std.specs.Prelude.{◌≡◌, ℕ, true, List, IsSome, Some};
ghost use Rattle.cqlp_text.specs.Endings.{IsStatusOfTask};
ghost use Rattle.cqlp_text.specs.Outputs.{written};
ghost use Rattle.cqlp_tcp_connections.specs.Limits.{is_in_range};
ghost use Rattle.cqlp_capture_streams.specs.Captures.{AreCounted, ReadsMade, read_counts};
ghost use Rattle.cqlp_capture_events.specs.Capturing.{WritesEvents};

use crate::events::Events;
use crate::words::EventsWords;
use cqlp_capture_streams::{
    CaptureInput, StreamsFault, StreamsLimits, conclude_capture, read_capture,
};
use cqlp_note::Target;
use std::alloc::Global;

/// Reads the frames on the connections of a capture with nodes that listen on these ports, within these limits: on the connection with this
/// number, or on all. Writes a line for each event to `out`, and what the capture was, or the fault line, to `err`. Answers the exit status
/// and the two outputs.
///
/// After a fault nothing more is asked of what failed.
pub fn write_events<R: CaptureInput, O: Target, E: Target>(
    alloc: Global,
    limits: StreamsLimits,
    ports: &[u16],
    connection: Option<u64>,
    input: &mut R,
    out: O,
    err: E,
) -> (u8, O, E)
    requires { is_in_range limits.connections ≡ true }
    ensures task { IsStatusOfTask result.0 }
    ensures events { (xs : List ℕ) → R.left input.old ≡ Some xs → IsSome (O.contents out) → IsSome (E.contents err) →
        (m : ReadsMade) × AreCounted m (read_counts R.Source input.old) (read_counts R.Source input.new)
        × WritesEvents limits connection ports.now xs m (R.left input.new) (written O.Target out) (written E.Target err)
        result.0 (written O.Target result.1) (written E.Target result.2) }
{
    let mut events = match Events::new(alloc, connection, out) {
        Ok(events) => events,
        Err(out) => {
            let answer = Err(StreamsFault::NoMemory);
            let words = EventsWords { unread: 0 };
            let (status, err) = conclude_capture(&answer, ports, &words, err);
            return (status, out, err);
        }
    };
    let answer = read_capture(alloc, limits, ports, input, &mut events);
    let (out, unread) = events.into_parts();
    let (status, err) = conclude_capture(&answer, ports, &EventsWords { unread }, err);
    (status, out, err)
}
