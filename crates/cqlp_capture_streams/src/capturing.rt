//! A whole capture.

ghost use Rattle.std.specs.Prelude.{◌≡◌, ℕ, true, List, OnOk, Some};
ghost use Rattle.cqlp_tcp_connections.specs.Limits.{is_in_range};
ghost use Rattle.cqlp_capture_streams.specs.Captures.{AreCounted, ReadsMade, read_counts};
ghost use Rattle.cqlp_capture_streams.specs.Endings.{has_losses};
ghost use Rattle.cqlp_capture_streams.specs.Streams.{ReadsCapture, read_of};

use crate::fault::StreamsFault;
use crate::input::CaptureInput;
use crate::limits::StreamsLimits;
use crate::listener::Listener;
use crate::packets::PacketCounts;
use crate::running::split;
use crate::splitter::Splitter;
use cqlp_capture::{CaptureEnd, CaptureLimits, CaptureReader};
use cqlp_packet_order::{OrderCounts, PacketOrder};
use cqlp_tcp_connections::{ConnectionCounts, Connections};
use std::alloc::{Allocator, Global};

/// How many reads are made at most.
const TURNS: u64 = 4_294_967_296;

/// How many bytes a read asks for.
const ROOM: usize = 65_536;

/// What a capture was that was read to its end, or to where it is refused.
#[derive(Clone, Copy)]
pub struct CaptureRead {
    pub end: CaptureEnd,
    pub packets: PacketCounts,
    pub order: OrderCounts,
    pub connections: ConnectionCounts,
    /// Where no connection began, the ports that most segments had, and how many. 0 with 0, where there are fewer, and where one began.
    pub busiest: [(u16, u64); 3],
}

impl CaptureRead {
    /// Whether some of it was not read, or a file before the last was cut, or packets came later than the window, or bytes that came early were
    /// given up, or connections had to make room for others, or all segments went to other ports.
    pub fn has_losses(&self) -> bool
        ensures { result ≡ has_losses self.now }
    {
        self.packets.skipped.has_some()
            || self.packets.cut_files > 0
            || self.order.late > 0
            || self.connections.given_up > 0
            || self.connections.crowded > 0
            || (self.connections.connections == 0 && self.connections.foreign > 0)
    }
}

/// Has a listener take all events of the connections in a capture, in one file or in several, of nodes that listen on these ports, out of at
/// most 2^32 reads. There are at most as many connections at one time, with as many bytes that came early, as the limits say. Packets are put
/// in the order of their times within the window that the limits say. No read is made before the listener has taken all events of the bytes
/// read so far, but for packets that wait. At the end of the last file, or where one is refused, those leave, and then all connections.
///
/// After a fault nothing more is read, and the listener gets nothing more.
pub fn read_capture<R: CaptureInput, L: Listener>(
    alloc: Global,
    limits: StreamsLimits,
    ports: &[u16],
    input: &mut R,
    listener: &mut L,
) -> Result<CaptureRead, StreamsFault>
    requires { is_in_range limits.connections ≡ true }
    ensures reports { L.reports listener.old → OnOk result (L.reports listener.new) }
    ensures reads { (xs : List ℕ) → R.left input.old ≡ Some xs → L.reports listener.old →
        (m : ReadsMade) × AreCounted m (read_counts R.Source input.old) (read_counts R.Source input.new)
        × ReadsCapture L.after L.faulted limits ports.now xs m result (R.left input.new) (L.view listener.old) (L.view listener.new) }
{
    let Ok(mut reader) = CaptureReader::new(alloc, CaptureLimits::DEFAULT) else {
        return Err(StreamsFault::NoMemory);
    };
    let Ok(connections) = Connections::new(alloc, limits.connections, ports) else {
        return Err(StreamsFault::NoMemory);
    };
    let Ok(order) = PacketOrder::new(alloc, limits.order) else {
        return Err(StreamsFault::NoMemory);
    };
    let Ok(mut buffer) = vec![in alloc; 0; ROOM] else {
        return Err(StreamsFault::NoMemory);
    };
    let mut splitter = Splitter::new(connections, order);
    let answer = split(
        &mut reader,
        &mut splitter,
        input,
        buffer.as_mut_slice(),
        listener,
        TURNS,
    );
    read_of(answer, &splitter)
}

/// What a capture was that was split so.
fn read_of<A: Allocator>(
    answer: Result<CaptureEnd, StreamsFault>,
    splitter: &Splitter<A>,
) -> Result<CaptureRead, StreamsFault>
    ensures { result ≡ read_of answer splitter.now }
{
    match answer {
        Err(fault) => Err(fault),
        Ok(end) => Ok(CaptureRead {
            end,
            packets: splitter.packet_counts(),
            order: splitter.order_counts(),
            connections: splitter.connection_counts(),
            busiest: splitter.busiest_elsewhere(),
        }),
    }
}
