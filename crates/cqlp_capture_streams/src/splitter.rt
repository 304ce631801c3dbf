//! The packets of a capture, on their way to connections.

ghost use Rattle.std.specs.Prelude.{◌≡◌};
ghost use Rattle.cqlp_tcp_segment.specs.Fields.{Gives};
ghost use Rattle.cqlp_tcp_segment.specs.Segment.{seen};
ghost use Rattle.cqlp_packet_order.specs.Packets.{packet_in, packet_of};
ghost use Rattle.cqlp_capture_streams.specs.Packets.{segment_in};

use crate::connection_event::ConnectionEvent;
use crate::fault::StreamsFault;
use crate::listener::Listener;
use crate::packets::PacketCounts;
use crate::reporting::{finish_all, take_segment};
use cqlp_capture::{CaptureEvent, PacketHead};
use cqlp_packet_order::{KeptPacket, OrderCounts, Packet, PacketOrder};
use cqlp_tcp_connections::{ConnectionCounts, Connections};
use cqlp_tcp_segment::{LinkType, NoSegment, Segment, read_segment};
use std::alloc::{AllocError, Allocator, Global};
use std::marker::Model;

/// Takes the events of a capture, puts its packets in order, and has the segments in them taken by their connections.
#[derive(Drop)]
pub(crate) struct Splitter<A: Allocator = Global> {
    connections: Connections<A>,
    order: PacketOrder<A>,
    /// Of the packet that began: the link type's number, when it was captured, and how many bytes it had.
    link: u16,
    time: Option<u64>,
    original: u32,
    counts: PacketCounts,
}

impl<A: Allocator> Model for Splitter<A> {
    ghost use Rattle.cqlp_capture_streams.specs.Packets.{SplitState, split_state};

    ghost Value = { SplitState };

    ghost view = { λ s. split_state s.connections s.order s.link s.time s.original s.counts };
}

impl<A: Allocator> Splitter<A> {
    ghost use Rattle.cqlp_capture_streams.specs.Packets.{busiest_elsewhere, is_snapped, new_split, with_next_file};

    /// At the start of a capture, whose connections have this table, and whose packets this window.
    pub fn new(connections: Connections<A>, order: PacketOrder<A>) -> Self
        ensures { result ≡ new_split connections order }
    {
        Splitter {
            connections,
            order,
            link: 0,
            time: None,
            original: 0,
            counts: PacketCounts::NONE,
        }
    }

    /// What packets were.
    pub fn packet_counts(&self) -> PacketCounts
        ensures { result ≡ self.now.counts }
    {
        self.counts
    }

    /// How many packets were out of order.
    pub fn order_counts(&self) -> OrderCounts
        ensures { result ≡ self.now.order.counts }
    {
        self.order.counts()
    }

    /// What the table of connections has counted.
    pub fn connection_counts(&self) -> ConnectionCounts
        ensures { result ≡ self.now.table.counts }
    {
        self.connections.counts()
    }

    /// Where no connection began, the ports that most segments have. Else none, since they are not written then.
    pub fn busiest_elsewhere(&self) -> [(u16, u64); 3]
        ensures { result ≡ busiest_elsewhere self.now.table }
    {
        if self.connections.counts().connections > 0 {
            [(0, 0), (0, 0), (0, 0)]
        } else {
            self.connections.busiest()
        }
    }

    /// Counts a further file, and the one before it where that was cut.
    pub fn count_file(&mut self, was_cut: bool)
        ensures { self.new ≡ with_next_file was_cut self.old }
    {
        self.counts.count_file(was_cut);
    }

    fn begin_packet(&mut self, head: &PacketHead)
        ensures { self.new ≡ record self.old { link = head.now.link; time = head.now.time; original = head.now.original } }
    {
        self.link = head.link;
        self.time = head.time;
        self.original = head.original;
    }

    /// Whether a segment is of a connection, and not all of its payload was captured.
    fn is_snapped(&self, segment: &Segment<'_>) -> bool
        ensures { result ≡ is_snapped self.now.table (seen segment.now) }
    {
        segment.missing > 0 && self.connections.asks_for(&segment.head)
    }
}

impl<A: Allocator + Clone> Splitter<A> {
    ghost use Rattle.cqlp_capture.specs.Progress.{event_of};
    ghost use Rattle.cqlp_packet_order.specs.Orders.{due_left, first_left};
    ghost use Rattle.cqlp_capture_streams.specs.Listening.{Gets};
    ghost use Rattle.cqlp_capture_streams.specs.Reportings.{FinishesAll, is_done};
    ghost use Rattle.cqlp_capture_streams.specs.Packets.{Finishes, HandsAll, ReportsCome, ReportsEvent, ReportsPacket, packet_begun};

    /// Takes the next event, and reports what it means for connections. A packet whose bytes are here waits for those that were captured before
    /// it, unless it passes as it is.
    #[inline]
    pub fn take<L: Listener>(
        &mut self,
        event: &CaptureEvent<'_>,
        listener: &mut L,
    ) -> Result<(), StreamsFault>
        ensures { Gets L.Listener (λ ss. ReportsEvent (is_done result) self.old (event_of event.now) ss self.new)
            listener.old result listener.new }
    {
        match event {
            CaptureEvent::Section(_) | CaptureEvent::Interface(_) => Ok(()),
            CaptureEvent::Packet(head) => {
                self.begin_packet(head);
                Ok(())
            }
            CaptureEvent::Data(bytes) => {
                let packet = Packet {
                    link: self.link,
                    time: self.time,
                    original: self.original,
                    bytes,
                };
                if self.order.pass(&packet) {
                    return self.take_packet(&packet, listener);
                }
                match self.order.push(&packet) {
                    Ok(()) => self.hand_on_due(listener),
                    Err(AllocError) => Err(StreamsFault::NoMemory),
                }
            }
            CaptureEvent::Skipped(why) => {
                self.counts.count_skipped(*why);
                Ok(())
            }
        }
    }

    /// At the end of the capture: has the packets leave that wait, and then all connections.
    pub fn finish<L: Listener>(&mut self, listener: &mut L) -> Result<(), StreamsFault>
        ensures { Gets L.Listener (λ ss. Finishes (is_done result) self.old ss self.new) listener.old result listener.new }
    {
        self.hand_on_all(listener)?;
        finish_all(&mut self.connections, listener)
    }

    /// Has the packets leave that are to.
    fn hand_on_due<L: Listener>(&mut self, listener: &mut L) -> Result<(), StreamsFault>
        ensures { Gets L.Listener (λ ss. HandsAll due_left (is_done result) self.old ss self.new) listener.old result listener.new }
    {
        while let Some(kept) = self.order.pop_due() {
            self.take_kept(kept, listener)?;
        }
        Ok(())
    }

    /// Has all packets leave.
    fn hand_on_all<L: Listener>(&mut self, listener: &mut L) -> Result<(), StreamsFault>
        ensures { Gets L.Listener (λ ss. HandsAll first_left (is_done result) self.old ss self.new) listener.old result listener.new }
    {
        while let Some(kept) = self.order.pop() {
            self.take_kept(kept, listener)?;
        }
        Ok(())
    }

    /// Takes a packet that has left the window, and gives its memory back.
    fn take_kept<L: Listener>(
        &mut self,
        kept: KeptPacket<A>,
        listener: &mut L,
    ) -> Result<(), StreamsFault>
        ensures reports { Gets L.Listener (λ ss. ReportsPacket (packet_in kept) (is_done result) self.old ss self.new)
            listener.old result listener.new }
        ensures order { self.new.order ≡ self.old.order }
    {
        let answer = self.take_packet(&kept.as_packet(), listener);
        self.order.give_back(kept);
        answer
    }

    /// Takes a packet whose turn has come. If it has a segment, reports that one comes, and then what it delivers.
    fn take_packet<L: Listener>(
        &mut self,
        packet: &Packet<'_>,
        listener: &mut L,
    ) -> Result<(), StreamsFault>
        ensures reports { Gets L.Listener (λ ss. ReportsPacket (packet_of packet.now) (is_done result) self.old ss self.new)
            listener.old result listener.new }
        ensures order { self.new.order ≡ self.old.order }
    {
        match segment_in(packet) {
            Ok(segment) => {
                let is_snapped = self.is_snapped(&segment);
                self.counts.count_segment(is_snapped);
                let time = packet.time;
                listener.hear(&ConnectionEvent::Packet { time })?;
                take_segment(time, &mut self.connections, &segment, listener)
            }
            Err(why) => {
                self.counts.count_without(why);
                Ok(())
            }
        }
    }
}

/// The segment in a packet.
#[inline]
fn segment_in<'a>(packet: &Packet<'a>) -> Result<Segment<'a>, NoSegment>
    ensures { Gives seen result (segment_in (packet_of packet.now)) }
{
    let link = LinkType::from_number(packet.link)?;
    read_segment(link, packet.bytes, packet.original)
}
