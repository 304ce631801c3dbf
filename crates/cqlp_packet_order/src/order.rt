//! A window in which packets wait for those that were captured before them.

ghost use Rattle.std.specs.Prelude.{◌≡◌, ◌-◌, length, max};
ghost use Rattle.cqlp_packet_order.specs.Orders.{is_late, is_later, is_past, must_leave_by, passed_with};

use crate::limits::{OrderCounts, OrderLimits};
use crate::packet::{KeptPacket, Packet};
use std::alloc::{AllocError, Allocator, Global};
use std::collections::VecDeque;
use std::marker::Model;

/// Of how many packets that have left the memory is kept.
const SPARES: usize = 64;

/// Packets in the order of their times, within a window.
///
/// Of each packet `pass` says whether it may pass as it is; where it may not, `push` keeps a copy. Then `pop_due` gives the packets that
/// are to leave, one after the other, until it says `None`. At the end of the file `pop` gives all that wait. Packets of one time stay
/// in the order in which they came. A packet without a time waits for none and lets none wait: all that came before it leave, and then it.
///
/// A late packet, of an earlier time than one that has left, leaves next. Memory is taken for packets that wait. `give_back` keeps that of a packet
/// which has left for those that come: that of 64 packets at most, and of each at most its share of the bytes that may wait.
#[derive(Drop)]
pub struct PacketOrder<A: Allocator = Global> {
    alloc: A,
    limits: OrderLimits,
    waiting: VecDeque<KeptPacket<A>, A>,
    /// Memory of packets that have left.
    spare: Vec<Vec<u8, A>, A>,
    /// How many bytes the packets that wait have.
    held: usize,
    /// The latest time of the packets that have left; 0 where there is none.
    passed: u64,
    counts: OrderCounts,
}

impl<A: Allocator> Model for PacketOrder<A> {
    ghost use Rattle.std.specs.Prelude.{◌≡◌, map};
    ghost use Rattle.cqlp_packet_order.specs.Packets.{packet_in};
    ghost use Rattle.cqlp_packet_order.specs.Orders.{Order, bytes_in, order};

    ghost Value = { Order };

    ghost view = { λ o. order o.limits (map packet_in o.waiting.items) o.passed o.counts };

    ghost invariant = { λ o. o.held ≡ bytes_in (map packet_in o.waiting.items) };
}

impl<A: Allocator> PacketOrder<A> {
    ghost use Rattle.std.specs.Prelude.{[], ◌∷◌, IfOk, Bool, true, false, MatchResult, if◌then◌else◌};
    ghost use Rattle.std.specs.Option.{option_map};
    ghost use Rattle.cqlp_packet_order.specs.Packets.{packet_in, packet_of};
    ghost use Rattle.cqlp_packet_order.specs.Orders.{arrived, counted, due_left, first_left, is_due, must_leave, new_order};
    ghost use Rattle.cqlp_packet_order.specs.Orders.{passes, place, releasing, with_passed};

    /// With no packets. It takes no memory but for the allocator's copy.
    pub fn new(alloc: A, limits: OrderLimits) -> Result<Self, AllocError>
    where
        A: Clone,
        ensures { IfOk result (λ o. o ≡ new_order limits) }
    {
        let waiting = VecDeque::new(alloc.clone()?);
        let spare = Vec::new(alloc.clone()?);
        Ok(PacketOrder {
            alloc,
            limits,
            waiting,
            spare,
            held: 0,
            passed: 0,
            counts: OrderCounts::NONE,
        })
    }

    /// What was out of order.
    pub fn counts(&self) -> OrderCounts
        ensures { result ≡ self.now.counts }
    {
        self.counts
    }

    /// Whether this packet passes at once, so that it need not be kept: none waits, and the window is off, or the packet is late, has no
    /// time, or has more bytes than may wait. If so it has passed.
    pub fn pass(&mut self, packet: &Packet<'_>) -> bool
        ensures value { result ≡ passes (packet_of packet.now) self.old }
        ensures after { self.new ≡ (if result then with_passed (packet_of packet.now) self.old else self.old) }
    {
        if self.waiting.len() != 0 || !self.is_due_alone(packet) {
            return false;
        }
        self.counts.count(
            is_late(self.passed, packet.time),
            true,
            self.limits.packets == 0,
        );
        self.passed = passed_with(packet.time, self.passed);
        true
    }

    /// Whether a packet leaves as soon as it comes, where none waits.
    fn is_due_alone(&self, packet: &Packet<'_>) -> bool
        ensures { result ≡ must_leave self.now.limits self.now.passed (packet_of packet.now ∷ []) }
    {
        must_leave(
            &self.limits,
            self.passed,
            Waiting {
                count: 1,
                bytes: packet.bytes.len(),
                first: packet.time,
                last: packet.time,
            },
        )
    }

    /// Keeps a copy of a packet, behind all but those at the end that are later. Where memory is refused nothing has changed.
    pub fn push(&mut self, packet: &Packet<'_>) -> Result<(), AllocError>
    where
        A: Clone,
        ensures { MatchResult result (λ _. self.new ≡ arrived (packet_of packet.now) self.old) (λ _. self.new ≡ self.old) }
    {
        let Some(held) = self.held.checked_add(packet.bytes.len()) else {
            return Err(AllocError);
        };
        let at = self.place(packet.time);
        let kept = KeptPacket::copy_of(packet, take_room(&mut self.spare, &self.alloc)?)?;
        let is_last = at == self.waiting.len();
        let Ok(()) = self.waiting.insert(at, kept) else {
            return Err(AllocError);
        };
        self.held = held;
        self.counts.count(
            is_late(self.passed, packet.time),
            is_last,
            self.limits.packets == 0,
        );
        Ok(())
    }

    /// Keeps the memory of a packet that has left for those that come, if it is small, and few have some.
    pub fn give_back(&mut self, packet: KeptPacket<A>)
        ensures { self.new ≡ self.old }
    {
        let most = self.limits.packets as usize;
        let has_room = most > 0 && self.spare.len() < SPARES;
        if has_room && packet.bytes.capacity() <= self.limits.bytes / most {
            let _ = self.spare.push(packet.bytes);
        }
    }

    /// How many of the packets that wait stay before one of this time.
    fn place(&self, time: Option<u64>) -> usize
        ensures { result ≡ place time self.now.waiting }
    {
        let mut at = self.waiting.len();
        while at > 0 && is_later(self.waiting[at - 1].time, time) {
            at -= 1;
        }
        at
    }

    /// The next packet that has to leave, since a limit is passed, or it is late, or one that waits has no time. `None` where none has to.
    pub fn pop_due(&mut self) -> Option<KeptPacket<A>>
        ensures { releasing (option_map packet_in result) self.new ≡ due_left self.old }
    {
        if self.is_due() { self.pop() } else { None }
    }

    fn is_due(&self) -> bool
        ensures { result ≡ is_due self.now }
    {
        let count = self.waiting.len();
        if count == 0 {
            return false;
        }
        must_leave(
            &self.limits,
            self.passed,
            Waiting {
                count,
                bytes: self.held,
                first: self.waiting[0].time,
                last: self.waiting[count - 1].time,
            },
        )
    }

    /// The first packet that waits, which leaves.
    pub fn pop(&mut self) -> Option<KeptPacket<A>>
        ensures { releasing (option_map packet_in result) self.new ≡ first_left self.old }
    {
        let Some(packet) = self.waiting.pop_front() else {
            return None;
        };
        self.held -= packet.bytes.len();
        self.passed = passed_with(packet.time, self.passed);
        Some(packet)
    }
}

/// Memory for a packet, that of one that has left if there is some.
fn take_room<A: Allocator + Clone>(
    spare: &mut Vec<Vec<u8, A>, A>,
    alloc: &A,
) -> Result<Vec<u8, A>, AllocError> {
    match spare.pop() {
        Some(room) => Ok(room),
        None => Ok(Vec::new(alloc.clone()?)),
    }
}

/// Packets that wait: how many, with how many bytes, and the times of the first and the last.
#[derive(Clone, Copy)]
struct Waiting {
    count: usize,
    bytes: usize,
    first: Option<u64>,
    last: Option<u64>,
}

/// Whether the first of them has to leave.
#[inline]
fn must_leave(limits: &OrderLimits, passed: u64, waiting: Waiting) -> bool
    ensures { result ≡ must_leave_by limits.now passed waiting.count waiting.bytes waiting.first waiting.last }
{
    waiting.count > limits.packets as usize
        || waiting.bytes > limits.bytes
        || is_past(limits.nanoseconds, passed, waiting.first, waiting.last)
}

/// Whether the first time is later. One that is not known is not.
#[inline]
fn is_later(one: Option<u64>, other: Option<u64>) -> bool
    ensures { result ≡ is_later one other }
{
    match (one, other) {
        (Some(one), Some(other)) => one > other,
        (None, _) | (_, None) => false,
    }
}

#[inline]
fn is_late(passed: u64, time: Option<u64>) -> bool
    ensures { result ≡ is_late passed time }
{
    is_later(Some(passed), time)
}

/// Whether packets of these times were captured too far apart, or the first is late, or one has no time.
#[inline]
fn is_past(nanoseconds: u64, passed: u64, first: Option<u64>, last: Option<u64>) -> bool
    ensures { result ≡ is_past nanoseconds passed first last }
{
    match (first, last) {
        (Some(first), Some(last)) => first < passed || last.saturating_sub(first) > nanoseconds,
        (None, _) | (_, None) => true,
    }
}

#[inline]
fn passed_with(time: Option<u64>, passed: u64) -> u64
    ensures { result ≡ passed_with time passed }
{
    match time {
        Some(time) => passed.max(time),
        None => passed,
    }
}
