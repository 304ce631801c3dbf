//! How far a window reaches, and what it counts.

ghost use Rattle.std.specs.Prelude.{◌≡◌};

/// How far the window of a `PacketOrder` reaches. The first packet in it leaves once one of these is passed.
#[derive(Clone, Copy)]
pub struct OrderLimits {
    /// How many packets wait at most. With 0 the window is off: each packet passes as it comes.
    pub packets: u32,
    /// How far apart the first packet that waits and the last are captured at most, in nanoseconds.
    pub nanoseconds: u64,
    /// How many bytes of packets wait at most.
    pub bytes: usize,
}

/// What was out of order. A number stays at 2^64 - 1 once it is there.
#[derive(Clone, Copy)]
pub struct OrderCounts {
    /// Packets that were put before others which came earlier.
    pub reordered: u64,
    /// Packets with an earlier time than one that had left. Each leaves next.
    pub late: u64,
    /// The same where the window is off, so that packets are taken in the order of the file.
    pub out_of_order: u64,
}

impl OrderLimits {
    /// 1,000 packets, one second and 1.5 MiB.
    pub const DEFAULT: OrderLimits = OrderLimits {
        packets: 1_000,
        nanoseconds: 1_000_000_000,
        bytes: 1_572_864,
    };

    /// Each packet passes as it comes.
    pub const OFF: OrderLimits = OrderLimits {
        packets: 0,
        nanoseconds: 0,
        bytes: 0,
    };
}

impl OrderCounts {
    ghost use Rattle.cqlp_packet_order.specs.Orders.{counted_by, with_late};

    pub(crate) const NONE: OrderCounts = OrderCounts {
        reordered: 0,
        late: 0,
        out_of_order: 0,
    };

    /// Counts a packet that comes: late or not, behind all that wait or not, and to a window that is off or not.
    #[inline]
    pub(crate) fn count(&mut self, is_late: bool, is_last: bool, is_off: bool)
        ensures { self.new ≡ counted_by is_late is_last is_off self.old }
    {
        if is_late {
            self.count_late(is_off);
        } else if !is_last {
            self.reordered = self.reordered.saturating_add(1);
        }
    }

    fn count_late(&mut self, is_off: bool)
        ensures { self.new ≡ with_late is_off self.old }
    {
        if is_off {
            self.out_of_order = self.out_of_order.saturating_add(1);
        } else {
            self.late = self.late.saturating_add(1);
        }
    }
}
