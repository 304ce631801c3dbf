//! For each port, how many segments had it.

ghost use Rattle.std.specs.Prelude.{◌≡◌, IfOk, length};

use cqlp_tcp_segment::SegmentHead;
use std::alloc::{AllocError, Allocator};
use std::marker::Model;

/// How many ports there are.
const PORTS: usize = 65_536;

/// For each port, how many segments had it.
#[derive(Drop)]
pub(crate) struct PortCounts<A: Allocator> {
    counts: Vec<u64, A>,
}

impl<A: Allocator> Model for PortCounts<A> {
    ghost use Rattle.std.specs.Prelude.{◌≡◌, ℕ, List, length};

    ghost Value = { List ℕ };

    ghost view = { λ c. c.counts.items };

    ghost invariant = { λ c. length c.counts.items ≡ 65536 };
}

impl<A: Allocator> PortCounts<A> {
    ghost use Rattle.cqlp_tcp_connections.specs.Ports.{busiest, no_ports, one_had, passed_by};

    /// Where no segment had any. It takes 512 KiB.
    #[tactic(auto, unfolding(crate::specs::Ports::no_ports))]
    pub(crate) fn new(alloc: A) -> Result<Self, AllocError>
        ensures { IfOk result (λ c. c ≡ no_ports) }
    {
        let mut counts = Vec::new(alloc);
        counts.resize(PORTS, 0)?;
        Ok(PortCounts { counts })
    }

    /// Counts a segment.
    pub(crate) fn count(&mut self, head: &SegmentHead)
        ensures { self.new ≡ passed_by head.now self.old }
    {
        self.count_port(head.source.port);
        if head.source.port != head.destination.port {
            self.count_port(head.destination.port);
        }
    }

    fn count_port(&mut self, port: u16)
        ensures { self.new ≡ one_had port self.old }
    {
        let at = port as usize;
        self.counts[at] = self.counts[at].saturating_add(1);
    }

    /// The three ports that most segments had, and how many; of ports with as many the lower one first. 0 with 0, where there are
    /// fewer.
    pub(crate) fn busiest(&self) -> [(u16, u64); 3]
        ensures { result ≡ busiest self.now }
    {
        let mut best = Three {
            first: (0, 0),
            second: (0, 0),
            third: (0, 0),
        };
        for port in 0..self.counts.len() {
            let count = self.counts[port];
            if count > 0 {
                best.place((port as u16, count));
            }
        }
        [best.first, best.second, best.third]
    }
}

/// Ports, and how many segments had them: the most first.
#[derive(Clone, Copy)]
struct Three {
    first: (u16, u64),
    second: (u16, u64),
    third: (u16, u64),
}

impl Three {
    ghost use Rattle.cqlp_tcp_connections.specs.Ports.{placed};

    /// A port goes before those that fewer segments had, of which the last falls out. Most ports had none, so this is out of line.
    #[cold]
    #[inline(never)]
    fn place(&mut self, port: (u16, u64))
        ensures { self.new ≡ placed port self.old }
    {
        if self.first.1 < port.1 {
            self.third = self.second;
            self.second = self.first;
            self.first = port;
        } else if self.second.1 < port.1 {
            self.third = self.second;
            self.second = port;
        } else if self.third.1 < port.1 {
            self.third = port;
        }
    }
}
