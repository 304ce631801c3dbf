//! One direction of a connection, and what was reported of it.

ghost use Rattle.std.specs.Prelude.{◌≡◌, ◌≤◌, ℕ, IfOk, OnErr, length, true};
ghost use Rattle.cqlp_tcp_reassembly.specs.Segments.{captured};
ghost use Rattle.cqlp_tcp_reassembly.specs.Streams.{IsWithin, held};
ghost use Rattle.cqlp_tcp_connections.specs.Totals.{one_more};

use crate::tally::Tally;
use crate::totals::DirectionTotals;
use cqlp_tcp_reassembly::{Stream, StreamSegment, StreamStep};
use std::alloc::{AllocError, Allocator};
use std::marker::Model;

/// What a stream reports, and after how many bytes and bytes of gaps.
#[derive(Clone, Copy)]
pub(crate) struct SideStep {
    pub(crate) at: u64,
    pub(crate) step: StreamStep,
}

/// One direction of a connection.
#[derive(Drop)]
pub(crate) struct Side<A: Allocator> {
    stream: Stream<A>,
    totals: Tally,
}

impl<A: Allocator> Model for Side<A> {
    ghost use Rattle.cqlp_tcp_connections.specs.Sides.{SideState, side};

    ghost Value = { SideState };

    ghost view = { λ s. side s.stream s.totals };
}

impl<A: Allocator> Side<A> {
    ghost use Rattle.cqlp_tcp_connections.specs.Sides.{IsIdle, acknowledged, closed, new_side, passed, refused, side, side_delivered, size_of, taken};

    /// A direction of which nothing was reported. It takes no memory.
    pub(crate) fn new(alloc: A) -> Self
        ensures { result ≡ new_side }
    {
        Side {
            stream: Stream::new(alloc),
            totals: Tally::new(),
        }
    }

    /// What was reported.
    pub(crate) fn totals(&self) -> DirectionTotals
        ensures { result ≡ self.now.totals }
    {
        self.totals.totals()
    }

    /// How much it holds of what came early, in the measure of `Stream::size`.
    pub(crate) fn size(&self) -> usize
        ensures { result ≡ size_of self.now }
    {
        self.stream.size()
    }

    /// Counts a segment.
    pub(crate) fn count_segment(&mut self)
        ensures { self.new ≡ side self.old.stream (one_more self.old.totals) }
    {
        self.totals.count_segment();
    }

    /// The next report of a segment of this direction, which may hold this much in all.
    #[inline]
    pub(crate) fn take(
        &mut self,
        segment: &StreamSegment<'_>,
        room: usize,
    ) -> Result<SideStep, AllocError>
    where
        A: Clone,
        ensures delivered { IfOk result (λ step. side_delivered step self.new ≡ taken self.old (captured segment.now) room) }
        ensures within { IfOk result (λ step. IsWithin step.step (length segment.now.payload.now)) }
        ensures refused { OnErr result (self.new ≡ refused self.old (captured segment.now)) }
    {
        let at = self.totals.position();
        let step = self.stream.take(segment, room)?;
        if let StreamStep::Began { syn } = step {
            self.totals.note_begin(syn, segment.control.sequence);
        }
        self.totals.note(step);
        Ok(SideStep { at, step })
    }

    /// The next report for an acknowledgement of the other direction.
    pub(crate) fn acknowledge(&mut self, number: u32) -> SideStep
        ensures { side_delivered result self.new ≡ acknowledged self.old number }
    {
        let at = self.totals.position();
        let step = self.stream.acknowledge(number);
        self.totals.note(step);
        SideStep { at, step }
    }

    /// That an acknowledgement of the other direction brings nothing, as `Stream` says it.
    #[inline]
    pub(crate) fn ignores_acknowledgements(&self) -> bool
        ensures { result ≡ true → (number : ℕ) → IsIdle self.now (acknowledged self.now number) }
    {
        self.stream.ignores_acknowledgements()
    }

    /// That `take` of a segment brings nothing, as `Stream` says it.
    #[inline]
    pub(crate) fn is_behind(&self, segment: &StreamSegment<'_>) -> bool
        ensures { result ≡ true → (room : ℕ) → IsIdle self.now (taken self.now (captured segment.now) room) }
    {
        self.stream.is_behind(segment)
    }

    /// The next report where no more segments come.
    pub(crate) fn close(&mut self) -> SideStep
        ensures { side_delivered result self.new ≡ closed self.old }
    {
        let at = self.totals.position();
        let step = self.stream.close();
        self.totals.note(step);
        SideStep { at, step }
    }

    /// The next bytes, which came before.
    pub(crate) fn held(&self) -> &[u8]
        ensures { result.now ≡ held self.now.stream }
    {
        self.stream.held()
    }

    /// Passes the next bytes that came before.
    pub(crate) fn pass_held(&mut self)
        ensures { self.new ≡ passed self.old }
    {
        self.totals.count_bytes(self.stream.held().len());
        self.stream.pass_held();
    }
}
