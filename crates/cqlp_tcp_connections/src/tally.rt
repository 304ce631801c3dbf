//! The totals of a direction as they are counted, in 56 bytes.

ghost use Rattle.std.specs.Prelude.{◌≡◌};

use crate::totals::{Begin, DirectionTotals, End};
use cqlp_tcp_reassembly::{GapCause, StreamStep};
use std::marker::Model;

/// How a direction began.
#[derive(Clone, Copy)]
pub(crate) enum BeginKind {
    Unseen,
    Syn,
    Middle,
}

/// The totals of a direction.
#[derive(Drop)]
pub(crate) struct Tally {
    segments: u64,
    bytes: u64,
    gaps: u64,
    missing: u64,
    snapped: u64,
    snapped_bytes: u64,
    /// The number of the SYN, or of the first byte from the middle.
    first: u32,
    begin: BeginKind,
    end: End,
}

impl Model for Tally {
    ghost use Rattle.cqlp_tcp_connections.specs.declared.totals.DirectionTotals.{DirectionTotals};
    ghost use Rattle.cqlp_tcp_connections.specs.Totals.{begin_of, direction_totals};

    ghost Value = { DirectionTotals };

    ghost view = { λ t. direction_totals t.segments t.bytes t.gaps t.missing t.snapped t.snapped_bytes (begin_of t.begin t.first) t.end };
}

impl Tally {
    ghost use Rattle.cqlp_tcp_connections.specs.Totals.{begun, handed_on, none_delivered, noted, one_more, passed_over, position};

    /// Of a direction of which nothing was reported.
    pub(crate) fn new() -> Self
        ensures { result ≡ none_delivered }
    {
        Tally {
            segments: 0,
            bytes: 0,
            gaps: 0,
            missing: 0,
            snapped: 0,
            snapped_bytes: 0,
            first: 0,
            begin: BeginKind::Unseen,
            end: End::Open,
        }
    }

    /// What it has counted.
    pub(crate) fn totals(&self) -> DirectionTotals
        ensures { result ≡ self.now }
    {
        DirectionTotals {
            segments: self.segments,
            bytes: self.bytes,
            gaps: self.gaps,
            missing: self.missing,
            snapped: self.snapped,
            snapped_bytes: self.snapped_bytes,
            begin: self.begin(),
            end: self.end,
        }
    }

    /// How it began.
    fn begin(&self) -> Begin
        ensures { result ≡ self.now.begin }
    {
        match self.begin {
            BeginKind::Unseen => Begin::Unseen,
            BeginKind::Syn => Begin::Syn(self.first),
            BeginKind::Middle => Begin::Middle(self.first),
        }
    }

    /// How many bytes and bytes of gaps were reported.
    pub(crate) fn position(&self) -> u64
        ensures { result ≡ position self.now }
    {
        self.bytes
            .saturating_add(self.missing)
            .saturating_add(self.snapped_bytes)
    }

    /// Counts a segment.
    pub(crate) fn count_segment(&mut self)
        ensures { self.new ≡ one_more self.old }
    {
        self.segments = self.segments.saturating_add(1);
    }

    /// Counts bytes that were handed on.
    pub(crate) fn count_bytes(&mut self, count: usize)
        ensures { self.new ≡ handed_on count self.old }
    {
        self.bytes = self.bytes.saturating_add(count as u64);
    }

    /// Notes that it begins with a segment of this head, with SYN or without.
    pub(crate) fn note_begin(&mut self, syn: bool, sequence: u32)
        ensures { self.new ≡ begun syn sequence self.old }
    {
        self.first = sequence;
        self.begin = if syn {
            BeginKind::Syn
        } else {
            BeginKind::Middle
        };
    }

    /// Counts a gap of so many bytes.
    fn pass_over(&mut self, cause: GapCause, length: u64)
        ensures { self.new ≡ passed_over cause length self.old }
    {
        match cause {
            GapCause::Lost => {
                self.gaps = self.gaps.saturating_add(1);
                self.missing = self.missing.saturating_add(length);
            }
            GapCause::Snapped => {
                self.snapped = self.snapped.saturating_add(1);
                self.snapped_bytes = self.snapped_bytes.saturating_add(length);
            }
        }
    }

    /// Notes what was reported of it.
    pub(crate) fn note(&mut self, step: StreamStep)
        ensures { self.new ≡ noted step self.old }
    {
        match step {
            StreamStep::Payload { count, .. } => self.count_bytes(count),
            StreamStep::Gap { length, cause, .. } => self.pass_over(cause, length),
            StreamStep::Ended => self.end = End::Fin,
            StreamStep::Reset => self.end = End::Reset,
            _ => {}
        }
    }
}
