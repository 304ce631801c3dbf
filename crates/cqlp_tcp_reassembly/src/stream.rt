//! One direction of a connection.

ghost use Rattle.std.specs.Prelude.{◌≡◌, ◌+◌, ◌-◌, ◌<◌, ◌≤◌, ◌^◌, ℕ, [], length, MatchOption, IfOk, OnErr, None, Some, ⊤, true};
ghost use Rattle.cqlp_tcp_reassembly.specs.Segments.{captured};
ghost use Rattle.cqlp_tcp_reassembly.specs.Streams.{IsWithin, settling};

use crate::fin::FinPosition;
use crate::run::{EarlyPart, Part, RUN_SIZE, RunSummary, cut};
use crate::runs::Runs;
use crate::segment::{Place, StreamSegment, next_number};
use crate::sequence::{Distance, distance_to};
use crate::step::{GapCause, StreamStep};
use std::alloc::{AllocError, Allocator, Global};
use std::marker::Model;

/// How far a stream can go, in bytes.
const LONGEST: u64 = 1 << 62;

/// How far a stream is.
#[derive(Clone, Copy)]
pub(crate) enum Stage {
    Unseen,
    Open,
    Over,
}

/// One direction of a connection: its bytes in order, each once, out of segments that come in whatever order and however often.
///
/// Of each segment `take` is called again and again until it answers `Done`, and so of each acknowledgement of the other side
/// `acknowledge`. Where one of them answers `Held`, `held` lends the bytes, and `pass_held` comes before the next call. A stream
/// has memory only for what came early.
#[derive(Drop)]
pub struct Stream<A: Allocator = Global> {
    stage: Stage,
    /// The sequence number of its first byte.
    first: u32,
    /// How many bytes, and bytes of gaps, were reported.
    position: u64,
    runs: Runs<A>,
    /// The position of FIN.
    end: FinPosition,
}

impl<A: Allocator> Model for Stream<A> {
    ghost use Rattle.std.specs.Prelude.{◌≤◌, ◌^◌};
    ghost use Rattle.cqlp_tcp_reassembly.specs.Streams.{StreamState, stream_state};

    ghost Value = { StreamState };

    ghost view = { λ s. stream_state s.stage s.first s.position s.runs s.end };

    ghost invariant = { λ s. s.position ≤ 2 ^ 62 };
}

impl<A: Allocator> Stream<A> {
    ghost use Rattle.cqlp_tcp_reassembly.specs.declared.step.StreamStep.TheVariants.{Done};
    ghost use Rattle.cqlp_tcp_reassembly.specs.declared.stream.Stage.TheVariants.{Open};
    ghost use Rattle.cqlp_tcp_reassembly.specs.Streams.{after_acknowledgement, after_close, after_refusal, after_segment, begun, early_part, ended};
    ghost use Rattle.cqlp_tcp_reassembly.specs.Streams.{held, hole, is_lost, is_over, knows_hole, lost, lost_or_done, moved, next_part, passed};
    ghost use Rattle.cqlp_tcp_reassembly.specs.Streams.{placed, received, settled, settled_by, size, stop, delivered, unseen, up_to_stop, with_end};
    ghost use Rattle.cqlp_tcp_reassembly.specs.Runs.{behind_first};

    /// A stream of which nothing was seen. It has no memory.
    pub fn new(alloc: A) -> Self
        ensures { result ≡ unseen }
    {
        Stream {
            stage: Stage::Unseen,
            first: 0,
            position: 0,
            runs: Runs::new(alloc),
            end: FinPosition::none(),
        }
    }

    /// The next that a segment brings. What came early is kept while this stream holds at most `room` bytes, as `size` counts
    /// them; else the first hole is reported as lost.
    ///
    /// # Errors
    ///
    /// Memory that is refused. Then nothing changes but that FIN is noted.
    #[inline]
    pub fn take(
        &mut self,
        segment: &StreamSegment<'_>,
        room: usize,
    ) -> Result<StreamStep, AllocError>
    where
        A: Clone,
        ensures delivered { IfOk result (λ step. delivered step self.new ≡ after_segment self.old (captured segment.now) room) }
        ensures within { IfOk result (λ step. IsWithin step (length segment.now.payload.now)) }
        ensures refused { OnErr result (self.new ≡ after_refusal self.old (captured segment.now)) }
    {
        match self.stage {
            Stage::Over => Ok(StreamStep::Done),
            Stage::Unseen => {
                if segment.control.rst {
                    Ok(self.finish(StreamStep::Reset))
                } else {
                    Ok(self.begin(segment))
                }
            }
            Stage::Open => {
                if segment.control.rst {
                    Ok(self.finish(StreamStep::Reset))
                } else {
                    self.receive(segment, room)
                }
            }
        }
    }

    /// The next that an acknowledgement of the other side brings, which wants this number next: bytes before it that are missing
    /// are lost, if later ones came or FIN did.
    pub fn acknowledge(&mut self, number: u32) -> StreamStep
        ensures { delivered result self.new ≡ after_acknowledgement self.old number }
    {
        match self.stage {
            Stage::Over | Stage::Unseen => StreamStep::Done,
            Stage::Open => {
                if let Some(step) = self.settle() {
                    return step;
                }
                let is_lost = self.is_lost(number);
                self.lose_hole(is_lost)
            }
        }
    }

    /// The next where no more segments come: a hole is a gap, if later bytes came or FIN did.
    pub fn close(&mut self) -> StreamStep
        ensures { delivered result self.new ≡ after_close self.old }
    {
        match self.stage {
            Stage::Over | Stage::Unseen => StreamStep::Done,
            Stage::Open => {
                if let Some(step) = self.settle() {
                    return step;
                }
                let is_lost = self.knows_hole();
                self.lose_hole(is_lost)
            }
        }
    }

    /// That an acknowledgement of the other side brings nothing and changes nothing, whatever its number: neither bytes that came early
    /// nor FIN are known. Where this says no, that may be so too.
    #[inline]
    pub fn ignores_acknowledgements(&self) -> bool
        ensures { result ≡ true → (number : ℕ) → after_acknowledgement self.now number ≡ delivered Done self.now }
    {
        match self.stage {
            Stage::Over | Stage::Unseen => true,
            Stage::Open => self.is_plain(),
        }
    }

    /// That `take` of a segment brings nothing and changes nothing, since all of it lies behind, and neither FIN nor bytes that came
    /// early are known. Where this says no, that may be so too.
    #[inline]
    pub fn is_behind(&self, segment: &StreamSegment<'_>) -> bool
        ensures { result ≡ true → (room : ℕ) → after_segment self.now (captured segment.now) room ≡ delivered Done self.now }
    {
        let control = segment.control;
        if !self.is_open() || control.rst || control.fin || !self.is_plain() {
            return false;
        }
        let place = segment.place(self.first, self.position);
        place.to <= place.at
    }

    #[inline]
    fn is_open(&self) -> bool
        ensures { result ≡ true → self.now.stage ≡ Open }
    {
        matches!(self.stage, Stage::Open)
    }

    /// Whether it goes on, and neither bytes that came early nor FIN are known.
    #[inline]
    fn is_plain(&self) -> bool
        ensures { result ≡ true → (self.now.runs ≡ []) × (self.now.end ≡ None) × (self.now.position < 2 ^ 62) }
    {
        self.runs.is_empty() && self.end.get().is_none() && self.position < LONGEST
    }

    /// Forgets all that it has, and gives its memory back: it is a stream of which nothing was seen.
    pub fn clear(&mut self)
        ensures { self.new ≡ unseen }
    {
        self.runs.clear();
        self.stage = Stage::Unseen;
        self.first = 0;
        self.position = 0;
        self.end = FinPosition::none();
    }

    /// Whether it has ended.
    pub fn is_over(&self) -> bool
        ensures { result ≡ is_over self.now }
    {
        matches!(self.stage, Stage::Over)
    }

    /// What it holds, in bytes: those that came early, and 144 for each part of a segment.
    pub fn size(&self) -> usize
        ensures { result ≡ size self.now }
    {
        self.runs.size()
    }

    /// The bytes that came early and are next.
    pub fn held(&self) -> &[u8]
        ensures { result.now ≡ held self.now }
    {
        let most = self.stop().saturating_sub(self.position);
        cut(self.runs.bytes_at(self.position), 0, most)
    }

    /// Goes on behind the bytes that `held` lends, if there are any.
    pub fn pass_held(&mut self)
        ensures { self.new ≡ passed self.old }
    {
        if let Some(run) = self.runs.summary_at(self.position) {
            if run.length > 0 {
                self.pass_run(run.length as u64);
            }
        }
    }

    /// Where it ends: at FIN, or after 2^62 bytes.
    fn stop(&self) -> u64
        ensures is { result ≡ stop self.now }
        ensures bound { result ≤ 2 ^ 62 }
    {
        match self.end.get() {
            None => LONGEST,
            Some(end) => end.min(LONGEST),
        }
    }

    /// Goes on behind the bytes of the first run, or those that it lacks: this many, but not past the end. How many they are.
    fn pass_run(&mut self, count: u64) -> u64
        ensures count { result ≡ up_to_stop self.old count }
        ensures moved { self.new ≡ moved (up_to_stop self.old count) (behind_first self.old.runs) self.old }
    {
        let length = count.min(self.stop().saturating_sub(self.position));
        self.position += length;
        self.runs.pass_first();
        length
    }

    /// Ends it, and gives its memory back.
    #[cold]
    fn finish(&mut self, step: StreamStep) -> StreamStep
        ensures { delivered result self.new ≡ delivered step (ended self.old) }
    {
        self.stage = Stage::Over;
        self.runs.clear();
        step
    }

    /// Begins it at a segment with SYN, FIN or bytes.
    #[cold]
    fn begin(&mut self, segment: &StreamSegment<'_>) -> StreamStep
        ensures delivered { delivered result self.new ≡ begun self.old (captured segment.now) }
        ensures within { IsWithin result 0 }
    {
        if !segment.begins_stream() {
            return StreamStep::Done;
        }
        self.clear();
        self.stage = Stage::Open;
        self.first = segment.control.first_number();
        StreamStep::Began {
            syn: segment.control.syn,
        }
    }

    /// The end of the stream or what came early, if either is next.
    #[inline]
    fn settle(&mut self) -> Option<StreamStep>
        ensures delivered { settling result self.new ≡ settled self.old }
        ensures within { MatchOption result ⊤ (λ step. IsWithin step 0) }
    {
        if self.stop() <= self.position {
            return Some(self.finish(StreamStep::Ended));
        }
        let run = self.runs.summary_at(self.position)?;
        Some(self.settle_run(run))
    }

    /// The bytes of the first run, or where it has none those that were not captured.
    #[cold]
    fn settle_run(&mut self, run: RunSummary) -> StreamStep
        ensures delivered { settling (Some result) self.new ≡ settled_by (Some run) self.old }
        ensures within { IsWithin result 0 }
    {
        if run.length > 0 {
            return StreamStep::Held {
                time: run.time,
                begins: run.begins,
            };
        }
        StreamStep::Gap {
            length: self.pass_run(run.missing),
            cause: GapCause::Snapped,
            time: run.time,
        }
    }

    /// Notes where FIN lies, if this is the first.
    fn note_end(&mut self, fin: bool, to: u64)
        requires { to + 1 < 2 ^ 64 }
        ensures { self.new ≡ with_end fin to self.old }
    {
        if fin && self.end.get().is_none() {
            self.end = FinPosition::at(to);
        }
    }

    /// The next of a segment without RST.
    #[inline]
    fn receive(
        &mut self,
        segment: &StreamSegment<'_>,
        room: usize,
    ) -> Result<StreamStep, AllocError>
    where
        A: Clone,
        ensures delivered { IfOk result (λ step. delivered step self.new ≡ received self.old (captured segment.now) room) }
        ensures within { IfOk result (λ step. IsWithin step (length segment.now.payload.now)) }
        ensures refused { OnErr result (self.new ≡ after_refusal self.old (captured segment.now)) }
    {
        let place = segment.place(self.first, self.position);
        self.note_end(segment.control.fin, place.to);
        if let Some(step) = self.settle() {
            return Ok(step);
        }
        let part = self.runs.first_free(place.at, place.to.min(self.stop()));
        self.put_part(segment, place, part, room)
    }

    /// The first part of the segment that no run covers, if there is one.
    fn put_part(
        &mut self,
        segment: &StreamSegment<'_>,
        place: Place,
        part: Part,
        room: usize,
    ) -> Result<StreamStep, AllocError>
    where
        A: Clone,
        requires at { place.at ≤ part.from }
        requires bound { part.to ≤ 2 ^ 62 }
        requires index { part.index ≤ length self.old.runs }
        ensures delivered { IfOk result (λ step. delivered step self.new ≡ placed self.old (captured segment.now) place part room) }
        ensures within { IfOk result (λ step. IsWithin step (length segment.now.payload.now)) }
        ensures refused { OnErr result (self.new ≡ self.old) }
    {
        if part.to <= part.from {
            Ok(StreamStep::Done)
        } else if part.from == self.position {
            Ok(self.pass_part(segment, place, part))
        } else {
            self.keep_part(segment, place, part, room)
        }
    }

    /// A part of the segment is next: its bytes, or where they end those that were not captured.
    fn pass_part(&mut self, segment: &StreamSegment<'_>, place: Place, part: Part) -> StreamStep
        requires order { part.from < part.to }
        requires next { part.from ≡ self.old.position }
        requires bound { part.to ≤ 2 ^ 62 }
        ensures delivered { delivered result self.new ≡ next_part self.old (captured segment.now) place part }
        ensures within { IsWithin result (length segment.now.payload.now) }
    {
        let most = part.to - part.from;
        let captured = segment.payload.len().saturating_sub(place.skip);
        let count = most.min(captured as u64);
        if count > 0 {
            self.position += count;
            return StreamStep::Payload {
                from: place.skip,
                count: count as usize,
            };
        }
        self.position += most;
        StreamStep::Gap {
            length: most,
            cause: GapCause::Snapped,
            time: segment.time,
        }
    }

    /// A part of the segment came early. It is kept where there is room; else the first hole is lost.
    #[cold]
    fn keep_part(
        &mut self,
        segment: &StreamSegment<'_>,
        place: Place,
        part: Part,
        room: usize,
    ) -> Result<StreamStep, AllocError>
    where
        A: Clone,
        requires order { part.from < part.to }
        requires at { place.at ≤ part.from }
        requires bound { part.to ≤ 2 ^ 62 }
        requires index { part.index ≤ length self.old.runs }
        ensures delivered { IfOk result (λ step. delivered step self.new ≡ early_part self.old (captured segment.now) place part room) }
        ensures within { IfOk result (λ step. IsWithin step (length segment.now.payload.now)) }
        ensures refused { OnErr result (self.new ≡ self.old) }
    {
        let skip = place.skip.saturating_add((part.from - place.at) as usize);
        let bytes = cut(segment.payload, skip, part.to - part.from);
        let left = room.saturating_sub(self.runs.size());
        if left < bytes.len() + RUN_SIZE {
            let end = self.runs.first_at(part.from);
            return Ok(self.lose(end));
        }
        let begins = place.skip == 0 && part.from == place.at;
        let time = segment.time;
        self.runs.insert(EarlyPart {
            part,
            bytes,
            begins,
            time,
        })?;
        Ok(StreamStep::Kept)
    }

    /// The bytes up to this position are lost.
    fn lose(&mut self, end: u64) -> StreamStep
        requires { end ≤ 2 ^ 62 }
        ensures delivered { delivered result self.new ≡ lost (end - self.old.position) self.old }
        ensures within { IsWithin result 0 }
    {
        let length = end.saturating_sub(self.position);
        self.position += length;
        StreamStep::Gap {
            length,
            cause: GapCause::Lost,
            time: None,
        }
    }

    /// Whether the end of a hole at the position is known.
    fn knows_hole(&self) -> bool
        ensures { result ≡ knows_hole self.now }
    {
        !self.runs.is_empty() || self.end.get().is_some()
    }

    /// Whether the other side has all bytes of the hole.
    fn is_lost(&self, number: u32) -> bool
        ensures { result ≡ is_lost self.now number }
    {
        if !self.knows_hole() {
            return false;
        }
        let hole = self
            .runs
            .first_at(self.stop())
            .saturating_sub(self.position);
        match distance_to(number, next_number(self.first, self.position)) {
            Distance::Ahead(n) => hole <= u64::from(n),
            Distance::Behind(_) => false,
        }
    }

    /// The hole at the position is lost, if it is.
    fn lose_hole(&mut self, is_lost: bool) -> StreamStep
        ensures { delivered result self.new ≡ lost_or_done is_lost self.old }
    {
        if is_lost {
            let end = self.runs.first_at(self.stop());
            self.lose(end)
        } else {
            StreamStep::Done
        }
    }
}
