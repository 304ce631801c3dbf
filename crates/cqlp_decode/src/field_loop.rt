//! Headers, fields and ends of frames, handed straight to a sink.
//!
//! The loop takes each header, field and end that lies whole in the input. It leaves all else to `Decoder::next`, which
//! alone decides it: a type option, a cell, a cut, and each refusal; and so it does an \[inet\], which few messages have.
//! It may, since it is proved to hand out what the reading of the bytes says, and to be where that does: no rule
//! is here alone. What follows a field, and where a message goes on, is found by the functions by which `next` does.

ghost use Rattle.std.specs.Prelude.{◌≡◌, ◌-◌, ◌≤◌, Ok, None, Some};
ghost use Rattle.cqlp_note.specs.Limits.{limit_of, rules_asked};
ghost use Rattle.cqlp_note.specs.declared.refusal.Refusal.{Refusal};
ghost use Rattle.cqlp_decode.specs.declared.progress.StreamStage.TheVariants as stage;
ghost use Rattle.cqlp_decode.specs.Cells.{DrainsCells, StaysWithin};
ghost use Rattle.cqlp_decode.specs.Fields.{HandsField};
ghost use Rattle.cqlp_decode.specs.Items.{HandsItem};
ghost use Rattle.cqlp_decode.specs.Sinks.{Gets, Fails};
ghost use Rattle.cqlp_decode.specs.Progress.{IsBounded, IsConsistent, IsIdle, IsLawful, PartsState, state_of, state_with};

use crate::decoder::event_with;
use crate::metadata::begin_metadata;
use crate::page_loop::Handed;
use crate::parts::Parts;
use crate::progress::{StreamProgress, StreamStage, limit_on};
use crate::step::FaultAfter;
use cqlp_grammar::{Event, Role, Sink, SinkFault, Want, fault_in};
use cqlp_kind::content::read_array;
use cqlp_note::{Asked, Field, Header, Notation, front_field};
use std::alloc::Allocator;

/// Hands what is due to the sink, as far as the loop takes it, and answers how many bytes of the input it takes.
pub fn take_fields<S: Sink, A: Allocator>(
    progress: &mut StreamProgress,
    parts: &mut Parts<A>,
    input: &[u8],
    sink: &mut S,
) -> Result<usize, FaultAfter>
    requires lawful { IsLawful progress.old parts.old }
    ensures lawful { IsLawful progress.new parts.new }
    ensures stays { StaysWithin (state_with progress.old parts.old) input.now result
        (state_with progress.new parts.new) }
    ensures refused { (r : Refusal) → progress.old.refusal ≡ Some r
        → (progress.new ≡ progress.old) × (parts.new ≡ parts.old) × (sink.new ≡ sink.old) × (result ≡ Ok 0) }
    ensures drains { DrainsCells (Gets S.Sink) (Fails S.Sink) (state_with progress.old parts.old) input.now result
        (state_with progress.new parts.new) sink.old sink.new }
{
    if progress.refusal.is_some() {
        return Ok(0);
    }
    let mut used = 0;
    'fields: loop {
        match progress.hand_due(parts, &input[used..], sink) {
            Handed::Left => return Ok(used),
            Handed::Taken(taken) => used += taken,
            Handed::Fault(taken) => {
                let used = used + taken;
                return Err(FaultAfter { used });
            }
        }
    }
}

/// Hands the field at the front of the input to the sink, if all its bytes are there and it is lawful. It begins at an
/// offset, and has room for this many bytes.
#[inline(always)]
fn hand_plain<S: Sink>(
    limits: &Asked,
    notation: Notation,
    field: Field,
    room: u64,
    at: u64,
    input: &[u8],
    sink: &mut S,
) -> Handed
    ensures left { result ≡ Handed.Left → sink.new ≡ sink.old }
    ensures hands { HandsField notation (limit_of (rules_asked limits.now) notation) room input.now field
        (λ e. Gets S.Sink sink.old at e sink.new)
        (λ e. Fails S.Sink sink.old at e sink.new) result }
{
    // An arm for each notation, so that each has code of its own.
    match notation {
        Notation::Bound => hand_front(limits, Notation::Bound, field, room, at, input, sink),
        Notation::Text16 => hand_front(limits, Notation::Text16, field, room, at, input, sink),
        Notation::Text32 => hand_front(limits, Notation::Text32, field, room, at, input, sink),
        Notation::Bytes16 => hand_front(limits, Notation::Bytes16, field, room, at, input, sink),
        Notation::Bytes32 => hand_front(limits, Notation::Bytes32, field, room, at, input, sink),
        Notation::Byte => hand_front(limits, Notation::Byte, field, room, at, input, sink),
        Notation::Short => hand_front(limits, Notation::Short, field, room, at, input, sink),
        Notation::Count16 => hand_front(limits, Notation::Count16, field, room, at, input, sink),
        Notation::Int => hand_front(limits, Notation::Int, field, room, at, input, sink),
        Notation::Long => hand_front(limits, Notation::Long, field, room, at, input, sink),
        Notation::Uuid => hand_front(limits, Notation::Uuid, field, room, at, input, sink),
        Notation::Count32 => hand_front(limits, Notation::Count32, field, room, at, input, sink),
        Notation::Inet | Notation::Content(_) => Handed::Left,
    }
}

/// The same of a field of this notation.
#[inline(always)]
fn hand_front<S: Sink>(
    limits: &Asked,
    notation: Notation,
    field: Field,
    room: u64,
    at: u64,
    input: &[u8],
    sink: &mut S,
) -> Handed
    ensures left { result ≡ Handed.Left → sink.new ≡ sink.old }
    ensures hands { HandsField notation (limit_of (rules_asked limits.now) notation) room input.now field
        (λ e. Gets S.Sink sink.old at e sink.new)
        (λ e. Fails S.Sink sink.old at e sink.new) result }
{
    let Some(whole) = front_field(notation, limit_on(limits, notation), room, input) else {
        return Handed::Left;
    };
    match sink.take(at, &event_with(field, whole.value)) {
        Ok(()) => Handed::Taken(whole.used),
        Err(SinkFault) => Handed::Fault(whole.used),
    }
}

impl StreamProgress {
    /// Hands what is due to the sink, if the loop takes it.
    #[inline(always)]
    fn hand_due<S: Sink, A: Allocator>(
        &mut self,
        parts: &mut Parts<A>,
        input: &[u8],
        sink: &mut S,
    ) -> Handed
        requires lawful { IsLawful self.old parts.old }
        requires unrefused { self.old.refusal ≡ None }
        ensures lawful { IsLawful self.new parts.new }
        ensures left { result ≡ Handed.Left → sink.new ≡ sink.old }
        ensures hands { HandsItem (state_with self.old parts.old) input.now
            (λ at e. Gets S.Sink sink.old at e sink.new)
            (λ at e. Fails S.Sink sink.old at e sink.new) result
            (state_with self.new parts.new) }
    {
        match self.stage {
            StreamStage::Field(want) => match want.role {
                Role::Alone => self.hand_alone(parts, want, input, sink),
                _ => self.hand_field(parts, want, input, sink),
            },
            StreamStage::Header => self.hand_header(input, sink),
            StreamStage::Extra => self.hand_end(input, sink),
            StreamStage::BeforeType
            | StreamStage::InType
            | StreamStage::BeforeCell(_)
            | StreamStage::InCell(_) => Handed::Left,
        }
    }

    /// Hands the header at the front of the input to the sink, if it lies whole there and is lawful.
    #[inline(always)]
    fn hand_header<S: Sink>(&mut self, input: &[u8], sink: &mut S) -> Handed
        requires bounded { IsBounded self.old }
        requires here { self.old.stage ≡ stage.Header }
        requires unrefused { self.old.refusal ≡ None }
        ensures lawful { (q : PartsState) → IsConsistent self.old q → IsConsistent self.new q }
        ensures left { result ≡ Handed.Left → sink.new ≡ sink.old }
        ensures hands { (q : PartsState) → IsIdle q → HandsItem (state_of self.old q) input.now
            (λ at e. Gets S.Sink sink.old at e sink.new)
            (λ at e. Fails S.Sink sink.old at e sink.new) result
            (state_of self.new q) }
    {
        if self.came > 0 || self.offset > 1 << 63 || input.len() < 9 {
            return Handed::Left;
        }
        let Ok(header) = Header::read(&read_array(input), self.offset) else {
            return Handed::Left;
        };
        let at = self.offset;
        self.enter(&header);
        match sink.take(at, &Event::Frame(header)) {
            Ok(()) => Handed::Taken(9),
            Err(SinkFault) => Handed::Fault(9),
        }
    }

    /// Hands the end of the frame to the sink, if the bytes before it are there.
    #[inline(always)]
    fn hand_end<S: Sink>(&mut self, input: &[u8], sink: &mut S) -> Handed
        requires bounded { IsBounded self.old }
        requires here { self.old.stage ≡ stage.Extra }
        requires came { self.old.came ≤ self.old.stop - self.old.offset }
        requires unrefused { self.old.refusal ≡ None }
        ensures lawful { (q : PartsState) → IsConsistent self.old q → IsConsistent self.new q }
        ensures left { result ≡ Handed.Left → sink.new ≡ sink.old }
        ensures hands { (q : PartsState) → IsIdle q → HandsItem (state_of self.old q) input.now
            (λ at e. Gets S.Sink sink.old at e sink.new)
            (λ at e. Fails S.Sink sink.old at e sink.new) result
            (state_of self.new q) }
    {
        let extra = self.stop - self.offset;
        let missing = extra - self.came;
        if (input.len() as u64) < missing {
            return Handed::Left;
        }
        let at = self.stop;
        self.end_frame();
        let used = missing as usize;
        match sink.take(
            at,
            &Event::End {
                extra: extra as u32,
            },
        ) {
            Ok(()) => Handed::Taken(used),
            Err(SinkFault) => Handed::Fault(used),
        }
    }

    /// Hands the field that is due to the sink, from whose value nothing follows, if no byte of it has come and it lies
    /// whole in the input.
    #[inline(always)]
    fn hand_alone<S: Sink, A: Allocator>(
        &mut self,
        parts: &Parts<A>,
        want: Want,
        input: &[u8],
        sink: &mut S,
    ) -> Handed
        requires lawful { IsLawful self.old parts.now }
        requires here { self.old.stage ≡ stage.Field want }
        requires alone { want.role ≡ Role.Alone }
        requires unrefused { self.old.refusal ≡ None }
        ensures lawful { IsLawful self.new parts.now }
        ensures left { result ≡ Handed.Left → sink.new ≡ sink.old }
        ensures hands { HandsItem (state_with self.old parts.now) input.now
            (λ at e. Gets S.Sink sink.old at e sink.new)
            (λ at e. Fails S.Sink sink.old at e sink.new) result
            (state_with self.new parts.now) }
    {
        if parts.partial.is_under_way() || parts.partial.held() > 0 {
            return Handed::Left;
        }
        let Want {
            field,
            notation,
            ..
        } = want;
        let at = self.offset;
        let room = self.stop - at;
        match hand_plain(&self.limits, notation, field, room, at, input, sink) {
            Handed::Left => Handed::Left,
            Handed::Taken(used) => {
                self.offset += used as u64;
                self.expect_next();
                Handed::Taken(used)
            }
            Handed::Fault(used) => {
                self.offset += used as u64;
                self.expect_next();
                Handed::Fault(used)
            }
        }
    }

    /// Hands the field that is due to the sink, if no byte of it has come, it lies whole in the input and is lawful.
    #[inline(always)]
    fn hand_field<S: Sink, A: Allocator>(
        &mut self,
        parts: &mut Parts<A>,
        want: Want,
        input: &[u8],
        sink: &mut S,
    ) -> Handed
        requires lawful { IsLawful self.old parts.old }
        requires here { self.old.stage ≡ stage.Field want }
        requires unrefused { self.old.refusal ≡ None }
        ensures lawful { IsLawful self.new parts.new }
        ensures left { result ≡ Handed.Left → sink.new ≡ sink.old }
        ensures hands { HandsItem (state_with self.old parts.old) input.now
            (λ at e. Gets S.Sink sink.old at e sink.new)
            (λ at e. Fails S.Sink sink.old at e sink.new) result
            (state_with self.new parts.new) }
    {
        if parts.partial.is_under_way() || parts.partial.held() > 0 {
            return Handed::Left;
        }
        let limit = limit_on(&self.limits, want.notation);
        let room = self.stop - self.offset;
        let Some(whole) = front_field(want.notation, limit, room, input) else {
            return Handed::Left;
        };
        let used = whole.used;
        let value = whole.value;
        if let Some(_) = fault_in(want.role, value) {
            return Handed::Left;
        }
        let at = self.offset;
        self.offset += used as u64;
        begin_metadata(want.role, &mut parts.table);
        self.follow(want.role, value, &parts.table, &parts.given);
        match sink.take(at, &event_with(want.field, value)) {
            Ok(()) => Handed::Taken(used),
            Err(SinkFault) => Handed::Fault(used),
        }
    }
}
