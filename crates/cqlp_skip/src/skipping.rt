//! A decoder that goes on after a frame whose body is refused.

ghost use Rattle.std.specs.Prelude.{◌≡◌, ◌+◌, ◌-◌, ◌≤◌, ◌^◌, ◌↔◌, List, ℕ, [], length, IfOk, IsErrOf, Err, Ok, None, min, true};
ghost use Rattle.cqlp_note.specs.Limits.{first_bad, rules_of, with_lenient};
ghost use Rattle.cqlp_note.specs.declared.limits.BadLimits.{BadLimits as Bad};
ghost use Rattle.cqlp_decode.specs.Draining.{Passes};
ghost use Rattle.cqlp_decode.specs.Streams.{HoldsNothing};

use crate::fed::{NotSkippable, Skipped, fed_from, passed_of, refusal_from, used_of};
use crate::frame::{OpenFrame, stream_offset};
use crate::shifting::Shifting;
use cqlp_decode::{Capacity, Decoder, Fed, Finish, GiveError, Held, NewError, Sink};
use cqlp_note::Limits;
use cqlp_type::TypeTable;
use std::alloc::{Allocator, Global};
use std::marker::Model;

/// Reads a stream of frames from pieces of any size, as a `Decoder` does, with offsets in the whole stream. Where it
/// is refused in the body of a frame it can pass over the rest of that frame, and go on with the next header. It takes all
/// its memory when it is made.
#[derive(Drop)]
pub struct SkippingDecoder<A: Allocator = Global> {
    /// The decoder of the present stretch, which begins where a stream begins or after a frame that was passed over.
    decoder: Decoder<A>,
    /// Where the present stretch begins in the whole stream.
    base: u64,
    /// How many bytes of the whole stream were used.
    used: u64,
    /// The frame under way.
    frame: Option<OpenFrame>,
    /// Where the header is of the frame that was passed over last.
    last: u64,
}

impl<A: Allocator> Model for SkippingDecoder<A> {
    ghost use Rattle.cqlp_skip.specs.Skipping.{Skipping};

    ghost Value = { Skipping };

    ghost view = { λ d. record { decoder = d.decoder; base = d.base; used = d.used; frame = d.frame; last = d.last } };
}

impl<A: Allocator + Clone> SkippingDecoder<A> {
    ghost use Rattle.cqlp_skip.specs.Skipping.{AfterSkips, rules_in, stream};

    /// A decoder at the start of a stream, with the memory of a `Decoder` within these limits: four requests for memory,
    /// and the only ones.
    ///
    /// # Errors
    ///
    /// Limits out of their ranges, and memory that is refused.
    pub fn new(alloc: A, limits: Limits) -> Result<Self, NewError>
        ensures bad { (b : Bad) → IsErrOf result (NewError.BadLimits b) ↔ (first_bad limits ≡ Err b) }
        ensures fresh { (xs : List ℕ) → IfOk result (λ d. AfterSkips xs d [] [] [] []) }
        ensures unrefused { IfOk result (λ d. (stream d).refusal ≡ None) }
        ensures rules { IfOk result (λ d. rules_in d ≡ rules_of limits) }
        ensures nothing_held { IfOk result (λ d. HoldsNothing d.decoder) }
    {
        match Decoder::new(alloc, limits) {
            Ok(decoder) => Ok(Self::around(decoder)),
            Err(error) => Err(error),
        }
    }

    /// The same, for a lenient reading, as [`Decoder::lenient`] has it: a content that its type does not have is emitted as a raw scalar, and
    /// the frame is read on.
    ///
    /// # Errors
    ///
    /// As `new`.
    pub fn lenient(alloc: A, limits: Limits) -> Result<Self, NewError>
        ensures bad { (b : Bad) → IsErrOf result (NewError.BadLimits b) ↔ (first_bad limits ≡ Err b) }
        ensures fresh { (xs : List ℕ) → IfOk result (λ d. AfterSkips xs d [] [] [] []) }
        ensures unrefused { IfOk result (λ d. (stream d).refusal ≡ None) }
        ensures rules { IfOk result (λ d. rules_in d ≡ with_lenient true (rules_of limits)) }
        ensures nothing_held { IfOk result (λ d. HoldsNothing d.decoder) }
    {
        match Decoder::lenient(alloc, limits) {
            Ok(decoder) => Ok(Self::around(decoder)),
            Err(error) => Err(error),
        }
    }
}

impl<A: Allocator> SkippingDecoder<A> {
    ghost use Rattle.cqlp_decode.specs.Draining as draining;
    ghost use Rattle.cqlp_skip.specs.Skipping.{BeginsAnew, Feeds, FinishesAs, RefusesBy, SkipsOn, rules_in, skip_of, stream};
    ghost use Rattle.cqlp_skip.specs.Giving.{GivesAlso, GivesBack, TakesAlso};
    ghost use Rattle.cqlp_decode.specs.Giving.{after_taking, free_table, last_types, once_given, reason_against};
    ghost use Rattle.cqlp_decode.specs.Progress.{levels_of};
    ghost use Rattle.cqlp_decode.specs.Reading.{Gives};
    ghost use Rattle.cqlp_decode.specs.Streams.{IsWithin, capacity_within, given_nodes};
    ghost use Rattle.cqlp_decode.specs.declared.given.GiveReason.{GiveReason as Why};
    ghost use Rattle.cqlp_kind.specs.Types.{types_of};

    /// What reads a whole stream with a decoder at its start.
    fn around(decoder: Decoder<A>) -> Self
        ensures { result ≡ record { decoder = decoder; base = 0; used = 0; frame = None; last = 0 } }
    {
        SkippingDecoder {
            decoder,
            base: 0,
            used: 0,
            frame: None,
            last: 0,
        }
    }

    /// Hands all events of a piece to the sink, at their offsets in the whole stream, up to a refusal or a fault of the
    /// sink. The bytes of a frame that was passed over are used without being looked at. The next call goes on after the
    /// bytes that were used. A refusal is said again until the frame is passed over.
    pub fn feed<S: Sink>(&mut self, input: &[u8], sink: S) -> (Fed, S)
        ensures within { draining.used_of (length input.now) result.0 ≤ length input.now }
        ensures refusal { RefusesBy result.0 self.new }
        ensures feeds { S.reports sink →
            Feeds S.after S.faulted self.old self.new input.now result.0 (S.view sink) (S.view result.1) }
        ensures reports { S.reports sink → result.0 ≡ Fed.More → S.reports result.1 }
        ensures also { Passes S.also sink result.1 }
        ensures used { self.new.used ≡ min (self.old.used + draining.used_of (length input.now) result.0) (2 ^ 64 - 1) }
        ensures place { (self.new.base ≡ self.old.base) × (self.new.last ≡ self.old.last) }
        ensures rules { rules_in self.new ≡ rules_in self.old }
        ensures given { (stream self.new).given ≡ (stream self.old).given }
    {
        let passed = passed_of(self.base, self.used, input.len());
        let mut shifting = Shifting {
            sink,
            base: self.base,
            frame: self.frame,
        };
        let fed = self.decoder.feed(&input[passed..], &mut shifting);
        let Shifting {
            sink,
            base: _,
            frame,
        } = shifting;
        self.frame = frame;
        let fed = fed_from(self.base, passed, fed);
        self.used = self.used.saturating_add(used_of(fed, input.len()) as u64);
        (fed, sink)
    }

    /// Gives types for a page without metadata of the present stretch, as `Decoder::give` does. While a frame is passed over that is
    /// the stretch after it. The table that was held before comes back; one that is not taken comes back with the reason, and
    /// nothing changes: after a refusal none is taken until the frame is passed over.
    ///
    /// # Errors
    ///
    /// The first reason against the table, which comes back with it: nothing changes.
    pub fn give(&mut self, table: TypeTable<A>) -> Result<Option<TypeTable<A>>, GiveError<A>>
        ensures refused { (w : Why) → reason_against (stream self.old) table.nodes ≡ Some w
            → (result ≡ Err (record { why = w; table = table })) × (self.new ≡ self.old) }
        ensures taken { reason_against (stream self.old) table.nodes ≡ None
            → (result ≡ Ok (stream self.old).given) × (stream self.new ≡ once_given (stream self.old) table) }
        ensures after { reason_against (stream self.old) table.nodes ≡ None
            → GivesAlso (Gives (types_of table.nodes)) self.old self.new }
        ensures levels { levels_of self.new.decoder.parts ≡ levels_of self.old.decoder.parts }
        ensures place { self.new ≡ record self.old { decoder = self.new.decoder } }
    {
        self.decoder.give(table)
    }

    /// Takes back the table that was given over the present stretch, if one is held and not in use. After a refusal none is in
    /// use, so a table that the next stretch is to have is taken back before the frame is passed over, and given again.
    pub fn take_given(&mut self) -> Option<TypeTable<A>>
        ensures given { result ≡ free_table (stream self.old) }
        ensures left { stream self.new ≡ after_taking result (stream self.old) }
        ensures after { TakesAlso result self.old self.new }
        ensures refused { GivesBack result self.old }
        ensures levels { levels_of self.new.decoder.parts ≡ levels_of self.old.decoder.parts }
        ensures place { self.new ≡ record self.old { decoder = self.new.decoder } }
    {
        self.decoder.take_given()
    }

    /// Passes over the rest of the frame in whose body the stream is refused: the next calls use its bytes without looking at
    /// them, and go on with the header after it. Nothing is held of them. A table of types that was given and not taken back
    /// is let go of: over the next stretch nothing is given yet. Where the stream is not refused, or no header of the frame was
    /// handed out, nothing changes.
    ///
    /// # Errors
    ///
    /// A stream that is not refused, or in which no header of the frame was handed out: nothing changes.
    pub fn skip(&mut self) -> Result<Skipped, NotSkippable>
        ensures is { result ≡ skip_of self.old }
        ensures goes_on { SkipsOn result self.old self.new }
        ensures anew { BeginsAnew result self.old self.new }
    {
        let Finish::Refused(refusal) = self.decoder.finish() else {
            return Err(NotSkippable::NotRefused);
        };
        let Some(frame) = self.frame else {
            return Err(NotSkippable::InHeader);
        };
        let Some(end) = frame.end_within(self.base, self.used) else {
            return Err(NotSkippable::TooFar);
        };
        let skipped = Skipped {
            at: stream_offset(self.base, frame.at),
            header: frame.header,
            refusal: refusal_from(self.base, refusal),
            rest: end - self.used,
        };
        let _ = self.decoder.restart();
        self.base = end;
        self.frame = None;
        self.last = skipped.at;
        Ok(skipped)
    }

    /// How the stream ends, if it ends after the bytes that were used.
    pub fn finish(&self) -> Finish
        ensures { FinishesAs self.now result }
    {
        if self.used < self.base {
            return Finish::Cut {
                frame_at: self.last,
                bytes: self.used,
            };
        }
        match self.decoder.finish() {
            Finish::Whole { .. } => Finish::Whole { bytes: self.used },
            Finish::Cut { frame_at, .. } => Finish::Cut {
                frame_at: stream_offset(self.base, frame_at),
                bytes: self.used,
            },
            Finish::Refused(refusal) => Finish::Refused(refusal_from(self.base, refusal)),
        }
    }

    /// What is held of the stream, as `Decoder::held` says it.
    pub fn held(&self) -> Held
        ensures bytes { result.bytes ≡ length (stream self.now).held }
        ensures entries { result.entries
            ≡ length (stream self.now).place.nodes + length (given_nodes (stream self.now).given) }
        ensures levels { result.levels ≡ levels_of self.now.decoder.parts }
        ensures bounded { IsWithin result (rules_in self.now) }
    {
        self.decoder.held()
    }

    /// The places that the decoder has memory for, as `Decoder::capacity` says them.
    pub fn capacity(&self) -> Capacity
        ensures { result ≡ capacity_within (rules_in self.now) }
    {
        self.decoder.capacity()
    }

    /// The types of the metadata begun last in the present stretch, as `Decoder::table` has them.
    pub fn table(&self) -> &TypeTable<A>
        ensures { result.now ≡ last_types (stream self.now) }
    {
        self.decoder.table()
    }

    /// How many bytes of the whole stream were used.
    pub fn used(&self) -> u64
        ensures { result ≡ self.now.used }
    {
        self.used
    }
}
