//! A decoder that C holds.

ghost use Rattle.std.specs.Prelude.{◌≡◌, ◌<◌, ◌↔◌, Option, Err, None, Some, true, false, IfNone, IfOk, IfSome, IsErrOf};
ghost use Rattle.std.specs.Box.Ownership.{box_owns};
ghost use Rattle.std.specs.Ptr.{as_ptr};
ghost use Rattle.std.specs.contracts.alloc.Global as heap;
ghost use Rattle.std.specs.contracts.impls.GlobalAllocator.TheImpl.{ghosts};
ghost use Rattle.cqlp_note.specs.declared.limits.BadLimits.{BadLimits as Bad};
ghost use Rattle.cqlp_note.specs.Limits.{first_bad, rules_of, with_lenient};
ghost use Rattle.cqlp_decode.specs.Streams.{Decoding, state};
ghost use Rattle.cqlp_decode.specs.contracts.decoder.Decoder as decoder;
ghost use Rattle.cqlp_laws.specs.OneAnswer.{IsAtStart};
ghost use Rattle.cqlp_c.specs.Course.{course_of_new};
ghost use Rattle.cqlp_c.specs.Handle.{Finishes, Holds, Makes, Nexts, PassesOver, PutsOn, Skips, code_of_free, flag_of, owned_in};
ghost use Rattle.cqlp_c.specs.Shown as shown;

use crate::batch::{Batch, fill, or_none};
use crate::course::{CqlpCourse, CqlpSkipped, Unskippable, place};
use crate::event::CqlpEvent;
use crate::loose::Loose;
use crate::numbers::*;
use crate::shown::*;
use cqlp_decode::{Decoder, Finish, NewError};
use cqlp_note::{Limits, Refusal};
use std::alloc::Global;
use std::marker::{Model, Send};

/// Where a decoder lies, or none.
#[repr(C)]
#[derive(Drop)]
pub struct CqlpPlace {
    at: *mut u8,
    ghost alloc: { heap.the_row.Denot },
    ghost value: { Option Decoding },
}

impl Model for CqlpPlace {
    ghost also_owns = { λ h. owned_in (box_owns (ghosts.dealloc_token h.alloc) (decoder.the_row heap.the_row ghosts) h.at) h.value };
}

// What it owns, a decoder and the right to free it, is the same to every thread.
unsafe impl Send for CqlpPlace {}

impl CqlpPlace {
    /// The place of none.
    fn none(_alloc: Global) -> CqlpPlace
        ensures { result.value ≡ None }
    {
        CqlpPlace {
            at: std::ptr::null_mut(),
        }
    }

    /// The place of a decoder.
    fn of(loose: Loose<Decoder<Global>, Global>) -> CqlpPlace
        ensures { result.value ≡ Some loose.value }
    {
        let Loose { at, alloc: _ } = loose;
        CqlpPlace { at: at as *mut u8 }
    }

    /// The decoder that lies there.
    fn into_loose(self, alloc: Global) -> Loose<Decoder<Global>, Global>
        requires { flag_of self.value ≡ 1 }
        ensures { self.value ≡ Some result.value }
    {
        let CqlpPlace { at } = self;
        Loose {
            at: at as *mut Decoder<Global>,
            alloc,
        }
    }
}

/// A decoder, or none where `live` is 0.
#[repr(C)]
#[derive(Drop)]
pub struct CqlpHeldDecoder {
    live: u64,
    place: CqlpPlace,
    ghost agrees: { flag_of place.value ≡ live },
}

/// A decoder, or none, and where it is in its stream. C makes one of zeros, and never writes or copies it.
#[repr(C)]
#[derive(Drop)]
pub struct CqlpDecoder {
    pub(crate) held: CqlpHeldDecoder,
    pub(crate) course: CqlpCourse,
}

/// What has none.
pub(crate) fn none(alloc: Global) -> CqlpHeldDecoder
    ensures { result.place.value ≡ None }
{
    let place = CqlpPlace::none(alloc);
    CqlpHeldDecoder { live: 0, place }
}

/// What has this decoder.
pub(crate) fn holding(boxed: Box<Decoder<Global>>) -> CqlpHeldDecoder
    ensures { result.place.value ≡ Some boxed.value }
{
    let place = CqlpPlace::of(Loose::of(boxed));
    CqlpHeldDecoder { live: 1, place }
}

/// The decoder that is held, if one is.
pub(crate) fn taken(held: CqlpHeldDecoder, alloc: Global) -> Option<Box<Decoder<Global>>>
    ensures some { IfSome result (λ b. held.place.value ≡ Some b.value) }
    ensures none { IfNone result (held.place.value ≡ None) }
{
    let CqlpHeldDecoder { live, place } = held;
    if live == 1 {
        Some(place.into_loose(alloc).into_box())
    } else {
        None
    }
}

/// A decoder with these limits, which is lenient or not.
fn new_decoder(alloc: Global, limits: Limits, lenient: bool) -> Result<Decoder<Global>, NewError>
    ensures bad { (b : Bad) → IsErrOf result (NewError.BadLimits b) ↔ (first_bad limits ≡ Err b) }
    ensures fresh { IfOk result (λ d. IsAtStart (with_lenient lenient (rules_of limits)) d) }
{
    if lenient {
        Decoder::lenient(alloc, limits)
    } else {
        Decoder::new(alloc, limits)
    }
}

/// The same, on the heap.
fn make(alloc: Global, limits: Limits, lenient: bool) -> Result<Box<Decoder<Global>>, NewError>
    ensures bad { (b : Bad) → IsErrOf result (NewError.BadLimits b) ↔ (first_bad limits ≡ Err b) }
    ensures fresh { IfOk result (λ b. IsAtStart (with_lenient lenient (rules_of limits)) b.value) }
{
    match new_decoder(alloc, limits, lenient) {
        Ok(decoder) => match Box::new(alloc, decoder) {
            Ok(boxed) => Ok(boxed),
            Err(_) => Err(NewError::NoMemory),
        },
        Err(error) => Err(error),
    }
}

/// Makes a decoder in a handle that has none, at the start of a stream.
#[unsafe(no_mangle)]
pub extern "C" fn cqlp_new(alloc: Global, limits: &CqlpLimits, decoder: &mut CqlpDecoder) -> u32
    ensures makes { Makes false (shown.limits_of limits.now) decoder.old.held.place.value result decoder.new.held.place.value }
    ensures course { decoder.new.course ≡ course_of_new result decoder.old.course }
{
    fill_handle(alloc, limits, false, decoder)
}

/// The same, for a lenient reading.
#[unsafe(no_mangle)]
pub extern "C" fn cqlp_new_lenient(
    alloc: Global,
    limits: &CqlpLimits,
    decoder: &mut CqlpDecoder,
) -> u32
    ensures makes { Makes true (shown.limits_of limits.now) decoder.old.held.place.value result decoder.new.held.place.value }
    ensures course { decoder.new.course ≡ course_of_new result decoder.old.course }
{
    fill_handle(alloc, limits, true, decoder)
}

/// Puts a decoder, which is lenient or not, into a handle that has none.
fn fill_handle(alloc: Global, limits: &CqlpLimits, lenient: bool, decoder: &mut CqlpDecoder) -> u32
    ensures makes { Makes lenient (shown.limits_of limits.now) decoder.old.held.place.value result decoder.new.held.place.value }
    ensures course { decoder.new.course ≡ course_of_new result decoder.old.course }
{
    if decoder.held.live != 0 {
        return IN_USE;
    }
    match make(alloc, limits_of(limits), lenient) {
        Ok(boxed) => {
            decoder.held = holding(boxed);
            decoder.course = CqlpCourse::start();
            DONE
        }
        Err(error) => error_code(&error),
    }
}

/// The same as `read_on`, once a frame was passed over.
#[inline(never)]
fn read_behind(
    decoder: &mut Decoder<Global>,
    course: &mut CqlpCourse,
    input: &[u8],
    events: &mut [CqlpEvent],
) -> Batch
    requires { 0 < course.old.base }
    ensures { PutsOn decoder.old decoder.new course.old course.new input.now (as_ptr input.entry) result events.old events.new }
{
    let passed = course.passed(input.len());
    let batch = fill(decoder, &input[passed..], events, &mut course.frame);
    place(course.base, &mut events[..batch.events]);
    course.add_used(passed + batch.used);
    course.batch(passed, batch)
}

/// Puts the next events of the input into the array, at their offsets in the whole stream. The first bytes are used without being
/// looked at, as many as the frame passed over last still has.
#[inline(always)]
fn read_on(
    decoder: &mut Decoder<Global>,
    course: &mut CqlpCourse,
    input: &[u8],
    events: &mut [CqlpEvent],
) -> Batch
    ensures { PutsOn decoder.old decoder.new course.old course.new input.now (as_ptr input.entry) result events.old events.new }
{
    if course.base > 0 {
        return read_behind(decoder, course, input, events);
    }
    let batch = fill(decoder, input, events, &mut course.frame);
    course.add_used(batch.used);
    batch
}

/// Puts the next events of the input into the array. Where either has no members, its pointer may be null.
#[unsafe(no_mangle)]
pub extern "C" fn cqlp_next(
    alloc: Global,
    decoder: &mut CqlpDecoder,
    input: &[u8],
    events: &mut [CqlpEvent],
    batch: &mut CqlpBatch,
) -> u32
    ensures { Nexts decoder.old.held.place.value decoder.old.course input.entry result decoder.new.held.place.value
        decoder.new.course events.old events.new batch.old batch.new }
{
    match taken(std::mem::replace(&mut decoder.held, none(alloc)), alloc) {
        Some(mut boxed) => {
            *batch = batch_of(&read_on(&mut boxed, &mut decoder.course, or_none(input), events));
            decoder.held = holding(boxed);
            DONE
        }
        None => NO_DECODER,
    }
}

/// What a decoder has refused, if it has.
fn refused(decoder: &Decoder<Global>) -> Option<Refusal>
    ensures { result ≡ (state decoder.now).refusal }
{
    match decoder.finish() {
        Finish::Refused(refusal) => Some(refusal),
        Finish::Whole { .. } | Finish::Cut { .. } => None,
    }
}

/// Passes over the frame within which the stream of a decoder is refused.
fn pass_over(
    decoder: &mut Decoder<Global>,
    course: &mut CqlpCourse,
    skipped: &mut CqlpSkipped,
) -> u32
    ensures { PassesOver decoder.old course.old result decoder.new course.new skipped.old skipped.new }
{
    match course.skip(refused(decoder)) {
        Ok(frame) => {
            let _ = decoder.restart();
            *skipped = frame;
            DONE
        }
        Err(Unskippable::NotRefused) => NOT_REFUSED,
        Err(Unskippable::InHeader) => IN_HEADER,
        Err(Unskippable::TooFar) => TOO_FAR,
    }
}

/// Passes over the rest of the frame within which the stream is refused: the next calls use its bytes without looking at them, and go
/// on with the header after it.
#[unsafe(no_mangle)]
pub extern "C" fn cqlp_skip(
    alloc: Global,
    decoder: &mut CqlpDecoder,
    skipped: &mut CqlpSkipped,
) -> u32
    ensures { Skips decoder.old.held.place.value decoder.old.course result decoder.new.held.place.value decoder.new.course
        skipped.old skipped.new }
{
    match taken(std::mem::replace(&mut decoder.held, none(alloc)), alloc) {
        Some(mut boxed) => {
            let code = pass_over(&mut boxed, &mut decoder.course, skipped);
            decoder.held = holding(boxed);
            code
        }
        None => NO_DECODER,
    }
}

/// How the stream ends, if it ends after the bytes that were used.
#[unsafe(no_mangle)]
pub extern "C" fn cqlp_finish(alloc: Global, decoder: &mut CqlpDecoder, end: &mut CqlpEnd) -> u32
    ensures finishes { Finishes decoder.old.held.place.value decoder.old.course result decoder.new.held.place.value end.old end.new }
    ensures course { decoder.new.course ≡ decoder.old.course }
{
    match taken(std::mem::replace(&mut decoder.held, none(alloc)), alloc) {
        Some(boxed) => {
            *end = end_of(&decoder.course.finish(boxed.finish()));
            decoder.held = holding(boxed);
            DONE
        }
        None => NO_DECODER,
    }
}

/// What the decoder holds of the stream.
#[unsafe(no_mangle)]
pub extern "C" fn cqlp_held(alloc: Global, decoder: &mut CqlpDecoder, held: &mut CqlpHeld) -> u32
    ensures holds { Holds decoder.old.held.place.value result decoder.new.held.place.value held.old held.new }
    ensures course { decoder.new.course ≡ decoder.old.course }
{
    match taken(std::mem::replace(&mut decoder.held, none(alloc)), alloc) {
        Some(boxed) => {
            *held = held_of(&boxed.held());
            decoder.held = holding(boxed);
            DONE
        }
        None => NO_DECODER,
    }
}

/// Frees a decoder, and leaves a handle that has none.
#[unsafe(no_mangle)]
pub extern "C" fn cqlp_free(alloc: Global, decoder: &mut CqlpDecoder) -> u32
    ensures code { result ≡ code_of_free decoder.old.held.place.value }
    ensures none { decoder.new.held.place.value ≡ None }
    ensures course { decoder.new.course ≡ decoder.old.course }
{
    match taken(std::mem::replace(&mut decoder.held, none(alloc)), alloc) {
        Some(_boxed) => DONE,
        None => NO_DECODER,
    }
}
