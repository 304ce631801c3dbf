//! A stream that is read to its end, with frames passed over.

ghost use Rattle.std.specs.Prelude.{◌≡◌, ◌↔◌, [], Err, IfOk, IfSome, IsErrOf, IsSome, List, ℕ, Ok, None, false};
ghost use Rattle.cqlp_note.specs.Limits.{Rules, first_bad, rules_of, with_lenient};
ghost use Rattle.cqlp_note.specs.declared.limits.BadLimits.{BadLimits as Bad};
ghost use Rattle.cqlp_render.specs.declared.text_form.TextForm.{TextForm as Form};
ghost use Rattle.cqlp_render.specs.Streams.{IfKnown, unread};
ghost use Rattle.cqlp_render_skip.specs.Reporting.{Outputs, outputs};
ghost use Rattle.cqlp_render_skip.specs.Showing.{Begins, Reads};
ghost use Rattle.cqlp_render_skip.specs.Texts.{afresh};
ghost use Rattle.cqlp_skip.specs.Skipping.{AfterSkips, rules_in, stream};
ghost use Rattle.cqlp_text.specs.Outputs.{written};

use crate::feeding::{Handed, hand_piece};
use crate::report::Report;
use cqlp_decode::{Finish, NewError, SinkFault};
use cqlp_note::{IoFault, Limits, Source, Target};
use cqlp_render::{TURNS, TextForm};
use cqlp_skip::SkippingDecoder;
use cqlp_text::{Buffered, Ending};
use std::alloc::Allocator;

/// How many bytes of text go to the output at once.
pub const ROOM: usize = 65_536;

/// How reading a stream ended, whether a frame was passed over, and the two outputs.
pub(crate) struct Shown<O: Target, E: Target> {
    pub ending: Ending,
    pub passed_over: bool,
    pub out: O,
    pub err: E,
}

/// Writes the text of the events of a stream within these limits, read leniently or not, in a form, and a line for each frame that
/// is passed over. Takes all memory before the first read.
pub(crate) fn show_stream<R: Source, O: Target, E: Target, A: Allocator>(
    alloc: &A,
    limits: Limits,
    lenient: bool,
    form: TextForm,
    input: &mut R,
    out: O,
    err: E,
) -> Shown<O, E>
    requires limits { first_bad limits ≡ Ok tt }
    requires form { afresh form ≡ form }
    ensures { IfKnown (unread R.Source input.old) (written O.Target out) (λ xs. IsSome (written E.Target err).given →
        Reads form (with_lenient lenient (rules_of limits)) xs (record { out = written O.Target out; err = written E.Target err }) TURNS
        result.ending result.passed_over (unread R.Source input.old) (unread R.Source input.new)
        (record { out = written O.Target result.out; err = written E.Target result.err })) }
{
    let Some(mut decoder) = decoder_within(alloc, limits, lenient) else {
        return nothing_shown(out, err);
    };
    let Ok(buffer) = vec![in alloc; 0; ROOM] else {
        return nothing_shown(out, err);
    };
    let report = Report::new(Buffered::new(out, buffer), form, err);
    let (ending, report) = read_stream(&mut decoder, input, report);
    let (passed_over, out, err) = report.into_parts();
    Shown {
        ending,
        passed_over,
        out,
        err,
    }
}

/// Where memory was wanting.
fn nothing_shown<O: Target, E: Target>(out: O, err: E) -> Shown<O, E>
    ensures { result ≡ record { ending = Ending.NoMemory; passed_over = false; out = out; err = err } }
{
    Shown {
        ending: Ending::NoMemory,
        passed_over: false,
        out,
        err,
    }
}

/// A decoder at the start of a stream, within these limits, lenient or not; none where memory was wanting.
fn decoder_within<'a, A: Allocator>(
    alloc: &'a A,
    limits: Limits,
    lenient: bool,
) -> Option<SkippingDecoder<&'a A>>
    requires { first_bad limits ≡ Ok tt }
    ensures fresh { (xs : List ℕ) → IfSome result (λ d. AfterSkips xs d [] [] [] []) }
    ensures unrefused { IfSome result (λ d. (stream d).refusal ≡ None) }
    ensures rules { IfSome result (λ d. rules_in d ≡ with_lenient lenient (rules_of limits)) }
{
    match new_decoder(alloc, limits, lenient) {
        Ok(decoder) => Some(decoder),
        Err(NewError::NoMemory) => None,
        Err(NewError::BadLimits(_)) => unreachable!(),
    }
}

/// A decoder, which is lenient or not.
fn new_decoder<A: Allocator + Clone>(
    alloc: A,
    limits: Limits,
    lenient: bool,
) -> Result<SkippingDecoder<A>, NewError>
    ensures bad { (b : Bad) → IsErrOf result (NewError.BadLimits b) ↔ (first_bad limits ≡ Err b) }
    ensures fresh { (xs : List ℕ) → IfOk result (λ d. AfterSkips xs d [] [] [] []) }
    ensures unrefused { IfOk result (λ d. (stream d).refusal ≡ None) }
    ensures rules { IfOk result (λ d. rules_in d ≡ with_lenient lenient (rules_of limits)) }
{
    if lenient {
        SkippingDecoder::lenient(alloc, limits)
    } else {
        SkippingDecoder::new(alloc, limits)
    }
}

/// Reads a stream from at most `TURNS` reads, each with room for 4,096 bytes and none tried again, and has the report write
/// what is to be written of it. Before each read all text of the bytes read so far is passed on.
fn read_stream<R: Source, O: Target, E: Target, A: Allocator, B: Allocator>(
    decoder: &mut SkippingDecoder<A>,
    input: &mut R,
    report: Report<O, E, B>,
) -> (Ending, Report<O, E, B>)
    ensures { (form : Form) (l : Rules) (xs : List ℕ) (first : Outputs) → Begins form l xs first (R.left input.old) decoder.old report
        → Reads form l xs first TURNS result.0 result.1.passed (unread R.Source input.old) (unread R.Source input.new)
        (outputs result.1) }
{
    let mut reporter = report;
    let mut buffer = [0; 4096];
    for turn in 0..TURNS {
        let count = match input.read(&mut buffer) {
            Ok(count) => count,
            Err(IoFault) => return (Ending::ReadFault, reporter),
        };
        if count == 0 {
            return (Ending::Finished(decoder.finish()), reporter);
        }
        let (handed, next) = hand_piece(decoder, &buffer[..count], reporter);
        reporter = next;
        if let Handed::Fault = handed {
            return (Ending::WriteFault, reporter);
        }
        if let Err(SinkFault) = reporter.flush() {
            return (Ending::WriteFault, reporter);
        }
        if let Handed::Refused(refusal) = handed {
            return (Ending::Finished(Finish::Refused(refusal)), reporter);
        }
    }
    (Ending::TooManyTurns, reporter)
}
