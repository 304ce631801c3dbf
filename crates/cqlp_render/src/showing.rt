//! A whole stream, shown or checked.

ghost use Rattle.std.specs.Prelude.{◌≡◌, ◌↔◌, [], Err, IfOk, IfSome, IsErrOf};
ghost use Rattle.cqlp_decode.specs.Streams.{After, state};
ghost use Rattle.cqlp_note.specs.Limits.{first_bad, rules_of, with_lenient};
ghost use Rattle.cqlp_note.specs.declared.limits.BadLimits.{BadLimits as Bad};
ghost use Rattle.cqlp_text.specs.Endings.{IsStatusOfTask};
ghost use Rattle.cqlp_text.specs.PageText.{no_page};
ghost use Rattle.cqlp_text.specs.Outputs.{Output, written};
ghost use Rattle.cqlp_render.specs.Streams.{IfKnown, streams, unread};
ghost use Rattle.cqlp_render.specs.Showing.{ending_of, ChecksAndReports, ConcludesIfKnown, CountsReads, IsPassedOn, ReadsBy, ReadsNew};
ghost use Rattle.cqlp_render.specs.Showing.{ShowsAndReports, ShowsTo};
ghost use Rattle.cqlp_text.specs.declared.ending.Ending.{Ending};
ghost use Rattle.cqlp_render.specs.declared.text_form.TextForm.TheVariants as forms;

use crate::buffered_sink::BufferedSink;
use crate::form::{CsvRows, Form, JsonLines, JsonRows, Lines, Nothing};
use crate::render::{TextSink, run_flushing};
use crate::text_form::TextForm;
use cqlp_decode::{Decoder, NewError, Outcome, SinkFault, run};
use cqlp_note::{Limits, Source, Target};
use cqlp_text::exit_status::FAULT;
use cqlp_text::{Buffered, Ending, PagePlace, ending_line};
use std::alloc::Allocator;

/// How many reads the program makes at most.
pub const TURNS: u64 = 4_294_967_296;

/// How many bytes of text go to the output at once.
pub const ROOM: usize = 16_384;

/// Writes the lines of the events of a stream to `out`, and the verdict line or fault line to `err`. Answers the exit
/// status, and the two outputs.
pub fn show<R: Source, O: Target, E: Target, A: Allocator>(
    alloc: &A,
    limits: Limits,
    input: &mut R,
    out: O,
    err: E,
) -> (u8, O, E)
    requires { first_bad limits ≡ Ok tt }
    ensures status { IsStatusOfTask result.0 }
    ensures shows { let view = streams R.Source O.Target E.Target in
        ShowsAndReports forms.Lines (rules_of limits) TURNS (view input.old out err) result.0 (view input.new result.1 result.2) }
{
    show_as(alloc, limits, false, TextForm::Lines, input, out, err)
}

/// Writes the text of the pages of a stream to `out`, and the verdict line or fault line to `err`. Answers the exit
/// status, and the two outputs.
pub fn rows<R: Source, O: Target, E: Target, A: Allocator>(
    alloc: &A,
    limits: Limits,
    input: &mut R,
    out: O,
    err: E,
) -> (u8, O, E)
    requires { first_bad limits ≡ Ok tt }
    ensures status { IsStatusOfTask result.0 }
    ensures shows { let view = streams R.Source O.Target E.Target in
        ShowsAndReports (forms.Pages no_page) (rules_of limits) TURNS
        (view input.old out err) result.0 (view input.new result.1 result.2) }
{
    show_as(
        alloc,
        limits,
        false,
        TextForm::Pages(PagePlace::new()),
        input,
        out,
        err,
    )
}

/// Writes the events of a stream, whose reading is lenient or not, to `out` as text in a form, and the verdict line or fault line
/// to `err`. Answers the exit status, and the two outputs.
pub fn show_as<R: Source, O: Target, E: Target, A: Allocator>(
    alloc: &A,
    limits: Limits,
    lenient: bool,
    form: TextForm,
    input: &mut R,
    out: O,
    err: E,
) -> (u8, O, E)
    requires { first_bad limits ≡ Ok tt }
    ensures status { IsStatusOfTask result.0 }
    ensures shows { let view = streams R.Source O.Target E.Target in
        ShowsAndReports form (with_lenient lenient (rules_of limits)) TURNS
        (view input.old out err) result.0 (view input.new result.1 result.2) }
{
    match form {
        TextForm::Lines => show_in(alloc, limits, lenient, Lines, input, out, err),
        TextForm::JsonLines => show_in(alloc, limits, lenient, JsonLines, input, out, err),
        TextForm::Pages(place) => show_in(alloc, limits, lenient, place, input, out, err),
        TextForm::JsonRows(place) => {
            show_in(alloc, limits, lenient, JsonRows(place), input, out, err)
        }
        TextForm::CsvRows(place) => {
            show_in(alloc, limits, lenient, CsvRows(place), input, out, err)
        }
        TextForm::Nothing => show_in(alloc, limits, lenient, Nothing, input, out, err),
    }
}

/// Does what `show_as` does, with the type of the form.
fn show_in<R: Source, O: Target, E: Target, F: Form + Drop, A: Allocator>(
    alloc: &A,
    limits: Limits,
    lenient: bool,
    form: F,
    input: &mut R,
    out: O,
    err: E,
) -> (u8, O, E)
    requires { first_bad limits ≡ Ok tt }
    ensures status { IsStatusOfTask result.0 }
    ensures shows { let view = streams R.Source O.Target E.Target in
        ShowsAndReports (F.form form) (with_lenient lenient (rules_of limits)) TURNS
        (view input.old out err) result.0 (view input.new result.1 result.2) }
{
    let Some(mut decoder) = decoder_within(alloc, limits, lenient) else {
        let (status, err) = conclude(Ending::NoMemory, err);
        return (status, out, err);
    };
    let Ok(buffer) = vec![in alloc; 0; ROOM] else {
        let (status, err) = conclude(Ending::NoMemory, err);
        return (status, out, err);
    };
    let mut sink = BufferedSink::new(Buffered::new(out, buffer), form);
    let outcome = run_flushing(&mut decoder, input, &mut sink, TURNS);
    let (outcome, out) = pass_on(outcome, sink.into_inner());
    let (status, err) = conclude(ending_of(outcome), err);
    (status, out, err)
}

/// Reads a stream, leniently or not, and writes the verdict line to `out` or the fault line to `err`. Answers the exit status,
/// and the two outputs.
pub fn check<R: Source, O: Target, E: Target, A: Allocator>(
    alloc: &A,
    limits: Limits,
    lenient: bool,
    input: &mut R,
    out: O,
    err: E,
) -> (u8, O, E)
    requires { first_bad limits ≡ Ok tt }
    ensures status { IsStatusOfTask result.0 }
    ensures checks { let view = streams R.Source O.Target E.Target in
        ChecksAndReports (with_lenient lenient (rules_of limits)) TURNS
        (view input.old out err) result.0 (view input.new result.1 result.2) }
{
    let (ending, mut out) = read_through(alloc, limits, lenient, input, out);
    let Ending::Finished(_) = ending else {
        let (status, err) = conclude(ending, err);
        return (status, out, err);
    };
    let Err(SinkFault) = ending_line(ending, &mut out) else {
        return (ending.status(), out, err);
    };
    let (status, err) = conclude(Ending::WriteFault, err);
    (status, out, err)
}

/// Reads a stream within these limits, and writes nothing of it.
fn read_through<R: Source, O: Target, A: Allocator>(
    alloc: &A,
    limits: Limits,
    lenient: bool,
    input: &mut R,
    out: O,
) -> (Ending, O)
    requires { first_bad limits ≡ Ok tt }
    ensures shows { IfKnown (unread R.Source input.old) (written O.Target out) (λ xs.
        ShowsTo forms.Nothing (with_lenient lenient (rules_of limits)) TURNS result.0 xs (R.left input.new) (written O.Target out)
        (written O.Target result.1)) }
    ensures failures { CountsReads result.0 (R.failures input.old) (R.failures input.new) }
    ensures reads { ReadsBy TURNS result.0 (unread R.Source input.old) (unread R.Source input.new) }
    ensures in_time { IfKnown (unread R.Source input.old) (written O.Target out) (λ xs.
        ReadsNew forms.Nothing (with_lenient lenient (rules_of limits)) TURNS xs (unread R.Source input.old) (unread R.Source input.new)
        (written O.Target out) (written O.Target result.1)) }
{
    let Some(mut decoder) = decoder_within(alloc, limits, lenient) else {
        return (Ending::NoMemory, out);
    };
    let mut sink = TextSink::new(out, Nothing);
    let outcome = run(&mut decoder, input, &mut sink, TURNS);
    (ending_of(outcome), sink.into_inner())
}

/// A decoder at the start of a stream, within these limits, lenient or not; none where memory was wanting.
fn decoder_within<'a, A: Allocator>(
    alloc: &'a A,
    limits: Limits,
    lenient: bool,
) -> Option<Decoder<&'a A>>
    requires { first_bad limits ≡ Ok tt }
    ensures fresh { IfSome result (λ d. After (state d) [] []) }
    ensures unrefused { IfSome result (λ d. (state d).refusal ≡ None) }
    ensures rules { IfSome result (λ d. (state d).rules ≡ with_lenient lenient (rules_of limits)) }
{
    match new_decoder(alloc, limits, lenient) {
        Ok(decoder) => Some(decoder),
        Err(NewError::NoMemory) => None,
        Err(NewError::BadLimits(_)) => unreachable!(),
    }
}

/// A decoder, which is lenient or not.
fn new_decoder<A: Allocator + Clone>(
    alloc: A,
    limits: Limits,
    lenient: bool,
) -> Result<Decoder<A>, NewError>
    ensures bad { (b : Bad) → IsErrOf result (NewError.BadLimits b) ↔ (first_bad limits ≡ Err b) }
    ensures fresh { IfOk result (λ d. After (state d) [] []) }
    ensures unrefused { IfOk result (λ d. (state d).refusal ≡ None) }
    ensures rules { IfOk result (λ d. (state d).rules ≡ with_lenient lenient (rules_of limits)) }
{
    if lenient {
        Decoder::lenient(alloc, limits)
    } else {
        Decoder::new(alloc, limits)
    }
}

/// How the command ends where a run does.
fn ending_of(outcome: Outcome) -> Ending
    ensures { result ≡ ending_of outcome }
{
    match outcome {
        Outcome::Finished(finish) => Ending::Finished(finish),
        Outcome::ReadFault => Ending::ReadFault,
        Outcome::SinkFault => Ending::WriteFault,
        Outcome::Turns => Ending::TooManyTurns,
    }
}

/// Passes on what waits in a buffer after a run, unless the target failed in it. Answers how it ends, and the target.
fn pass_on<O: Target, A: Allocator>(outcome: Outcome, mut buffered: Buffered<O, A>) -> (Outcome, O)
    ensures { IsPassedOn outcome buffered result.0 (written O.Target result.1) }
{
    if let Outcome::SinkFault = outcome {
        return (outcome, buffered.into_inner());
    }
    match buffered.flush() {
        Ok(()) => (outcome, buffered.into_inner()),
        Err(SinkFault) => (Outcome::SinkFault, buffered.into_inner()),
    }
}

/// Writes the verdict line or fault line. Answers the exit status, which is that of a fault where the target fails.
pub fn conclude<E: Target>(ending: Ending, mut err: E) -> (u8, E)
    ensures status { IsStatusOfTask result.0 }
    ensures concludes { ConcludesIfKnown ending (written E.Target err) result.0 (written E.Target result.1) }
{
    match ending_line(ending, &mut err) {
        Ok(()) => (ending.status(), err),
        Err(SinkFault) => (FAULT, err),
    }
}
