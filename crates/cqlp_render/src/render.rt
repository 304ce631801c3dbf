//! Streams as text.

ghost use Rattle.std.specs.Prelude.{◌≡◌, Some, IsSome, []};
ghost use Rattle.cqlp_decode.specs.Draining.{Counts, MakesReads, WaitsAt, calls};
ghost use Rattle.cqlp_note.specs.declared.refusal.Refusal.{Refusal};
ghost use Rattle.cqlp_decode.specs.Streams.{After, state};

use crate::buffered_sink::BufferedSink;
use crate::form::{Form, Lines};
use cqlp_decode::{Decoder, Event, Finish, Outcome, Sink, SinkFault, run};
use cqlp_note::{Source, Target};
use cqlp_text::PagePlace;
use std::alloc::Allocator;
use std::marker::Model;

/// Writes the text of each event to a target. No part of a text waits between two events.
#[derive(Drop)]
pub(crate) struct TextSink<W: Target, F: Form> {
    target: W,
    form: F,
}

impl<W: Target, F: Form> Model for TextSink<W, F> {
    ghost use Rattle.std.specs.Prelude.{◌≡◌, []};
    ghost use Rattle.cqlp_text.specs.Outputs.{written};
    ghost use Rattle.cqlp_render.specs.Rendering.{Rendering, rendering};

    ghost Value = { Rendering };

    ghost view = { λ s. rendering (written W.Target s.target) (F.form s.form) };
}

impl<W: Target, F: Form + Drop> TextSink<W, F> {
    ghost use Rattle.cqlp_text.specs.Outputs.{written};
    ghost use Rattle.cqlp_render.specs.Rendering.{rendering};

    /// Over a target, in a form.
    pub fn new(target: W, form: F) -> Self
        ensures { result ≡ rendering (written W.Target target) (F.form form) }
    {
        TextSink { target, form }
    }

    /// The target.
    pub fn into_inner(self) -> W
        ensures { written W.Target result ≡ self.output }
    {
        let TextSink { target, form: _ } = self;
        target
    }
}

impl<W: Target, F: Form> Sink for TextSink<W, F> {
    ghost use Rattle.cqlp_render.specs.Rendering.{Rendering, with_event, StopsWithinEvent};

    ghost View = { Rendering };

    ghost view = { λ s. s };

    ghost reports = { λ s. IsSome s.output.given };

    ghost after = { with_event };

    ghost faulted = { StopsWithinEvent };

    #[inline]
    fn take(&mut self, at: u64, event: &Event<'_>) -> Result<(), SinkFault> {
        self.form.put(at, event, &mut self.target)
    }
}

ghost use Rattle.cqlp_text.specs.PageText.{no_page};
ghost use Rattle.cqlp_text.specs.Outputs.{written};
ghost use Rattle.cqlp_render.specs.Rendering.{ReadsOnlyAfterText, RendersInTime, RendersTo, rendered};
ghost use Rattle.cqlp_render.specs.Streams.{IfKnown, unread};
ghost use Rattle.cqlp_render.specs.Showing.{RendersOrFails};
ghost use Rattle.cqlp_render.specs.declared.text_form.TextForm.TheVariants as forms;

/// Writes the lines of all events of a reader's bytes, from at most `turns` reads. The events of bytes that the decoder
/// was given before come first. A fault of the writer is `Outcome::SinkFault`.
pub fn render_events<R: Source, W: Target, A: Allocator>(
    decoder: &mut Decoder<A>,
    reader: &mut R,
    w: W,
    turns: u64,
) -> (Outcome, W)
    ensures lines { IfKnown (unread R.Source reader.old) (written W.Target w) (λ xs.
        RendersTo forms.Lines turns result.0 (state decoder.old) (state decoder.new) xs (R.left reader.new)
        (written W.Target w) (written W.Target result.1)) }
    ensures in_time { IfKnown (unread R.Source reader.old) (written W.Target w) (λ xs.
        RendersInTime forms.Lines turns result.0 (state decoder.old) (state decoder.new) xs (R.reads reader.old)
        (R.reads reader.new) (R.left reader.new) (written W.Target w) (written W.Target result.1)) }
    ensures waits { WaitsAt result.0 (state decoder.new) }
    ensures refused { (r : Refusal) → (state decoder.old).refusal ≡ Some r →
        (result.0 ≡ Outcome.Finished (Finish.Refused r)) × (state decoder.new ≡ state decoder.old)
        × (reader.new ≡ reader.old) × (written W.Target result.1 ≡ written W.Target w) }
    ensures reads { MakesReads turns result.0 (calls R.Source reader.old) (calls R.Source reader.new)
        (R.left reader.old) (R.left reader.new) }
    ensures failures { Counts result.0 (R.failures reader.old) (R.failures reader.new) }
    ensures rules { (state decoder.new).rules ≡ (state decoder.old).rules }
{
    let mut sink = TextSink::new(w, Lines);
    let outcome = run(decoder, reader, &mut sink, turns);
    (outcome, sink.into_inner())
}

/// Writes the text of the pages of a reader's bytes, from at most `turns` reads, with a decoder that is new or has just
/// handed out the end of a frame. Of a page that is under way nothing is written. A fault of the writer is
/// `Outcome::SinkFault`.
pub fn render_rows<R: Source, W: Target, A: Allocator>(
    decoder: &mut Decoder<A>,
    reader: &mut R,
    w: W,
    turns: u64,
) -> (Outcome, W)
    ensures text { IfKnown (unread R.Source reader.old) (written W.Target w) (λ xs.
        RendersTo (forms.Pages no_page) turns result.0 (state decoder.old) (state decoder.new) xs (R.left reader.new)
        (written W.Target w) (written W.Target result.1)) }
    ensures in_time { IfKnown (unread R.Source reader.old) (written W.Target w) (λ xs.
        RendersInTime (forms.Pages no_page) turns result.0 (state decoder.old) (state decoder.new) xs (R.reads reader.old)
        (R.reads reader.new) (R.left reader.new) (written W.Target w) (written W.Target result.1)) }
    ensures waits { WaitsAt result.0 (state decoder.new) }
    ensures refused { (r : Refusal) → (state decoder.old).refusal ≡ Some r →
        (result.0 ≡ Outcome.Finished (Finish.Refused r)) × (state decoder.new ≡ state decoder.old)
        × (reader.new ≡ reader.old) × (written W.Target result.1 ≡ written W.Target w) }
    ensures reads { MakesReads turns result.0 (calls R.Source reader.old) (calls R.Source reader.new)
        (R.left reader.old) (R.left reader.new) }
    ensures failures { Counts result.0 (R.failures reader.old) (R.failures reader.new) }
    ensures rules { (state decoder.new).rules ≡ (state decoder.old).rules }
{
    let mut sink = TextSink::new(w, PagePlace::new());
    let outcome = run(decoder, reader, &mut sink, turns);
    (outcome, sink.into_inner())
}

/// Hands all events of a reader's bytes to a sink over a buffer, from at most `turns` reads, as `run` does. Before each
/// read, the text of the events so far is passed on.
pub(crate) fn run_flushing<R: Source, W: Target, F: Form, A: Allocator, B: Allocator>(
    decoder: &mut Decoder<A>,
    reader: &mut R,
    sink: &mut BufferedSink<W, B, F>,
    turns: u64,
) -> Outcome
    ensures renders { let first = (rendered sink.old).output in
        IfKnown (unread R.Source reader.old) first (λ xs. After (state decoder.old) [] [] →
        RendersOrFails sink.old.form turns result (state decoder.old) (state decoder.new) xs (R.left reader.new)
        first (rendered sink.new).output) }
    ensures in_time { let first = (rendered sink.old).output in
        IfKnown (unread R.Source reader.old) first (λ xs. After (state decoder.old) [] [] →
        ReadsOnlyAfterText sink.old.form turns (state decoder.old) xs (R.reads reader.old) (R.reads reader.new)
        (R.left reader.new) first sink.new.written.given) }
    ensures reads { MakesReads turns result (calls R.Source reader.old) (calls R.Source reader.new)
        (R.left reader.old) (R.left reader.new) }
    ensures failures { Counts result (R.failures reader.old) (R.failures reader.new) }
    ensures rules { (state decoder.new).rules ≡ (state decoder.old).rules }
{
    let mut outcome = run(decoder, reader, sink, 0);
    for turn in 0..turns {
        let Outcome::Turns = outcome else {
            return outcome;
        };
        let Ok(()) = sink.flush() else {
            return Outcome::SinkFault;
        };
        outcome = run(decoder, reader, sink, 1);
    }
    outcome
}
