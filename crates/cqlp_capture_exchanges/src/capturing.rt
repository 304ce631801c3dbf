//! A capture whose exchanges are written.

ghost use Rattle.std.specs.Prelude.{◌≡◌, ℕ, true, List, [], IsSome, OnOk, Some};
ghost use Rattle.cqlp_text.specs.Endings.{IsStatusOfTask};
ghost use Rattle.cqlp_text.specs.Outputs.{output, written};
ghost use Rattle.cqlp_text.specs.Written.{Writes};
ghost use Rattle.cqlp_tcp_connections.specs.Limits.{is_in_range};
ghost use Rattle.cqlp_capture_streams.specs.Captures.{AreCounted, ReadsMade, read_counts};
ghost use Rattle.cqlp_capture_streams.specs.declared.buffering.Buffering.TheVariants.{Block};
ghost use Rattle.cqlp_observer.specs.Misses.{none_missed};
ghost use Rattle.cqlp_capture_exchanges.specs.Accounts.{no_sums};
ghost use Rattle.cqlp_capture_exchanges.specs.Capturing.{Closes, ConcludesSums, Listens, ListensBy, WritesExchanges, sums_words, words_of};
ghost use Rattle.cqlp_capture_exchanges.specs.Losses.{note_text};

use crate::exchanges::Exchanges;
use crate::filter::ExchangeFilter;
use crate::form::ExchangeForm;
use crate::losses::{Losses, losses_of, put_losses};
use crate::pool::ExchangeLimits;
use crate::sums::ExchangeSums;
use cqlp_capture_streams::{
    BlockWriter, Buffering, CaptureInput, CaptureRead, LastWords, StreamsFault, StreamsLimits,
    conclude_capture, finish_blocks, read_capture,
};
use cqlp_grammar::SinkFault;
use cqlp_note::Target;
use cqlp_observer::Missed;
use cqlp_statement_file::StatementTexts;
use cqlp_text::{Pen, TextWriter};
use std::alloc::Global;

/// Pairs the requests on the connections of a capture with their responses, of nodes that listen on these ports, within these limits. Writes each that the
/// filter shows to `out` in this form, with these texts of statements where the capture has no PREPARE with the id, and what the capture was, or the fault
/// line, to `err`. Answers the exit status and the two outputs.
///
/// Lines are written at once, or in blocks; without memory for a block also at once. The last block is written before the last line. After a fault
/// nothing more is asked of what failed.
pub fn write_exchanges<R: CaptureInput, O: Target, E: Target>(
    alloc: Global,
    streams: StreamsLimits,
    limits: ExchangeLimits,
    ports: &[u16],
    given: StatementTexts,
    filter: ExchangeFilter,
    form: ExchangeForm,
    buffering: Buffering,
    input: &mut R,
    out: O,
    err: E,
) -> (u8, O, E)
    requires { is_in_range streams.connections ≡ true }
    ensures task { IsStatusOfTask result.0 }
    ensures exchanges { (xs : List ℕ) → R.left input.old ≡ Some xs → IsSome (O.contents out) → IsSome (E.contents err) →
        (m : ReadsMade) × AreCounted m (read_counts R.Source input.old) (read_counts R.Source input.new)
        × WritesExchanges buffering streams limits given filter form ports.now xs m (R.left input.new) (written O.Target out) (written E.Target err)
        result.0 (written O.Target result.1) (written E.Target result.2) }
{
    let (answer, counts, out) = listen_by(
        alloc, streams, limits, ports, given, filter, form, buffering, input, out,
    );
    let (status, err) = conclude(streams, limits, ports, &answer, &counts, err);
    (status, out, err)
}

/// What was reported of a capture's connections, and what was missed.
#[derive(Clone, Copy)]
struct Counts {
    sums: ExchangeSums,
    missed: Missed,
}

impl Counts {
    /// Nothing.
    fn none() -> Self
        ensures sums { result.sums ≡ no_sums }
        ensures missed { result.missed ≡ none_missed }
    {
        Counts {
            sums: ExchangeSums::none(),
            missed: Missed::NONE,
        }
    }
}

/// Reads the capture, and writes the lines, at once or in blocks. Answers what it was, what was reported, and the output.
fn listen_by<R: CaptureInput, O: Target>(
    alloc: Global,
    streams: StreamsLimits,
    limits: ExchangeLimits,
    ports: &[u16],
    given: StatementTexts,
    filter: ExchangeFilter,
    form: ExchangeForm,
    buffering: Buffering,
    input: &mut R,
    out: O,
) -> (Result<CaptureRead, StreamsFault>, Counts, O)
    requires { is_in_range streams.connections ≡ true }
    ensures { (xs : List ℕ) → R.left input.old ≡ Some xs → IsSome (O.contents out) →
        (m : ReadsMade) × AreCounted m (read_counts R.Source input.old) (read_counts R.Source input.new)
        × ListensBy buffering streams limits given filter form ports.now xs m result.0 (R.left input.new) (written O.Target out) result.1.sums result.1.missed
        (written O.Target result.2) }
{
    match buffering {
        Buffering::Line => listen(
            alloc, streams, limits, ports, given, filter, form, input, out,
        ),
        Buffering::Block => match BlockWriter::new(alloc, out) {
            Ok(blocks) => {
                listen_in_blocks(
                    alloc, streams, limits, ports, given, filter, form, input, blocks,
                )
            }
            Err(out) => listen(
                alloc, streams, limits, ports, given, filter, form, input, out,
            ),
        },
    }
}

/// Reads the capture, and writes the lines in blocks, of which none waits yet.
fn listen_in_blocks<R: CaptureInput, O: Target>(
    alloc: Global,
    streams: StreamsLimits,
    limits: ExchangeLimits,
    ports: &[u16],
    given: StatementTexts,
    filter: ExchangeFilter,
    form: ExchangeForm,
    input: &mut R,
    blocks: BlockWriter<O>,
) -> (Result<CaptureRead, StreamsFault>, Counts, O)
    requires range { is_in_range streams.connections ≡ true }
    requires none { blocks.waiting ≡ [] }
    ensures { (xs : List ℕ) → R.left input.old ≡ Some xs → IsSome blocks.given →
        (m : ReadsMade) × AreCounted m (read_counts R.Source input.old) (read_counts R.Source input.new)
        × ListensBy Block streams limits given filter form ports.now xs m result.0 (R.left input.new) (output blocks.given blocks.failures)
        result.1.sums result.1.missed (written O.Target result.2) }
{
    let (read, counts, blocks) = listen(
        alloc, streams, limits, ports, given, filter, form, input, blocks,
    );
    let (answer, out) = finish_blocks(read, blocks);
    (answer, counts, out)
}

/// Reads the capture, and writes the lines. Answers what it was, what was reported, and the output.
fn listen<R: CaptureInput, O: Target>(
    alloc: Global,
    streams: StreamsLimits,
    limits: ExchangeLimits,
    ports: &[u16],
    given: StatementTexts,
    filter: ExchangeFilter,
    form: ExchangeForm,
    input: &mut R,
    out: O,
) -> (Result<CaptureRead, StreamsFault>, Counts, O)
    requires { is_in_range streams.connections ≡ true }
    ensures { (xs : List ℕ) → R.left input.old ≡ Some xs → IsSome (O.contents out) →
        (m : ReadsMade) × AreCounted m (read_counts R.Source input.old) (read_counts R.Source input.new)
        × Listens streams limits given filter form ports.now xs m result.0 (R.left input.new) (written O.Target out) result.1.sums result.1.missed
        (written O.Target result.2) }
{
    let mut exchanges = match Exchanges::new(alloc, limits, given, filter, form, out) {
        Ok(exchanges) => exchanges,
        Err(out) => return (Err(StreamsFault::NoMemory), Counts::none(), out),
    };
    let read = read_capture(alloc, streams, ports, input, &mut exchanges);
    let answer = finish(&mut exchanges, read);
    let missed = exchanges.missed();
    let (out, sums) = exchanges.into_parts();
    (answer, Counts { sums, missed }, out)
}

/// Where the capture was read, writes what is at the end.
fn finish<O: Target>(
    exchanges: &mut Exchanges<O>,
    read: Result<CaptureRead, StreamsFault>,
) -> Result<CaptureRead, StreamsFault>
    ensures closes { OnOk read (IsSome exchanges.old.account.output.given) →
        Closes exchanges.old.account read result exchanges.new.account.output }
    ensures sums { OnOk read (IsSome exchanges.old.account.output.given) → exchanges.new.account.sums ≡ exchanges.old.account.sums }
    ensures table { exchanges.new.table ≡ exchanges.old.table }
{
    match read {
        Ok(read) => match exchanges.finish() {
            Ok(()) => Ok(read),
            Err(SinkFault) => Err(StreamsFault::Write),
        },
        Err(fault) => Err(fault),
    }
}

/// Writes the lines of how the reading ended. Answers the exit status.
fn conclude<E: Target>(
    streams: StreamsLimits,
    limits: ExchangeLimits,
    ports: &[u16],
    answer: &Result<CaptureRead, StreamsFault>,
    counts: &Counts,
    err: E,
) -> (u8, E)
    ensures task { IsStatusOfTask result.0 }
    ensures concludes { IsSome (E.contents err) →
        ConcludesSums streams limits ports.now counts.now.sums counts.now.missed answer.now (written E.Target err) result.0 (written E.Target result.1) }
{
    let last = LastCounts {
        sums: counts.sums,
        losses: losses_of(streams, limits, answer, &counts.sums, &counts.missed),
    };
    conclude_capture(answer, ports, &last, err)
}

/// What the last line says of the connections: the sums, and what was missed.
#[derive(Clone, Copy)]
struct LastCounts {
    sums: ExchangeSums,
    losses: Losses,
}

impl LastWords for LastCounts {
    ghost note = { λ last. note_text last.losses };

    ghost words = { λ last. words_of last.sums last.losses };

    #[tactic(auto, using(crate::proofs::Missing::some_noted))]
    fn has_note(&self) -> bool {
        self.losses.are_some()
    }

    fn put_note<P: Pen>(&self, writer: &mut TextWriter<P>) -> Result<(), SinkFault> {
        self.losses.put_note(writer)
    }

    fn put_words<P: Pen>(&self, writer: &mut TextWriter<P>) -> Result<(), SinkFault> {
        put_words(writer, &self.sums, &self.losses)
    }
}

fn put_words<P: Pen>(
    writer: &mut TextWriter<P>,
    sums: &ExchangeSums,
    losses: &Losses,
) -> Result<(), SinkFault>
    ensures { Writes writer.old (words_of sums.now losses.now) result writer.new }
{
    put_sums(writer, sums)?;
    put_losses(writer, losses)
}

/// Takes the words of the sums.
fn put_sums<P: Pen>(writer: &mut TextWriter<P>, sums: &ExchangeSums) -> Result<(), SinkFault>
    ensures { Writes writer.old (sums_words sums.now) result writer.new }
{
    writer.put(b"exchanges ")?;
    writer.put_number(sums.exchanges)?;
    writer.put(b" unanswered ")?;
    writer.put_number(sums.unanswered)?;
    writer.put(b" unasked ")?;
    writer.put_number(sums.unasked)?;
    writer.put(b" events ")?;
    writer.put_number(sums.events)?;
    writer.put(b" cut ")?;
    writer.put_number(sums.cut)
}
