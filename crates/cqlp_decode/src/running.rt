//! A reader's stream, drained into a sink.

ghost use Rattle.std.specs.Prelude.{◌≡◌, List, ℕ, Some};
ghost use Rattle.cqlp_decode.specs.Draining.{Counts, MakesReads, Passes, ReadsInTime, RunsTo, WaitsAt, calls};
ghost use Rattle.cqlp_decode.specs.Streams.{state};
ghost use Rattle.cqlp_note.specs.declared.refusal.Refusal.{Refusal};

use crate::decoder::Decoder;
use crate::feeding::Fed;
use cqlp_grammar::{Finish, Sink};
use cqlp_note::{IoFault, Source};
use std::alloc::Allocator;

/// How a run ends.
#[derive(Clone, Copy, Debug, PartialEq, Eq)]
pub enum Outcome {
    /// At the end of the input, or at a refusal.
    Finished(Finish),
    /// The reader failed. The run may be called again.
    ReadFault,
    /// The sink failed. The rest of the piece is lost.
    SinkFault,
    /// As many reads were made as the run may make. The run may be called again.
    Turns,
}

/// Hands all events of a reader's bytes to the sink, from at most `turns` reads, each with room for 4,096 bytes and none
/// tried again. The events of bytes that the decoder was given before come first. No read is made before the sink has got
/// all events of the bytes read so far.
pub fn run<R: Source, S: Sink, A: Allocator>(
    decoder: &mut Decoder<A>,
    reader: &mut R,
    sink: &mut S,
    turns: u64,
) -> Outcome
    ensures runs { (xs : List ℕ) → R.left reader.old ≡ Some xs → S.reports sink.old →
        RunsTo S.after S.faulted turns result (state decoder.old) (state decoder.new)
        xs (R.left reader.new) (S.view sink.old) (S.view sink.new) }
    ensures waits { WaitsAt result (state decoder.new) }
    ensures refused { (r : Refusal) → (state decoder.old).refusal ≡ Some r →
        (result ≡ Outcome.Finished (Finish.Refused r)) × (state decoder.new ≡ state decoder.old)
        × (reader.new ≡ reader.old) × (sink.new ≡ sink.old) }
    ensures reads { MakesReads turns result (calls R.Source reader.old) (calls R.Source reader.new)
        (R.left reader.old) (R.left reader.new) }
    ensures in_time { (xs : List ℕ) → R.left reader.old ≡ Some xs → S.reports sink.old →
        ReadsInTime S.after S.faulted turns result (state decoder.old) (state decoder.new) xs (R.reads reader.old)
        (R.reads reader.new) (R.left reader.new) (S.view sink.old) (S.view sink.new) }
    ensures also { Passes S.also sink.old sink.new }
    ensures failures { Counts result (R.failures reader.old) (R.failures reader.new) }
    ensures rules { (state decoder.new).rules ≡ (state decoder.old).rules }
    ensures given { (state decoder.new).given ≡ (state decoder.old).given }
{
    let mut buffer = [0; 4096];
    match decoder.feed(&[], sink) {
        Fed::More => {}
        Fed::Refused { .. } => return Outcome::Finished(decoder.finish()),
        Fed::Fault { .. } => return Outcome::SinkFault,
    }
    for turn in 0..turns {
        if decoder.gathers() {
            let Ok(gathered) = decoder.read_content(reader) else {
                return Outcome::ReadFault;
            };
            if gathered == 0 {
                return Outcome::Finished(decoder.finish());
            }
            continue;
        }
        let count = match reader.read(&mut buffer) {
            Ok(count) => count,
            Err(IoFault) => return Outcome::ReadFault,
        };
        if count == 0 {
            return Outcome::Finished(decoder.finish());
        }
        match decoder.feed(&buffer[..count], sink) {
            Fed::More => {}
            Fed::Refused { .. } => return Outcome::Finished(decoder.finish()),
            Fed::Fault { .. } => return Outcome::SinkFault,
        }
    }
    Outcome::Turns
}
