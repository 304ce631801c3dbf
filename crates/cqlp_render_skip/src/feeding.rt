//! A piece of a stream, written as text with frames passed over.

ghost use Rattle.std.specs.Prelude.{◌≡◌, ◌++◌, List, ℕ};
ghost use Rattle.cqlp_note.specs.Limits.{Rules};
ghost use Rattle.cqlp_render.specs.declared.text_form.TextForm.{TextForm as Form};
ghost use Rattle.cqlp_render_skip.specs.Reporting.{AreKnown, GoOn, HandsTo, Outputs, Reports};
ghost use Rattle.cqlp_render_skip.specs.Texts.{afresh};

use crate::report::Report;
use cqlp_decode::SinkFault;
use cqlp_note::{Refusal, Target};
use cqlp_skip::{Fed, SkippingDecoder};
use std::alloc::Allocator;

/// How handing on a piece ends.
#[derive(Clone, Copy)]
pub(crate) enum Handed {
    /// All of it was used, and more is wanted.
    More,
    /// The stream is refused in a frame that cannot be passed over.
    Refused(Refusal),
    /// One of the outputs failed.
    Fault,
}

/// Hands all events of a piece to the report, and passes over each frame whose body is refused.
pub(crate) fn hand_piece<O: Target, E: Target, A: Allocator, B: Allocator>(
    decoder: &mut SkippingDecoder<A>,
    piece: &[u8],
    report: Report<O, E, B>,
) -> (Handed, Report<O, E, B>)
    ensures hands { (form : Form) (l : Rules) (xs s later : List ℕ) (first : Outputs) → afresh form ≡ form
        → AreKnown first → xs ≡ (s ++ piece.now) ++ later → Reports form l xs first decoder.old s report
        → HandsTo form l xs first s piece.now result.0 decoder.new result.1 }
    ensures goes_on { GoOn report result.1 }
{
    let mut rest = piece;
    let mut reporter = report;
    'stretches: loop {
        let (fed, next) = decoder.feed(rest, reporter);
        reporter = next;
        match fed {
            Fed::More => return (Handed::More, reporter),
            Fed::Fault { .. } => return (Handed::Fault, reporter),
            Fed::Refused { used, refusal } => {
                let skipped = match decoder.skip() {
                    Ok(skipped) => skipped,
                    Err(_) => return (Handed::Refused(refusal), reporter),
                };
                if let Err(SinkFault) = reporter.end_stretch(&skipped) {
                    return (Handed::Fault, reporter);
                }
                rest = &rest[used..];
            }
        }
    }
}
