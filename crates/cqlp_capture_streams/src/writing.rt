//! A capture whose streams are written.

ghost use Rattle.std.specs.Prelude.{◌≡◌, ℕ, List, IsSome, Some, true};
ghost use Rattle.cqlp_tcp_connections.specs.Limits.{is_in_range};
ghost use Rattle.cqlp_text.specs.Endings.{IsStatusOfTask};
ghost use Rattle.cqlp_text.specs.Outputs.{written};
ghost use Rattle.cqlp_capture_streams.specs.Captures.{AreCounted, ReadsMade, read_counts};
ghost use Rattle.cqlp_capture_streams.specs.Streams.{WritesStreams, WritesStreamsBy};

use crate::capturing::read_capture;
use crate::ending::conclude_capture;
use crate::files::StreamFiles;
use crate::input::CaptureInput;
use crate::limits::StreamsLimits;
use crate::recorder::Recorder;
use cqlp_note::Target;
use std::alloc::Global;

/// Splits a capture into the streams of its connections with nodes that listen on these ports. Writes a line for each gap and for each
/// connection to `out`, and what the capture was, or the fault line, to `err`. Answers the exit status, the files and the two outputs.
///
/// After a fault nothing more is asked of what failed.
pub fn write_streams<R: CaptureInput, F: StreamFiles, O: Target, E: Target>(
    alloc: Global,
    limits: StreamsLimits,
    ports: &[u16],
    input: &mut R,
    files: F,
    out: O,
    err: E,
) -> (u8, F, O, E)
    requires { is_in_range limits.connections ≡ true }
    ensures task { IsStatusOfTask result.0 }
    ensures streams { (xs : List ℕ) → R.left input.old ≡ Some xs → IsSome (O.contents out) → IsSome (E.contents err) →
        WritesStreams limits ports.now xs (R.left input.new) (F.calls files) (written O.Target out) (written E.Target err)
        result.0 (F.calls result.1) (written O.Target result.2) (written E.Target result.3) }
    ensures reads { (xs : List ℕ) → R.left input.old ≡ Some xs → IsSome (O.contents out) → IsSome (E.contents err) →
        (m : ReadsMade) × AreCounted m (read_counts R.Source input.old) (read_counts R.Source input.new)
        × WritesStreamsBy m limits ports.now xs (R.left input.new) (F.calls files) (written O.Target out) (written E.Target err)
        result.0 (F.calls result.1) (written O.Target result.2) (written E.Target result.3) }
{
    let mut recorder = Recorder::new(alloc, files, out);
    let answer = read_capture(alloc, limits, ports, input, &mut recorder);
    let (files, out, sums) = recorder.into_parts();
    let (status, err) = conclude_capture(&answer, ports, &sums, err);
    (status, files, out, err)
}
