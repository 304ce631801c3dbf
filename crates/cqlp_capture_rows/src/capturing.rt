//! A capture whose pages are written.

ghost use Rattle.std.specs.Prelude.{◌≡◌, ℕ, true, List, IsSome, Some};
ghost use Rattle.cqlp_text.specs.Endings.{IsStatusOfTask};
ghost use Rattle.cqlp_text.specs.Outputs.{written};
ghost use Rattle.cqlp_tcp_connections.specs.Limits.{is_in_range};
ghost use Rattle.cqlp_capture_streams.specs.Captures.{AreCounted, ReadsMade, read_counts};
ghost use Rattle.cqlp_capture_rows.specs.Capturing.{WritesRows};

use crate::rows::Rows;
use cqlp_capture_streams::{
    CaptureInput, LastWord, StreamsFault, StreamsLimits, conclude_capture, read_capture,
};
use cqlp_note::Target;
use cqlp_statement_types::StatementTypes;
use std::alloc::Global;

/// Reads the frames on one connection of a capture with nodes that listen on these ports, within these limits: on the one with this number;
/// the first has the number 1. Writes the text of the pages among them to `out`, and what the capture was, or the fault line, to `err`. Of statements that
/// were prepared before the capture `given` has the types. Answers the exit status and the two outputs.
///
/// After a fault nothing more is asked of what failed.
pub fn write_rows<R: CaptureInput, O: Target, E: Target>(
    alloc: Global,
    limits: StreamsLimits,
    ports: &[u16],
    given: StatementTypes,
    connection: u64,
    input: &mut R,
    out: O,
    err: E,
) -> (u8, O, E)
    requires { is_in_range limits.connections ≡ true }
    ensures task { IsStatusOfTask result.0 }
    ensures rows { (xs : List ℕ) → R.left input.old ≡ Some xs → IsSome (O.contents out) → IsSome (E.contents err) →
        (m : ReadsMade) × AreCounted m (read_counts R.Source input.old) (read_counts R.Source input.new)
        × WritesRows limits given connection ports.now xs m (R.left input.new) (written O.Target out) (written E.Target err)
        result.0 (written O.Target result.1) (written E.Target result.2) }
{
    let mut rows = match Rows::new(alloc, given, connection, out) {
        Ok(rows) => rows,
        Err(out) => {
            let answer = Err(StreamsFault::NoMemory);
            let (status, err) = conclude_capture(&answer, ports, &LastWord("rows"), err);
            return (status, out, err);
        }
    };
    let answer = read_capture(alloc, limits, ports, input, &mut rows);
    let (status, err) = conclude_capture(&answer, ports, &LastWord("rows"), err);
    (status, rows.into_output(), err)
}
