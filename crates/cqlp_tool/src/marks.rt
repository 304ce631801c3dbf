//! Which lines say how much of a file was read.

ghost use Rattle.std.specs.Prelude.{◌≡◌, ◌*◌, ◌^◌, ◌<◌, ◌≤◌, false};
ghost use Rattle.cqlp_note.specs.Outputs.{Output, written};
ghost use Rattle.cqlp_tool.specs.Marks.{ShowsMarks, ShowsText, mark_line as mark_line_of, marks};

use crate::line::mark_line;
use cqlp_note::{Target, offer};

/// After how many bytes more there is a line: 64 MB.
pub const MARK: u64 = 64_000_000;

/// How many marks lie within so many bytes of a file of this length.
pub(crate) fn marks(length: u64, read: u64) -> u64
    ensures marks { result ≡ marks length read }
    ensures few { 64 * result < 2 ^ 64 }
{
    read.min(length) / MARK
}

/// Writes the lines of the marks behind the first `shown`, up to the last of `due`. Answers whether the target failed.
pub(crate) fn put_marks<T: Target>(notes: &mut T, length: u64, shown: u64, due: u64) -> bool
    requires order { shown ≤ due }
    requires few { 64 * due < 2 ^ 64 }
    ensures { (before : Output) → ShowsMarks before length shown false (written T.Target notes.old)
        → ShowsMarks before length due result (written T.Target notes.new) }
{
    for mark in shown..due {
        if put_mark(notes, length, mark + 1) {
            return true;
        }
    }
    false
}

/// Writes the line of a mark. Answers whether the target failed.
fn put_mark<T: Target>(notes: &mut T, length: u64, mark: u64) -> bool
    requires { 64 * mark < 2 ^ 64 }
    ensures { ShowsText (written T.Target notes.old) (mark_line_of length mark) result (written T.Target notes.new) }
{
    let line = mark_line(length, mark);
    let bytes = line.as_slice();
    offer(notes, bytes) < bytes.len()
}
