//! Columns of a line.

ghost use Rattle.std.specs.Prelude.{◌≡◌, ◌≤◌, codes};
ghost use Rattle.cqlp_capture_summary.specs.Columns.{number_column, padded, share_of, share_text, text_column, time_column};
ghost use Rattle.cqlp_text.specs.Written.{Writes};

use cqlp_grammar::SinkFault;
use cqlp_text::{Pen, TextWriter};

/// The greatest width of a column.
const WIDEST: usize = 16;

static SPACES: [u8; WIDEST] = [b' '; WIDEST];

/// Takes a text behind so many spaces that both have this width.
fn put_padded<P: Pen>(
    writer: &mut TextWriter<P>,
    width: usize,
    text: &[u8],
) -> Result<(), SinkFault>
    requires { width ≤ 16 }
    ensures { Writes writer.old (padded width text.now) result writer.new }
{
    writer.put(&SPACES[..width.saturating_sub(text.len())])?;
    writer.put(text)
}

pub(crate) fn put_text_column<P: Pen>(
    writer: &mut TextWriter<P>,
    width: usize,
    text: &[u8],
) -> Result<(), SinkFault>
    requires { width ≤ 16 }
    ensures { Writes writer.old (text_column width text.now) result writer.new }
{
    writer.put(b" ")?;
    put_padded(writer, width, text)
}

pub(crate) fn put_number_column<P: Pen>(
    writer: &mut TextWriter<P>,
    width: usize,
    number: u64,
) -> Result<(), SinkFault>
    requires { width ≤ 16 }
    ensures { Writes writer.old (number_column width number) result writer.new }
{
    let mut digits = itoa::Buffer::new();
    put_text_column(writer, width, digits.format(number).as_bytes())
}

/// Takes nanoseconds as milliseconds, cut to the microsecond; the width is that of the whole ones.
pub(crate) fn put_time_column<P: Pen>(
    writer: &mut TextWriter<P>,
    width: usize,
    nanoseconds: u64,
) -> Result<(), SinkFault>
    requires { width ≤ 16 }
    ensures { Writes writer.old (time_column width nanoseconds) result writer.new }
{
    put_number_column(writer, width, nanoseconds / 1_000_000)?;
    writer.put(b".")?;
    writer.put_digits(3, nanoseconds / 1_000)
}

/// The share of a time in a sum, in thousandths.
pub(crate) fn share_of(time: u64, total: u64) -> u64
    ensures share { result ≡ share_of time total }
    ensures most { result ≤ 1_000 }
{
    let share = u128::from(time) * 1_000 / u128::from(total.max(1));
    share.min(1_000) as u64
}

/// Writes a share in thousandths, in hundredths.
pub(crate) fn put_share<P: Pen>(writer: &mut TextWriter<P>, share: u64) -> Result<(), SinkFault>
    requires { share ≤ 1_000 }
    ensures { Writes writer.old (share_text share) result writer.new }
{
    put_number_column(writer, 3, share / 10)?;
    writer.put(b".")?;
    writer.put_digits(1, share)
}
