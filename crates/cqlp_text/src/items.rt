//! Items of a page, put into a buffer with what comes around them.

ghost use Rattle.std.specs.Prelude.{◌≡◌, ◌+◌, ◌<◌, ◌≤◌, ◌++◌, codes, decimal, length, take};
ghost use Rattle.cqlp_text.specs.PageText.{gap_text, item_text, line_end};
ghost use Rattle.cqlp_text.specs.Text.{between_quotes};

use crate::digits::{copy_to_front, place, place_in_line};
use crate::gap::Gap;

/// How many bytes an item has at most that is a number: a gap, twenty digits and the end of a line.
pub(crate) const ITEM_ROOM: usize = 24;

/// How many bytes an item has at most beside its text: a gap in its room, two quotes and the end of a line are fewer.
pub(crate) const TEXT_MARGIN: usize = 8;

/// Puts a gap to the front of a room, and answers how many bytes it has. What it writes behind it means nothing.
#[inline(always)]
pub(crate) fn write_gap(gap: Gap, room: &mut [u8]) -> usize
    requires { 4 ≤ length room.old }
    ensures len { result ≡ length (gap_text gap) }
    ensures written { take result room.new ≡ gap_text gap }
{
    copy_to_front(&gap.padded(), room);
    gap.len()
}

/// Puts the end of a line, where one ends, behind this many bytes of a room, and answers how many there are then.
#[inline(always)]
pub(crate) fn write_line_end(ends_line: bool, at: usize, room: &mut [u8]) -> usize
    requires { at < length room.old }
    ensures len { result ≡ at + length (line_end ends_line) }
    ensures written { take result room.new ≡ take at room.old ++ line_end ends_line }
{
    if ends_line {
        write_newline(at, room)
    } else {
        at
    }
}

/// Puts the end of a line behind this many bytes of a room, and answers how many there are then.
#[inline(always)]
fn write_newline(at: usize, room: &mut [u8]) -> usize
    requires { at < length room.old }
    ensures len { result ≡ at + 1 }
    ensures written { take result room.new ≡ take at room.old ++ codes "\n" }
{
    room[at] = b'\n';
    at + 1
}

/// Puts a number, behind a gap and, where a line ends, before its end, to the front of a room, and answers how many bytes
/// these are.
#[inline(always)]
fn write_item(gap: Gap, number: u64, ends_line: bool, room: &mut [u8; ITEM_ROOM]) -> usize
    ensures len { result ≡ length (item_text gap (decimal number) ends_line) }
    ensures written { take result room.new ≡ item_text gap (decimal number) ends_line }
{
    let front = write_gap(gap, room);
    let len = place_in_line(number, front, room);
    write_line_end(ends_line, front + len, room)
}

/// The same to the front of bytes.
#[inline(always)]
fn write_item_to_front(gap: Gap, number: u64, ends_line: bool, bytes: &mut [u8]) -> usize
    requires room { 24 ≤ length bytes.old }
    ensures len { result ≡ length (item_text gap (decimal number) ends_line) }
    ensures written { take result bytes.new ≡ item_text gap (decimal number) ends_line }
{
    match bytes.first_chunk_mut::<ITEM_ROOM>() {
        Some(room) => write_item(gap, number, ends_line, room),
        None => unreachable!(),
    }
}

/// Puts a text in quotes, behind a gap and, where a line ends, before its end, to the front of a room, and answers how
/// many bytes these are.
#[inline(always)]
fn write_text(gap: Gap, text: &[u8], ends_line: bool, room: &mut [u8]) -> usize
    requires { length text.now + 8 ≤ length room.old }
    ensures len { result ≡ length (item_text gap (between_quotes text.now) ends_line) }
    ensures written { take result room.new ≡ item_text gap (between_quotes text.now) ends_line }
{
    let front = write_gap(gap, room);
    place(b"\"", room, front);
    place(text, room, front + 1);
    let end = front + 1 + text.len();
    place(b"\"", room, end);
    write_line_end(ends_line, end + 1, room)
}

/// Puts an item that is a text into a buffer.
#[inline(always)]
pub(crate) fn place_text(
    gap: Gap,
    text: &[u8],
    ends_line: bool,
    buffer: &mut [u8],
    at: usize,
) -> usize
    requires { at + (length text.now + 8) ≤ length buffer.old }
    ensures len { result ≡ length (item_text gap (between_quotes text.now) ends_line) }
    ensures placed { take (at + result) buffer.new
        ≡ take at buffer.old ++ item_text gap (between_quotes text.now) ends_line }
{
    write_text(gap, text, ends_line, &mut buffer[at..])
}

/// Puts an item that is a number into a buffer.
#[inline(always)]
pub(crate) fn place_item(
    gap: Gap,
    number: u64,
    ends_line: bool,
    buffer: &mut [u8],
    at: usize,
) -> usize
    requires room { at + 24 ≤ length buffer.old }
    ensures len { result ≡ length (item_text gap (decimal number) ends_line) }
    ensures placed { take (at + result) buffer.new ≡ take at buffer.old ++ item_text gap (decimal number) ends_line }
{
    write_item_to_front(gap, number, ends_line, &mut buffer[at..])
}
