//! Pages whose cells are each one event, written of their events at once.

ghost use Rattle.std.specs.Prelude.{◌≡◌, ◌+◌, ◌-◌, ◌<◌, ◌≤◌, ◌^◌, ◌++◌, IfSome, drop, length};
ghost use Rattle.cqlp_compose.specs.Bare.{AreKindsOf};
ghost use Rattle.cqlp_compose.specs.Composing.{composed};
ghost use Rattle.cqlp_c.specs.FromC as from_c;
ghost use Rattle.cqlp_c.specs.WholePages as model;
ghost use Rattle.cqlp_c.specs.WholePages.{AreQuarters, AreReady, AreWritable, IsCellOfKind, IsLent, IsNextCell, IsRun, IsWritable, WritesOn};
ghost use Rattle.cqlp_c.specs.WholePages.{EncodesPage, OpensPage, OpensWhole, PutsPage, ReadsRows};

use crate::encode::{CqlpEncoded, longest, take_all};
use crate::event::CqlpEvent;
use crate::from_c::{content_len, event_from_c, is_empty, is_null, leaf_from_c};
use crate::numbers::*;
use crate::versions::put;
use cqlp_compose::{BarePage, Composer, put_event, scalar_size};
use cqlp_grammar::Event;
use cqlp_kind::{Kind, Scalar};
use cqlp_note::{Field, Header};
use std::alloc::Global;

/// A page that has no cells yet, and what is left for them.
#[derive(Drop)]
struct Opened<'a> {
    page: BarePage,
    /// The contents after those of the head.
    contents: &'a [u8],
    /// How many bytes of contents a frame may still have.
    room: usize,
}

/// Cells of a page, one after the other, which are known to be those of their events.
#[derive(Clone, Copy)]
struct CellRun<'a> {
    events: &'a [CqlpEvent],
    /// The contents of the cells, and those after them.
    contents: &'a [u8],
    /// How many bytes the cells have.
    size: u64,
}

/// All cells of a page, in four runs. They are written a cell of each in turn: so the events of all four come from memory at once.
#[derive(Clone, Copy)]
struct Quarters<'a> {
    first: CellRun<'a>,
    second: CellRun<'a>,
    third: CellRun<'a>,
    /// As many cells as one of the others has, and up to three more.
    last: CellRun<'a>,
}

/// A page whose cells are known to be those of their events.
#[derive(Drop)]
struct WholePage<'a> {
    /// All bytes before the first cell.
    head: Vec<u8>,
    cells: Quarters<'a>,
    /// How many bytes the cells have.
    size: u64,
}

/// How many events come before the first that is a leaf, a null or an empty value.
fn head_len(events: &[CqlpEvent]) -> usize
    ensures { result ≤ length events.now }
{
    for (at, c_event) in events.iter().enumerate() {
        if matches!(c_event.tag, TAG_LEAF | TAG_NULL | TAG_EMPTY) {
            return at;
        }
    }
    events.len()
}

/// The events without an end.
fn without_end(events: &[CqlpEvent]) -> &[CqlpEvent]
    ensures { model.IsWithoutEnd events.now result.now }
{
    let Some((last, front)) = events.split_last() else {
        return events;
    };
    if last.tag == TAG_END { front } else { events }
}

/// Takes all events of a head but the last into a composer, and answers how many rows the last one counts, and the contents after its own.
fn read_rows<'a>(
    composer: &mut Composer,
    events: &[CqlpEvent],
    contents: &'a [u8],
) -> Option<(u32, &'a [u8])>
    ensures { IfSome result (λ found. ReadsRows (composed composer.old) events.now contents.now found.0 found.1.now (composed composer.new)) }
{
    let Some((last, front)) = events.split_last() else {
        return None;
    };
    if last.tag != TAG_COUNT {
        return None;
    }
    let Ok(rest) = take_all(composer, front, contents) else {
        return None;
    };
    let Ok((event, behind)) = event_from_c(last, rest) else {
        return None;
    };
    match event {
        Event::Count {
            field: Field::Rows,
            count,
        } => Some((count, behind)),
        _ => None,
    }
}

/// The page with these events, which are all before its cells.
fn open_page<'a>(alloc: Global, events: &[CqlpEvent], contents: &'a [u8]) -> Option<Opened<'a>>
    ensures { IfSome result (λ opened. OpensPage events.now contents.now opened) }
{
    let mut composer = Composer::new(alloc, longest());
    let Some((rows, rest)) = read_rows(&mut composer, events, contents) else {
        return None;
    };
    let room = composer.room();
    match BarePage::new(composer, rows) {
        Ok(page) => Some(Opened {
            page,
            contents: rest,
            room,
        }),
        Err(_) => None,
    }
}

/// How many bytes the next cell has, before which `cells` others come, where this event is all of it; and the contents after its own.
#[inline(always)]
fn measure_cell<'a>(
    page: &BarePage,
    kinds: &[Kind],
    cells: u64,
    c_event: &CqlpEvent,
    contents: &'a [u8],
) -> Option<(u64, &'a [u8])>
    requires { AreKindsOf page.now.frame kinds.now }
    ensures { IfSome result (λ found. IsNextCell page.now.frame cells c_event.now contents.now found.0 found.1.now) }
{
    let Some(kind) = page.kind_at(kinds, cells, c_event.row, c_event.column) else {
        return None;
    };
    if c_event.tag == TAG_LEAF {
        return measure_by_kind(kind, c_event, contents);
    }
    if is_null(c_event) {
        return Some((4, contents));
    }
    if is_empty(c_event) {
        Some((4, contents))
    } else {
        None
    }
}

/// The same of a leaf. The compiler makes code of its own for each arm.
#[inline(always)]
fn measure_by_kind<'a>(
    kind: Kind,
    c_event: &CqlpEvent,
    contents: &'a [u8],
) -> Option<(u64, &'a [u8])>
    ensures { IfSome result (λ found. IsCellOfKind kind c_event.now contents.now found.0 found.1.now) }
{
    match kind {
        Kind::Int => measure_as(Kind::Int, c_event, contents),
        Kind::Bigint => measure_as(Kind::Bigint, c_event, contents),
        Kind::Varchar => measure_as(Kind::Varchar, c_event, contents),
        Kind::Boolean => measure_as(Kind::Boolean, c_event, contents),
        Kind::Blob => measure_as(Kind::Blob, c_event, contents),
        Kind::Double => measure_as(Kind::Double, c_event, contents),
        Kind::Timestamp => measure_as(Kind::Timestamp, c_event, contents),
        Kind::Uuid => measure_as(Kind::Uuid, c_event, contents),
        _ => measure_as(kind, c_event, contents),
    }
}

/// The same, as one function for all kinds.
#[inline(always)]
fn measure_as<'a>(kind: Kind, c_event: &CqlpEvent, contents: &'a [u8]) -> Option<(u64, &'a [u8])>
    ensures { IfSome result (λ found. IsCellOfKind kind c_event.now contents.now found.0 found.1.now) }
{
    match leaf_from_c(c_event, kind, contents) {
        Some((scalar, rest)) => match scalar_size(&scalar, kind) {
            Some(size) => Some((size, rest)),
            None => None,
        },
        None => None,
    }
}

/// The cells of these events, before which `cells` others come, where each event is all of the next cell; and the contents after theirs. It is a function
/// of its own, so that its loop has what it needs in registers.
#[inline(never)]
fn measure_run<'a>(
    page: &BarePage,
    kinds: &[Kind],
    cells: u64,
    events: &'a [CqlpEvent],
    contents: &'a [u8],
) -> Option<(CellRun<'a>, &'a [u8])>
    requires kinds { AreKindsOf page.now.frame kinds.now }
    requires few { cells + length events.now < 2 ^ 63 }
    ensures { IfSome result (λ found. IsRun page.now.frame cells contents.now events.now found.0 found.1.now) }
{
    let mut rest = contents;
    let mut size = 0;
    for (at, c_event) in events.iter().enumerate() {
        if size > u64::from(Header::LONGEST_BODY) {
            return None;
        }
        match measure_cell(page, kinds, cells + at as u64, c_event, rest) {
            Some((len, behind)) => {
                rest = behind;
                size += len;
            }
            None => return None,
        }
    }
    let run = CellRun {
        events,
        contents,
        size,
    };
    Some((run, rest))
}

/// All cells of a page, where each event is all of the next cell, all cells come, and no contents are left after theirs.
fn measure_cells<'a>(
    alloc: Global,
    page: &BarePage,
    events: &'a [CqlpEvent],
    contents: &'a [u8],
) -> Option<Quarters<'a>>
    requires { length events.now < 2 ^ 60 }
    ensures { IfSome result (λ cells. AreQuarters page.now.frame contents.now events.now cells) }
{
    let Ok(kinds) = page.kinds(alloc) else {
        return None;
    };
    let len = events.len() / 4;
    let (one, others) = events.split_at(len);
    let (two, others) = others.split_at(len);
    let (three, four) = others.split_at(len);
    let (first, rest) = measure_run(page, &kinds, 0, one, contents)?;
    let (second, rest) = measure_run(page, &kinds, len as u64, two, rest)?;
    let (third, rest) = measure_run(page, &kinds, 2 * len as u64, three, rest)?;
    let (last, rest) = measure_run(page, &kinds, 3 * len as u64, four, rest)?;
    if rest.is_empty() && events.len() as u64 == page.cells_wanted() {
        Some(Quarters {
            first,
            second,
            third,
            last,
        })
    } else {
        None
    }
}

/// The page with this head and these cells, of which nothing is written yet.
fn open_whole<'a>(
    alloc: Global,
    head: &[CqlpEvent],
    cells: &'a [CqlpEvent],
    contents: &'a [u8],
) -> Option<WholePage<'a>>
    requires { length cells.now < 2 ^ 60 }
    ensures { IfSome result (λ whole. OpensWhole head.now cells.now contents.now whole) }
{
    let Some(opened) = open_page(alloc, head, contents) else {
        return None;
    };
    let Opened {
        page,
        contents: rest,
        room,
    } = opened;
    let Some(cells) = measure_cells(alloc, &page, cells, rest) else {
        return None;
    };
    let size = cells.first.size + cells.second.size + cells.third.size + cells.last.size;
    if size > room as u64 {
        return None;
    }
    match page.begin(alloc, size) {
        Ok(begun) => Some(WholePage {
            head: begun.head,
            cells,
            size,
        }),
        Err(_) => None,
    }
}

/// Puts the cell that has this one event at the front of a room, and answers how many bytes it has, and the contents after its own.
#[inline(always)]
fn write_cell<'a>(c_event: &CqlpEvent, contents: &'a [u8], room: &mut [u8]) -> (usize, &'a [u8])
    requires { IsWritable c_event.now contents.now (length room.old) }
    ensures len { result.0 ≡ length (model.cell_bytes c_event.now contents.now) }
    ensures put { room.new ≡ model.cell_bytes c_event.now contents.now ++ drop result.0 room.old }
    ensures rest { result.1.now ≡ drop (from_c.content_len c_event.now) contents.now }
{
    if c_event.tag == TAG_LEAF {
        match c_event.kind {
            KIND_INT => write_leaf::<INT>(c_event, contents, room),
            KIND_BIGINT => write_leaf::<BIGINT>(c_event, contents, room),
            KIND_VARCHAR | KIND_BLOB => write_lent(c_event, contents, room),
            KIND_BOOLEAN => write_leaf::<BOOLEAN>(c_event, contents, room),
            KIND_DOUBLE => write_leaf::<DOUBLE>(c_event, contents, room),
            KIND_TIMESTAMP => write_leaf::<TIMESTAMP>(c_event, contents, room),
            KIND_UUID => write_leaf::<UUID>(c_event, contents, room),
            _ => write_any(c_event, contents, room),
        }
    } else {
        write_any(c_event, contents, room)
    }
}

// The copies of `write_leaf`, which are called where they are too long to be inlined.
const INT: usize = 0;

const BIGINT: usize = 1;

const BOOLEAN: usize = 2;

const DOUBLE: usize = 3;

const TIMESTAMP: usize = 4;

const UUID: usize = 5;

/// The kind of the leaves that a copy of [`write_leaf`] writes.
#[inline(always)]
fn kind_of_copy(copy: usize) -> Kind {
    match copy {
        INT => Kind::Int,
        BIGINT => Kind::Bigint,
        BOOLEAN => Kind::Boolean,
        DOUBLE => Kind::Double,
        TIMESTAMP => Kind::Timestamp,
        _ => Kind::Uuid,
    }
}

/// The same, where it is likely a leaf of the kind of this copy.
#[inline(always)]
fn write_leaf<'a, const COPY: usize>(
    c_event: &CqlpEvent,
    contents: &'a [u8],
    room: &mut [u8],
) -> (usize, &'a [u8])
    requires { IsWritable c_event.now contents.now (length room.old) }
    ensures len { result.0 ≡ length (model.cell_bytes c_event.now contents.now) }
    ensures put { room.new ≡ model.cell_bytes c_event.now contents.now ++ drop result.0 room.old }
    ensures rest { result.1.now ≡ drop (from_c.content_len c_event.now) contents.now }
{
    match leaf_from_c(c_event, kind_of_copy(COPY), contents) {
        Some((scalar, rest)) => {
            let event = Event::Leaf {
                row: c_event.row,
                column: c_event.column,
                level: 0,
                scalar,
            };
            (put_event(&event, room), rest)
        }
        None => write_any(c_event, contents, room),
    }
}

/// The same of a text or a blob: that it is one, was seen as it was measured.
#[tactic(auto, using(crate::proofs::Leaves::read_long))]
#[inline(always)]
fn write_lent<'a>(c_event: &CqlpEvent, contents: &'a [u8], room: &mut [u8]) -> (usize, &'a [u8])
    requires lent { IsLent c_event.now }
    requires writable { IsWritable c_event.now contents.now (length room.old) }
    ensures len { result.0 ≡ length (model.cell_bytes c_event.now contents.now) }
    ensures put { room.new ≡ model.cell_bytes c_event.now contents.now ++ drop result.0 room.old }
    ensures rest { result.1.now ≡ drop (from_c.content_len c_event.now) contents.now }
{
    let (content, rest) = contents.split_at(content_len(c_event));
    let event = Event::Leaf {
        row: c_event.row,
        column: c_event.column,
        level: c_event.level,
        scalar: Scalar::Blob(content),
    };
    (put_event(&event, room), rest)
}

/// The same of any event.
#[tactic(auto, using(crate::proofs::Leaves::read_long))]
#[inline(always)]
fn write_any<'a>(c_event: &CqlpEvent, contents: &'a [u8], room: &mut [u8]) -> (usize, &'a [u8])
    requires { IsWritable c_event.now contents.now (length room.old) }
    ensures len { result.0 ≡ length (model.cell_bytes c_event.now contents.now) }
    ensures put { room.new ≡ model.cell_bytes c_event.now contents.now ++ drop result.0 room.old }
    ensures rest { result.1.now ≡ drop (from_c.content_len c_event.now) contents.now }
{
    let len = put_any(c_event, contents, room);
    (len, &contents[content_len(c_event)..])
}

/// Puts the cell of any event at the front of a room. It answers a number alone, which stays in a register, so that the loop over the cells has all that
/// it needs in registers.
#[inline(never)]
fn put_any(c_event: &CqlpEvent, contents: &[u8], room: &mut [u8]) -> usize
    requires { IsWritable c_event.now contents.now (length room.old) }
    ensures len { result ≡ length (model.cell_bytes c_event.now contents.now) }
    ensures put { room.new ≡ model.cell_bytes c_event.now contents.now ++ drop result room.old }
{
    let Ok((event, _rest)) = event_from_c(c_event, contents) else {
        unreachable!()
    };
    put_event(&event, room)
}

/// Puts the cell of the event of this number behind so many bytes of a room, if there is such an event; and answers how many there are then, and the
/// contents after its own.
#[inline(always)]
fn write_nth<'a>(
    events: &[CqlpEvent],
    at: usize,
    contents: &'a [u8],
    put: usize,
    room: &mut [u8],
) -> (usize, &'a [u8])
    requires room { put ≤ length room.old }
    requires writable { AreWritable (drop at events.now) contents.now (length room.old - put) }
    ensures { WritesOn events.now at contents.now put room.old result.0 result.1.now room.new }
{
    match events.get(at) {
        Some(c_event) => {
            let (len, rest) = write_cell(c_event, contents, &mut room[put..]);
            (put + len, rest)
        }
        None => (put, contents),
    }
}

/// Puts all cells of a page at the front of a room, a cell of each run in turn. It is a function of its own, as [`measure_run`] is.
#[inline(never)]
fn write_cells(cells: &Quarters<'_>, room: &mut [u8])
    requires ready { AreReady cells.now }
    requires room { model.quarters_size cells.now ≤ length room.old }
    ensures { room.new ≡ model.quarters_bytes cells.now ++ drop (length (model.quarters_bytes cells.now)) room.old }
{
    let Quarters {
        first,
        second,
        third,
        last,
    } = *cells;
    let (room0, others) = room.split_at_mut(first.size as usize);
    let (room1, others) = others.split_at_mut(second.size as usize);
    let (room2, room3) = others.split_at_mut(third.size as usize);
    let (mut put0, mut rest0) = (0, first.contents);
    let (mut put1, mut rest1) = (0, second.contents);
    let (mut put2, mut rest2) = (0, third.contents);
    let (mut put3, mut rest3) = (0, last.contents);
    for at in 0..last.events.len() {
        (put0, rest0) = write_nth(first.events, at, rest0, put0, room0);
        (put1, rest1) = write_nth(second.events, at, rest1, put1, room1);
        (put2, rest2) = write_nth(third.events, at, rest2, put2, room2);
        (put3, rest3) = write_nth(last.events, at, rest3, put3, room3);
    }
}

/// Puts a page whose cells have `size` bytes, if there is room for it.
fn put_page(bytes: &mut [u8], page: &WholePage<'_>) -> u32
    requires ready { AreReady page.now.cells }
    requires size { model.quarters_size page.now.cells ≡ page.now.size }
    ensures { PutsPage page.now result bytes.old bytes.new }
{
    let len = page.head.len();
    if bytes.len() < len || ((bytes.len() - len) as u64) < page.size {
        return NO_ROOM;
    }
    let at = put(bytes, 0, &page.head);
    write_cells(&page.cells, &mut bytes[at..]);
    DONE
}

/// Writes the frame that has these events, where it is a page whose cells are each one event, and says how many bytes it has. It is None, and nothing
/// is put, of other frames, and wherever an event is not taken or memory is refused.
pub(crate) fn encode_page(
    alloc: Global,
    events: &[CqlpEvent],
    contents: &[u8],
    bytes: &mut [u8],
    encoded: &mut CqlpEncoded,
) -> Option<u32>
    ensures { EncodesPage events.now contents.now result bytes.old bytes.new encoded.new }
{
    if events.len() > Header::LONGEST_BODY as usize {
        return None;
    }
    let (head, others) = events.split_at(head_len(events));
    let cells = without_end(others);
    let Some(page) = open_whole(alloc, head, cells, contents) else {
        return None;
    };
    let Some(length) = page.head.len().checked_add(page.size as usize) else {
        return None;
    };
    *encoded = CqlpEncoded {
        length,
        event: events.len(),
    };
    Some(put_page(bytes, &page))
}
