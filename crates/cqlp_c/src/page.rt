//! Pages of any size, begun with the events of their heads, whose cells are written in batches of their events.

ghost use Rattle.std.specs.Prelude.{◌≡◌, ◌++◌, ◌+◌, ◌<◌, ◌^◌, ◌≤◌, ℕ, List, Option, None, Some};
ghost use Rattle.std.specs.Prelude.{IfNone, IfSome, MatchResult, drop, length, option_map};
ghost use Rattle.std.specs.Box.Ownership.{box_owns};
ghost use Rattle.std.specs.Coded.{coded_option};
ghost use Rattle.std.specs.contracts.alloc.Global as heap;
ghost use Rattle.std.specs.contracts.impls.GlobalAllocator.TheImpl.{ghosts};
ghost use Rattle.cqlp_compose.specs.Composing.{composed};
ghost use Rattle.cqlp_compose.specs.Put.{putter};
ghost use Rattle.cqlp_compose.specs.Single.{IsNextKind};
ghost use Rattle.cqlp_compose.specs.declared.page.OpenPage.{OpenPage as Held};
ghost use Rattle.cqlp_compose.specs.contracts.page.OpenPage as page_of;
ghost use Rattle.cqlp_c.specs.FromC.{IsNull};
ghost use Rattle.cqlp_c.specs.Handle.{flag_of, owned_in};
ghost use Rattle.cqlp_c.specs.Pages as model;
ghost use Rattle.cqlp_c.specs.Pages.{Begins, BeginsAnew, IsPutBy, Measures, Opens, Puts, PutsAll, PutsCells, PutsLeaf, PutsOne, ReadsHead};
ghost use Rattle.cqlp_c.specs.Pages.{RefusesLeaf, RefusesNull};

use crate::batch::or_none;
use crate::encode::{
    CqlpEncoded, Stopped, Unencoded, bad_event_code, longest, refused_code, take_all,
    unencoded_code,
};
use crate::event::CqlpEvent;
use crate::from_c::{BadEvent, event_from_c, is_null, leaf_from_c};
use crate::loose::Loose;
use crate::numbers::*;
use crate::versions::put;
use cqlp_build::BuildError;
use cqlp_build_cells::{CellError, CellLimits};
use cqlp_compose::{
    BeginError, BegunPage, Composer, OpenPage, PageCellError, PutCells, PutError, Unended,
    event_size,
};
use cqlp_grammar::Event;
use cqlp_kind::Kind;
use cqlp_message::Unfit;
use cqlp_note::{Field, Header};
use std::alloc::Global;
use std::marker::Model;

/// How many bytes the cells of a page have.
#[repr(C)]
#[derive(Clone, Copy)]
pub struct CqlpMeasured {
    /// How many those have whose events came so far.
    pub size: u64,
    /// Which event is none; how many there are where all are.
    pub event: usize,
}

/// What was put of a batch of events.
#[repr(C)]
#[derive(Clone, Copy)]
pub struct CqlpPut {
    /// How many events the cells have that were put.
    pub events: usize,
    /// How many bytes of the contents are those of these events.
    pub used: usize,
    /// How many bytes were put.
    pub length: usize,
    /// At which event it stopped; how many there are where it went over all.
    pub event: usize,
    /// How many bytes the next cell has, where there is no room for as many.
    pub wanted: usize,
}

/// Where a page lies, or none.
#[repr(C)]
#[derive(Drop)]
pub struct CqlpPagePlace {
    at: *mut u8,
    ghost alloc: { heap.the_row.Denot },
    ghost value: { Option Held } by { coded_option page_of.the_row.coded },
}

impl Model for CqlpPagePlace {
    ghost also_owns = { λ h. owned_in (box_owns (ghosts.dealloc_token h.alloc) page_of.the_row h.at) h.value };
}

impl CqlpPagePlace {
    /// The place of none.
    fn none(_alloc: Global) -> CqlpPagePlace
        ensures { result.value ≡ None }
    {
        CqlpPagePlace {
            at: std::ptr::null_mut(),
        }
    }

    /// The place of a page.
    fn of(loose: Loose<OpenPage, Global>) -> CqlpPagePlace
        ensures { result.value ≡ Some loose.value }
    {
        let Loose { at, alloc: _ } = loose;
        CqlpPagePlace { at: at as *mut u8 }
    }

    /// The page that lies there.
    fn into_loose(self, alloc: Global) -> Loose<OpenPage, Global>
        requires { flag_of self.value ≡ 1 }
        ensures { self.value ≡ Some result.value }
    {
        let CqlpPagePlace { at } = self;
        Loose {
            at: at as *mut OpenPage,
            alloc,
        }
    }
}

/// A page, or none where `live` is 0. C makes one of zeros, and never writes or copies it.
#[repr(C)]
#[derive(Drop)]
pub struct CqlpPage {
    live: u64,
    place: CqlpPagePlace,
    ghost agrees: { flag_of place.value ≡ live },
}

/// A handle that has none.
fn none(alloc: Global) -> CqlpPage
    ensures { result.place.value ≡ None }
{
    let place = CqlpPagePlace::none(alloc);
    CqlpPage { live: 0, place }
}

/// A handle that has this page.
fn holding(boxed: Box<OpenPage>) -> CqlpPage
    ensures { result.place.value ≡ Some boxed.value }
{
    let place = CqlpPagePlace::of(Loose::of(boxed));
    CqlpPage { live: 1, place }
}

/// The page of a handle, if it has one.
fn taken(page: CqlpPage, alloc: Global) -> Option<Box<OpenPage>>
    ensures some { IfSome result (λ b. page.place.value ≡ Some b.value) }
    ensures none { IfNone result (page.place.value ≡ None) }
{
    let CqlpPage { live, place } = page;
    if live == 1 {
        Some(place.into_loose(alloc).into_box())
    } else {
        None
    }
}

/// What is no event, and how many events came before it.
#[derive(Clone, Copy)]
pub struct BadEventAt {
    pub event: usize,
    pub why: BadEvent,
}

/// Adds how many bytes the events cover to a sum, which is 2^64 - 1 where it would be more.
fn measure_all(events: &[CqlpEvent], contents: &[u8], size: u64) -> Result<u64, BadEventAt>
    ensures { result ≡ model.measured 0 size contents.now events.now }
{
    let mut rest = contents;
    let mut sum = size;
    for (event, c_event) in events.iter().enumerate() {
        match event_from_c(c_event, rest) {
            Ok((found, behind)) => {
                sum = sum.saturating_add(event_size(&found));
                rest = behind;
            }
            Err(why) => return Err(BadEventAt { event, why }),
        }
    }
    Ok(sum)
}

/// Adds how many bytes of a page the events cover to `size`. Where there is no event or no content, its pointer may be null.
#[unsafe(no_mangle)]
pub extern "C" fn cqlp_page_measure(
    events: &[CqlpEvent],
    contents: &[u8],
    measured: &mut CqlpMeasured,
) -> u32
    ensures { Measures events.now contents.now measured.old result measured.new }
{
    match measure_all(events, or_none(contents), measured.size) {
        Ok(size) => {
            *measured = CqlpMeasured {
                size,
                event: events.len(),
            };
            DONE
        }
        Err(bad_event) => {
            measured.event = bad_event.event;
            bad_event_code(bad_event.why)
        }
    }
}

/// Why a page is not begun.
#[derive(Clone, Copy)]
pub enum Unbegun {
    /// An event of its head is not taken, or there are contents after those of the last.
    Head(Unencoded),
    /// The last event is no count of rows.
    NoRows,
    /// There is no page with this head, or none with as many bytes of cells.
    Page(BeginError),
}

/// What is refused, and how many events came before it.
#[derive(Clone, Copy)]
pub struct UnbegunAt {
    pub event: usize,
    pub why: Unbegun,
}

/// As many rows, where no contents are left.
#[tactic(auto, using(crate::proofs::PagesPut::all_used, crate::proofs::PagesPut::some_left))]
fn with_all_used(rows: u32, rest: &[u8]) -> Result<u32, Unbegun>
    ensures { result ≡ model.with_all_used rows rest.now }
{
    if rest.is_empty() {
        Ok(rows)
    } else {
        Err(Unbegun::Head(Unencoded::LeftOver))
    }
}

/// How many rows the last event of a head counts, whose content is all that is left of the contents.
fn rows_from_c(c_event: &CqlpEvent, contents: &[u8]) -> Result<u32, Unbegun>
    ensures { result ≡ model.rows_from_c c_event.now contents.now }
{
    let (event, rest) = match event_from_c(c_event, contents) {
        Ok(found) => found,
        Err(why) => return Err(Unbegun::Head(Unencoded::BadEvent(why))),
    };
    match event {
        Event::Count {
            field: Field::Rows,
            count,
        } => with_all_used(count, rest),
        _ => Err(Unbegun::NoRows),
    }
}

/// Takes all events of a head but the last into a composer, and answers how many rows the last one counts.
fn read_head(
    composer: &mut Composer,
    events: &[CqlpEvent],
    contents: &[u8],
) -> Result<u32, UnbegunAt>
    ensures { ReadsHead (composed composer.old) events.now contents.now result (composed composer.new) }
{
    let Some((last, front)) = events.split_last() else {
        return Err(UnbegunAt {
            event: 0,
            why: Unbegun::Head(Unencoded::Refused(BuildError::Misplaced)),
        });
    };
    match take_all(composer, front, contents) {
        Ok(rest) => match rows_from_c(last, rest) {
            Ok(rows) => Ok(rows),
            Err(why) => Err(UnbegunAt {
                event: front.len(),
                why,
            }),
        },
        Err(stopped) => Err(UnbegunAt {
            event: stopped.event,
            why: Unbegun::Head(stopped.why),
        }),
    }
}

/// The page whose head has these events, with cells of this many bytes, and what is to be written before them.
fn open(
    alloc: Global,
    events: &[CqlpEvent],
    contents: &[u8],
    size: u64,
) -> Result<BegunPage, UnbegunAt>
    ensures { Opens events.now contents.now size result }
{
    let mut composer = Composer::new(alloc, longest());
    let rows = match read_head(&mut composer, events, contents) {
        Ok(rows) => rows,
        Err(stopped) => return Err(stopped),
    };
    match OpenPage::begin(alloc, composer, rows, size) {
        Ok(begun) => Ok(begun),
        Err(why) => Err(UnbegunAt {
            event: events.len(),
            why: Unbegun::Page(why),
        }),
    }
}

/// The code for a page that nothing spells.
fn unfit_code(why: Unfit) -> u32
    ensures { result ≡ model.code_of_unfit why }
{
    match why {
        Unfit::RowShape => BAD_SIZE,
        Unfit::BodyTooLong => BAD_LENGTH,
        Unfit::TooManyItems => TOO_MANY_ROWS,
        Unfit::Direction | Unfit::Parts | Unfit::TextTooLong | Unfit::CellType => NO_SUCH_FRAME,
    }
}

/// The code for a page that is not begun.
fn unbegun_code(why: Unbegun) -> u32
    ensures { result ≡ model.code_of_unbegun why }
{
    match why {
        Unbegun::Head(why) => unencoded_code(why),
        Unbegun::NoRows => NO_ROWS,
        Unbegun::Page(BeginError::Build(why)) => refused_code(why),
        Unbegun::Page(BeginError::NoPage) => NOT_PAGE,
        Unbegun::Page(BeginError::Unfit(why)) => unfit_code(why),
    }
}

/// Begins a page in a handle that has none, and puts its head, where there is room for it and memory.
fn begin_page(alloc: Global, begun: BegunPage, bytes: &mut [u8], page: &mut CqlpPage) -> u32
    requires { page.old.place.value ≡ None }
    ensures { IsPutBy begun result bytes.old bytes.new page.new.place.value }
{
    let BegunPage { page: opened, head } = begun;
    if bytes.len() < head.len() {
        return NO_ROOM;
    }
    match Box::new(alloc, opened) {
        Ok(boxed) => {
            *page = holding(boxed);
            put(bytes, 0, &head);
            DONE
        }
        Err(_) => NO_MEMORY,
    }
}

/// Begins a page in a handle that has none, and says how many bytes its head has.
fn begin_anew(
    alloc: Global,
    events: &[CqlpEvent],
    contents: &[u8],
    size: u64,
    bytes: &mut [u8],
    page: &mut CqlpPage,
    begun: &mut CqlpEncoded,
) -> u32
    requires { page.old.place.value ≡ None }
    ensures { BeginsAnew events.now contents.now size result bytes.old bytes.new page.new.place.value begun.new }
{
    match open(alloc, events, contents, size) {
        Ok(opened) => {
            *begun = CqlpEncoded {
                length: opened.head.len(),
                event: events.len(),
            };
            begin_page(alloc, opened, bytes, page)
        }
        Err(stopped) => {
            *begun = CqlpEncoded {
                length: 0,
                event: stopped.event,
            };
            unbegun_code(stopped.why)
        }
    }
}

/// Begins a page in a handle that has none: puts all of it that comes before its first cell, and says how many bytes that is. Its cells
/// are to have `size` bytes. Where there is no event, no content or no room, its pointer may be null.
#[unsafe(no_mangle)]
pub extern "C" fn cqlp_page_begin(
    alloc: Global,
    events: &[CqlpEvent],
    contents: &[u8],
    size: u64,
    bytes: &mut [u8],
    page: &mut CqlpPage,
    begun: &mut CqlpEncoded,
) -> u32
    ensures { Begins events.now contents.now size page.old.place.value result bytes.old bytes.new page.new.place.value begun.old begun.new }
{
    if page.live != 0 {
        return IN_USE;
    }
    begin_anew(alloc, events, or_none(contents), size, bytes, page, begun)
}

/// Why a batch is not put whole.
#[derive(Clone, Copy)]
pub enum Unput {
    /// What C passes is no event.
    BadEvent(BadEvent),
    /// The event is not taken, or its cell is not put.
    Refused(PutError),
}

/// Takes the event that C passes, of which the content is the first of the contents; answers how many bytes were put at the front of the room,
/// where a cell ends with it, and the contents after its own.
#[inline(always)]
fn put_from_c<'a>(
    cells: &mut PutCells<'_>,
    c_event: &CqlpEvent,
    contents: &'a [u8],
    room: &mut [u8],
) -> Result<(Option<usize>, &'a [u8]), Unput>
    ensures { (bytes : List ℕ) × PutsOne (putter cells.old) c_event.now contents.now (length room.old) (model.seen_put result) bytes (putter cells.new)
        × (room.new ≡ bytes ++ drop (length bytes) room.old) }
{
    match put_whole(cells, c_event, contents, room) {
        Some((len, rest)) => Ok((Some(len), rest)),
        None => put_any(cells, c_event, contents, room),
    }
}

/// Puts the next cell, if this event is a leaf or a null, and all of the cell. It answers how many bytes the cell has, and the contents after its own.
/// Where it is no such event of the next cell, or the cell is refused, nothing changes: [`put_any`] then finds out why.
#[tactic(auto, using(crate::proofs::PagesPut::leaf_no_null, crate::proofs::PagesPut::null_no_leaf, crate::proofs::PagesPut::no_leaf_tag))]
#[inline(always)]
fn put_whole<'a>(
    cells: &mut PutCells<'_>,
    c_event: &CqlpEvent,
    contents: &'a [u8],
    room: &mut [u8],
) -> Option<(usize, &'a [u8])>
    ensures puts { PutsLeaf cells.old c_event.now contents.now room.old result cells.new room.new }
    ensures leaf { IfNone result (RefusesLeaf cells.old c_event.now contents.now room.old) }
    ensures null { IfNone result (RefusesNull cells.old c_event.now room.old) }
{
    if c_event.tag == TAG_LEAF {
        put_leaf(cells, c_event, contents, room)
    } else if is_null(c_event) {
        put_null(cells, c_event, contents, room)
    } else {
        None
    }
}

/// The same of a null.
#[tactic(auto, using(crate::proofs::PagesPut::none_next_null, crate::proofs::PagesPut::null_unput))]
#[inline(always)]
fn put_null<'a>(
    cells: &mut PutCells<'_>,
    c_event: &CqlpEvent,
    contents: &'a [u8],
    room: &mut [u8],
) -> Option<(usize, &'a [u8])>
    requires { IsNull c_event.now }
    ensures puts { PutsLeaf cells.old c_event.now contents.now room.old result cells.new room.new }
    ensures null { IfNone result (RefusesNull cells.old c_event.now room.old) }
{
    match cells.next_kind(c_event.row, c_event.column) {
        Some(_kind) => match cells.put_null(room) {
            Some(len) => Some((len, contents)),
            None => None,
        },
        None => None,
    }
}

/// The same of a leaf.
#[tactic(auto, using(crate::proofs::PagesPut::none_next_leaf))]
#[inline(always)]
fn put_leaf<'a>(
    cells: &mut PutCells<'_>,
    c_event: &CqlpEvent,
    contents: &'a [u8],
    room: &mut [u8],
) -> Option<(usize, &'a [u8])>
    ensures puts { PutsLeaf cells.old c_event.now contents.now room.old result cells.new room.new }
    ensures leaf { IfNone result (RefusesLeaf cells.old c_event.now contents.now room.old) }
{
    match cells.next_kind(c_event.row, c_event.column) {
        Some(kind) => put_by_kind(cells, kind, c_event, contents, room),
        None => None,
    }
}

/// The same, where the next cell is of this kind. The compiler makes code of its own for each arm, which looks at what cells of that kind have.
#[tactic(auto, using(crate::proofs::PagesPut::leaf_of_items))]
#[inline(always)]
fn put_by_kind<'a>(
    cells: &mut PutCells<'_>,
    kind: Kind,
    c_event: &CqlpEvent,
    contents: &'a [u8],
    room: &mut [u8],
) -> Option<(usize, &'a [u8])>
    requires { IsNextKind cells.old c_event.now.row c_event.now.column kind }
    ensures puts { PutsLeaf cells.old c_event.now contents.now room.old result cells.new room.new }
    ensures leaf { IfNone result (RefusesLeaf cells.old c_event.now contents.now room.old) }
{
    match kind {
        Kind::Int => put_as(cells, Kind::Int, c_event, contents, room),
        Kind::Bigint => put_as(cells, Kind::Bigint, c_event, contents, room),
        Kind::Varchar => put_as(cells, Kind::Varchar, c_event, contents, room),
        Kind::Boolean => put_as(cells, Kind::Boolean, c_event, contents, room),
        Kind::Ascii => put_as(cells, Kind::Ascii, c_event, contents, room),
        Kind::Blob => put_as(cells, Kind::Blob, c_event, contents, room),
        Kind::Counter => put_as(cells, Kind::Counter, c_event, contents, room),
        Kind::Custom => put_as(cells, Kind::Custom, c_event, contents, room),
        Kind::Date => put_as(cells, Kind::Date, c_event, contents, room),
        Kind::Decimal => put_as(cells, Kind::Decimal, c_event, contents, room),
        Kind::Double => put_as(cells, Kind::Double, c_event, contents, room),
        Kind::Float => put_as(cells, Kind::Float, c_event, contents, room),
        Kind::Inet => put_as(cells, Kind::Inet, c_event, contents, room),
        Kind::Raw => put_as(cells, Kind::Raw, c_event, contents, room),
        Kind::Smallint => put_as(cells, Kind::Smallint, c_event, contents, room),
        Kind::Time => put_as(cells, Kind::Time, c_event, contents, room),
        Kind::Timestamp => put_as(cells, Kind::Timestamp, c_event, contents, room),
        Kind::Timeuuid => put_as(cells, Kind::Timeuuid, c_event, contents, room),
        Kind::Tinyint => put_as(cells, Kind::Tinyint, c_event, contents, room),
        Kind::Uuid => put_as(cells, Kind::Uuid, c_event, contents, room),
        Kind::Varint => put_as(cells, Kind::Varint, c_event, contents, room),
        Kind::List | Kind::Map | Kind::Set | Kind::Udt | Kind::Tuple => None,
    }
}

/// The same, as one function for all kinds.
#[tactic(auto, using(crate::proofs::PagesPut::unread_leaf, crate::proofs::PagesPut::leaf_unput))]
#[inline(always)]
fn put_as<'a>(
    cells: &mut PutCells<'_>,
    kind: Kind,
    c_event: &CqlpEvent,
    contents: &'a [u8],
    room: &mut [u8],
) -> Option<(usize, &'a [u8])>
    requires { IsNextKind cells.old c_event.now.row c_event.now.column kind }
    ensures puts { PutsLeaf cells.old c_event.now contents.now room.old result cells.new room.new }
    ensures leaf { IfNone result (RefusesLeaf cells.old c_event.now contents.now room.old) }
{
    match leaf_from_c(c_event, kind, contents) {
        Some((scalar, rest)) => match cells.put_scalar(&scalar, kind, room) {
            Some(len) => Some((len, rest)),
            None => None,
        },
        None => None,
    }
}

/// Takes any event, as [`put_from_c`] does.
fn put_any<'a>(
    cells: &mut PutCells<'_>,
    c_event: &CqlpEvent,
    contents: &'a [u8],
    room: &mut [u8],
) -> Result<(Option<usize>, &'a [u8]), Unput>
    ensures { (bytes : List ℕ) × PutsOne (putter cells.old) c_event.now contents.now (length room.old) (model.seen_put result) bytes (putter cells.new)
        × (room.new ≡ bytes ++ drop (length bytes) room.old) }
{
    let (event, rest) = match event_from_c(c_event, contents) {
        Ok(found) => found,
        Err(why) => return Err(Unput::BadEvent(why)),
    };
    match cells.take(&event, room) {
        Ok(len) => Ok((len, rest)),
        Err(why) => Err(Unput::Refused(why)),
    }
}

impl CqlpPut {
    /// Goes on after an event, with which a cell of as many bytes ends, or none. `used` is how many bytes of the contents are those of all events so far.
    fn gone_on(self, event: usize, used: usize, len: Option<usize>) -> CqlpPut
        requires next { event + 1 < 2 ^ 64 }
        requires long { IfSome len (λ n. self.length + n < 2 ^ 64) }
        ensures { result ≡ model.gone_on self event used len }
    {
        match len {
            Some(len) => CqlpPut {
                events: event + 1,
                used,
                length: self.length + len,
                ..self
            },
            None => self,
        }
    }

    /// It stops at this event.
    fn stopped(self, event: usize, why: Unput) -> CqlpPut
        ensures { result ≡ model.stopped self event why }
    {
        CqlpPut {
            event,
            wanted: wanted_of(why),
            ..self
        }
    }
}

/// How many bytes the next cell has, where there is no room for as many.
fn wanted_of(why: Unput) -> usize
    ensures { result ≡ model.wanted_of why }
{
    match why {
        Unput::Refused(PutError::NoRoom(wanted)) => wanted,
        Unput::Refused(PutError::Cell(_)) | Unput::BadEvent(_) => 0,
    }
}

/// Puts the cells that have these events, and says why they are not all put, if they are not.
fn put_all(
    cells: &mut PutCells<'_>,
    events: &[CqlpEvent],
    contents: &[u8],
    room: &mut [u8],
) -> (CqlpPut, u32)
    ensures { PutsAll (putter cells.old) events.now contents.now room.old result room.new (putter cells.new) }
{
    let mut put = CqlpPut {
        events: 0,
        used: 0,
        length: 0,
        event: events.len(),
        wanted: 0,
    };
    let mut rest = contents;
    for (event, c_event) in events.iter().enumerate() {
        match put_from_c(cells, c_event, rest, &mut room[put.length..]) {
            Ok((len, behind)) => {
                rest = behind;
                put = put.gone_on(event, contents.len() - rest.len(), len);
            }
            Err(why) => return (put.stopped(event, why), unput_code(why)),
        }
    }
    if put.events == events.len() {
        (put, DONE)
    } else {
        (put, NOT_ENDED)
    }
}

/// The code for an event of a cell that is not taken, or for a cell that has no value.
fn cell_code(why: CellError) -> u32
    ensures { result ≡ model.code_of_cell why }
{
    match why {
        CellError::Misplaced => MISPLACED,
        CellError::InParts => UNBUILT,
        CellError::TooManyEvents => TOO_MANY_FIELDS,
        CellError::TooManyBytes => TOO_MANY_BYTES,
        CellError::Unformed => NO_TYPE,
        CellError::NoValue => NO_VALUE,
        CellError::NoMemory => NO_MEMORY,
    }
}

/// The code for a batch that is not put whole.
fn unput_code(why: Unput) -> u32
    ensures { result ≡ model.code_of_unput why }
{
    match why {
        Unput::BadEvent(why) => bad_event_code(why),
        Unput::Refused(PutError::NoRoom(_)) => NO_ROOM,
        Unput::Refused(PutError::Cell(PageCellError::Cell(why))) => cell_code(why),
        Unput::Refused(PutError::Cell(PageCellError::PastLength)) => PAST_SIZE,
        Unput::Refused(PutError::Cell(PageCellError::NotEnded)) => NOT_ENDED,
    }
}

/// Puts cells of a page, which goes on after them.
fn put_cells(
    alloc: Global,
    page: &mut OpenPage,
    events: &[CqlpEvent],
    contents: &[u8],
    room: &mut [u8],
) -> (CqlpPut, u32)
    ensures { PutsCells page.old events.now contents.now room.old result room.new page.new }
{
    // No cell has more events or bytes than a body.
    let limits = CellLimits {
        events: Header::LONGEST_BODY,
        bytes: Header::LONGEST_BODY,
    };
    let mut cells = PutCells::new(alloc, page, limits);
    let put = put_all(&mut cells, events, contents, room);
    let place = cells.place();
    drop(cells);
    page.set_place(place);
    put
}

/// Puts the next cells of a page, whose events these are, and says how many were put. Where there is no event, no content or no room, its
/// pointer may be null.
#[unsafe(no_mangle)]
pub extern "C" fn cqlp_page_put(
    alloc: Global,
    page: &mut CqlpPage,
    events: &[CqlpEvent],
    contents: &[u8],
    bytes: &mut [u8],
    written: &mut CqlpPut,
) -> u32
    ensures { Puts page.old.place.value events.now contents.now result page.new.place.value bytes.old bytes.new written.old written.new }
{
    match taken(std::mem::replace(page, none(alloc)), alloc) {
        Some(mut boxed) => {
            let (put, code) = put_cells(alloc, &mut boxed, events, or_none(contents), bytes);
            *written = put;
            *page = holding(boxed);
            code
        }
        None => NO_PAGE,
    }
}

/// The code for a page that has ended, or for what it still wants.
fn end_code(ended: Result<(), Unended>) -> u32
    ensures { result ≡ model.code_of_end ended }
{
    match ended {
        Ok(()) => DONE,
        Err(Unended::CellsMissing) => CELLS_MISSING,
        Err(Unended::BytesMissing) => BYTES_MISSING,
    }
}

/// Says whether all cells of a page have come, and all bytes that they were to have.
#[unsafe(no_mangle)]
pub extern "C" fn cqlp_page_end(alloc: Global, page: &mut CqlpPage) -> u32
    ensures code { result ≡ model.code_of_ends page.old.place.value }
    ensures same { page.new.place.value ≡ page.old.place.value }
{
    match taken(std::mem::replace(page, none(alloc)), alloc) {
        Some(boxed) => {
            let code = end_code(boxed.end());
            *page = holding(boxed);
            code
        }
        None => NO_PAGE,
    }
}

/// Frees a page, whether or not it has ended, and leaves a handle that has none.
#[unsafe(no_mangle)]
pub extern "C" fn cqlp_page_free(alloc: Global, page: &mut CqlpPage) -> u32
    ensures code { result ≡ model.code_of_free page.old.place.value }
    ensures none { page.new.place.value ≡ None }
{
    match taken(std::mem::replace(page, none(alloc)), alloc) {
        Some(_boxed) => DONE,
        None => NO_PAGE,
    }
}
