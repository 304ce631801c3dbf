//! Columns that C holds, and pages that are read into them.

ghost use Rattle.std.specs.Prelude.{◌≡◌, ◌+◌, ◌<◌, ◌^◌, Option, None, Some, IfNone, IfOk, IfSome, option_map};
ghost use Rattle.std.specs.Box.Ownership.{box_owns};
ghost use Rattle.std.specs.Ptr.{as_ptr};
ghost use Rattle.std.specs.contracts.alloc.Global as heap;
ghost use Rattle.std.specs.contracts.impls.GlobalAllocator.TheImpl.{ghosts};
ghost use Rattle.std.specs.contracts.option.Option.{the_row as option_of};
ghost use Rattle.cqlp_columns.specs.Batches.{Batch as Arrays, refusal_of_kinds};
ghost use Rattle.cqlp_columns.specs.contracts.columns.Columns as arrays;
ghost use Rattle.cqlp_c.specs.Columns.{Clears, ClearsHeld, FillsColumns, Gets, Makes, MakesBy, MakesNumbered, Nexts, PutsBeside};
ghost use Rattle.cqlp_c.specs.Columns.{ReadsHeld, ReadsInto, ReadsOn, Shows, ShowsHeld, batch_in, code_of_free, code_of_make};
ghost use Rattle.cqlp_c.specs.Columns.{kinds_numbered, limits_of, placed_written};
ghost use Rattle.cqlp_c.specs.Course.{batch_from};
ghost use Rattle.cqlp_c.specs.Batches.{buffer_in};
ghost use Rattle.cqlp_c.specs.Handle.{flag_of, owned_in};

use crate::batch::{Batch, Stop, or_none, put_gathered};
use crate::course::{CqlpBegun, CqlpCourse};
use crate::event::{CqlpEvent, address_of, before_content, write};
use crate::handle::{self, CqlpDecoder};
use crate::loose::Loose;
use crate::numbers::*;
use crate::shown::{CqlpBatch, batch_of};
use cqlp_columns::{BatchLimits, Column, Columns, Filled, MakeError, PageColumns, Stop as Why};
use cqlp_decode::{Decoder, Event, Sink, SinkFault};
use cqlp_kind::Kind;
use std::alloc::{AllocError, Global};
use std::marker::{Model, Send};

/// How large a batch of rows may be.
#[repr(C)]
#[derive(Clone, Copy)]
pub struct CqlpBatchLimits {
    /// How many columns.
    pub columns: u32,
    /// How many rows.
    pub rows: u32,
    /// With how many bytes of values in a column no further row begins; those of its last row come on top of it.
    pub bytes: u32,
    /// How many bytes one value may have.
    pub content: u32,
}

/// The arrays of a column, in the layout of Apache Arrow. They stay in their places for as long as the handle has columns.
#[repr(C)]
#[derive(Clone, Copy)]
pub struct CqlpColumn {
    /// The values, one after the other, zeros where a cell has none; of booleans a bit each.
    pub values: *const u8,
    /// Where each value begins among these bytes, and where the last one ends.
    pub offsets: *const u64,
    /// A bit for each cell: whether it has a value.
    pub validity: *const u8,
    /// A bit for each cell: whether it has a value of no bytes.
    pub empties: *const u8,
    /// How many bytes of values there are.
    pub size: usize,
    /// How many offsets there are: one more than cells, or none where the layout has no offsets.
    pub bounds: usize,
    /// How many cells there are.
    pub cells: usize,
    /// Of which kind the values are: a number `KIND_..`.
    pub kind: u8,
}

/// Where a place for columns lies, or none.
#[repr(C)]
#[derive(Drop)]
pub struct CqlpArrays {
    at: *mut u8,
    ghost alloc: { heap.the_row.Denot },
    ghost value: { Option (Option Arrays) },
}

impl Model for CqlpArrays {
    ghost also_owns = { λ h. owned_in (box_owns (ghosts.dealloc_token h.alloc) (option_of (arrays.the_row heap.the_row ghosts)) h.at) h.value };
}

// What it owns, columns and the right to free them, is the same to every thread.
unsafe impl Send for CqlpArrays {}

impl CqlpArrays {
    /// The place of none.
    fn none(_alloc: Global) -> CqlpArrays
        ensures { result.value ≡ None }
    {
        CqlpArrays {
            at: std::ptr::null_mut(),
        }
    }

    /// The place of what a box has.
    fn of(loose: Loose<Option<Columns<Global>>, Global>) -> CqlpArrays
        ensures { result.value ≡ Some loose.value }
    {
        let Loose { at, alloc: _ } = loose;
        CqlpArrays { at: at as *mut u8 }
    }

    /// The box that lies there.
    fn into_loose(self, alloc: Global) -> Loose<Option<Columns<Global>>, Global>
        requires { flag_of self.value ≡ 1 }
        ensures { self.value ≡ Some result.value }
    {
        let CqlpArrays { at } = self;
        Loose {
            at: at as *mut Option<Columns<Global>>,
            alloc,
        }
    }
}

/// Columns, or none where `live` is 0. C makes one of zeros, and never writes or copies it.
#[repr(C)]
#[derive(Drop)]
pub struct CqlpColumns {
    live: u64,
    place: CqlpArrays,
    ghost agrees: { flag_of place.value ≡ live },
}

/// A handle that has none.
fn none(alloc: Global) -> CqlpColumns
    ensures { result.place.value ≡ None }
{
    let place = CqlpArrays::none(alloc);
    CqlpColumns { live: 0, place }
}

/// A handle that has this box.
fn holding(boxed: Box<Option<Columns<Global>>>) -> CqlpColumns
    ensures { result.place.value ≡ Some boxed.value }
{
    let place = CqlpArrays::of(Loose::of(boxed));
    CqlpColumns { live: 1, place }
}

/// The box of a handle, if it has one.
fn taken(columns: CqlpColumns, alloc: Global) -> Option<Box<Option<Columns<Global>>>>
    ensures some { IfSome result (λ b. columns.place.value ≡ Some b.value) }
    ensures none { IfNone result (columns.place.value ≡ None) }
{
    let CqlpColumns { live, place } = columns;
    if live == 1 {
        Some(place.into_loose(alloc).into_box())
    } else {
        None
    }
}

/// The kinds that have these numbers.
fn kinds_of(alloc: Global, numbers: &[u8]) -> Result<Option<Vec<Kind>>, AllocError>
    ensures { IfOk result (λ found. option_map (λ kinds. kinds.items) found ≡ kinds_numbered numbers.now) }
{
    let mut kinds = Vec::with_capacity(alloc, numbers.len())?;
    for number in numbers {
        match kind_numbered(*number) {
            Some(kind) => kinds.push_reserved(kind),
            None => return Ok(None),
        }
    }
    Ok(Some(kinds))
}

/// The code for columns that are not made.
fn make_code(why: MakeError) -> u32
    ensures { result ≡ code_of_make why }
{
    match why {
        MakeError::TooManyColumns => TOO_MANY_COLUMNS,
        MakeError::Unsupported => UNSUPPORTED,
        MakeError::NoMemory => NO_MEMORY,
    }
}

/// Makes columns of these kinds in a handle that has none.
fn make(alloc: Global, limits: BatchLimits, kinds: &[Kind], columns: &mut CqlpColumns) -> u32
    requires { columns.old.place.value ≡ None }
    ensures { MakesBy limits kinds.now (refusal_of_kinds limits kinds.now) result columns.new.place.value }
{
    match Columns::new(alloc, limits, kinds) {
        Ok(made) => match Box::new(alloc, Some(made)) {
            Ok(boxed) => {
                *columns = holding(boxed);
                DONE
            }
            Err(_) => NO_MEMORY,
        },
        Err(why) => make_code(why),
    }
}

/// The same, of the kinds that have these numbers.
fn make_numbered(
    alloc: Global,
    limits: BatchLimits,
    numbers: &[u8],
    columns: &mut CqlpColumns,
) -> u32
    requires { columns.old.place.value ≡ None }
    ensures { MakesNumbered limits numbers.now result columns.new.place.value }
{
    let Ok(found) = kinds_of(alloc, numbers) else {
        return NO_MEMORY;
    };
    match found {
        Some(kinds) => make(alloc, limits, &kinds, columns),
        None => BAD_KIND,
    }
}

/// The limits that C gives.
fn limits_of(limits: &CqlpBatchLimits) -> BatchLimits
    ensures { result ≡ limits_of limits.now }
{
    BatchLimits {
        columns: limits.columns,
        rows: limits.rows,
        bytes: limits.bytes,
        content: limits.content,
    }
}

/// Makes columns in a handle that has none, without rows, one for each of the kinds that have these numbers.
#[unsafe(no_mangle)]
pub extern "C" fn cqlp_columns_new(
    alloc: Global,
    limits: &CqlpBatchLimits,
    kinds: &[u8],
    columns: &mut CqlpColumns,
) -> u32
    ensures { Makes limits.now kinds.now columns.old.place.value result columns.new.place.value }
{
    if columns.live != 0 {
        return IN_USE;
    }
    if kinds.len() > limits.columns as usize {
        return TOO_MANY_COLUMNS;
    }
    make_numbered(alloc, limits_of(limits), or_none(kinds), columns)
}

/// An event that the columns do not take, as C sees it, and whether it lends a content.
#[derive(Clone, Copy)]
struct Beside {
    written: CqlpEvent,
    lends: bool,
}

impl Sink for Beside {
    ghost use Rattle.cqlp_c.specs.Columns.{WritesBeside};

    ghost View = { Unit {0} };

    ghost view = { λ _. tt };

    ghost after = { λ _ _ _. tt };

    ghost faulted = { λ _ _ _ _. ⊥ };

    ghost also = { λ _ at e new. WritesBeside new.written new.lends at e };

    #[inline]
    fn take(&mut self, at: u64, event: &Event<'_>) -> Result<(), SinkFault> {
        write(&mut self.written, at, event);
        self.lends = before_content(event).is_some();
        Ok(())
    }
}

/// Puts an event that the columns do not take: its content is the last of the bytes used, or lies in the decoder.
fn put_beside(slot: &mut CqlpEvent, beside: Beside, decoder: &Decoder<Global>, bytes: &[u8])
    ensures { PutsBeside beside.written beside.lends (as_ptr bytes.entry) (buffer_in decoder.now) bytes.now slot.new }
{
    *slot = beside.written;
    if slot.is_gathered(bytes.len()) {
        put_gathered(slot, decoder);
    } else if beside.lends {
        slot.content = address_of(&bytes[bytes.len() - slot.length..]);
    }
}

/// What a call made of the input, as a batch of at most one event.
fn batch_in(filled: Filled) -> Batch
    ensures { result ≡ batch_in filled }
{
    let (events, stop) = match filled.stop {
        Why::More => (0, Stop::More),
        Why::Full => (0, Stop::Full),
        Why::Other | Why::Failed => (1, Stop::Full),
        Why::Refused(refusal) => (0, Stop::Refused(refusal)),
    };
    Batch {
        used: filled.used,
        events,
        stop,
    }
}

/// The columns with the next cells of the input, and what was made of it. The first event that is none of them is put, and goes on to the frame
/// that is under way after it.
fn fill_columns(
    decoder: &mut Decoder<Global>,
    input: &[u8],
    columns: Columns<Global>,
    event: &mut CqlpEvent,
    frame: &mut CqlpBegun,
) -> (Batch, Columns<Global>)
    ensures { FillsColumns decoder.old decoder.new input.now (as_ptr input.entry) columns result.1 event.old event.new frame.old frame.new result.0 }
{
    let written = Beside {
        written: CqlpEvent::blank(0),
        lends: false,
    };
    let mut page = PageColumns::new(columns, written);
    let filled = page.read(decoder, input);
    let PageColumns {
        columns,
        other,
        went: _,
    } = page;
    let batch = batch_in(filled);
    if batch.events == 1 {
        put_beside(event, other, decoder, &input[..filled.used]);
        frame.pass_event(event);
    }
    (batch, columns)
}

/// Puts the event of a batch, if it has one, at its offset in the whole stream, in which its stretch begins at `base`.
fn place_written(base: u64, batch: &Batch, event: &mut CqlpEvent)
    ensures { event.new ≡ placed_written batch.now.events base event.old }
{
    if base > 0 && batch.events > 0 {
        event.at = base.saturating_add(event.at);
    }
}

/// A batch as the whole stream has it: before its bytes, others were passed over.
fn batch_behind(course: &CqlpCourse, passed: usize, batch: Batch) -> Batch
    requires { passed + batch.used < 2 ^ 64 }
    ensures { result ≡ batch_from course.now.base passed batch }
{
    if course.base == 0 {
        return batch;
    }
    course.batch(passed, batch)
}

/// The same, of a piece of which the first bytes are passed over, as many as the frame passed over last still has, and at offsets in the whole
/// stream.
fn read_columns(
    decoder: &mut Decoder<Global>,
    course: &mut CqlpCourse,
    input: &[u8],
    columns: Columns<Global>,
    event: &mut CqlpEvent,
) -> (Batch, Columns<Global>)
    ensures { ReadsOn decoder.old decoder.new course.old course.new input.now (as_ptr input.entry) columns result.1 event.old event.new result.0 }
{
    let passed = course.passed(input.len());
    let (batch, columns) = fill_columns(
        decoder,
        &input[passed..],
        columns,
        event,
        &mut course.frame,
    );
    place_written(course.base, &batch, event);
    course.add_used(passed + batch.used);
    (batch_behind(course, passed, batch), columns)
}

/// Reads a piece into the columns of a place, if some are there.
fn read_held(
    decoder: &mut Decoder<Global>,
    course: &mut CqlpCourse,
    held: &mut Option<Columns<Global>>,
    input: &[u8],
    event: &mut CqlpEvent,
    batch: &mut CqlpBatch,
) -> u32
    ensures { ReadsHeld decoder.old decoder.new course.old course.new held.old held.new input.now (as_ptr input.entry) event.old event.new
        batch.old result batch.new }
{
    let Some(columns) = held.take() else {
        return NO_COLUMNS;
    };
    let (written, columns) = read_columns(decoder, course, input, columns, event);
    *batch = batch_of(&written);
    *held = Some(columns);
    DONE
}

/// The same, of the columns of a handle.
fn read_into(
    alloc: Global,
    decoder: &mut Decoder<Global>,
    course: &mut CqlpCourse,
    columns: &mut CqlpColumns,
    input: &[u8],
    event: &mut CqlpEvent,
    batch: &mut CqlpBatch,
) -> u32
    ensures { ReadsInto decoder.old decoder.new course.old course.new columns.old.place.value columns.new.place.value input.now (as_ptr input.entry)
        event.old event.new batch.old result batch.new }
{
    match taken(std::mem::replace(columns, none(alloc)), alloc) {
        Some(mut held) => {
            let code = read_held(decoder, course, &mut held, input, event, batch);
            *columns = holding(held);
            code
        }
        None => NO_COLUMNS,
    }
}

/// Reads on: the next events of the input are cells that go into the columns, up to the one that fills them, or up to the first that they do not
/// take, which is put into `event`. Where the input has no bytes, its pointer may be null.
#[unsafe(no_mangle)]
pub extern "C" fn cqlp_columns_next(
    alloc: Global,
    decoder: &mut CqlpDecoder,
    columns: &mut CqlpColumns,
    input: &[u8],
    event: &mut CqlpEvent,
    batch: &mut CqlpBatch,
) -> u32
    ensures { Nexts decoder.old.held.place.value decoder.old.course columns.old.place.value input.entry result decoder.new.held.place.value
        decoder.new.course columns.new.place.value event.old event.new batch.old batch.new }
{
    match handle::taken(
        std::mem::replace(&mut decoder.held, handle::none(alloc)),
        alloc,
    ) {
        Some(mut boxed) => {
            let code = read_into(
                alloc,
                &mut boxed,
                &mut decoder.course,
                columns,
                or_none(input),
                event,
                batch,
            );
            decoder.held = handle::holding(boxed);
            code
        }
        None => NO_DECODER,
    }
}

/// The arrays of a column.
fn view_of(column: &Column<Global>) -> CqlpColumn
    ensures { Shows column.now result }
{
    CqlpColumn {
        values: column.values_address(),
        offsets: column.offsets_address(),
        validity: column.validity_address(),
        empties: column.empties_address(),
        size: column.values().len(),
        bounds: column.offsets().len(),
        cells: column.len(),
        kind: kind_number(column.kind()),
    }
}

/// Shows the column of a number, if some are there.
fn show(held: &Option<Columns<Global>>, column: usize, view: &mut CqlpColumn) -> u32
    ensures { ShowsHeld held.now column result view.old view.new }
{
    let Some(columns) = held else {
        return NO_COLUMNS;
    };
    match columns.columns().get(column) {
        Some(column) => {
            *view = view_of(column);
            DONE
        }
        None => NO_COLUMN,
    }
}

/// Says where the arrays of the column of a number lie, from 0.
#[unsafe(no_mangle)]
pub extern "C" fn cqlp_columns_get(
    alloc: Global,
    columns: &mut CqlpColumns,
    column: usize,
    view: &mut CqlpColumn,
) -> u32
    ensures { Gets columns.old.place.value columns.new.place.value column result view.old view.new }
{
    match taken(std::mem::replace(columns, none(alloc)), alloc) {
        Some(held) => {
            let code = show(&held, column, view);
            *columns = holding(held);
            code
        }
        None => NO_COLUMNS,
    }
}

/// Removes the rows of columns that are there.
fn clear(held: &mut Option<Columns<Global>>) -> u32
    ensures { ClearsHeld held.old result held.new }
{
    match held {
        Some(columns) => {
            columns.clear();
            DONE
        }
        None => NO_COLUMNS,
    }
}

/// Removes all rows, also one that is under way, and keeps the memory.
#[unsafe(no_mangle)]
pub extern "C" fn cqlp_columns_clear(alloc: Global, columns: &mut CqlpColumns) -> u32
    ensures { Clears columns.old.place.value result columns.new.place.value }
{
    match taken(std::mem::replace(columns, none(alloc)), alloc) {
        Some(mut held) => {
            let code = clear(&mut held);
            *columns = holding(held);
            code
        }
        None => NO_COLUMNS,
    }
}

/// Frees columns, and leaves a handle that has none.
#[unsafe(no_mangle)]
pub extern "C" fn cqlp_columns_free(alloc: Global, columns: &mut CqlpColumns) -> u32
    ensures code { result ≡ code_of_free columns.old.place.value }
    ensures none { columns.new.place.value ≡ None }
{
    match taken(std::mem::replace(columns, none(alloc)), alloc) {
        Some(_held) => DONE,
        None => NO_COLUMNS,
    }
}
