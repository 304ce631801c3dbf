//! Tables of types that C holds, and gives to decoders.

ghost use Rattle.std.specs.Prelude.{◌≡◌, Option, None, Some, IfNone, IfOk, IfSome};
ghost use Rattle.std.specs.Box.Ownership.{box_owns};
ghost use Rattle.std.specs.contracts.alloc.Global as heap;
ghost use Rattle.std.specs.contracts.impls.GlobalAllocator.TheImpl.{ghosts};
ghost use Rattle.std.specs.contracts.option.Option.{the_row as option_of};
ghost use Rattle.cqlp_type.specs.Table.{Table};
ghost use Rattle.cqlp_type.specs.contracts.table.TypeTable as table;
ghost use Rattle.cqlp_decode.specs.Giving.{free_table};
ghost use Rattle.cqlp_decode.specs.Streams.{state};
ghost use Rattle.cqlp_c.specs.Given.{Copies, CopiesFrom, Gives, GivesHeld, GivesTo, TakesAnew, TakesBack, TakesFrom, TakesHeld};
ghost use Rattle.cqlp_c.specs.Given.{code_of_free, code_of_reason, table_in};
ghost use Rattle.cqlp_c.specs.Handle.{flag_of, owned_in};

use crate::handle::{self, CqlpDecoder};
use crate::loose::Loose;
use crate::numbers::*;
use cqlp_decode::{Decoder, GiveError, GiveReason};
use cqlp_note::NoMemory;
use cqlp_type::TypeTable;
use std::alloc::Global;
use std::marker::{Model, Send};

/// Where a place for a table of types lies, or none.
#[repr(C)]
#[derive(Drop)]
pub struct CqlpTable {
    at: *mut u8,
    ghost alloc: { heap.the_row.Denot },
    ghost value: { Option (Option Table) },
}

impl Model for CqlpTable {
    ghost also_owns = { λ h. owned_in (box_owns (ghosts.dealloc_token h.alloc) (option_of (table.the_row heap.the_row ghosts)) h.at) h.value };
}

// What it owns, a table and the right to free it, is the same to every thread.
unsafe impl Send for CqlpTable {}

impl CqlpTable {
    /// The place of none.
    fn none(_alloc: Global) -> CqlpTable
        ensures { result.value ≡ None }
    {
        CqlpTable {
            at: std::ptr::null_mut(),
        }
    }

    /// The place of what a box has.
    fn of(loose: Loose<Option<TypeTable<Global>>, Global>) -> CqlpTable
        ensures { result.value ≡ Some loose.value }
    {
        let Loose { at, alloc: _ } = loose;
        CqlpTable { at: at as *mut u8 }
    }

    /// The box that lies there.
    fn into_loose(self, alloc: Global) -> Loose<Option<TypeTable<Global>>, Global>
        requires { flag_of self.value ≡ 1 }
        ensures { self.value ≡ Some result.value }
    {
        let CqlpTable { at } = self;
        Loose {
            at: at as *mut Option<TypeTable<Global>>,
            alloc,
        }
    }
}

/// A table of types, or none; and none, and no memory, where `live` is 0. C makes one of zeros, and never writes or copies it.
#[repr(C)]
#[derive(Drop)]
pub struct CqlpTypes {
    live: u64,
    place: CqlpTable,
    ghost agrees: { flag_of place.value ≡ live },
}

/// A handle that has no memory.
fn none(alloc: Global) -> CqlpTypes
    ensures { result.place.value ≡ None }
{
    let place = CqlpTable::none(alloc);
    CqlpTypes { live: 0, place }
}

/// A handle that has this box.
fn holding(boxed: Box<Option<TypeTable<Global>>>) -> CqlpTypes
    ensures { result.place.value ≡ Some boxed.value }
{
    let place = CqlpTable::of(Loose::of(boxed));
    CqlpTypes { live: 1, place }
}

/// The box of a handle, if it has one.
fn taken(types: CqlpTypes, alloc: Global) -> Option<Box<Option<TypeTable<Global>>>>
    ensures some { IfSome result (λ b. types.place.value ≡ Some b.value) }
    ensures none { IfNone result (types.place.value ≡ None) }
{
    let CqlpTypes { live, place } = types;
    if live == 1 {
        Some(place.into_loose(alloc).into_box())
    } else {
        None
    }
}

/// The code for a table that is not taken.
fn reason_code(why: GiveReason) -> u32
    ensures { result ≡ code_of_reason why }
{
    match why {
        GiveReason::Ended => ENDED,
        GiveReason::Off => OFF,
        GiveReason::Busy => BUSY,
        GiveReason::Open => OPEN,
        GiveReason::TooMany => TOO_MANY,
        GiveReason::TooDeep => TOO_DEEP,
    }
}

/// Puts a copy of a table where none is.
fn copy_into(held: &mut Option<TypeTable<Global>>, table: &TypeTable<Global>) -> u32
    ensures { CopiesFrom table.now held.old result (Some held.old) (Some held.new) }
{
    if held.is_some() {
        return IN_USE;
    }
    match table.clone_table() {
        Ok(copy) => {
            *held = Some(copy);
            DONE
        }
        Err(_) => NO_MEMORY,
    }
}

/// A copy of a table, on the heap.
fn copy_of(
    alloc: Global,
    table: &TypeTable<Global>,
) -> Result<Box<Option<TypeTable<Global>>>, NoMemory>
    ensures { IfOk result (λ b. b.value ≡ Some table.now) }
{
    let copy = table.clone_table()?;
    match Box::new(alloc, Some(copy)) {
        Ok(boxed) => Ok(boxed),
        Err(_) => Err(NoMemory),
    }
}

/// Puts a copy of a table into a handle that has none.
fn copy(alloc: Global, table: &TypeTable<Global>, types: &mut CqlpTypes) -> u32
    ensures { CopiesFrom table.now (table_in types.old.place.value) result types.old.place.value types.new.place.value }
{
    match taken(std::mem::replace(types, none(alloc)), alloc) {
        Some(mut held) => {
            let code = copy_into(&mut held, table);
            *types = holding(held);
            code
        }
        None => match copy_of(alloc, table) {
            Ok(held) => {
                *types = holding(held);
                DONE
            }
            Err(_) => NO_MEMORY,
        },
    }
}

/// Puts a copy of the types of the metadata that was read last, those of the bound variables or those of the result, into a handle
/// that has no table. The copy has room for as many as the decoder's limit `entries` allows.
#[unsafe(no_mangle)]
pub extern "C" fn cqlp_types_of(
    alloc: Global,
    decoder: &mut CqlpDecoder,
    types: &mut CqlpTypes,
) -> u32
    ensures is { Copies decoder.old.held.place.value result decoder.new.held.place.value types.old.place.value types.new.place.value }
    ensures course { decoder.new.course ≡ decoder.old.course }
{
    match handle::taken(
        std::mem::replace(&mut decoder.held, handle::none(alloc)),
        alloc,
    ) {
        Some(boxed) => {
            let code = copy(alloc, boxed.table(), types);
            decoder.held = handle::holding(boxed);
            code
        }
        None => NO_DECODER,
    }
}

/// Gives a table that is there, and keeps the one that comes back.
fn give(decoder: &mut Decoder<Global>, held: &mut Option<TypeTable<Global>>) -> u32
    ensures { GivesTo decoder.old held.old result decoder.new held.new }
{
    let Some(table) = held.take() else {
        return NO_TYPES;
    };
    match decoder.give(table) {
        Ok(before) => {
            *held = before;
            DONE
        }
        Err(error) => {
            let GiveError { why, table } = error;
            *held = Some(table);
            reason_code(why)
        }
    }
}

/// Gives the table of a handle.
fn give_held(alloc: Global, decoder: &mut Decoder<Global>, types: &mut CqlpTypes) -> u32
    ensures { GivesHeld decoder.old types.old.place.value result decoder.new types.new.place.value }
{
    match taken(std::mem::replace(types, none(alloc)), alloc) {
        Some(mut held) => {
            let code = give(decoder, &mut held);
            *types = holding(held);
            code
        }
        None => NO_TYPES,
    }
}

/// Gives the table of a handle to a decoder, for a page without metadata.
#[unsafe(no_mangle)]
pub extern "C" fn cqlp_give(alloc: Global, decoder: &mut CqlpDecoder, types: &mut CqlpTypes) -> u32
    ensures is { Gives decoder.old.held.place.value result decoder.new.held.place.value types.old.place.value types.new.place.value }
    ensures course { decoder.new.course ≡ decoder.old.course }
{
    match handle::taken(
        std::mem::replace(&mut decoder.held, handle::none(alloc)),
        alloc,
    ) {
        Some(mut boxed) => {
            let code = give_held(alloc, &mut boxed, types);
            decoder.held = handle::holding(boxed);
            code
        }
        None => NO_DECODER,
    }
}

/// Takes a table back, where none is.
fn take(decoder: &mut Decoder<Global>, held: &mut Option<TypeTable<Global>>) -> u32
    ensures { TakesFrom decoder.old held.old result decoder.new held.new }
{
    if held.is_some() {
        return IN_USE;
    }
    match decoder.take_given() {
        Some(table) => {
            *held = Some(table);
            DONE
        }
        None => NO_TYPES,
    }
}

/// Takes a table back into a handle that has no memory.
fn take_anew(alloc: Global, decoder: &mut Decoder<Global>, types: &mut CqlpTypes) -> u32
    requires { types.old.place.value ≡ None }
    ensures { TakesAnew decoder.old (free_table (state decoder.old)) result decoder.new types.new.place.value }
{
    let Ok(mut held) = Box::new(alloc, None) else {
        return NO_MEMORY;
    };
    let code = take(decoder, &mut held);
    if code == DONE {
        *types = holding(held);
    }
    code
}

/// Takes a table back into a handle.
fn take_held(alloc: Global, decoder: &mut Decoder<Global>, types: &mut CqlpTypes) -> u32
    ensures { TakesHeld decoder.old types.old.place.value result decoder.new types.new.place.value }
{
    match taken(std::mem::replace(types, none(alloc)), alloc) {
        Some(mut held) => {
            let code = take(decoder, &mut held);
            *types = holding(held);
            code
        }
        None => take_anew(alloc, decoder, types),
    }
}

/// Takes the table back that was given to a decoder, if it has one that types no page.
#[unsafe(no_mangle)]
pub extern "C" fn cqlp_take_given(
    alloc: Global,
    decoder: &mut CqlpDecoder,
    types: &mut CqlpTypes,
) -> u32
    ensures is { TakesBack decoder.old.held.place.value result decoder.new.held.place.value types.old.place.value types.new.place.value }
    ensures course { decoder.new.course ≡ decoder.old.course }
{
    match handle::taken(
        std::mem::replace(&mut decoder.held, handle::none(alloc)),
        alloc,
    ) {
        Some(mut boxed) => {
            let code = take_held(alloc, &mut boxed, types);
            decoder.held = handle::holding(boxed);
            code
        }
        None => NO_DECODER,
    }
}

/// Frees what a handle has.
#[unsafe(no_mangle)]
pub extern "C" fn cqlp_types_free(alloc: Global, types: &mut CqlpTypes) -> u32
    ensures code { result ≡ code_of_free types.old.place.value }
    ensures none { types.new.place.value ≡ None }
{
    match taken(std::mem::replace(types, none(alloc)), alloc) {
        Some(_held) => DONE,
        None => NO_TYPES,
    }
}
