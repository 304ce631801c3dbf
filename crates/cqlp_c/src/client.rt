//! A client's core that C holds.

ghost use denote.Builtin.{u64 as number};
ghost use Rattle.std.specs.Prelude.{◌≡◌, ◌↔◌, ℕ, false, Option, None, Some, IfNone, IfOk, IfSome, IsErrOf};
ghost use Rattle.std.specs.Box.Ownership.{box_owns};
ghost use Rattle.std.specs.contracts.alloc.Global as heap;
ghost use Rattle.std.specs.contracts.impls.GlobalAllocator.TheImpl.{ghosts};
ghost use Rattle.cqlp_session.specs.Carried.{CarryingClient, new_carrying_client};
ghost use Rattle.cqlp_session.specs.declared.refusal.SlotsOrMemory.TheVariants as error;
ghost use Rattle.cqlp_session.specs.contracts.client_of.ClientOf as client;
ghost use Rattle.cqlp_c.specs.Handle.{flag_of, owned_in};
ghost use Rattle.cqlp_c.specs.Clients.{Begins, BeginsKind, Cancels, Hears, HearsSignal, Conforms, code_of_free};
ghost use Rattle.cqlp_c.specs.Cores.{Starts, is_slot_count};
ghost use Rattle.cqlp_c.specs.Talked as talked;

use crate::event::CqlpEvent;
use crate::loose::Loose;
use crate::numbers::*;
use crate::talked::*;
use cqlp_session::{ClientOf, SlotsOrMemory};
use std::alloc::Global;
use std::marker::{Model, Send};

/// Where a client's core lies, or none.
#[repr(C)]
#[derive(Drop)]
pub struct CqlpCore {
    at: *mut u8,
    ghost alloc: { heap.the_row.Denot },
    ghost value: { Option (CarryingClient ℕ) },
}

impl Model for CqlpCore {
    ghost also_owns = { λ h. owned_in (box_owns (ghosts.dealloc_token h.alloc) (client.the_row number heap.the_row ghosts) h.at) h.value };
}

// What it owns, a core and the right to free it, is the same to every thread.
unsafe impl Send for CqlpCore {}

impl CqlpCore {
    /// The place of none.
    fn none(_alloc: Global) -> CqlpCore
        ensures { result.value ≡ None }
    {
        CqlpCore {
            at: std::ptr::null_mut(),
        }
    }

    /// The place of a core.
    fn of(loose: Loose<ClientOf<u64, Global>, Global>) -> CqlpCore
        ensures { result.value ≡ Some loose.value }
    {
        let Loose { at, alloc: _ } = loose;
        CqlpCore { at: at as *mut u8 }
    }

    /// The core that lies there.
    fn into_loose(self, alloc: Global) -> Loose<ClientOf<u64, Global>, Global>
        requires { flag_of self.value ≡ 1 }
        ensures { self.value ≡ Some result.value }
    {
        let CqlpCore { at } = self;
        Loose {
            at: at as *mut ClientOf<u64, Global>,
            alloc,
        }
    }
}

/// A client's core, or none where `live` is 0. C makes one of zeros, and never writes or copies it.
#[repr(C)]
#[derive(Drop)]
pub struct CqlpClient {
    live: u64,
    place: CqlpCore,
    ghost agrees: { flag_of place.value ≡ live },
}

/// A handle that has none.
fn none(alloc: Global) -> CqlpClient
    ensures { result.place.value ≡ None }
{
    let place = CqlpCore::none(alloc);
    CqlpClient { live: 0, place }
}

/// A handle that has this core.
fn holding(boxed: Box<ClientOf<u64, Global>>) -> CqlpClient
    ensures { result.place.value ≡ Some boxed.value }
{
    let place = CqlpCore::of(Loose::of(boxed));
    CqlpClient { live: 1, place }
}

/// The core of a handle, if it has one.
fn taken(client: CqlpClient, alloc: Global) -> Option<Box<ClientOf<u64, Global>>>
    ensures some { IfSome result (λ b. client.place.value ≡ Some b.value) }
    ensures none { IfNone result (client.place.value ≡ None) }
{
    let CqlpClient { live, place } = client;
    if live == 1 {
        Some(place.into_loose(alloc).into_box())
    } else {
        None
    }
}

/// A core with this many slots, on the heap.
fn make(alloc: Global, slots: u32) -> Result<Box<ClientOf<u64, Global>>, SlotsOrMemory>
    ensures bad { IsErrOf result error.BadSlots ↔ (is_slot_count slots ≡ false) }
    ensures fresh { IfOk result (λ b. b.value ≡ new_carrying_client slots) }
{
    let Ok(slots) = u16::try_from(slots) else {
        return Err(SlotsOrMemory::BadSlots);
    };
    match ClientOf::new(alloc, slots) {
        Ok(client) => match Box::new(alloc, client) {
            Ok(boxed) => Ok(boxed),
            Err(_) => Err(SlotsOrMemory::NoMemory),
        },
        Err(error) => Err(error),
    }
}

/// Makes a client's core in a handle that has none.
#[unsafe(no_mangle)]
pub extern "C" fn cqlp_client_new(alloc: Global, slots: u32, client: &mut CqlpClient) -> u32
    ensures { Starts new_carrying_client slots client.old.place.value result client.new.place.value }
{
    if client.live != 0 {
        return IN_USE;
    }
    match make(alloc, slots) {
        Ok(boxed) => {
            *client = holding(boxed);
            DONE
        }
        Err(SlotsOrMemory::BadSlots) => BAD_SLOTS,
        Err(SlotsOrMemory::NoMemory) => NO_MEMORY,
    }
}

/// Begins a request of the kind that has this opcode, if one has, and carries a number with it.
fn begin(
    client: &mut ClientOf<u64, Global>,
    opcode: u8,
    carried: u64,
    ticket: &mut CqlpTicket,
) -> u32
    ensures { BeginsKind client.old (talked.request_of opcode) carried result client.new ticket.old ticket.new }
{
    let Some(kind) = request_of(opcode) else {
        return NO_REQUEST;
    };
    match client.begin(kind, carried) {
        Ok(begun) => {
            *ticket = ticket_of(begun);
            DONE
        }
        Err(refused) => begin_code(refused.why),
    }
}

/// Begins a request, and carries a number with it until its reply.
#[unsafe(no_mangle)]
pub extern "C" fn cqlp_client_begin(
    alloc: Global,
    client: &mut CqlpClient,
    opcode: u8,
    carried: u64,
    ticket: &mut CqlpTicket,
) -> u32
    ensures { Begins client.old.place.value (talked.request_of opcode) carried result client.new.place.value
        ticket.old ticket.new }
{
    match taken(std::mem::replace(client, none(alloc)), alloc) {
        Some(mut boxed) => {
            let code = begin(&mut boxed, opcode, carried, ticket);
            *client = holding(boxed);
            code
        }
        None => NO_CLIENT,
    }
}

/// Takes the event of a frame that came.
fn hear(client: &mut ClientOf<u64, Global>, frame: &CqlpEvent, reply: &mut CqlpReply) -> u32
    ensures { HearsSignal client.old (talked.signal_in frame.now) result client.new reply.old reply.new }
{
    let Some(header) = header_in(frame) else {
        return NO_FRAME;
    };
    match client.reply(&header) {
        Ok(heard) => {
            *reply = reply_of(&heard);
            DONE
        }
        Err(stray) => stray_code(stray),
    }
}

/// Takes the event of a frame that came: a reply, or an event that the server pushed.
#[unsafe(no_mangle)]
pub extern "C" fn cqlp_client_reply(
    alloc: Global,
    client: &mut CqlpClient,
    frame: &CqlpEvent,
    reply: &mut CqlpReply,
) -> u32
    ensures { Hears client.old.place.value (talked.signal_in frame.now) result client.new.place.value
        reply.old reply.new }
{
    match taken(std::mem::replace(client, none(alloc)), alloc) {
        Some(mut boxed) => {
            let code = hear(&mut boxed, frame, reply);
            *client = holding(boxed);
            code
        }
        None => NO_CLIENT,
    }
}

/// Gives up a request that waits for its reply.
#[unsafe(no_mangle)]
pub extern "C" fn cqlp_client_cancel(
    alloc: Global,
    client: &mut CqlpClient,
    ticket: &CqlpTicket,
) -> u32
    ensures { Cancels client.old.place.value ticket.now result client.new.place.value }
{
    match taken(std::mem::replace(client, none(alloc)), alloc) {
        Some(mut boxed) => {
            let done = boxed.cancel(given_ticket(ticket));
            *client = holding(boxed);
            if done { DONE } else { NOT_CANCELLED }
        }
        None => NO_CLIENT,
    }
}

/// How far the setting up of the connection has come.
#[unsafe(no_mangle)]
pub extern "C" fn cqlp_client_phase(alloc: Global, client: &mut CqlpClient, phase: &mut u8) -> u32
    ensures { Conforms client.old.place.value result client.new.place.value phase.old phase.new }
{
    match taken(std::mem::replace(client, none(alloc)), alloc) {
        Some(boxed) => {
            *phase = phase_number(boxed.phase());
            *client = holding(boxed);
            DONE
        }
        None => NO_CLIENT,
    }
}

/// Frees a core, and leaves a handle that has none.
#[unsafe(no_mangle)]
pub extern "C" fn cqlp_client_free(alloc: Global, client: &mut CqlpClient) -> u32
    ensures code { result ≡ code_of_free client.old.place.value }
    ensures none { client.new.place.value ≡ None }
{
    match taken(std::mem::replace(client, none(alloc)), alloc) {
        Some(_boxed) => DONE,
        None => NO_CLIENT,
    }
}
