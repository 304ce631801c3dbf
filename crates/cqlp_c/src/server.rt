//! A server's core that C holds.

ghost use denote.Builtin.{u64 as number};
ghost use Rattle.std.specs.Prelude.{◌≡◌, ◌↔◌, ℕ, false, Option, None, Some, IfNone, IfOk, IfSome, IsErrOf};
ghost use Rattle.std.specs.Box.Ownership.{box_owns};
ghost use Rattle.std.specs.contracts.alloc.Global as heap;
ghost use Rattle.std.specs.contracts.impls.GlobalAllocator.TheImpl.{ghosts};
ghost use Rattle.cqlp_session.specs.Carried.{CarryingServer, new_carrying_server};
ghost use Rattle.cqlp_session.specs.declared.refusal.SlotsOrMemory.TheVariants as error;
ghost use Rattle.cqlp_session.specs.contracts.server_of.ServerOf as server;
ghost use Rattle.cqlp_note.specs.Heading.{beside_number, opcodes};
ghost use Rattle.cqlp_c.specs.Cores.{Starts, is_slot_count};
ghost use Rattle.cqlp_c.specs.Handle.{flag_of, owned_in};
ghost use Rattle.cqlp_c.specs.Headers.{Writes, header_in};
ghost use Rattle.cqlp_c.specs.Servers.{Accepts, AcceptsSignal, Answers, AnswersBy, Conforms, code_of_free, event_fields};
ghost use Rattle.cqlp_c.specs.Talked as talked;

use crate::event::CqlpEvent;
use crate::header::{CqlpHeader, cqlp_write_header};
use crate::loose::Loose;
use crate::numbers::*;
use crate::talked::*;
use cqlp_note::Opcode;
use cqlp_session::{ServerOf, SlotsOrMemory};
use std::alloc::Global;
use std::marker::{Model, Send};

/// Where a server's core lies, or none.
#[repr(C)]
#[derive(Drop)]
pub struct CqlpService {
    at: *mut u8,
    ghost alloc: { heap.the_row.Denot },
    ghost value: { Option (CarryingServer ℕ) },
}

impl Model for CqlpService {
    ghost also_owns = { λ h. owned_in (box_owns (ghosts.dealloc_token h.alloc) (server.the_row number heap.the_row ghosts) h.at) h.value };
}

// What it owns, a core and the right to free it, is the same to every thread.
unsafe impl Send for CqlpService {}

impl CqlpService {
    /// The place of none.
    fn none(_alloc: Global) -> CqlpService
        ensures { result.value ≡ None }
    {
        CqlpService {
            at: std::ptr::null_mut(),
        }
    }

    /// The place of a core.
    fn of(loose: Loose<ServerOf<u64, Global>, Global>) -> CqlpService
        ensures { result.value ≡ Some loose.value }
    {
        let Loose { at, alloc: _ } = loose;
        CqlpService { at: at as *mut u8 }
    }

    /// The core that lies there.
    fn into_loose(self, alloc: Global) -> Loose<ServerOf<u64, Global>, Global>
        requires { flag_of self.value ≡ 1 }
        ensures { self.value ≡ Some result.value }
    {
        let CqlpService { at } = self;
        Loose {
            at: at as *mut ServerOf<u64, Global>,
            alloc,
        }
    }
}

/// A server's core, or none where `live` is 0. C makes one of zeros, and never writes or copies it.
#[repr(C)]
#[derive(Drop)]
pub struct CqlpServer {
    live: u64,
    place: CqlpService,
    ghost agrees: { flag_of place.value ≡ live },
}

/// A handle that has none.
fn none(alloc: Global) -> CqlpServer
    ensures { result.place.value ≡ None }
{
    let place = CqlpService::none(alloc);
    CqlpServer { live: 0, place }
}

/// A handle that has this core.
fn holding(boxed: Box<ServerOf<u64, Global>>) -> CqlpServer
    ensures { result.place.value ≡ Some boxed.value }
{
    let place = CqlpService::of(Loose::of(boxed));
    CqlpServer { live: 1, place }
}

/// The core of a handle, if it has one.
fn taken(server: CqlpServer, alloc: Global) -> Option<Box<ServerOf<u64, Global>>>
    ensures some { IfSome result (λ b. server.place.value ≡ Some b.value) }
    ensures none { IfNone result (server.place.value ≡ None) }
{
    let CqlpServer { live, place } = server;
    if live == 1 {
        Some(place.into_loose(alloc).into_box())
    } else {
        None
    }
}

/// A core with this many slots, on the heap.
fn make(alloc: Global, slots: u32) -> Result<Box<ServerOf<u64, Global>>, SlotsOrMemory>
    ensures bad { IsErrOf result error.BadSlots ↔ (is_slot_count slots ≡ false) }
    ensures fresh { IfOk result (λ b. b.value ≡ new_carrying_server slots) }
{
    let Ok(slots) = u16::try_from(slots) else {
        return Err(SlotsOrMemory::BadSlots);
    };
    match ServerOf::new(alloc, slots) {
        Ok(server) => match Box::new(alloc, server) {
            Ok(boxed) => Ok(boxed),
            Err(_) => Err(SlotsOrMemory::NoMemory),
        },
        Err(error) => Err(error),
    }
}

/// Makes a server's core in a handle that has none.
#[unsafe(no_mangle)]
pub extern "C" fn cqlp_server_new(alloc: Global, slots: u32, server: &mut CqlpServer) -> u32
    ensures { Starts new_carrying_server slots server.old.place.value result server.new.place.value }
{
    if server.live != 0 {
        return IN_USE;
    }
    match make(alloc, slots) {
        Ok(boxed) => {
            *server = holding(boxed);
            DONE
        }
        Err(SlotsOrMemory::BadSlots) => BAD_SLOTS,
        Err(SlotsOrMemory::NoMemory) => NO_MEMORY,
    }
}

/// Takes the event of a frame that came, as a request with which a number is carried.
fn accept(server: &mut ServerOf<u64, Global>, frame: &CqlpEvent, carried: u64) -> u32
    ensures { AcceptsSignal server.old (talked.signal_in frame.now) carried result server.new }
{
    let Some(header) = header_in(frame) else {
        return NO_FRAME;
    };
    match server.accept(&header, carried) {
        Ok(_kind) => DONE,
        Err(refused) => refusal_code(refused.why),
    }
}

/// Takes the event of a frame that came, as a request, and carries a number with it until it is answered.
#[unsafe(no_mangle)]
pub extern "C" fn cqlp_server_accept(
    alloc: Global,
    server: &mut CqlpServer,
    frame: &CqlpEvent,
    carried: u64,
) -> u32
    ensures { Accepts server.old.place.value (talked.signal_in frame.now) carried result server.new.place.value }
{
    match taken(std::mem::replace(server, none(alloc)), alloc) {
        Some(mut boxed) => {
            let code = accept(&mut boxed, frame, carried);
            *server = holding(boxed);
            code
        }
        None => NO_SERVER,
    }
}

/// Answers the request under a stream id by a message with this opcode, if one has it.
fn answer(
    server: &mut ServerOf<u64, Global>,
    stream: i16,
    opcode: u8,
    answered: &mut CqlpAnswered,
) -> u32
    ensures { AnswersBy server.old stream (beside_number opcode opcodes) result server.new answered.old answered.new }
{
    let Some(opcode) = Opcode::from_number(opcode) else {
        return BAD_OPCODE;
    };
    match server.answer(stream, opcode) {
        Ok((kind, carried)) => {
            *answered = answered_of(kind, carried);
            DONE
        }
        Err(error) => answer_code(error),
    }
}

/// Answers the request under a stream id by a message with this opcode, and frees the id.
#[unsafe(no_mangle)]
pub extern "C" fn cqlp_server_answer(
    alloc: Global,
    server: &mut CqlpServer,
    stream: i16,
    opcode: u8,
    answered: &mut CqlpAnswered,
) -> u32
    ensures { Answers server.old.place.value stream (beside_number opcode opcodes) result server.new.place.value
        answered.old answered.new }
{
    match taken(std::mem::replace(server, none(alloc)), alloc) {
        Some(mut boxed) => {
            let code = answer(&mut boxed, stream, opcode, answered);
            *server = holding(boxed);
            code
        }
        None => NO_SERVER,
    }
}

/// Writes the nine bytes of the header of an EVENT, which a server pushes and no request asked for.
#[unsafe(no_mangle)]
pub extern "C" fn cqlp_server_event(length: u32, flags: u8, bytes: &mut [u8; 9]) -> u32
    ensures { Writes (header_in (event_fields length flags)) result bytes.old bytes.new }
{
    let fields = CqlpHeader {
        length,
        stream: -1,
        opcode: OPCODE_EVENT,
        flags,
        response: 1,
    };
    cqlp_write_header(&fields, bytes)
}

/// How far the setting up of the connection has come.
#[unsafe(no_mangle)]
pub extern "C" fn cqlp_server_phase(alloc: Global, server: &mut CqlpServer, phase: &mut u8) -> u32
    ensures { Conforms server.old.place.value result server.new.place.value phase.old phase.new }
{
    match taken(std::mem::replace(server, none(alloc)), alloc) {
        Some(boxed) => {
            *phase = phase_number(boxed.phase());
            *server = holding(boxed);
            DONE
        }
        None => NO_SERVER,
    }
}

/// Frees a core, and leaves a handle that has none.
#[unsafe(no_mangle)]
pub extern "C" fn cqlp_server_free(alloc: Global, server: &mut CqlpServer) -> u32
    ensures code { result ≡ code_of_free server.old.place.value }
    ensures none { server.new.place.value ≡ None }
{
    match taken(std::mem::replace(server, none(alloc)), alloc) {
        Some(_boxed) => DONE,
        None => NO_SERVER,
    }
}
