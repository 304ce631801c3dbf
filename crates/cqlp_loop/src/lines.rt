//! What is printed.

ghost use Rattle.std.specs.Prelude.{◌≡◌};
ghost use Rattle.cqlp_note.specs.Outputs.{written};
ghost use Rattle.cqlp_loop.specs.Callers.{Prints, done_line, reply_line};

use crate::fault::LoopFault;
use cqlp_decode::SinkFault;
use cqlp_note::{Opcode, Target};
use cqlp_session::Ticket;
use cqlp_text::{opcode_name, put_text};
use std::alloc::{AllocError, Global};

/// Prints the line of a reply to the request of this ticket.
pub fn print_reply<O: Target>(
    alloc: Global,
    ticket: Ticket,
    opcode: Opcode,
    out: &mut O,
) -> Result<(), LoopFault>
    ensures { Prints (reply_line ticket opcode) (written O.Target out.old) result (written O.Target out.new) }
{
    let Ticket { id, number } = ticket;
    let name = opcode_name(opcode);
    match format!(in alloc; "reply {number} {id} {name}\n") {
        Ok(line) => print(&line, out),
        Err(AllocError) => Err(LoopFault::NoMemory),
    }
}

/// Prints the last line, of a conversation with this many queries.
pub fn print_done<O: Target>(alloc: Global, count: u16, out: &mut O) -> Result<(), LoopFault>
    ensures { Prints (done_line count) (written O.Target out.old) result (written O.Target out.new) }
{
    match format!(in alloc; "done {count}\n") {
        Ok(line) => print(&line, out),
        Err(AllocError) => Err(LoopFault::NoMemory),
    }
}

fn print<O: Target>(line: &str, out: &mut O) -> Result<(), LoopFault>
    ensures { Prints line.now (written O.Target out.old) result (written O.Target out.new) }
{
    match put_text(line, out) {
        Ok(()) => Ok(()),
        Err(SinkFault) => Err(LoopFault::WriteFault),
    }
}
