//! The client.

ghost use Rattle.std.specs.Prelude.{◌≡◌, IfOk, IfErr};
ghost use Rattle.cqlp_note.specs.Outputs.{written};
ghost use Rattle.cqlp_session.specs.Client.{new_client};
ghost use Rattle.cqlp_loop.specs.Inboxes.{IsNew, supply};

use crate::fault::LoopFault;
use crate::inbox::Inbox;
use crate::lines::print_reply;
use crate::request::Request;
use cqlp_note::{Opcode, Source, Target};
use cqlp_session::{Client, Reply, SlotsOrMemory, Ticket};
use std::alloc::Global;
use std::marker::Model;

/// How many requests may be open at a time.
const SLOTS: u16 = 2;

/// The client: which of its requests are open, and what it hears.
#[derive(Drop)]
pub struct Caller {
    core: Client,
    inbox: Inbox,
}

impl Model for Caller {
    ghost use Rattle.cqlp_loop.specs.Callers.{CallerState};

    ghost Value = { CallerState };

    ghost view = { λ c. record { core = c.core; inbox = c.inbox } };
}

impl Caller {
    ghost use Rattle.cqlp_loop.specs.Callers.{Asks, Hears, Listens};

    /// With nothing sent and nothing heard.
    ///
    /// # Errors
    ///
    /// [`LoopFault::NoMemory`] alone.
    pub fn new(alloc: Global) -> Result<Caller, LoopFault>
        ensures core { IfOk result (λ c. c.core ≡ new_client 2) }
        ensures inbox { IfOk result (λ c. IsNew c.inbox) }
        ensures fault { IfErr result (λ e. e ≡ LoopFault.NoMemory) }
    {
        let core = match Client::new(alloc, SLOTS) {
            Ok(core) => core,
            Err(SlotsOrMemory::NoMemory) => return Err(LoopFault::NoMemory),
            Err(SlotsOrMemory::BadSlots) => unreachable!(),
        };
        let inbox = Inbox::new(alloc)?;
        Ok(Caller { core, inbox })
    }

    /// Begins a request and writes it on the stream that the core gives it.
    ///
    /// # Errors
    ///
    /// [`LoopFault::BadReply`] where the core does not begin it after the replies that came, [`LoopFault::NoMemory`], and
    /// [`LoopFault::SocketFault`] where the target fails.
    pub fn ask<W: Target>(
        &mut self,
        alloc: Global,
        request: Request,
        target: &mut W,
    ) -> Result<(), LoopFault>
        ensures { Asks request self.old (written W.Target target.old) result self.new (written W.Target target.new) }
    {
        match self.core.begin(request.kind()) {
            Ok(ticket) => request.write(alloc, ticket.id, target),
            Err(_) => Err(LoopFault::BadReply),
        }
    }

    /// Waits for a reply and prints its line.
    ///
    /// # Errors
    ///
    /// Those of [`Caller::listen`], [`LoopFault::NoMemory`], and [`LoopFault::WriteFault`] where the output fails.
    pub fn hear<R: Source, O: Target>(
        &mut self,
        alloc: Global,
        source: &mut R,
        out: &mut O,
    ) -> Result<(), LoopFault>
        ensures { Hears self.old (supply R.Source source.old) (written O.Target out.old) result
            self.new (supply R.Source source.new) (written O.Target out.new) }
    {
        let (ticket, opcode) = self.listen(source)?;
        print_reply(alloc, ticket, opcode, out)
    }

    /// Waits for a reply: the ticket of its request, and its opcode.
    ///
    /// # Errors
    ///
    /// [`LoopFault::BadReply`] where the decoder refuses or the core knows no request to which it is the answer,
    /// [`LoopFault::SocketFault`] where a read fails or gives nothing, and [`LoopFault::TooManyTurns`].
    pub fn listen<R: Source>(&mut self, source: &mut R) -> Result<(Ticket, Opcode), LoopFault>
        ensures { Listens self.old (supply R.Source source.old) result self.new (supply R.Source source.new) }
    {
        let header = self.inbox.header(source)?;
        let ticket = match self.core.reply(&header) {
            Ok(Reply::Answer { ticket, kind: _ }) => ticket,
            Ok(Reply::ServerEvent) => return Err(LoopFault::BadReply),
            Ok(Reply::Dropped { ticket: _ }) => return Err(LoopFault::BadReply),
            Err(_) => return Err(LoopFault::BadReply),
        };
        self.inbox.rest(source)?;
        Ok((ticket, header.opcode))
    }
}
