//! The server.

ghost use Rattle.std.specs.Prelude.{◌≡◌, IfOk, IfErr};
ghost use Rattle.cqlp_note.specs.Outputs.{written};
ghost use Rattle.cqlp_session.specs.Server.{new_server};
ghost use Rattle.cqlp_loop.specs.Inboxes.{IsNew, supply};

use crate::fault::LoopFault;
use crate::inbox::Inbox;
use crate::request::Request;
use cqlp_note::{Header, Source, Target};
use cqlp_session::{Server, SlotsOrMemory};
use std::alloc::Global;
use std::marker::Model;

/// How many requests may be open at a time.
const SLOTS: u16 = 2;

/// The server: which requests are open, and what it hears.
#[derive(Drop)]
pub struct Host {
    core: Server,
    inbox: Inbox,
}

impl Model for Host {
    ghost use Rattle.cqlp_loop.specs.Hosts.{HostState};

    ghost Value = { HostState };

    ghost view = { λ h. record { core = h.core; inbox = h.inbox } };
}

impl Host {
    ghost use Rattle.cqlp_loop.specs.Hosts.{Accepts, Answers};

    /// With nothing sent and nothing heard.
    ///
    /// # Errors
    ///
    /// [`LoopFault::NoMemory`] alone.
    pub fn new(alloc: Global) -> Result<Host, LoopFault>
        ensures core { IfOk result (λ h. h.core ≡ new_server 2) }
        ensures inbox { IfOk result (λ h. IsNew h.inbox) }
        ensures fault { IfErr result (λ e. e ≡ LoopFault.NoMemory) }
    {
        let core = match Server::new(alloc, SLOTS) {
            Ok(core) => core,
            Err(SlotsOrMemory::NoMemory) => return Err(LoopFault::NoMemory),
            Err(SlotsOrMemory::BadSlots) => unreachable!(),
        };
        let inbox = Inbox::new(alloc)?;
        Ok(Host { core, inbox })
    }

    /// Waits for a request, and answers its header.
    ///
    /// # Errors
    ///
    /// [`LoopFault::BadReply`] where the decoder or the core refuses, [`LoopFault::SocketFault`] where a read fails or
    /// gives nothing, and [`LoopFault::TooManyTurns`].
    pub fn accept<R: Source>(&mut self, source: &mut R) -> Result<Header, LoopFault>
        ensures { Accepts self.old (supply R.Source source.old) result self.new (supply R.Source source.new) }
    {
        let header = self.inbox.header(source)?;
        match self.core.accept(&header) {
            Ok(_) => {}
            Err(_) => return Err(LoopFault::BadReply),
        }
        self.inbox.rest(source)?;
        Ok(header)
    }

    /// Writes the reply to a request that is open on this stream.
    ///
    /// # Errors
    ///
    /// [`LoopFault::BadReply`] where the core has no such request on this stream, [`LoopFault::NoMemory`], and
    /// [`LoopFault::SocketFault`] where the target fails.
    pub fn answer<W: Target>(
        &mut self,
        alloc: Global,
        request: Request,
        stream: i16,
        target: &mut W,
    ) -> Result<(), LoopFault>
        ensures { Answers request stream self.old (written W.Target target.old) result
            self.new (written W.Target target.new) }
    {
        match self.core.answer(stream, request.reply()) {
            Ok(_) => request.write_reply(alloc, stream, target),
            Err(_) => Err(LoopFault::BadReply),
        }
    }
}
