//! A conversation over a connection of the program with itself.

ghost use Rattle.std.specs.Prelude.{◌≡◌};
ghost use Rattle.cqlp_text.specs.Endings.{IsStatusOfTask};
ghost use Rattle.cqlp_text.specs.Outputs.{written};
ghost use Rattle.cqlp_tool.specs.Conversing.{ConversesAndReports, ConversesWithItself};
ghost use Rattle.cqlp_tool.specs.Conversing.{ending_of as ending_after};

use crate::connection::Connection;
use cqlp_loop::{LoopFault, Socket, talk};
use cqlp_note::{IoFault, OfStd, Target};
use cqlp_render::conclude;
use cqlp_text::Ending;
use cqlp_text::exit_status::DONE;
use std::net::{Net, TcpListener, TcpStream};

/// Has a client and a server talk over a loopback connection, with this many queries, and writes the line of each reply
/// and a last one to `out`. A conversation that ends early has its fault line written to `err`. Answers the exit status,
/// and the two outputs.
pub fn converse<R, O: Target, E: Target>(rt: &R, queries: u16, mut out: O, err: E) -> (u8, O, E)
where
    R: Net<Listener = TcpListener, Stream = TcpStream> + AllocGlobal,
    ensures status { IsStatusOfTask result.0 }
    ensures converses { ConversesAndReports queries (written O.Target out) (written E.Target err) result.0
        (written O.Target result.1) (written E.Target result.2) }
{
    match talk_with_itself(rt, queries, &mut out) {
        Ok(()) => (DONE, out, err),
        Err(fault) => {
            let (status, err) = conclude(ending_of(fault), err);
            (status, out, err)
        }
    }
}

/// Has the two ends of a new connection talk.
fn talk_with_itself<R, O: Target>(rt: &R, queries: u16, out: &mut O) -> Result<(), LoopFault>
where
    R: Net<Listener = TcpListener, Stream = TcpStream> + AllocGlobal,
    ensures { ConversesWithItself queries (written O.Target out.old) result (written O.Target out.new) }
{
    let Connection { near, far } = match Connection::new(rt) {
        Ok(connection) => connection,
        Err(IoFault) => return Err(LoopFault::SocketFault),
    };
    let mut client = Socket {
        source: OfStd::new(&near),
        target: OfStd::new(&near),
    };
    let mut server = Socket {
        source: OfStd::new(&far),
        target: OfStd::new(&far),
    };
    talk(rt.alloc(), queries, &mut client, &mut server, out)
}

/// How the command ends where a conversation ends early.
fn ending_of(fault: LoopFault) -> Ending
    ensures { result ≡ ending_after fault }
{
    match fault {
        LoopFault::BadReply => Ending::BadReply,
        LoopFault::TooManyTurns => Ending::TooManyTurns,
        LoopFault::SocketFault => Ending::SocketFault,
        LoopFault::NoMemory => Ending::NoMemory,
        LoopFault::WriteFault => Ending::WriteFault,
    }
}
