//! The conversation.

ghost use Rattle.std.specs.Prelude.{◌≡◌, ◌∷◌, ◌++◌, []};
ghost use Rattle.cqlp_note.specs.Outputs.{Output, written};
ghost use Rattle.cqlp_loop.specs.Callers.{CallerState};
ghost use Rattle.cqlp_loop.specs.Inboxes.{supply};
ghost use Rattle.cqlp_loop.specs.Script.{Answers, Converses, End, Ends, Takes, Talks, end_of, scene, wires, wires_of};
ghost use Rattle.cqlp_loop.specs.Script.{exchange as one_exchange, exchange_pair as two_queries};
ghost use Rattle.cqlp_loop.specs.Script.{queries as these_queries, setting_up};

use crate::client::Caller;
use crate::fault::LoopFault;
use crate::lines::print_done;
use crate::request::Request;
use crate::server::Host;
use cqlp_note::{Source, Target};
use std::alloc::Global;

/// An end of a connection: the bytes that come to it, and those that go from it.
#[derive(Drop)]
pub struct Socket<S, T> {
    /// What the other end wrote.
    pub source: S,
    /// What the other end will read.
    pub target: T,
}

/// Has a client and a server talk over the two ends of one connection, and prints a line for each reply and a last one.
/// Each waits in turn for what the other wrote, so that one thread serves.
///
/// The client sends OPTIONS, STARTUP, and then this many queries, two at a time, of which the server answers the later one
/// first. Sections 4.1.3, 4.1.1 and 4.1.4 of `native_protocol_v4.spec`.
///
/// # Errors
///
/// [`LoopFault`] names what ends it early. What was printed until then is: whole lines, but where the output failed.
pub fn talk<CS: Source, CT: Target, SS: Source, ST: Target, O: Target>(
    alloc: Global,
    count: u16,
    client: &mut Socket<CS, CT>,
    server: &mut Socket<SS, ST>,
    out: &mut O,
) -> Result<(), LoopFault>
    // What each turn of the script did, and why a fault ended it.
    ensures talks { Talks count
        (wires_of CS.Source CT.Target SS.Source ST.Target O.Target client.old server.old out.old)
        result
        (wires_of CS.Source CT.Target SS.Source ST.Target O.Target client.new server.new out.new) }

    // The same of what the client hears and what is printed.
    ensures converses { Converses count (supply CS.Source client.old.source) (written O.Target out.old) result
        (supply CS.Source client.new.source) (written O.Target out.new) }
{
    let mut caller = Caller::new(alloc)?;
    let mut host = Host::new(alloc)?;
    match play(alloc, count, &mut caller, &mut host, client, server, out) {
        Ok(()) => {}
        Err(fault) => return Err(fault),
    }
    print_done(alloc, count, out)
}

/// Plays the script, but for its last line.
fn play<CS: Source, CT: Target, SS: Source, ST: Target, O: Target>(
    alloc: Global,
    count: u16,
    caller: &mut Caller,
    host: &mut Host,
    client: &mut Socket<CS, CT>,
    server: &mut Socket<SS, ST>,
    out: &mut O,
) -> Result<(), LoopFault>
    ensures { Ends (setting_up ++ these_queries count)
        (scene caller.old host.old []
        (wires_of CS.Source CT.Target SS.Source ST.Target O.Target client.old server.old out.old))
        result
        (scene caller.new host.new []
        (wires_of CS.Source CT.Target SS.Source ST.Target O.Target client.new server.new out.new)) }
{
    set_up(alloc, caller, host, client, server, out)?;
    queries(alloc, count, caller, host, client, server, out)
}

/// Asks for the options, and opens the connection.
fn set_up<CS: Source, CT: Target, SS: Source, ST: Target, O: Target>(
    alloc: Global,
    caller: &mut Caller,
    host: &mut Host,
    client: &mut Socket<CS, CT>,
    server: &mut Socket<SS, ST>,
    out: &mut O,
) -> Result<(), LoopFault>
    ensures { Ends setting_up
        (scene caller.old host.old []
        (wires_of CS.Source CT.Target SS.Source ST.Target O.Target client.old server.old out.old))
        result
        (scene caller.new host.new []
        (wires_of CS.Source CT.Target SS.Source ST.Target O.Target client.new server.new out.new)) }
{
    exchange(alloc, Request::Options, caller, host, client, server, out)?;
    exchange(alloc, Request::Startup, caller, host, client, server, out)
}

/// Sends this many queries.
fn queries<CS: Source, CT: Target, SS: Source, ST: Target, O: Target>(
    alloc: Global,
    count: u16,
    caller: &mut Caller,
    host: &mut Host,
    client: &mut Socket<CS, CT>,
    server: &mut Socket<SS, ST>,
    out: &mut O,
) -> Result<(), LoopFault>
    ensures { Ends (these_queries count)
        (scene caller.old host.old []
        (wires_of CS.Source CT.Target SS.Source ST.Target O.Target client.old server.old out.old))
        result
        (scene caller.new host.new []
        (wires_of CS.Source CT.Target SS.Source ST.Target O.Target client.new server.new out.new)) }
{
    for pair in 0..count / 2 {
        exchange_pair(alloc, caller, host, client, server, out)?;
    }
    if count % 2 == 0 {
        return Ok(());
    }
    exchange(alloc, Request::Query, caller, host, client, server, out)
}

/// Sends a request, has it answered, and prints the line of its reply.
fn exchange<CS: Source, CT: Target, SS: Source, ST: Target, O: Target>(
    alloc: Global,
    request: Request,
    caller: &mut Caller,
    host: &mut Host,
    client: &mut Socket<CS, CT>,
    server: &mut Socket<SS, ST>,
    out: &mut O,
) -> Result<(), LoopFault>
    ensures { Ends (one_exchange request)
        (scene caller.old host.old []
        (wires_of CS.Source CT.Target SS.Source ST.Target O.Target client.old server.old out.old))
        result
        (scene caller.new host.new []
        (wires_of CS.Source CT.Target SS.Source ST.Target O.Target client.new server.new out.new)) }
{
    caller.ask(alloc, request, &mut client.target)?;
    serve(alloc, request, host, server)?;
    caller.hear(alloc, &mut client.source, out)
}

/// Sends two queries, has them answered, the later one first, and prints the lines of their replies.
fn exchange_pair<CS: Source, CT: Target, SS: Source, ST: Target, O: Target>(
    alloc: Global,
    caller: &mut Caller,
    host: &mut Host,
    client: &mut Socket<CS, CT>,
    server: &mut Socket<SS, ST>,
    out: &mut O,
) -> Result<(), LoopFault>
    ensures { Ends two_queries
        (scene caller.old host.old []
        (wires_of CS.Source CT.Target SS.Source ST.Target O.Target client.old server.old out.old))
        result
        (scene caller.new host.new []
        (wires_of CS.Source CT.Target SS.Source ST.Target O.Target client.new server.new out.new)) }
{
    caller.ask(alloc, Request::Query, &mut client.target)?;
    caller.ask(alloc, Request::Query, &mut client.target)?;
    serve_pair(alloc, host, server)?;
    caller.hear(alloc, &mut client.source, out)?;
    caller.hear(alloc, &mut client.source, out)
}

/// Takes a request and answers it.
fn serve<S: Source, T: Target>(
    alloc: Global,
    request: Request,
    host: &mut Host,
    server: &mut Socket<S, T>,
) -> Result<(), LoopFault>
    ensures { (c : CallerState) (e : End) (o : Output) →
        Ends (Takes ∷ Answers request ∷ [])
        (scene c host.old [] (wires e (end_of S.Source T.Target server.old) o)) result
        (scene c host.new [] (wires e (end_of S.Source T.Target server.new) o)) }
{
    let header = host.accept(&mut server.source)?;
    host.answer(alloc, request, header.stream, &mut server.target)
}

/// Takes two queries and answers the later one first.
fn serve_pair<S: Source, T: Target>(
    alloc: Global,
    host: &mut Host,
    server: &mut Socket<S, T>,
) -> Result<(), LoopFault>
    ensures { (c : CallerState) (e : End) (o : Output) →
        Ends (Takes ∷ Takes ∷ Answers Request.Query ∷ Answers Request.Query ∷ [])
        (scene c host.old [] (wires e (end_of S.Source T.Target server.old) o)) result
        (scene c host.new [] (wires e (end_of S.Source T.Target server.new) o)) }
{
    let first = host.accept(&mut server.source)?;
    let second = host.accept(&mut server.source)?;
    host.answer(alloc, Request::Query, second.stream, &mut server.target)?;
    host.answer(alloc, Request::Query, first.stream, &mut server.target)
}
