//! The requests of a connection, of which the EXECUTEs name statements.

ghost use Rattle.std.specs.Prelude.{◌≡◌, None};
ghost use Rattle.cqlp_capture_prepared.specs.Requests.{asked, begins, body_of, bytes_asked, execute_of, heard_as, is_done, names_statement};
ghost use Rattle.cqlp_capture_prepared.specs.Requests.{silent, step_asked};

use crate::execute::Execute;
use crate::prepared_types::PreparedTypes;
use cqlp_note::{Header, Opcode};
use cqlp_observer::{Heads, Heard, HeardStep, Unread};
use cqlp_tcp_reassembly::StreamStep;
use std::alloc::Allocator;

/// The requests of a connection: where their frames begin and end, and the EXECUTE whose id has not come whole, if one is under way. Takes no
/// memory.
#[derive(Drop)]
pub struct Requests {
    heads: Heads,
    execute: Option<Execute>,
}

impl Requests {
    /// Nothing came. Its first byte begins a frame, where `from_start`.
    pub fn new(from_start: bool) -> Self
        ensures { result ≡ silent from_start }
    {
        Requests {
            heads: Heads::new(false, from_start),
            execute: None,
        }
    }

    /// Takes what the direction of the requests delivers, with its bytes, and reports the EXECUTEs among them, and the other requests, to `known`: each at its
    /// header, and an EXECUTE again where its id came whole. With a SYN nothing is known any more.
    pub fn hear<A: Allocator>(
        &mut self,
        step: StreamStep,
        bytes: &[u8],
        known: &mut PreparedTypes<A>,
    )
        ensures { asked self.new known.new ≡ step_asked step bytes.now (asked self.old known.old) }
    {
        match step {
            StreamStep::Began { syn } => self.begin(syn, known),
            StreamStep::Payload { from, .. } => self.hear_bytes(from == 0, bytes, known),
            StreamStep::Held { begins, .. } => self.hear_bytes(begins, bytes, known),
            StreamStep::Gap { length, .. } => {
                let _ = self.heads.gap(length, None);
                self.execute = None;
            }
            StreamStep::Ended | StreamStep::Reset => {
                let _ = self.heads.end();
                self.execute = None;
            }
            StreamStep::Kept | StreamStep::Done => {}
        }
    }

    fn begin<A: Allocator>(&mut self, syn: bool, known: &mut PreparedTypes<A>)
        ensures { asked self.new known.new ≡ begins syn (asked self.old known.old) }
    {
        *self = Requests::new(syn);
        if syn {
            known.clear();
        }
    }

    /// Takes bytes, the first of which begins a segment or not.
    fn hear_bytes<A: Allocator>(&mut self, begins: bool, bytes: &[u8], known: &mut PreparedTypes<A>)
        ensures { asked self.new known.new ≡ bytes_asked begins bytes.now (asked self.old known.old) }
    {
        let mut unread = Unread::new(bytes, begins);
        while unread.steps > 0 {
            let HeardStep { used, heard } = self.heads.take(unread.bytes, None, unread.begins);
            self.take_heard(heard, &unread.bytes[..used], known);
            if is_done(heard) {
                return;
            }
            unread = unread.after(used);
        }
    }

    /// Takes what bytes are.
    fn take_heard<A: Allocator>(&mut self, heard: Heard, bytes: &[u8], known: &mut PreparedTypes<A>)
        ensures { asked self.new known.new ≡ heard_as bytes.now heard (asked self.old known.old) }
    {
        match heard {
            Heard::Begins(header) => {
                known.forget(header.stream);
                self.execute = execute_of(&header);
            }
            Heard::Body => self.take_body(bytes, known),
            Heard::Ends(_) | Heard::Stray => self.execute = None,
            Heard::More => {}
        }
    }

    /// Takes bytes of a body.
    fn take_body<A: Allocator>(&mut self, bytes: &[u8], known: &mut PreparedTypes<A>)
        ensures { asked self.new known.new ≡ body_of bytes.now self.old.execute self.old.heads known.old }
    {
        let Some(mut execute) = self.execute.take() else {
            return;
        };
        execute.read(bytes);
        match execute.id() {
            Some(id) => known.executed(execute.stream, id),
            None => self.execute = Some(execute),
        }
    }
}

/// The EXECUTE that begins with a header, if one does whose body is not compressed.
fn execute_of(header: &Header) -> Option<Execute>
    ensures { result ≡ execute_of header.now }
{
    if names_statement(header) {
        Some(Execute::new(header))
    } else {
        None
    }
}

/// Whether it is an EXECUTE that is not compressed.
fn names_statement(header: &Header) -> bool
    ensures { result ≡ names_statement header.now }
{
    header.opcode == Opcode::Execute && header.flags & 0x01 == 0
}

/// Whether nothing more is reported of a piece.
fn is_done(heard: Heard) -> bool
    ensures { result ≡ is_done heard }
{
    match heard {
        Heard::More => true,
        Heard::Begins(_) | Heard::Body | Heard::Ends(_) | Heard::Stray => false,
    }
}
