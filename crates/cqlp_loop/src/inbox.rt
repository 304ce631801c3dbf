//! The messages that come over a socket.

ghost use Rattle.std.specs.Prelude.{◌≡◌, IfOk, IfErr, OnOk, []};
ghost use Rattle.cqlp_grammar.specs.Events.{event_of};
ghost use Rattle.cqlp_decode.specs.Streams.{state};
ghost use Rattle.cqlp_loop.specs.Inboxes.{Seeks, mark_of};

use crate::fault::LoopFault;
use cqlp_decode::{Decoder, Event, NewError, Step};
use cqlp_note::{Header, IoFault, Limits, Source};
use std::alloc::Global;
use std::marker::Model;

/// How many bytes a read may give.
const PIECE: usize = 4_096;

/// How many reads a message may take.
pub const READS: u32 = 8_192;

/// Takes messages from a source: of each first its header, and then the rest. What a read gives after a message waits
/// for the next.
#[derive(Drop)]
pub struct Inbox {
    decoder: Decoder,
    /// What the last read gave; of that, the bytes from `next` to `end` wait for the decoder.
    piece: [u8; PIECE],
    next: usize,
    end: usize,
    /// How many reads the message may still take.
    reads: u32,
}

impl Model for Inbox {
    ghost use Rattle.std.specs.Prelude.{◌≡◌, ◌≤◌, ◌-◌, length, take, drop};
    ghost use Rattle.cqlp_loop.specs.Inboxes.{InboxState};

    ghost Value = { InboxState };

    ghost view = { λ i. record {
      decoder = i.decoder;
      waiting = take (i.end - i.next) (drop i.next i.piece);
      reads = i.reads;
    } };

    ghost invariant = { λ i. (i.next ≤ i.end) × (i.end ≤ 4096) × (length i.piece ≡ 4096) };
}

impl Inbox {
    ghost use Rattle.cqlp_loop.specs.Inboxes.{Fills, Finds, HearsHeader, HearsRest, IsNew, Pulls, supply};

    /// At the start of a stream.
    ///
    /// # Errors
    ///
    /// [`LoopFault::NoMemory`] alone.
    pub fn new(alloc: Global) -> Result<Inbox, LoopFault>
        ensures new { IfOk result IsNew }
        ensures fault { IfErr result (λ e. e ≡ LoopFault.NoMemory) }
    {
        match Decoder::new(alloc, Limits::DEFAULT) {
            Ok(decoder) => Ok(Inbox {
                decoder,
                piece: [0; PIECE],
                next: 0,
                end: 0,
                reads: 0,
            }),
            Err(NewError::NoMemory) => Err(LoopFault::NoMemory),
            Err(NewError::BadLimits(_)) => unreachable!(),
        }
    }

    /// The header of the next message. The message may take [`READS`] reads.
    ///
    /// # Errors
    ///
    /// [`LoopFault::BadReply`] where the decoder refuses, [`LoopFault::SocketFault`] where a read fails or gives nothing,
    /// and [`LoopFault::TooManyTurns`].
    pub fn header<R: Source>(&mut self, source: &mut R) -> Result<Header, LoopFault>
        ensures { HearsHeader self.old (supply R.Source source.old) result self.new (supply R.Source source.new) }
    {
        self.reads = READS;
        match self.pull(source, Edge::Begin) {
            Ok(Mark::Head(header)) => Ok(header),
            Ok(Mark::Tail) => unreachable!(),
            Err(fault) => Err(fault),
        }
    }

    /// The rest of the message whose header came last. Errors as those of [`Inbox::header`].
    pub fn rest<R: Source>(&mut self, source: &mut R) -> Result<(), LoopFault>
        ensures { HearsRest self.old (supply R.Source source.old) result self.new (supply R.Source source.new) }
    {
        match self.pull(source, Edge::Finish) {
            Ok(Mark::Head(_)) => unreachable!(),
            Ok(Mark::Tail) => Ok(()),
            Err(fault) => Err(fault),
        }
    }

    /// Reads to the edge.
    fn pull<R: Source>(&mut self, source: &mut R, edge: Edge) -> Result<Mark, LoopFault>
        ensures { Pulls edge self.old (supply R.Source source.old) result self.new (supply R.Source source.new) }
    {
        'reads: loop {
            match self.find(edge) {
                Found::Mark(mark) => return Ok(mark),
                Found::Refused => return Err(LoopFault::BadReply),
                Found::More => self.fill(source)?,
            }
        }
    }

    /// Hands what waits to the decoder, up to the edge.
    fn find(&mut self, edge: Edge) -> Found
        ensures { Finds edge self.old result self.new }
    {
        let piece: &[u8] = &self.piece;
        match seek(&mut self.decoder, &piece[self.next..self.end], edge) {
            Sought::Found { used, mark } => {
                self.next += used;
                Found::Mark(mark)
            }
            Sought::More => {
                self.next = self.end;
                Found::More
            }
            Sought::Refused => Found::Refused,
        }
    }

    /// Makes a read, where nothing waits.
    fn fill<R: Source>(&mut self, source: &mut R) -> Result<(), LoopFault>
        ensures { Fills self.old (supply R.Source source.old) result self.new (supply R.Source source.new) }
    {
        if self.reads == 0 {
            return Err(LoopFault::TooManyTurns);
        }
        self.reads -= 1;
        self.next = 0;
        self.end = 0;
        match source.read(&mut self.piece) {
            Ok(0) => Err(LoopFault::SocketFault),
            Ok(count) => {
                self.end = count;
                Ok(())
            }
            Err(IoFault) => Err(LoopFault::SocketFault),
        }
    }
}

/// An edge of a message, for which an inbox waits.
#[derive(Clone, Copy)]
enum Edge {
    Begin,
    Finish,
}

/// An edge of a message that came.
#[derive(Clone, Copy)]
enum Mark {
    Head(Header),
    Tail,
}

/// What the bytes of a piece lead to.
#[derive(Clone, Copy)]
enum Sought {
    /// The edge that is waited for, after this many bytes.
    Found { used: usize, mark: Mark },
    /// All of them were used, and the edge did not come.
    More,
    Refused,
}

/// What the bytes that wait lead to.
#[derive(Clone, Copy)]
enum Found {
    /// The edge came.
    Mark(Mark),
    /// All of them were used, and the edge did not come.
    More,
    Refused,
}

/// Hands the bytes of a piece to the decoder, up to the edge.
fn seek(decoder: &mut Decoder, piece: &[u8], edge: Edge) -> Sought
    ensures { Seeks edge (state decoder.old) piece.now result (state decoder.new) }
{
    let mut used = 0;
    'events: loop {
        match decoder.next(&piece[used..]) {
            Step::More { .. } => return Sought::More,
            Step::Refused(_) => return Sought::Refused,
            Step::Event {
                at: _,
                used: taken,
                event,
            } => {
                used += taken;
                match mark_in(edge, &event) {
                    Some(mark) => return Sought::Found { used, mark },
                    None => {}
                }
            }
        }
    }
}

/// The mark that an event is, if it is the edge that is waited for.
fn mark_in(edge: Edge, event: &Event<'_>) -> Option<Mark>
    ensures { result ≡ mark_of edge (event_of event.now) }
{
    match edge {
        Edge::Begin => match *event {
            Event::Frame(header) => Some(Mark::Head(header)),
            _ => None,
        },
        Edge::Finish => match *event {
            Event::End { .. } => Some(Mark::Tail),
            _ => None,
        },
    }
}
