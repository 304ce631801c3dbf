//! The other connections of a capture, of which the PREPAREDs are read.

ghost use Rattle.std.specs.Prelude.{◌≡◌, OnErr, OnOk};
ghost use Rattle.cqlp_capture_rows.specs.OtherConnections.{begins, is_done, leaves, overhears, overheard, bytes_heard, heard_as, learning, place, step_heard};

use crate::other_types::OtherTypes;
use crate::prepared_frames::PreparedFrames;
use cqlp_note::NoMemory;
use cqlp_observer::{Heads, Heard, HeardStep, Unread};
use cqlp_tcp_reassembly::StreamStep;
use std::alloc::{AllocError, Allocator, Global};
use std::collections::BTreeMap;
use std::marker::Model;

/// Where the frames of the responses of other connections begin and end, by the connections' numbers, and the frames that may be PREPAREDs.
/// Memory is taken for each connection as it begins, and for the bytes of such a frame as they come.
#[derive(Drop)]
pub(crate) struct OtherConnections<A: Allocator = Global> {
    heads: BTreeMap<u64, Heads, A>,
    frames: PreparedFrames<A>,
}

impl<A: Allocator> Model for OtherConnections<A> {
    ghost use Rattle.cqlp_capture_rows.specs.OtherConnections.{OtherConnections, other_connections};

    ghost Value = { OtherConnections };

    ghost view = { λ o. other_connections o.heads.entries o.frames };
}

impl<A: Allocator + Clone> OtherConnections<A> {
    ghost use Rattle.std.specs.Prelude.{IfOk};
    ghost use Rattle.cqlp_capture_rows.specs.OtherConnections.{no_connections};

    /// No connections.
    pub(crate) fn new(alloc: A) -> Result<Self, AllocError>
        ensures { IfOk result (λ o. o ≡ no_connections) }
    {
        Ok(OtherConnections {
            heads: BTreeMap::new(alloc.clone()?),
            frames: PreparedFrames::new(alloc)?,
        })
    }

    /// The connection with this number begins. Where memory is refused, nothing changes.
    pub(crate) fn begin(&mut self, number: u64) -> Result<(), AllocError>
        ensures ok { OnOk result (self.new ≡ begins number self.old) }
        ensures err { OnErr result (self.new ≡ self.old) }
    {
        match self.heads.insert(number, Heads::new(true, false)) {
            Ok(_) => Ok(()),
            Err(_) => Err(AllocError),
        }
    }

    /// Takes what the responses of a connection deliver, with their bytes: what is known of statements changes by that.
    pub(crate) fn hear(
        &mut self,
        number: u64,
        step: StreamStep,
        bytes: &[u8],
        others: &mut OtherTypes<A>,
    ) -> Result<(), NoMemory>
        ensures { OnOk result (overheard self.new others.new ≡ overhears number step bytes.now self.old others.old) }
    {
        match self.heads.get_mut(&number) {
            Some(heads) => hear_in(heads, &mut self.frames, others, number, step, bytes),
            None => Ok(()),
        }
    }

    /// The connection with this number leaves.
    pub(crate) fn leave(&mut self, number: u64)
        ensures { self.new ≡ leaves number self.old }
    {
        let _ = self.heads.remove(&number);
        let _ = self.frames.end(number);
    }
}

/// Takes what the responses of this connection deliver.
fn hear_in<A: Allocator + Clone>(
    heads: &mut Heads,
    frames: &mut PreparedFrames<A>,
    others: &mut OtherTypes<A>,
    number: u64,
    step: StreamStep,
    bytes: &[u8],
) -> Result<(), NoMemory>
    ensures { OnOk result (place heads.new (learning frames.new others.new) ≡ step_heard number step bytes.now heads.old (learning frames.old others.old)) }
{
    match step {
        StreamStep::Began { syn } => {
            *heads = Heads::new(true, syn);
            let _ = frames.end(number);
            Ok(())
        }
        StreamStep::Payload { from, .. } => {
            hear_bytes(heads, frames, others, number, from == 0, bytes)
        }
        StreamStep::Held { begins, .. } => {
            hear_bytes(heads, frames, others, number, begins, bytes)
        }
        StreamStep::Gap { length, .. } => {
            let _ = heads.gap(length, None);
            let _ = frames.end(number);
            Ok(())
        }
        StreamStep::Ended | StreamStep::Reset => {
            let _ = heads.end();
            let _ = frames.end(number);
            Ok(())
        }
        StreamStep::Kept | StreamStep::Done => Ok(()),
    }
}

/// Takes bytes, the first of which begins a segment or not.
fn hear_bytes<A: Allocator + Clone>(
    heads: &mut Heads,
    frames: &mut PreparedFrames<A>,
    others: &mut OtherTypes<A>,
    number: u64,
    begins: bool,
    bytes: &[u8],
) -> Result<(), NoMemory>
    ensures { OnOk result (place heads.new (learning frames.new others.new)
        ≡ bytes_heard number begins bytes.now heads.old (learning frames.old others.old)) }
{
    let mut unread = Unread::new(bytes, begins);
    while unread.steps > 0 {
        let HeardStep { used, heard } = heads.take(unread.bytes, None, unread.begins);
        take_heard(frames, others, number, heard, &unread.bytes[..used])?;
        if is_done(heard) {
            return Ok(());
        }
        unread = unread.after(used);
    }
    Ok(())
}

/// Takes what bytes are.
fn take_heard<A: Allocator + Clone>(
    frames: &mut PreparedFrames<A>,
    others: &mut OtherTypes<A>,
    number: u64,
    heard: Heard,
    bytes: &[u8],
) -> Result<(), NoMemory>
    ensures { OnOk result (learning frames.new others.new ≡ heard_as number bytes.now heard (learning frames.old others.old)) }
{
    match heard {
        Heard::Begins(header) => Ok(frames.begin(number, &header)?),
        Heard::Body => Ok(frames.grow(number, bytes)?),
        Heard::Ends(_) => match frames.end(number) {
            Some(frame) => others.learn(frame.bytes()),
            None => Ok(()),
        },
        Heard::Stray => {
            let _ = frames.end(number);
            Ok(())
        }
        Heard::More => Ok(()),
    }
}

/// Whether nothing more is reported of a piece.
fn is_done(heard: Heard) -> bool
    ensures { result ≡ is_done heard }
{
    match heard {
        Heard::More => true,
        Heard::Begins(_) | Heard::Body | Heard::Ends(_) | Heard::Stray => false,
    }
}
