//! One side of a connection.

ghost use Rattle.std.specs.Prelude.{◌≡◌, ◌≤◌, ◌+◌, IfOk, IfSome, None, Some, false, true, drop, length};
ghost use Rattle.cqlp_observer.specs.Announcements.{announced_of, announced_on};
ghost use Rattle.cqlp_observer.specs.Directions.{IsWholeHead, passed_whole};

use crate::heads::{Heads, Heard};
use crate::kept::{Announced, Front, Kept, announces_warnings};
use crate::message::{Frame, Message};
use crate::opening::Opening;
use cqlp_note::Header;
use cqlp_observer_facts::FactsReader;
use std::alloc::{AllocError, Allocator};
use std::marker::Model;
use std::mem;

/// What one side sent. It takes memory while a message's body passes of which not all bytes came in one piece.
#[derive(Drop)]
pub(crate) struct Side<A: Allocator> {
    alloc: A,
    heads: Heads,
    /// What is kept of the message that passes; none between two messages, and where there was no room.
    present: Option<Box<Present<A>, A>>,
}

/// A message whose body passes, as far as none of its bytes is missing.
#[derive(Drop)]
pub(crate) struct Present<A: Allocator> {
    /// Its first bytes.
    front: Front<A>,
    /// Those before them, where warnings are among these.
    announced: Announced<A>,
    /// What it says.
    reader: FactsReader,
    /// Whether none of its bytes is missing so far.
    is_sound: bool,
}

/// What the first so many bytes of a piece say, beside the message that ends with them.
#[derive(Clone, Copy)]
pub(crate) struct SideStep {
    pub(crate) used: usize,
    /// Whether nothing more is said by the piece.
    pub(crate) is_done: bool,
    /// Whether a message begins of which there is no room to keep more than the header.
    pub(crate) is_bare: bool,
}

impl<A: Allocator> Model for Present<A> {
    ghost use Rattle.cqlp_observer.specs.Announcements.{announced_of};
    ghost use Rattle.cqlp_observer.specs.Passing.{Passing, passing};

    ghost Value = { Passing };

    ghost view = { λ p. passing p.front (announced_of p.announced) p.reader p.is_sound };
}

impl<A: Allocator + Clone> Present<A> {
    ghost use Rattle.cqlp_observer.specs.Announcements.{none_announced};
    ghost use Rattle.cqlp_observer.specs.Passing.{begun_with, broken, kept_in, passing, read_on};

    /// A message with this header, of whose body nothing came.
    #[inline(always)]
    fn new(alloc: A, header: &Header) -> Result<Self, AllocError>
        ensures { IfOk result (λ p. p ≡ begun_with header.now) }
    {
        let announced = Self::none_announced(&alloc, header)?;
        Ok(Present {
            front: Front::new(alloc),
            announced,
            reader: FactsReader::new(header),
            is_sound: true,
        })
    }

    /// Of what lies before a message with this header nothing came. Takes memory where warnings are among that.
    #[inline(always)]
    fn none_announced(alloc: &A, header: &Header) -> Result<Announced<A>, AllocError>
        ensures { IfOk result (λ a. announced_of a ≡ none_announced header.now) }
    {
        if announces_warnings(header) {
            let none = Front::new(alloc.clone()?);
            Ok(Some(Box::new(alloc.clone()?, none)?))
        } else {
            Ok(None)
        }
    }

    /// Its next bytes.
    #[inline(always)]
    fn keep(&mut self, bytes: &[u8]) -> Result<(), AllocError>
        ensures { IfOk result (λ _. self.new ≡ read_on bytes.now self.old) }
    {
        if !self.is_sound {
            return Ok(());
        }
        let before = self.reader.read(bytes);
        self.announce(&bytes[..before])?;
        self.front.add(&bytes[before..])
    }

    /// Its next bytes that lie before the message proper.
    #[inline(always)]
    fn announce(&mut self, bytes: &[u8]) -> Result<(), AllocError>
        ensures { IfOk result (λ _. self.new ≡ passing self.old.front (announced_on bytes.now self.old.announced) self.old.reader self.old.is_sound) }
    {
        announce(&mut self.announced, bytes)
    }

    /// Some of its bytes are missing.
    fn break_off(&mut self)
        ensures { self.new ≡ broken self.old }
    {
        self.is_sound = false;
    }

    /// What is kept of it.
    #[inline(always)]
    fn into_kept(self, alloc: A) -> Result<Kept<A>, AllocError>
        ensures { IfOk result (λ k. k ≡ kept_in self) }
    {
        let Present {
            front,
            announced,
            reader,
            is_sound: _,
        } = self;
        Kept::new(alloc, front, announced, reader.facts())
    }
}

/// The next bytes that lie before a message proper, where these are kept.
#[inline(always)]
fn announce<A: Allocator>(announced: &mut Announced<A>, bytes: &[u8]) -> Result<(), AllocError>
    ensures { IfOk result (λ _. announced_of announced.new ≡ announced_on bytes.now (announced_of announced.old)) }
{
    match announced {
        Some(announced) => announced.add(bytes),
        None => Ok(()),
    }
}

impl<A: Allocator> Model for Side<A> {
    ghost use Rattle.cqlp_observer.specs.Speakers.{Speaker, speaker};
    ghost use Rattle.cqlp_observer.specs.Passing.{passing_of};

    ghost Value = { Speaker };

    ghost view = { λ s. speaker s.heads (passing_of s.present) };
}

impl<A: Allocator + Clone> Side<A> {
    ghost use Rattle.cqlp_observer.specs.Directions.{is_over};
    ghost use Rattle.cqlp_observer.specs.Openings.{opening_in};
    ghost use Rattle.cqlp_observer.specs.Passing.{begun_with, broken_if, kept_in, read_on, read_on_if};
    ghost use Rattle.cqlp_observer.specs.Speakers.{after_end, after_frame, after_gap, begins, closed, ending, ends_at_once};
    ghost use Rattle.cqlp_observer.specs.Speakers.{heard, hearing, is_keeping, silent, speaker};

    /// A side that sent nothing yet: that of the responses, or that of the requests. Its first byte begins a frame, where `from_start`.
    pub(crate) fn new(alloc: A, responses: bool, from_start: bool) -> Self
        ensures { result ≡ silent responses from_start }
    {
        Side {
            alloc,
            heads: Heads::new(responses, from_start),
            present: None,
        }
    }

    /// The side begins anew.
    pub(crate) fn restart(&mut self, responses: bool, from_start: bool)
        ensures { self.new ≡ silent responses from_start }
    {
        self.heads = Heads::new(responses, from_start);
        self.present = None;
    }

    /// Whether it has memory for the message that passes.
    #[inline(always)]
    pub(crate) fn is_keeping(&self) -> bool
        ensures { result ≡ is_keeping self.now }
    {
        self.present.is_some()
    }

    /// Whether a frame ends of which nothing more comes.
    #[inline(always)]
    pub(crate) fn is_over(&self) -> bool
        ensures { result ≡ is_over self.now.heads.stage }
    {
        self.heads.is_over()
    }

    /// What these bytes are that come next, if none came before.
    #[inline(always)]
    pub(crate) fn opening(&self, piece: &[u8]) -> Opening
        ensures { result ≡ opening_in piece.now self.now.heads }
    {
        self.heads.opening(piece)
    }

    /// What the next bytes say that came at this time. Of a frame that begins and does not end in the piece more than the header is kept, where
    /// `has_room`. The message that ends with them, if one does, is written where none is yet: it is large, and seldom ends in a piece.
    pub(crate) fn read(
        &mut self,
        piece: &[u8],
        time: Option<u64>,
        begins: bool,
        has_room: bool,
        message: &mut Option<Message<Kept<A>>>,
    ) -> Result<SideStep, AllocError>
        requires { message.old ≡ None }
        ensures step { IfOk result (λ step. hearing step message.new self.new ≡ heard time begins piece.now has_room self.old) }
        ensures within { IfOk result (λ step. step.used ≤ length piece.now) }
    {
        if let Some(used) = self.heads.pass_body(piece, time) {
            self.keep(&piece[..used])?;
            return Ok(SideStep::to(used));
        }
        if self.heads.pass_stray(piece, begins) {
            return Ok(SideStep::to(piece.len()));
        }
        self.read_head(piece, time, begins, has_room, message)
    }

    /// What the next bytes say, as `read` says it. It is for those that are neither of a body nor all stray: what these are is large, and would be in
    /// memory also where it is not needed.
    #[inline(never)]
    fn read_head(
        &mut self,
        piece: &[u8],
        time: Option<u64>,
        begins: bool,
        has_room: bool,
        message: &mut Option<Message<Kept<A>>>,
    ) -> Result<SideStep, AllocError>
        requires { message.old ≡ None }
        ensures step { IfOk result (λ step. hearing step message.new self.new ≡ heard time begins piece.now has_room self.old) }
        ensures within { IfOk result (λ step. step.used ≤ length piece.now) }
    {
        let step = self.heads.take(piece, time, begins);
        let used = step.used;
        match step.heard {
            Heard::Begins(header) => self.begin(&header, used, time, piece, has_room, message),
            Heard::Body => {
                self.keep(&piece[..used])?;
                Ok(SideStep::to(used))
            }
            Heard::Ends(frame) => {
                *message = Some(self.finish(frame)?);
                Ok(SideStep::to(used))
            }
            Heard::Stray => Ok(SideStep::to(used)),
            Heard::More => Ok(SideStep::done(used)),
        }
    }

    /// The header of the frame that lies whole in these bytes from the first on, if it is between two frames and one does.
    #[inline(always)]
    pub(crate) fn whole_head(&self, piece: &[u8]) -> Option<Header>
        ensures { IfSome result (λ h. IsWholeHead h piece.now self.now.heads) }
    {
        self.heads.whole_head(piece)
    }

    /// The message of the frame with this header that lies whole in the next bytes, which came at this time.
    #[inline(always)]
    pub(crate) fn take_frame(
        &mut self,
        header: Header,
        piece: &[u8],
        time: Option<u64>,
    ) -> Result<Message<Kept<A>>, AllocError>
        requires { 9 + header.length ≤ length piece.now }
        ensures { IfOk result (λ m. ending (Some m) self.new ≡ after_frame header time piece.now self.old) }
    {
        self.present = None;
        let end = 9 + header.length as usize;
        let kept = self.kept_of_whole(header, &piece[9..end])?;
        let frame = self.heads.pass_frame(header, time);
        Ok(Message { frame, kept })
    }

    /// So many bytes did not come, which passed at this time, where that is known. The message that ends there, if one does, is written where none is
    /// yet.
    pub(crate) fn gap(
        &mut self,
        length: u64,
        time: Option<u64>,
        message: &mut Option<Message<Kept<A>>>,
    ) -> Result<(), AllocError>
        requires { message.old ≡ None }
        ensures { IfOk result (λ _. ending message.new self.new ≡ after_gap length time self.old) }
    {
        self.break_off();
        if let Some(frame) = self.heads.gap(length, time) {
            *message = Some(self.finish(frame)?);
        }
        Ok(())
    }

    /// No more bytes come: the frame of which some did.
    pub(crate) fn end(&mut self) -> Result<Option<Message<Kept<A>>>, AllocError>
        ensures { IfOk result (λ message. ending message self.new ≡ after_end self.old) }
    {
        match self.heads.end() {
            Some(frame) => Ok(Some(self.finish(frame)?)),
            None => Ok(None),
        }
    }

    /// A frame begins, whose header ended after so many bytes of the piece.
    #[inline(always)]
    fn begin(
        &mut self,
        header: &Header,
        used: usize,
        time: Option<u64>,
        piece: &[u8],
        has_room: bool,
        message: &mut Option<Message<Kept<A>>>,
    ) -> Result<SideStep, AllocError>
        requires within { used ≤ length piece.now }
        requires none { message.old ≡ None }
        ensures step { IfOk result (λ step. hearing step message.new self.new
            ≡ begins header.now used time self.old.heads (drop used piece.now) has_room) }
        ensures within { IfOk result (λ step. step.used ≤ length piece.now) }
    {
        let length = header.length as usize;
        if length <= piece.len() - used {
            let end = used + length;
            return self.take_whole(header, end, time, &piece[used..end], message);
        }
        if !has_room {
            self.present = None;
            return Ok(SideStep::bare(used));
        }
        let present = Present::new(self.alloc.clone()?, header)?;
        self.present = Some(Box::new(self.alloc.clone()?, present)?);
        Ok(SideStep::to(used))
    }

    /// All of a body that has begun is there, which ends after so many bytes of the piece: its frame ends.
    #[inline(always)]
    fn take_whole(
        &mut self,
        header: &Header,
        end: usize,
        time: Option<u64>,
        body: &[u8],
        message: &mut Option<Message<Kept<A>>>,
    ) -> Result<SideStep, AllocError>
        requires { message.old ≡ None }
        ensures step { IfOk result (λ step. hearing step message.new self.new
            ≡ ends_at_once (passed_whole time self.old.heads) header.now body.now end) }
        ensures within { IfOk result (λ step. step.used ≡ end) }
    {
        self.present = None;
        let kept = self.kept_of_whole(*header, body)?;
        if let Some(frame) = self.heads.pass_whole(time) {
            *message = Some(Message { frame, kept });
        }
        Ok(SideStep::to(end))
    }

    /// What is kept of a message with this header and body.
    #[inline(never)]
    fn kept_of_whole(&self, header: Header, body: &[u8]) -> Result<Kept<A>, AllocError>
        ensures { IfOk result (λ k. k ≡ kept_in (read_on body.now (begun_with header))) }
    {
        let mut reader = FactsReader::new(&header);
        let before = reader.read(body);
        let mut announced = Present::none_announced(&self.alloc, &header)?;
        announce(&mut announced, &body[..before])?;
        let mut front = Front::new(self.alloc.clone()?);
        front.add(&body[before..])?;
        Kept::new(self.alloc.clone()?, front, announced, reader.facts())
    }

    /// Keeps bytes of a body.
    #[inline(always)]
    fn keep(&mut self, bytes: &[u8]) -> Result<(), AllocError>
        ensures { IfOk result (λ _. self.new ≡ speaker self.old.heads (read_on_if bytes.now self.old.present)) }
    {
        match &mut self.present {
            Some(present) => present.keep(bytes),
            None => Ok(()),
        }
    }

    /// Some bytes are missing of the message that passes, if one does.
    fn break_off(&mut self)
        ensures { self.new ≡ speaker self.old.heads (broken_if self.old.present) }
    {
        if let Some(present) = &mut self.present {
            present.break_off();
        }
    }

    /// A frame ends, with what was kept of it.
    fn finish(&mut self, frame: Frame) -> Result<Message<Kept<A>>, AllocError>
        ensures { IfOk result (λ m. ending (Some m) self.new ≡ closed (Some frame) self.old.heads self.old.present) }
    {
        let kept = match mem::replace(&mut self.present, None) {
            Some(present) => Box::into_inner(present).into_kept(self.alloc.clone()?)?,
            None => Kept::bare(),
        };
        Ok(Message { frame, kept })
    }
}

impl SideStep {
    /// So many bytes, which may not be all.
    #[inline(always)]
    fn to(used: usize) -> Self
        ensures { result ≡ record { used = used; is_done = false; is_bare = false } }
    {
        SideStep {
            used,
            is_done: false,
            is_bare: false,
        }
    }

    /// Nothing more is said by the piece.
    #[inline(always)]
    fn done(used: usize) -> Self
        ensures { result ≡ record { used = used; is_done = true; is_bare = false } }
    {
        SideStep {
            used,
            is_done: true,
            is_bare: false,
        }
    }

    /// A message begins after so many bytes of which there is no room to keep more than the header.
    #[inline(always)]
    fn bare(used: usize) -> Self
        ensures { result ≡ record { used = used; is_done = false; is_bare = true } }
    {
        SideStep {
            used,
            is_done: false,
            is_bare: true,
        }
    }
}
