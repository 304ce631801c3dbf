//! Both sides of one connection.

ghost use Rattle.std.specs.Prelude.{◌≡◌, ◌≤◌, ◌+◌, IfOk, IfSome, length};
ghost use Rattle.std.specs.Option.{option_copied};
ghost use Rattle.cqlp_observer.specs.Watches.{bare_if, recounted, text_in, reported_text};

use crate::frame_record::MessageRecord;
use crate::kept::Kept;
use crate::message::Message;
use crate::missed::Missed;
use crate::missed_record::MissedRecord;
use crate::opening::Opening;
use crate::paired::Paired;
use crate::pairing::{Fate, Pairing, fate_of};
use crate::room::WatchRoom;
use crate::side::{Side, SideStep};
use cqlp_note::Header;
use std::alloc::{AllocError, Allocator, Global};
use std::marker::Model;

/// What both sides of one connection say to each other, out of the bytes and gaps of its two directions, as they come.
///
/// `begin` says of each direction whether its beginning was seen. `take` reports at most one thing of each call; it is to be called again with the
/// bytes that it did not use, until `is_done`. At the end of a direction `end` reports of its last frame, and at that of the connection `finish`
/// of the messages that still wait, until it says `None`.
///
/// It has no limit of its own: each call is given how much may wait ([`WatchRoom`]). Memory is taken for what waits and for the texts of the two messages
/// that pass, and given back with them; and once more than 65,535 of one kind were missed. After a call that was refused memory it is not to be used again.
#[derive(Drop)]
pub struct Watch<A: Allocator = Global> {
    requests: Side<A>,
    responses: Side<A>,
    pairing: Pairing<Kept<A>, A>,
    /// How many bytes of room the texts take of the messages that wait and of those that pass.
    text: usize,
    missed: MissedRecord<A>,
}

/// How much of a piece a call has used, beside what it reports.
#[derive(Clone, Copy, Debug, PartialEq, Eq)]
pub struct WatchProgress {
    /// How many bytes of the piece were used.
    pub used: usize,
    /// Whether nothing more is reported of the piece, all of which was used.
    pub is_done: bool,
    /// What the direction begins with, where these are its first bytes; else `Frames`.
    pub opening: Opening,
}

/// What the first so many bytes of a piece report.
#[derive(Drop)]
pub struct WatchStep<A: Allocator = Global> {
    /// How many bytes of the piece were used.
    pub used: usize,
    /// Whether nothing more is reported of the piece, all of which was used.
    pub is_done: bool,
    /// What the direction begins with, where these are its first bytes; else `Frames`.
    pub opening: Opening,
    /// The exchange, the message without a partner or the event that these bytes complete, if they complete one.
    pub reported: Option<Paired<Kept<A>>>,
}

impl<A: Allocator> Model for Watch<A> {
    ghost use Rattle.cqlp_observer.specs.Watches.{Watched, watched};

    ghost Value = { Watched };

    ghost view = { λ w. watched w.requests w.responses w.pairing w.text w.missed };
}

impl<A: Allocator + Clone> Watch<A> {
    ghost use Rattle.std.specs.Prelude.{None, Some};
    ghost use Rattle.cqlp_observer.specs.Directions.{IsWholeHead};
    ghost use Rattle.cqlp_observer.specs.Messages.{id_of};
    ghost use Rattle.cqlp_observer.specs.Speakers.{after_frame};
    ghost use Rattle.cqlp_observer.specs.Nothing.{has_nothing};
    ghost use Rattle.cqlp_observer.specs.Pairings.{IsPlaced};
    ghost use Rattle.cqlp_observer.specs.Watches.{after_end, after_gap, begun, ended_by, finished, fitted, fitting};
    ghost use Rattle.cqlp_observer.specs.Watches.{heard, heard_by, is_keeping_on, new_watched, opening_of};
    ghost use Rattle.cqlp_observer.specs.Watches.{paired_if, progressing, read, reading, report_then, settled, side_of, stepping, with_recount};

    /// A connection of which nothing was seen. Takes no memory beside what clones of `alloc` do.
    ///
    /// # Errors
    ///
    /// An allocator that cannot be cloned.
    pub fn new(alloc: A) -> Result<Self, AllocError>
        ensures { IfOk result (λ w. w ≡ new_watched) }
    {
        Ok(Watch {
            requests: Side::new(alloc.clone()?, false, false),
            responses: Side::new(alloc.clone()?, true, false),
            pairing: Pairing::new(alloc.clone()?)?,
            text: 0,
            missed: MissedRecord::new(alloc),
        })
    }

    /// A direction begins, that of the responses or that of the requests. Its first byte is that of a frame, where `from_start`; else the first frame
    /// is sought where a segment begins with a header.
    pub fn begin(&mut self, responses: bool, from_start: bool)
        ensures { self.new ≡ begun responses from_start self.old }
    {
        let was_keeping = self.is_keeping(responses);
        if responses {
            self.responses.restart(responses, from_start);
        } else {
            self.requests.restart(responses, from_start);
        }
        self.text = recounted(0, self.text, was_keeping, false);
    }

    /// What the next bytes of a direction report, which came at this time. `begins` says whether the first of them begins a segment.
    ///
    /// # Errors
    ///
    /// Memory that is refused.
    pub fn take(
        &mut self,
        responses: bool,
        piece: &[u8],
        time: Option<u64>,
        begins: bool,
        room: WatchRoom,
    ) -> Result<WatchStep<A>, AllocError>
        ensures reported { IfOk result (λ step. stepping step self.new ≡ heard responses time begins piece.now room self.old) }
        ensures within { IfOk result (λ step. step.used ≤ length piece.now) }
    {
        let mut reported = None;
        let progress = self.take_into(responses, piece, time, begins, room, &mut reported)?;
        Ok(WatchStep {
            used: progress.used,
            is_done: progress.is_done,
            opening: progress.opening,
            reported,
        })
    }

    /// What the next bytes of a direction report, as `take` says it. It is put where `reported` is, in place of what is there, and is not moved.
    ///
    /// # Errors
    ///
    /// Memory that is refused.
    #[tactic(auto, using(crate::proofs::NoBytes::heard_nothing))]
    pub fn take_into(
        &mut self,
        responses: bool,
        piece: &[u8],
        time: Option<u64>,
        begins: bool,
        room: WatchRoom,
        reported: &mut Option<Paired<Kept<A>>>,
    ) -> Result<WatchProgress, AllocError>
        ensures reported { IfOk result (λ step. progressing step reported.new self.new ≡ heard responses time begins piece.now room self.old) }
        ensures within { IfOk result (λ step. step.used ≤ length piece.now) }
    {
        *reported = None;
        if self.is_done(responses, piece) {
            return Ok(WatchProgress::done());
        }
        let opening = self.opening(responses, piece);
        self.missed.count_opening(opening)?;
        self.hear(responses, piece, time, begins, room, opening, reported)
    }

    /// So many bytes of a direction did not come, which passed at this time, where that is known.
    ///
    /// # Errors
    ///
    /// Memory that is refused.
    pub fn gap(
        &mut self,
        responses: bool,
        length: u64,
        time: Option<u64>,
        room: WatchRoom,
    ) -> Result<Option<Paired<Kept<A>>>, AllocError>
        ensures { IfOk result (λ reported. report_then reported self.new ≡ after_gap responses length time room self.old) }
    {
        let mut reported = None;
        self.gap_into(responses, length, time, room, &mut reported)?;
        Ok(reported)
    }

    /// So many bytes of a direction did not come, as `gap` says it. What is reported is put where `reported` is, in place of what is there, and is not
    /// moved.
    ///
    /// # Errors
    ///
    /// Memory that is refused.
    pub fn gap_into(
        &mut self,
        responses: bool,
        length: u64,
        time: Option<u64>,
        room: WatchRoom,
        reported: &mut Option<Paired<Kept<A>>>,
    ) -> Result<(), AllocError>
        ensures { IfOk result (λ _. report_then reported.new self.new ≡ after_gap responses length time room self.old) }
    {
        *reported = None;
        self.missed.count_gap()?;
        let was_keeping = self.is_keeping(responses);
        let mut message = None;
        if responses {
            self.responses.gap(length, time, &mut message)?;
        } else {
            self.requests.gap(length, time, &mut message)?;
        }
        self.recount(responses, room, was_keeping);
        match message {
            Some(message) => self.pair_into(message, room, reported),
            None => Ok(()),
        }
    }

    /// No more bytes of a direction come.
    ///
    /// # Errors
    ///
    /// Memory that is refused.
    pub fn end(
        &mut self,
        responses: bool,
        room: WatchRoom,
    ) -> Result<Option<Paired<Kept<A>>>, AllocError>
        ensures { IfOk result (λ reported. report_then reported self.new ≡ after_end responses room self.old) }
    {
        let was_keeping = self.is_keeping(responses);
        let message = if responses {
            self.responses.end()?
        } else {
            self.requests.end()?
        };
        self.recount(responses, room, was_keeping);
        self.pair(message, room)
    }

    /// The connection is over: the message under the least stream id, which waits no more. `None` once none waits.
    pub fn finish(&mut self) -> Option<Paired<Kept<A>>>
        ensures { report_then result self.new ≡ finished self.old }
    {
        let reported = self.pairing.end();
        self.text = self.text.saturating_sub(reported_text(&reported));
        reported
    }

    /// How many messages wait.
    pub fn waiting(&self) -> usize
        ensures { result ≡ length self.now.waiting }
    {
        self.pairing.len()
    }

    /// How many bytes of room the texts take of the messages that wait and of those that pass.
    pub fn text(&self) -> usize
        ensures { result ≡ self.now.text }
    {
        self.text
    }

    /// What was missed so far, since it was made.
    pub fn missed(&self) -> Missed
        ensures { result ≡ self.now.missed }
    {
        self.missed.missed()
    }

    /// What the next bytes of a direction report, which begins so or goes on.
    #[inline(always)]
    fn hear(
        &mut self,
        responses: bool,
        piece: &[u8],
        time: Option<u64>,
        begins: bool,
        room: WatchRoom,
        opening: Opening,
        reported: &mut Option<Paired<Kept<A>>>,
    ) -> Result<WatchProgress, AllocError>
        requires { reported.old ≡ None }
        ensures reported { IfOk result (λ step. progressing step reported.new self.new
            ≡ heard_by opening (read responses time begins piece.now room self.old) room) }
        ensures within { IfOk result (λ step. step.used ≤ length piece.now) }
    {
        match self.whole_head(responses, piece) {
            Some(header) => {
                self.take_frame(responses, header, piece, time, room, reported)?;
                Ok(WatchProgress {
                    used: 9 + header.length as usize,
                    is_done: false,
                    opening,
                })
            }
            None => self.hear_part(responses, piece, time, begins, room, opening, reported),
        }
    }

    /// What the next bytes of a direction report, where no frame lies whole in them.
    #[inline(never)]
    fn hear_part(
        &mut self,
        responses: bool,
        piece: &[u8],
        time: Option<u64>,
        begins: bool,
        room: WatchRoom,
        opening: Opening,
        reported: &mut Option<Paired<Kept<A>>>,
    ) -> Result<WatchProgress, AllocError>
        requires { reported.old ≡ None }
        ensures reported { IfOk result (λ step. progressing step reported.new self.new
            ≡ heard_by opening (read responses time begins piece.now room self.old) room) }
        ensures within { IfOk result (λ step. step.used ≤ length piece.now) }
    {
        let mut message = None;
        let step = self.read(responses, piece, time, begins, room, &mut message)?;
        if let Some(message) = message {
            self.pair_into(message, room, reported)?;
        }
        Ok(WatchProgress {
            used: step.used,
            is_done: step.is_done,
            opening,
        })
    }

    /// The header of the frame of a direction that lies whole in its next bytes from the first on, if it is between two frames and one does.
    #[inline(always)]
    fn whole_head(&self, responses: bool, piece: &[u8]) -> Option<Header>
        ensures { IfSome result (λ h. IsWholeHead h piece.now (side_of responses self.now).heads) }
    {
        if responses {
            self.responses.whole_head(piece)
        } else {
            self.requests.whole_head(piece)
        }
    }

    /// The frame with this header lies whole in the next bytes of a direction, which came at this time: pairs its message. What is reported is
    /// written where nothing is yet: it is large, and is moved as seldom as can be.
    #[inline(never)]
    fn take_frame(
        &mut self,
        responses: bool,
        header: Header,
        piece: &[u8],
        time: Option<u64>,
        room: WatchRoom,
        reported: &mut Option<Paired<Kept<A>>>,
    ) -> Result<(), AllocError>
        requires whole { 9 + header.length ≤ length piece.now }
        requires none { reported.old ≡ None }
        ensures { IfOk result (λ _. report_then reported.new self.new
            ≡ ended_by responses (after_frame header time piece.now (side_of responses self.old)) room self.old) }
    {
        let was_keeping = self.is_keeping(responses);
        let message = if responses {
            self.responses.take_frame(header, piece, time)?
        } else {
            self.requests.take_frame(header, piece, time)?
        };
        self.recount(responses, room, was_keeping);
        self.pair_one(message, room, reported)
    }

    /// Whether these are no bytes, and no frame of the direction ends: then nothing more is reported.
    #[inline(always)]
    fn is_done(&self, responses: bool, piece: &[u8]) -> bool
        ensures { result ≡ has_nothing responses piece.now self.now }
    {
        piece.is_empty()
            && if responses {
                !self.responses.is_over()
            } else {
                !self.requests.is_over()
            }
    }

    /// What these bytes of a direction are that come next, if none came before.
    #[inline(always)]
    fn opening(&self, responses: bool, piece: &[u8]) -> Opening
        ensures { result ≡ opening_of responses piece.now self.now }
    {
        if responses {
            self.responses.opening(piece)
        } else {
            self.requests.opening(piece)
        }
    }

    /// Whether a side has memory for the text of the message that passes.
    #[inline(always)]
    fn is_keeping(&self, responses: bool) -> bool
        ensures { result ≡ is_keeping_on responses self.now }
    {
        if responses {
            self.responses.is_keeping()
        } else {
            self.requests.is_keeping()
        }
    }

    /// Counts the room of a side that took some or gave it back.
    #[inline(always)]
    fn recount(&mut self, responses: bool, room: WatchRoom, was_keeping: bool)
        ensures { self.new ≡ with_recount responses room was_keeping self.old }
    {
        self.text = recounted(
            room.text,
            self.text,
            was_keeping,
            self.is_keeping(responses),
        );
    }

    /// What the next bytes of a direction say. The message that ends with them is written where none is yet.
    #[inline(always)]
    fn read(
        &mut self,
        responses: bool,
        piece: &[u8],
        time: Option<u64>,
        begins: bool,
        room: WatchRoom,
        message: &mut Option<Message<Kept<A>>>,
    ) -> Result<SideStep, AllocError>
        requires { message.old ≡ None }
        ensures step { IfOk result (λ step. reading step message.new self.new ≡ read responses time begins piece.now room self.old) }
        ensures within { IfOk result (λ step. step.used ≤ length piece.now) }
    {
        let has_room = room.text.saturating_sub(self.text) >= PRESENT_ROOM;
        let was_keeping = self.is_keeping(responses);
        let step = if responses {
            (self.responses).read(piece, time, begins, has_room, message)?
        } else {
            (self.requests).read(piece, time, begins, has_room, message)?
        };
        self.recount(responses, room, was_keeping);
        if step.is_bare {
            self.missed.count_text()?;
        }
        Ok(step)
    }

    /// Pairs a message that has ended, if one has.
    #[inline(always)]
    fn pair(
        &mut self,
        message: Option<Message<Kept<A>>>,
        room: WatchRoom,
    ) -> Result<Option<Paired<Kept<A>>>, AllocError>
        ensures { IfOk result (λ reported. report_then reported self.new ≡ paired_if message room self.old) }
    {
        let mut reported = None;
        if let Some(message) = message {
            self.pair_into(message, room, &mut reported)?;
        }
        Ok(reported)
    }

    /// Pairs a message that has ended, out of line. What is reported is written where nothing is yet.
    #[inline(never)]
    fn pair_into(
        &mut self,
        message: Message<Kept<A>>,
        room: WatchRoom,
        reported: &mut Option<Paired<Kept<A>>>,
    ) -> Result<(), AllocError>
        requires { reported.old ≡ None }
        ensures { IfOk result (λ _. report_then reported.new self.new ≡ paired_if (Some message) room self.old) }
    {
        self.pair_one(message, room, reported)
    }

    /// Pairs a message that has ended. What is reported is written where nothing is yet.
    #[inline(always)]
    fn pair_one(
        &mut self,
        message: Message<Kept<A>>,
        room: WatchRoom,
        reported: &mut Option<Paired<Kept<A>>>,
    ) -> Result<(), AllocError>
        requires { reported.old ≡ None }
        ensures { IfOk result (λ _. report_then reported.new self.new ≡ paired_if (Some message) room self.old) }
    {
        let has_room = self.pairing.len() < room.messages;
        let place = self.pairing.place(message.stream());
        let is_bare = self.settle(place, &message, has_room, room)?;
        self.pairing
            .take_at(place, bare_if(is_bare, message), has_room, reported)
    }

    /// Whether a message is paired without its text, whose place is known, where there is room for one more that waits, or none: what becomes of it is
    /// counted.
    #[inline(always)]
    fn settle(
        &mut self,
        place: Result<usize, usize>,
        message: &Message<Kept<A>>,
        has_room: bool,
        room: WatchRoom,
    ) -> Result<bool, AllocError>
        requires { IsPlaced (id_of message.now) self.old.waiting place }
        ensures { IfOk result (λ is_bare. fitting (bare_if is_bare message.now) self.new ≡ settled message.now has_room room self.old) }
    {
        let first = self.pairing.at(place);
        let beside = self.text.saturating_sub(text_in(first));
        match fate_of(first, message, has_room) {
            Fate::IsReported => Ok(false),
            Fate::Meets => {
                self.text = beside;
                Ok(false)
            }
            Fate::Waits => self.fit(message, beside, room),
            Fate::IsOvertaken => {
                self.missed.count_overtaken()?;
                Ok(false)
            }
        }
    }

    /// Whether a message waits without its text, where so many of others wait beside it.
    #[inline(always)]
    fn fit(
        &mut self,
        message: &Message<Kept<A>>,
        beside: usize,
        room: WatchRoom,
    ) -> Result<bool, AllocError>
        ensures { IfOk result (λ is_bare. fitting (bare_if is_bare message.now) self.new ≡ fitted message.now beside room self.old) }
    {
        let count = message.kept.cost();
        if count <= room.text.saturating_sub(beside) {
            self.text = beside + count;
            Ok(false)
        } else {
            self.text = beside;
            self.missed.count_text()?;
            Ok(true)
        }
    }
}

/// The message, without its text if it is to be bare.
#[inline(always)]
fn bare_if<A: Allocator>(is_bare: bool, message: Message<Kept<A>>) -> Message<Kept<A>>
    ensures { result ≡ bare_if is_bare message }
{
    if is_bare {
        Message {
            frame: message.frame,
            kept: Kept::bare(),
        }
    } else {
        message
    }
}

impl WatchProgress {
    ghost use Rattle.std.specs.Prelude.{true};

    /// Nothing is reported of no bytes.
    #[inline(always)]
    fn done() -> Self
        ensures { result ≡ record { used = 0; is_done = true; opening = Opening.Frames } }
    {
        WatchProgress {
            used: 0,
            is_done: true,
            opening: Opening::Frames,
        }
    }
}

/// How much room the text of a message takes that passes in several pieces.
const PRESENT_ROOM: usize = 832;

/// How much room the texts of a connection take, which took so much, where a side kept a message's and keeps one.
#[inline(always)]
fn recounted(room: usize, text: usize, was_keeping: bool, is_keeping: bool) -> usize
    ensures { result ≡ recounted room text was_keeping is_keeping }
{
    if was_keeping {
        if is_keeping {
            text
        } else {
            text.saturating_sub(PRESENT_ROOM)
        }
    } else if is_keeping && room.saturating_sub(text) >= PRESENT_ROOM {
        text + PRESENT_ROOM
    } else {
        text
    }
}

/// How much room the text of a message takes that waits, if one does.
fn text_in<A: Allocator>(message: Option<&MessageRecord<Kept<A>>>) -> usize
    ensures { result ≡ text_in (option_copied message.entry) }
{
    match message {
        Some(message) => message.kept().cost(),
        None => 0,
    }
}

/// How much room the text of a message took that is reported alone.
fn reported_text<A: Allocator>(reported: &Option<Paired<Kept<A>>>) -> usize
    ensures { result ≡ reported_text reported.now }
{
    match reported {
        Some(Paired::Unanswered { request }) => request.kept.cost(),
        Some(Paired::Unasked { response }) => response.kept.cost(),
        Some(Paired::Exchange { .. } | Paired::Event { .. }) | None => 0,
    }
}
