//! Which requests wait for their responses, and which responses for their requests.

ghost use Rattle.std.specs.Prelude.{◌≡◌, ◌==◌, IfErr, IfOk, Some, length};
ghost use Rattle.std.specs.Option.{option_copied};
ghost use Rattle.std.specs.Map.{keys_of};
ghost use Rattle.std.specs.List.Sorted.{IsStrictlySortedBy};
ghost use Rattle.std.specs.Ordering.{int_cmp};
ghost use Rattle.cqlp_observer.specs.Pairings.{IsGap, IsPlace, alone, by_id, exchange, fate_after, fate_alone, fate_of, is_overtaken};

use crate::frame_record::MessageRecord;
use crate::message::Message;
use crate::paired::Paired;
use std::alloc::{AllocError, Allocator, Global};
use std::collections::VecDeque;
use std::marker::Model;

/// The messages of one connection that wait for the other of their exchange: requests for their responses, and responses that came before
/// their requests.
///
/// It takes the frames of both directions in the order in which they ended, and reports of each request which response it has: the next under
/// its stream id, or the one before it under that id, if that still waits and the request was begun no later by the capture's times. It has no
/// limit of its own: who calls it says of each message whether there is room for one more. It has memory for at most four times as many messages as
/// wait, and none where none does.
#[derive(Drop)]
pub struct Pairing<T, A: Allocator = Global> {
    /// The messages that wait, the one under the least stream id first.
    waiting: VecDeque<MessageRecord<T>, A>,
}

/// What becomes of the next message.
#[derive(Clone, Copy)]
pub(crate) enum Fate {
    /// It is an event, which is reported at once.
    IsReported,
    /// It and the one that waits under its stream id are a request and its response.
    Meets,
    /// It waits, in the place of the one under its stream id, if one does.
    Waits,
    /// It is reported alone, since none waits under its stream id and there is no room.
    IsOvertaken,
}

impl<T, A: Allocator> Model for Pairing<T, A> {
    ghost use Rattle.std.specs.Map.{keys_of};
    ghost use Rattle.std.specs.List.Sorted.{IsStrictlySortedBy};
    ghost use Rattle.std.specs.Ordering.{int_cmp};
    ghost use Rattle.cqlp_observer.specs.Pairings.{Waiting, by_id};

    ghost Value = { Waiting T };

    ghost view = { λ p. by_id p.waiting.items };

    ghost invariant = { λ p. IsStrictlySortedBy int_cmp (keys_of (by_id p.waiting.items)) };
}

impl<T: Drop, A: Allocator + Clone> Pairing<T, A> {
    ghost use Rattle.std.specs.Prelude.{Bool, None, Ok, ℤ};
    ghost use Rattle.cqlp_observer.specs.Messages.{id_of};
    ghost use Rattle.cqlp_observer.specs.Pairings.{IsPlaced, ended, none_wait, overtakes, paired, taken, taken_after, under, without};

    /// No message waits. Takes no memory.
    ///
    /// # Errors
    ///
    /// None: callers need not know that.
    pub fn new(alloc: A) -> Result<Self, AllocError>
        ensures { IfOk result (λ p. p ≡ none_wait) }
    {
        Ok(Pairing {
            waiting: VecDeque::new(alloc),
        })
    }

    /// How many messages wait.
    #[inline(always)]
    pub fn len(&self) -> usize
        ensures is { result ≡ length self.now }
        ensures ordered { IsStrictlySortedBy int_cmp (keys_of self.now) }
    {
        self.waiting.len()
    }

    /// Whether none waits.
    pub fn is_empty(&self) -> bool
        ensures { result ≡ (length self.now == 0) }
    {
        self.waiting.len() == 0
    }

    /// Where the message under a stream id waits, or where it would.
    #[inline(always)]
    pub(crate) fn place(&self, id: i16) -> Result<usize, usize>
        ensures { IsPlaced id self.now result }
    {
        place_in(&self.waiting, id)
    }

    /// The message that waits under the stream id of a place.
    #[inline(always)]
    pub(crate) fn at(&self, place: Result<usize, usize>) -> Option<&MessageRecord<T>>
        ensures { (id : ℤ) → IsPlaced id self.now place → option_copied result ≡ under id self.now }
    {
        match place {
            Ok(at) => self.waiting.get(at),
            Err(_) => None,
        }
    }

    /// Whether `take` reports this message alone for want of room: none waits under its stream id, and there is no room for one more.
    pub fn overtakes(&self, message: &Message<T>, has_room: bool) -> bool
        ensures { result ≡ overtakes message.now has_room self.now }
    {
        let place = self.place(message.stream());
        is_overtaken(fate_of(self.at(place), message, has_room))
    }

    /// Takes the next frame of either direction. If it and the one that waits under its stream id are a request and its response, that
    /// exchange is reported.
    ///
    /// Else it takes the place of that one, and what is reported is that the other of its exchange was not seen. Where none waits under its id, and there
    /// is no room for one more, it is itself reported alone.
    ///
    /// # Errors
    ///
    /// Memory that is refused: then the message is lost, and no other waits under its id.
    pub fn take(
        &mut self,
        message: Message<T>,
        has_room: bool,
    ) -> Result<Option<Paired<T>>, AllocError>
        ensures { IfOk result (λ reported. paired reported self.new ≡ taken message has_room self.old) }
    {
        let place = self.place(message.stream());
        let mut reported = None;
        self.take_at(place, message, has_room, &mut reported)?;
        Ok(reported)
    }

    /// Takes the next frame as `take` does, whose place is known. What is reported is written where nothing is yet: it is large, and is moved as
    /// seldom as can be.
    #[inline(always)]
    pub(crate) fn take_at(
        &mut self,
        place: Result<usize, usize>,
        message: Message<T>,
        has_room: bool,
        reported: &mut Option<Paired<T>>,
    ) -> Result<(), AllocError>
        requires placed { IsPlaced (id_of message) self.old place }
        requires none { reported.old ≡ None }
        ensures { IfOk result (λ _. paired reported.new self.new ≡ taken message has_room self.old) }
    {
        if message.is_event() {
            *reported = Some(Paired::Event { event: message });
            return Ok(());
        }
        match place {
            Ok(at) => {
                self.meet(at, message, reported);
                Ok(())
            }
            Err(at) if has_room => {
                self.waiting.insert(at, MessageRecord::new(message))?;
                Ok(())
            }
            Err(_) => {
                report_alone(message, reported);
                Ok(())
            }
        }
    }

    /// Where no more frames come: the message under the least stream id, which waits no more. `None` once none waits.
    pub fn end(&mut self) -> Option<Paired<T>>
        ensures { paired result self.new ≡ ended self.old }
    {
        match self.waiting.pop_front() {
            Some(message) => Some(Paired::alone(message.into_message())),
            None => None,
        }
    }

    /// A message comes after the one at a place, which waited under its stream id.
    #[inline(always)]
    fn meet(&mut self, at: usize, second: Message<T>, reported: &mut Option<Paired<T>>)
        requires { IsPlaced (id_of second) self.old (Ok at) }
        ensures { (has_room : Bool) → paired reported.new self.new
            ≡ taken_after (under (id_of second) self.old) second has_room (without (id_of second) self.old) }
    {
        if self.waiting[at].meets(&second) {
            let Some(first) = self.waiting.remove(at) else {
                return;
            };
            self.shrink();
            report_exchange(first.into_message(), second, reported);
        } else {
            let first = std::mem::replace(&mut self.waiting[at], MessageRecord::new(second));
            report_alone(first.into_message(), reported);
        }
    }

    /// Gives memory back, where no more than a quarter of it is needed.
    fn shrink(&mut self)
        ensures { self.new ≡ self.old }
    {
        let len = self.waiting.len();
        if len <= self.waiting.capacity() / 4 {
            self.waiting.shrink_to(2 * len);
        }
    }
}

/// Reports a message that is in no exchange.
#[inline(always)]
fn report_alone<T: Drop>(message: Message<T>, reported: &mut Option<Paired<T>>)
    ensures { reported.new ≡ Some (alone message) }
{
    *reported = Some(Paired::alone(message));
}

/// Reports a request and its response, whichever came first.
#[inline(always)]
fn report_exchange<T: Drop>(first: Message<T>, second: Message<T>, reported: &mut Option<Paired<T>>)
    ensures { reported.new ≡ Some (exchange first second) }
{
    if first.is_request() {
        *reported = Some(Paired::Exchange {
            request: first,
            response: second,
        });
    } else {
        *reported = Some(Paired::Exchange {
            request: second,
            response: first,
        });
    }
}

/// Where the message under a stream id waits, or where it would.
#[inline(always)]
fn place_in<T, A: Allocator>(
    waiting: &VecDeque<MessageRecord<T>, A>,
    id: i16,
) -> Result<usize, usize>
    requires { IsStrictlySortedBy int_cmp (keys_of (by_id waiting.now.items)) }
    ensures found { IfOk result (IsPlace id waiting.now.items) }
    ensures none { IfErr result (IsGap id waiting.now.items) }
{
    waiting.binary_search_by_key(&id, |message| message.stream())
}

/// What becomes of a message after the one that waits under its stream id, if one does, where there is room for one more that waits, or none.
#[inline(always)]
pub(crate) fn fate_of<T>(
    first: Option<&MessageRecord<T>>,
    message: &Message<T>,
    has_room: bool,
) -> Fate
    ensures { result ≡ fate_of (option_copied first.entry) message.now has_room }
{
    if message.is_event() {
        return Fate::IsReported;
    }
    match first {
        Some(first) => fate_after(first, message),
        None => fate_alone(has_room),
    }
}

/// What becomes of a message after one that waits under its stream id.
#[inline(always)]
fn fate_after<T>(first: &MessageRecord<T>, second: &Message<T>) -> Fate
    ensures { result ≡ fate_after first.now second.now }
{
    if first.meets(second) {
        Fate::Meets
    } else {
        Fate::Waits
    }
}

/// What becomes of a message under whose stream id none waits.
#[inline(always)]
fn fate_alone(has_room: bool) -> Fate
    ensures { result ≡ fate_alone has_room }
{
    if has_room {
        Fate::Waits
    } else {
        Fate::IsOvertaken
    }
}

/// Whether a message is reported alone for want of room.
fn is_overtaken(fate: Fate) -> bool
    ensures { result ≡ is_overtaken fate }
{
    match fate {
        Fate::IsOvertaken => true,
        Fate::IsReported | Fate::Meets | Fate::Waits => false,
    }
}
