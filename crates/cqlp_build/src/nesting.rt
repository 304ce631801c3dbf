//! How deep type options are nested.

ghost use Rattle.std.specs.Prelude.{◌≡◌, ◌+◌, ◌≤◌, ◌∷◌, OnOk, [], length};
ghost use Rattle.std.specs.VecDeque.{deque_capacity, deque_len};
ghost use Rattle.cqlp_grammar.specs.Events.{event_of};
ghost use Rattle.cqlp_build.specs.Nesting as nesting;
ghost use Rattle.cqlp_build.specs.Nesting.{after_event, counted, inner_due, one_begun, still_open};

use cqlp_grammar::Event;
use cqlp_kind::Kind;
use cqlp_note::Field;
use std::alloc::{AllocError, Global};
use std::collections::VecDeque;

/// The type options in which others are still to begin, and those around them.
#[derive(Drop)]
pub(crate) struct Nesting {
    /// How many inner options of each have not begun, the innermost first.
    pub left: VecDeque<u32>,
}

impl Nesting {
    /// None.
    pub fn new(alloc: Global) -> Nesting
        ensures { result.left.items ≡ [] }
    {
        Nesting {
            left: VecDeque::new(alloc),
        }
    }

    /// At what depth this event begins a type option, that of a column being at 1; 0 where it begins none.
    pub fn depth_at(&self, event: &Event<'_>) -> usize
        ensures { result ≡ nesting.depth_at (event_of event.now) self.now.left.items }
    {
        match event {
            Event::TypeNode(_) => self.left.len() + 1,
            _ => 0,
        }
    }

    /// Asks for room for one more.
    pub fn make_room(&mut self) -> Result<(), AllocError>
        ensures is { self.new.left.items ≡ self.old.left.items }
        ensures room { OnOk result (deque_len self.new.left + 1 ≤ deque_capacity self.new.left) }
    {
        self.left.reserve(1)
    }

    /// Goes on after an event, for which there is room.
    pub fn pass_event(&mut self, event: &Event<'_>)
        requires { deque_len self.old.left + 1 ≤ deque_capacity self.old.left }
        ensures { self.new.left.items ≡ after_event (event_of event.now) self.old.left.items }
    {
        match *event {
            Event::TypeNode(kind) => self.begin(kind),
            Event::Count {
                field: Field::Fields,
                count,
            } => self.count(count),
            _ => {}
        }
    }

    /// A type option of this kind begins.
    fn begin(&mut self, kind: Kind)
        requires { deque_len self.old.left + 1 ≤ deque_capacity self.old.left }
        ensures { self.new.left.items ≡ still_open (inner_due kind ∷ one_begun self.old.left.items) }
    {
        if let Some(left) = self.left.front_mut() {
            *left = left.saturating_sub(1);
        }
        self.left.push_front_reserved(due(kind));
        self.close();
    }

    /// The inner options of the innermost are this many.
    fn count(&mut self, count: u32)
        ensures { self.new.left.items ≡ counted count self.old.left.items }
    {
        if let Some(left) = self.left.front_mut() {
            *left = count;
            self.close();
        }
    }

    /// Lets go of the innermost that have none.
    fn close(&mut self)
        ensures { self.new.left.items ≡ still_open self.old.left.items }
    {
        'full: while let Some(0) = self.left.front() {
            self.left.pop_front();
        }
    }
}

/// How many inner options of a type option of this kind are to begin; where they are counted, one before their count comes.
fn due(kind: Kind) -> u32
    ensures { result ≡ inner_due kind }
{
    match kind {
        Kind::Udt | Kind::Tuple => 1,
        _ => u32::from(kind.arity()),
    }
}
