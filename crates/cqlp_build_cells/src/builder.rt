//! Cells, built of their events.

ghost use Rattle.std.specs.Prelude.{◌≡◌, Some, false, length, option_map, true};
ghost use Rattle.cqlp_grammar.specs.Events.{event_of};
ghost use Rattle.cqlp_kind.specs.Contents.{value_of};
ghost use Rattle.cqlp_type.specs.Trees.{types_in};
ghost use Rattle.cqlp_type.specs.TypeTrees.{tree_of};
ghost use Rattle.cqlp_value.specs.Owned.{cell_type};
ghost use Rattle.cqlp_build_cells.specs.Building as model;
ghost use Rattle.cqlp_build_cells.specs.Building.{Finishes, FinishesAs, TakesEvent, empty, is_whole, state};
ghost use Rattle.cqlp_build_cells.specs.CellEvents.{left};
ghost use Rattle.cqlp_build_cells.specs.Said.{IsReadable};

use crate::error::CellError;
use crate::held::{CellEvents, Fault};
use crate::step::{own, scalar_size};
use cqlp_grammar::Event;
use cqlp_kind::Kind;
use cqlp_type::{TypeTree, check_type};
use cqlp_value::Value;
use std::alloc::Global;

/// What a builder may hold of one cell.
#[derive(Clone, Copy, Debug, PartialEq, Eq)]
pub struct CellLimits {
    /// How many events.
    pub events: u32,
    /// How many bytes of texts, blobs and other scalars that have no length of their own.
    pub bytes: u32,
}

/// Builds the values of cells of their events, one cell after the other. Section 6 of `native_protocol_v4.spec`.
///
/// It takes what a decoder says of one cell, in that order, and owns what it holds: for each event as much as an event has, and the
/// bytes of its scalar. So no count that a peer sends decides how much memory it asks for, and the limits bound it. A page of any
/// size is altered cell by cell:
///
/// ```text
/// cells.take(&event)?;
/// if ends_cell(&event) {
///     let value = cells.finish(Some(&columns[column].tree))?;
///     writer.cell(&value)?;
/// }
/// ```
///
/// What it does not build are scalars in parts, which come where the limits of the decoder ask for parts.
#[derive(Drop)]
pub struct CellBuilder {
    held: CellEvents,
    /// The row and the column of the cell under way.
    place: Option<(u32, u32)>,
    limits: CellLimits,
    /// How many bytes of contents may still come.
    room: usize,
}

impl CellBuilder {
    /// A builder between cells, which asks for no memory yet.
    #[must_use]
    pub fn new(alloc: Global, limits: CellLimits) -> CellBuilder
        ensures { state result ≡ empty limits }
    {
        CellBuilder {
            held: CellEvents::new(alloc),
            place: None,
            limits,
            room: limits.bytes as usize,
        }
    }

    /// Takes the next event of the cell under way, or the first one of a cell.
    ///
    /// # Errors
    ///
    /// [`CellError::Misplaced`] at an event that is none of a cell, or of another row or column than the cell under way, and between
    /// cells at the end of a value. [`CellError::InParts`] at a part of a scalar. [`CellError::TooManyEvents`] where as many events as
    /// the limits allow are held; else [`CellError::TooManyBytes`] where the scalar has more bytes than are left of the limit.
    /// [`CellError::NoMemory`] where memory was refused. After each of these the builder is as it was.
    pub fn take(&mut self, event: &Event<'_>) -> Result<(), CellError>
        ensures { TakesEvent (state self.old) (event_of event.now) result (state self.new) }
    {
        if !self.is_of(event) {
            return Err(CellError::Misplaced);
        }
        if is_part(event) {
            return Err(CellError::InParts);
        }
        self.hold(event)
    }

    /// The value of this type whose events were taken, or of a cell without a type. It is between cells then.
    ///
    /// # Errors
    ///
    /// [`CellError::Unformed`] where [`check_type`] says that the type is not formed, whatever the events are. Else
    /// [`CellError::NoValue`] where the events are those of no value of the type, so where the cell has not ended, and
    /// [`CellError::NoMemory`] where memory was refused.
    pub fn finish(&mut self, of: Option<&TypeTree>) -> Result<Value, CellError>
        ensures is { Finishes (state self.old).events (option_map (λ t. t.now) of.entry) result }
        ensures new { state self.new ≡ empty self.old.limits }
    {
        let value = self.build(of);
        self.clear();
        value
    }

    /// Forgets what it holds of a cell, and is between cells. The room that it has asked for is kept.
    pub fn clear(&mut self)
        ensures { state self.new ≡ empty self.old.limits }
    {
        self.held.items.clear();
        self.place = None;
        self.room = self.limits.bytes as usize;
    }

    /// Whether an event is of the cell under way, or the first of a cell.
    fn is_of(&self, event: &Event<'_>) -> bool
        ensures { result ≡ model.is_of self.now.place (event_of event.now) }
    {
        match (self.place, event) {
            (Some(_), Event::Leave { .. }) => true,
            (None, _) => place_of(event).is_some(),
            (Some(place), _) => match place_of(event) {
                Some(other) => other.0 == place.0 && other.1 == place.1,
                None => false,
            },
        }
    }

    /// An event comes that is of the cell.
    fn hold(&mut self, event: &Event<'_>) -> Result<(), CellError>
        requires of { model.is_of self.old.place (event_of event.now) ≡ true }
        requires whole { model.is_part (event_of event.now) ≡ false }
        ensures { TakesEvent (state self.old) (event_of event.now) result (state self.new) }
    {
        if self.place.is_none() {
            self.held.items.clear();
        }
        if self.held.items.len() >= self.limits.events as usize {
            return Err(CellError::TooManyEvents);
        }
        let size = content_size(event);
        if size > self.room {
            return Err(CellError::TooManyBytes);
        }
        let Ok(step) = own(self.held.alloc, event) else {
            return Err(CellError::NoMemory);
        };
        if self.held.items.push_back(step).is_err() {
            return Err(CellError::NoMemory);
        }
        if let Some(place) = place_of(event) {
            self.place = Some(place);
        }
        self.room -= size;
        Ok(())
    }

    /// The value of this type whose events were taken.
    fn build(&mut self, of: Option<&TypeTree>) -> Result<Value, CellError>
        ensures is { Finishes (state self.old).events (option_map (λ t. t.now) of.entry) result }
        ensures limits { self.new.limits ≡ self.old.limits }
    {
        if self.place.is_none() {
            self.held.items.clear();
        }
        match of {
            None => self.held.whole(&TypeTree::Plain(Kind::Raw)),
            Some(tree) => {
                if check_type(tree).formed {
                    self.held.whole(tree)
                } else {
                    Err(CellError::Unformed)
                }
            }
        }
    }
}

impl CellEvents {
    /// The value of this type whose events are those that are held, or of a cell without a type where that is a plain `Raw`.
    ///
    /// # Errors
    ///
    /// [`CellError::NoValue`] where the events are those of no value of the type, and [`CellError::NoMemory`] where memory was refused.
    pub fn whole(&mut self, tree: &TypeTree) -> Result<Value, CellError>
        requires { IsReadable tree.now }
        ensures { FinishesAs (left self.old) (types_in (tree_of tree.now)) result }
    {
        self.fault = None;
        let value = self.value(0, tree);
        let over = self.is_over();
        self.check(over);
        match self.fault {
            None => Ok(value),
            Some(why) => Err(refusal(why)),
        }
    }
}

/// Why there is no value.
fn refusal(why: Fault) -> CellError
    ensures { result ≡ model.refusal_of why }
{
    match why {
        Fault::NoValue => CellError::NoValue,
        Fault::NoMemory => CellError::NoMemory,
    }
}

/// Whether nothing of its cell comes after an event: a value at level 0, or the end of one; not the beginning of one with items.
#[must_use]
pub fn ends_cell(event: &Event<'_>) -> bool
    ensures { result ≡ model.ends_cell (event_of event.now) }
{
    match *event {
        Event::Leaf { level, .. }
        | Event::Null { level, .. }
        | Event::Empty { level, .. }
        | Event::Leave { level, .. } => level == 0,
        Event::Part { level, last, .. } => level == 0 && last,
        _ => false,
    }
}

/// The row and the column that an event names.
fn place_of(event: &Event<'_>) -> Option<(u32, u32)>
    ensures { result ≡ model.place_of (event_of event.now) }
{
    match *event {
        Event::Leaf { row, column, .. }
        | Event::Null { row, column, .. }
        | Event::Empty { row, column, .. }
        | Event::Enter { row, column, .. }
        | Event::Part { row, column, .. } => Some((row, column)),
        _ => None,
    }
}

/// Whether it is a part of a scalar.
fn is_part(event: &Event<'_>) -> bool
    ensures { result ≡ model.is_part (event_of event.now) }
{
    matches!(event, Event::Part { .. })
}

/// How many bytes of an event the limit counts.
fn content_size(event: &Event<'_>) -> usize
    ensures { result ≡ model.content_size (event_of event.now) }
{
    match event {
        Event::Leaf { scalar, .. } => scalar_size(scalar),
        _ => 0,
    }
}
