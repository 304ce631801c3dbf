//! Events of cells that are held.

ghost use Rattle.std.specs.Prelude.{◌≡◌, IfOk, Some, true};
ghost use Rattle.cqlp_grammar.specs.Events.{event_of};
ghost use Rattle.cqlp_kind.specs.Contents.{value_of};
ghost use Rattle.cqlp_value.specs.Owned.{atom_of};
ghost use Rattle.cqlp_build_cells.specs.Building as model;
ghost use Rattle.cqlp_build_cells.specs.Building.{cell_of, is_whole};
ghost use Rattle.cqlp_build_cells.specs.CellEvents.{emitted_at, emitted_by};

use cqlp_grammar::Event;
use cqlp_kind::{Kind, Scalar};
use cqlp_value::Atom;
use std::alloc::{AllocError, Global};

/// An event of a value at its level, with bytes of its own.
#[derive(Drop)]
pub enum Step {
    Leaf(Atom),
    Null,
    Empty,
    /// A value with items begins: how many, or of how many types.
    Enter(Kind, u32),
    /// Such a value ends, after this many items.
    Leave(u32),
}

/// The same, with bytes of its own, at its level.
pub fn own(alloc: Global, event: &Event<'_>) -> Result<(u32, Step), AllocError>
    requires { is_whole (event_of event.now) ≡ true }
    ensures { IfOk result (λ s. cell_of (event_of event.now) ≡ Some (emitted_by s)) }
{
    Ok(match event {
        Event::Leaf { level, scalar, .. } => (*level, Step::Leaf(own_scalar(alloc, scalar)?)),
        Event::Null { level, .. } => (*level, Step::Null),
        Event::Empty { level, .. } => (*level, Step::Empty),
        Event::Enter {
            level,
            kind,
            items,
            ..
        } => (*level, Step::Enter(*kind, *items)),
        Event::Leave { level, items } => (*level, Step::Leave(*items)),
        _ => unreachable!(),
    })
}

/// The same scalar, with bytes of its own.
#[inline(always)]
pub fn own_scalar(alloc: Global, scalar: &Scalar<'_>) -> Result<Atom, AllocError>
    ensures { IfOk result (λ atom. atom_of atom ≡ value_of scalar.now) }
{
    let atom = match *scalar {
        Scalar::Custom(bytes) => Atom::Custom(Vec::from_slice(alloc, bytes)?),
        Scalar::Ascii(text) => Atom::Ascii(String::from_str(alloc, text)?),
        Scalar::Bigint(number) => Atom::Bigint(number),
        Scalar::Blob(bytes) => Atom::Blob(Vec::from_slice(alloc, bytes)?),
        Scalar::Boolean(value) => Atom::Boolean(value),
        Scalar::Counter(number) => Atom::Counter(number),
        Scalar::Decimal { scale, unscaled } => Atom::Decimal {
            scale,
            unscaled: Vec::from_slice(alloc, unscaled)?,
        },
        Scalar::Double(bytes) => Atom::Double(bytes),
        Scalar::Float(bytes) => Atom::Float(bytes),
        Scalar::Int(number) => Atom::Int(number),
        Scalar::Timestamp(number) => Atom::Timestamp(number),
        Scalar::Uuid(bytes) => Atom::Uuid(bytes),
        Scalar::Varchar(text) => Atom::Varchar(String::from_str(alloc, text)?),
        Scalar::Varint(bytes) => Atom::Varint(Vec::from_slice(alloc, bytes)?),
        Scalar::Timeuuid(bytes) => Atom::Timeuuid(bytes),
        Scalar::Inet(address) => Atom::Inet(address),
        Scalar::Date(days) => Atom::Date(days),
        Scalar::Time(number) => Atom::Time(number),
        Scalar::Smallint(number) => Atom::Smallint(number),
        Scalar::Tinyint(number) => Atom::Tinyint(number),
        Scalar::Raw(bytes) => Atom::Raw(Vec::from_slice(alloc, bytes)?),
    };
    Ok(atom)
}

/// How many bytes a scalar has that has no length of its own.
pub fn scalar_size(scalar: &Scalar<'_>) -> usize
    ensures { result ≡ model.scalar_size (value_of scalar.now) }
{
    match scalar {
        Scalar::Custom(bytes) | Scalar::Blob(bytes) | Scalar::Varint(bytes) | Scalar::Raw(bytes) =>
            { bytes.len() }
        Scalar::Ascii(text) | Scalar::Varchar(text) => text.len(),
        Scalar::Decimal { unscaled, .. } => unscaled.len(),
        _ => 0,
    }
}

/// Whether nothing of its cell comes after the event at this level: a value at level 0, or the end of one; not the beginning of one
/// with items.
#[must_use]
pub fn ends(level: u32, step: &Step) -> bool
    ensures { result ≡ model.ends (emitted_at level step.now) }
{
    match step {
        Step::Enter(_, _) => false,
        _ => level == 0,
    }
}
