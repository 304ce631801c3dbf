//! Plain cells of pages: scalars, nulls and empty values, each of which is one event.

ghost use Rattle.std.specs.Prelude.{◌≡◌, ◌+◌, ◌*◌, ◌/◌, ◌%◌, ◌^◌, ◌<◌, ◌++◌, ◌∷◌, [], IsTrue, drop, length, map, true};
ghost use Rattle.std.specs.Prelude.{vec_capacity, vec_len};
ghost use Rattle.cqlp_kind.specs.Contents.{value_of};
ghost use Rattle.cqlp_kind.specs.Scalars.{Varchar};
ghost use Rattle.cqlp_kind.specs.declared.kind.Kind.TheVariants as kind;
ghost use Rattle.cqlp_type.specs.declared.tree.TypeTree.{Plain};
ghost use Rattle.cqlp_value.specs.declared.value.Value.{Value};
ghost use Rattle.cqlp_message.specs.Bodies.{cell_types, column_types};
ghost use Rattle.cqlp_message.specs.Owned.{metadata_of, spec_of};
ghost use Rattle.cqlp_build.specs.CellSizes.{IsSizeOf};
ghost use Rattle.cqlp_build.specs.Plain as plain;
ghost use Rattle.cqlp_build.specs.Plain.{cell_item, kind_types};
ghost use Rattle.cqlp_build.specs.Putting.{PutsScalar};

use crate::item::Item;
use cqlp_build_cells::{Step, own_scalar};
use cqlp_kind::{Kind, Scalar};
use cqlp_message::{Metadata, Spec};
use cqlp_type::TypeTree;
use cqlp_value::{Atom, Value, value_size};
use std::alloc::{AllocError, Global};
use std::collections::VecDeque;
use std::mem;

/// Whether the cell of this row and column is the next of a run of these cells, of which so many were taken, and after which these events came.
#[inline(always)]
pub(crate) fn is_next(
    row: u32,
    column: u32,
    last: u32,
    cells: &Vec<Value>,
    taken: usize,
    tail: &VecDeque<Item>,
) -> bool
    ensures { IsTrue result → (taken ≡ 0) × (tail.now.items ≡ []) × (length cells.now.items / (last + 1) % 2 ^ 32 ≡ row)
        × (length cells.now.items % (last + 1) ≡ column) }
{
    taken == 0 && tail.is_empty() && is_place(row, column, last, cells.len())
}

/// Whether a row and a column are the place of the cell of this number, where the cells lie row by row and the last column of each has this
/// number.
#[inline(always)]
fn is_place(row: u32, column: u32, last: u32, at: usize) -> bool
    ensures { IsTrue result → (at / (last + 1) % 2 ^ 32 ≡ row) × (at % (last + 1) ≡ column) }
{
    column <= last && u64::from(row) * (u64::from(last) + 1) + u64::from(column) == at as u64
}

/// Whether these cells, of which so many were taken, are a cell of each column of each of these rows, and the columns are of these kinds.
pub(crate) fn is_page(
    rows: u32,
    meta: &Metadata,
    last: u32,
    cells: &Vec<Value>,
    taken: usize,
    kinds: &Vec<Kind>,
) -> bool
    ensures { IsTrue result → (taken ≡ 0) × (last + 1 ≡ meta.now.columns) × (length cells.now.items ≡ rows * meta.now.columns)
        × (cell_types (metadata_of meta.now) ≡ kind_types kinds.now.items 0 meta.now.columns) }
{
    taken == 0
        && u64::from(last) + 1 == u64::from(meta.columns)
        && u64::from(rows) * u64::from(meta.columns) == cells.len() as u64
        && are_kinds(kinds, meta)
}

/// Whether the columns are of these kinds.
fn are_kinds(kinds: &Vec<Kind>, meta: &Metadata) -> bool
    ensures { IsTrue result → cell_types (metadata_of meta.now) ≡ kind_types kinds.now.items 0 meta.now.columns }
{
    match &meta.specs {
        Some(specs) => specs.len() == meta.columns as usize && are_kinds_of(kinds, specs),
        None => kinds.is_empty(),
    }
}

/// Whether the columns that are described are of these kinds.
fn are_kinds_of(kinds: &Vec<Kind>, specs: &[Spec]) -> bool
    ensures { IsTrue result → column_types (map spec_of specs.now) ≡ kind_types kinds.now.items 0 (length specs.now) }
{
    for (column, spec) in specs.iter().enumerate() {
        if !is_type(&spec.tree, kind_in(kinds, column)) {
            return false;
        }
    }
    true
}

/// Whether a type is of this kind, and has no others in it.
fn is_type(tree: &TypeTree, kind: Kind) -> bool
    ensures { IsTrue result → tree.now ≡ Plain kind }
{
    match tree {
        TypeTree::Plain(of) => *of == kind,
        _ => false,
    }
}

/// The kind of a column, which is raw where none is known.
#[inline(always)]
fn kind_in(kinds: &Vec<Kind>, column: usize) -> Kind
    ensures { result ≡ plain.kind_at kinds.now.items column }
{
    match kinds.get(column) {
        Some(kind) => *kind,
        None => Kind::Raw,
    }
}

/// The same.
#[inline(always)]
pub(crate) fn kind_at(kinds: &Vec<Kind>, column: u32) -> Kind
    ensures { result ≡ plain.kind_at kinds.now.items column }
{
    kind_in(kinds, column as usize)
}

/// Whether a value is a plain one of this kind.
#[inline(always)]
pub(crate) fn is_of_kind(value: &Value, kind: Kind) -> bool
    ensures { IsTrue result → plain.is_of_kind kind value.now ≡ true }
{
    match value {
        Value::Leaf(atom) => atom.kind() == kind && atom.is_allowed(),
        Value::Null => true,
        Value::Empty => true,
        _ => false,
    }
}

/// Adds a scalar behind the cells, and its bytes to their size, if it is one of this kind and they have room for it, and says whether it did so. The
/// most common kinds have arms of their own.
#[inline(always)]
pub(crate) fn put_scalar(
    alloc: Global,
    cells: &mut Vec<Value>,
    size: &mut u64,
    kind: Kind,
    scalar: &Scalar<'_>,
) -> Result<bool, AllocError>
    ensures put { PutsScalar kind (value_of scalar.now) result cells.old.items cells.new.items }
    ensures sized { IsSizeOf size.old cells.old.items → IsSizeOf size.new cells.new.items }
{
    // Each asks for room right before it adds, so that the compiler leaves out what a push does without room, and writes the value in its place.
    match *scalar {
        Scalar::Int(number) if is(kind, Kind::Int) && has_room(cells) => {
            put(cells, size, Value::Leaf(Atom::Int(number)));
            Ok(true)
        }
        Scalar::Bigint(number) if is(kind, Kind::Bigint) && has_room(cells) => {
            put(cells, size, Value::Leaf(Atom::Bigint(number)));
            Ok(true)
        }
        Scalar::Boolean(value) if is(kind, Kind::Boolean) && has_room(cells) => {
            put(cells, size, Value::Leaf(Atom::Boolean(value)));
            Ok(true)
        }
        Scalar::Varchar(text) if is(kind, Kind::Varchar) && has_room(cells) => {
            put_text(alloc, cells, size, text)
        }
        _ => put_any_scalar(alloc, cells, size, kind, scalar),
    }
}

/// Adds a text behind the cells, for which they have room, as a varchar, and its bytes to their size, if it is not empty, and says whether it did so.
#[inline(always)]
fn put_text(
    alloc: Global,
    cells: &mut Vec<Value>,
    size: &mut u64,
    text: &str,
) -> Result<bool, AllocError>
    requires { vec_len cells.old < vec_capacity cells.old }
    ensures put { PutsScalar kind.Varchar (Varchar text.now) result cells.old.items cells.new.items }
    ensures sized { IsSizeOf size.old cells.old.items → IsSizeOf size.new cells.new.items }
{
    if text.is_empty() {
        return Ok(false);
    }
    let text = String::from_str(alloc, text)?;
    put(cells, size, Value::Leaf(Atom::Varchar(text)));
    Ok(true)
}

/// Adds a scalar of any kind behind the cells, and its bytes to their size, if it is one of this kind and they have room for it, and says whether it
/// did so.
#[cold]
#[inline(never)]
fn put_any_scalar(
    alloc: Global,
    cells: &mut Vec<Value>,
    size: &mut u64,
    kind: Kind,
    scalar: &Scalar<'_>,
) -> Result<bool, AllocError>
    ensures put { PutsScalar kind (value_of scalar.now) result cells.old.items cells.new.items }
    ensures sized { IsSizeOf size.old cells.old.items → IsSizeOf size.new cells.new.items }
{
    if !has_room(cells) {
        return Ok(false);
    }
    let cell = Value::Leaf(own_scalar(alloc, scalar)?);
    if !is_of_kind(&cell, kind) {
        return Ok(false);
    }
    put(cells, size, cell);
    Ok(true)
}

/// Adds a cell behind the others, which have room for it, and its bytes to their size.
#[inline(always)]
pub(crate) fn put(cells: &mut Vec<Value>, size: &mut u64, cell: Value)
    requires { vec_len cells.old < vec_capacity cells.old }
    ensures is { cells.new.items ≡ cells.old.items ++ cell ∷ [] }
    ensures sized { IsSizeOf size.old cells.old.items → IsSizeOf size.new cells.new.items }
{
    *size = size.saturating_add(value_size(&cell));
    cells.push_reserved(cell);
}

/// Whether they have room for one more.
#[inline(always)]
fn has_room(cells: &Vec<Value>) -> bool
    ensures { IsTrue result → vec_len cells.now < vec_capacity cells.now }
{
    cells.len() < cells.capacity()
}

/// Whether a kind is this one.
#[inline(always)]
fn is(kind: Kind, this: Kind) -> bool
    ensures { IsTrue result → kind ≡ this }
{
    kind == this
}

/// Takes the cell of this number, as the event that it is.
pub(crate) fn take_cell(cells: &mut Vec<Value>, at: usize, last: u32) -> Item
    requires { at < length cells.old.items }
    ensures { (v : Value) × (drop at cells.old.items ≡ v ∷ drop (at + 1) cells.new.items) × (result ≡ cell_item last at v) }
{
    let value = mem::replace(&mut cells[at], Value::Null);
    let columns = u64::from(last) + 1;
    Item::Cell {
        row: (at as u64 / columns % (1 << 32)) as u32,
        column: (at as u64 % columns) as u32,
        level: 0,
        step: step_of(value),
    }
}

/// The event that a plain cell is.
pub(crate) fn step_of(value: Value) -> Step
    ensures { result ≡ plain.step_of value }
{
    match value {
        Value::Leaf(atom) => Step::Leaf(atom),
        Value::Null => Step::Null,
        Value::Empty => Step::Empty,
        Value::List(_) => Step::Empty,
        Value::Map(_) => Step::Empty,
        Value::Set(_) => Step::Empty,
        Value::Tuple(_) => Step::Empty,
        Value::Udt(_) => Step::Empty,
    }
}
