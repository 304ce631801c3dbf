//! Type options, written into memory.

ghost use Rattle.std.specs.Prelude.{◌++◌, string_bytes};
ghost use Rattle.std.specs.Int.{w16, to_be_bytes};
ghost use Rattle.std.specs.List.{flat_map};
ghost use Rattle.cqlp_note.specs.declared.field.Notation.TheVariants as notation;
ghost use Rattle.cqlp_note.specs.Field as note;
ghost use Rattle.cqlp_note.specs.Spelling.{field_bytes};
ghost use Rattle.cqlp_kind.specs.TypeStep.{IsNode};
ghost use Rattle.cqlp_type.specs.Trees.{item_bytes, tree_bytes};
ghost use Rattle.cqlp_type.specs.TypeTrees.{tree_of};
ghost use Rattle.cqlp_type_tables.specs.Writing.{Appends};

use cqlp_note::NoMemory;
use cqlp_type::{Kind, TypeTree};
use std::alloc::Allocator;

/// Appends a type's option.
#[cycle(put_tree)]
pub(crate) fn put_tree<A: Allocator>(out: &mut Vec<u8, A>, tree: &TypeTree) -> Result<(), NoMemory>
    ensures { Appends out.old.items (tree_bytes (tree_of tree.now)) result out.new.items }
{
    match tree {
        TypeTree::Plain(kind) => put_kind(out, *kind),
        TypeTree::Custom(class) => {
            put_kind(out, Kind::Custom)?;
            put_text(out, class)
        }
        TypeTree::List(inner) => {
            put_kind(out, Kind::List)?;
            put_tree(out, inner)
        }
        TypeTree::Set(inner) => {
            put_kind(out, Kind::Set)?;
            put_tree(out, inner)
        }
        TypeTree::Map(key, value) => {
            put_kind(out, Kind::Map)?;
            put_tree(out, key)?;
            put_tree(out, value)
        }
        TypeTree::Udt {
            keyspace,
            name,
            fields,
        } => {
            put_kind(out, Kind::Udt)?;
            put_text(out, keyspace)?;
            put_text(out, name)?;
            put_count(out, fields.len())?;
            put_fields(out, fields)
        }
        TypeTree::Tuple(types) => {
            put_kind(out, Kind::Tuple)?;
            put_count(out, types.len())?;
            put_types(out, types)
        }
    }
}

/// Appends the options of inner types without names.
#[cycle(put_tree)]
fn put_types<A: Allocator>(out: &mut Vec<u8, A>, types: &[TypeTree]) -> Result<(), NoMemory>
    ensures { Appends out.old.items (flat_map (λ t. tree_bytes (tree_of t)) types.now) result out.new.items }
{
    for tree in types {
        put_tree(out, tree)?;
    }
    Ok(())
}

/// Appends the options of inner types, each after its name.
#[cycle(put_tree)]
fn put_fields<A: Allocator>(
    out: &mut Vec<u8, A>,
    fields: &[(String, TypeTree)],
) -> Result<(), NoMemory>
    ensures { Appends out.old.items
        (flat_map (λ x. field_bytes notation.Text16 (note.Text (string_bytes x.0)) ++ tree_bytes (tree_of x.1)) fields.now)
        result out.new.items }
{
    for (name, tree) in fields {
        put_text(out, name)?;
        put_tree(out, tree)?;
    }
    Ok(())
}

/// Appends an option's id; 0 of the kind that has none.
fn put_kind<A: Allocator>(out: &mut Vec<u8, A>, kind: Kind) -> Result<(), NoMemory>
    ensures { Appends out.old.items (item_bytes (IsNode kind)) result out.new.items }
{
    let id = match kind {
        Kind::Raw => 0,
        _ => kind.id(),
    };
    put_count(out, id as usize)
}

/// Appends a \[string\].
fn put_text<A: Allocator>(out: &mut Vec<u8, A>, text: &str) -> Result<(), NoMemory>
    ensures { Appends out.old.items (field_bytes notation.Text16 (note.Text text.now)) result out.new.items }
{
    put_count(out, text.len())?;
    out.extend_from_slice(text.as_bytes())?;
    Ok(())
}

/// Appends a number of two bytes, the lowest two of this.
fn put_count<A: Allocator>(out: &mut Vec<u8, A>, count: usize) -> Result<(), NoMemory>
    ensures { Appends out.old.items (to_be_bytes w16 count) result out.new.items }
{
    let bytes = count.to_be_bytes();
    out.extend_from_slice(&bytes[6..])?;
    Ok(())
}
