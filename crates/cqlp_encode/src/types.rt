//! Type options, written.

ghost use Rattle.std.specs.Prelude.{[], ◌++◌, string_bytes};
ghost use Rattle.std.specs.List.{flat_map};
ghost use Rattle.cqlp_note.specs.declared.field.Notation.TheVariants as notation;
ghost use Rattle.cqlp_note.specs.Field as note;
ghost use Rattle.cqlp_note.specs.Spelling.{field_bytes};
ghost use Rattle.cqlp_kind.specs.TypeStep.{IsNode};
ghost use Rattle.cqlp_type.specs.Trees.{item_bytes, tree_bytes};
ghost use Rattle.cqlp_type.specs.TypeTrees.{tree_of};
ghost use Rattle.cqlp_encode.specs.Progress.{Puts};

use crate::staged::Staged;
use cqlp_note::Target;
use cqlp_type::{Kind, TypeTree};

/// Takes a type's option.
#[cycle(put_tree)]
pub fn put_tree<W: Target>(out: &mut Staged<'_, W>, tree: &TypeTree)
    ensures { Puts out.old (tree_bytes (tree_of tree.now)) out.new }
{
    match tree {
        TypeTree::Plain(kind) => out.put_kind(*kind),
        TypeTree::Custom(class) => {
            out.put_kind(Kind::Custom);
            out.put_text(class);
        }
        TypeTree::List(inner) => {
            out.put_kind(Kind::List);
            put_tree(out, inner);
        }
        TypeTree::Set(inner) => {
            out.put_kind(Kind::Set);
            put_tree(out, inner);
        }
        TypeTree::Map(key, value) => {
            out.put_kind(Kind::Map);
            put_tree(out, key);
            put_tree(out, value);
        }
        TypeTree::Udt {
            keyspace,
            name,
            fields,
        } => {
            out.put_kind(Kind::Udt);
            out.put_text(keyspace);
            out.put_text(name);
            out.put_count16(fields.len());
            put_fields(out, fields);
        }
        TypeTree::Tuple(types) => {
            out.put_kind(Kind::Tuple);
            out.put_count16(types.len());
            put_types(out, types);
        }
    }
}

/// Takes the options of inner types without names.
#[cycle(put_tree)]
fn put_types<W: Target>(out: &mut Staged<'_, W>, types: &[TypeTree])
    ensures { Puts out.old (flat_map (λ t. tree_bytes (tree_of t)) types.now) out.new }
{
    for tree in types {
        put_tree(out, tree);
    }
}

/// Takes the options of inner types, each after its name.
#[cycle(put_tree)]
fn put_fields<W: Target>(out: &mut Staged<'_, W>, fields: &[(String, TypeTree)])
    ensures { Puts out.old
        (flat_map (λ x. field_bytes notation.Text16 (note.Text (string_bytes x.0)) ++ tree_bytes (tree_of x.1)) fields.now)
        out.new }
{
    for (name, tree) in fields {
        out.put_text(name);
        put_tree(out, tree);
    }
}

impl<'a, W: Target> Staged<'a, W> {
    /// Takes an option's id; 0 of the kind that has none.
    fn put_kind(&mut self, kind: Kind)
        ensures { Puts self.old (item_bytes (IsNode kind)) self.new }
    {
        let id = match kind {
            Kind::Raw => 0,
            _ => kind.id(),
        };
        self.put_short(id);
    }

    /// Takes a \[string\].
    pub fn put_text(&mut self, text: &str)
        ensures { Puts self.old (field_bytes notation.Text16 (note.Text text.now)) self.new }
    {
        self.put_short_content(text.as_bytes());
    }
}
