//! How many bytes a type's option has.

ghost use Rattle.std.specs.Prelude.{◌≡◌, ◌+◌, ◌-◌, ◌^◌, false, length, min, string_bytes, true};
ghost use Rattle.cqlp_type.specs.TypeLists.{listed_fields, listed_types};
ghost use Rattle.cqlp_type.specs.TypeTrees.{tree_of, trees_size};

use crate::tree::TypeTree;

/// How many bytes a type's option has, if it has one; 2^64 - 1 where there are more.
#[cycle(type_size)]
pub fn type_size(tree: &TypeTree) -> u64
    ensures { result ≡ min (trees_size false (tree_of tree.now)) (2 ^ 64 - 1) }
{
    match tree {
        TypeTree::Plain(_) => 2,
        TypeTree::Custom(class) => text_size(class).saturating_add(2),
        TypeTree::List(inner) => type_size(inner).saturating_add(2),
        TypeTree::Set(inner) => type_size(inner).saturating_add(2),
        TypeTree::Map(key, value) => {
            type_size(key)
                .saturating_add(type_size(value))
                .saturating_add(2)
        }
        TypeTree::Udt {
            keyspace,
            name,
            fields,
        } => {
            let texts = text_size(keyspace).saturating_add(text_size(name));
            fields_size(fields).saturating_add(texts).saturating_add(4)
        }
        TypeTree::Tuple(types) => types_size(types).saturating_add(4),
    }
}

/// The same of inner types without names.
#[cycle(type_size)]
fn types_size(types: &[TypeTree]) -> u64
    ensures { result ≡ min (trees_size false (listed_types types.now)) (2 ^ 64 - 1) }
{
    let mut size: u64 = 0;
    for tree in types {
        size = size.saturating_add(type_size(tree));
    }
    size
}

/// The same of inner types with names.
#[cycle(type_size)]
fn fields_size(fields: &[(String, TypeTree)]) -> u64
    ensures { result ≡ min (trees_size true (listed_fields fields.now)) (2 ^ 64 - 1) }
{
    let mut size: u64 = 0;
    for (name, tree) in fields {
        size = size.saturating_add(text_size(name));
        size = size.saturating_add(type_size(tree));
    }
    size
}

/// How many bytes a text has, those of its length counted.
fn text_size(text: &String) -> u64
    ensures { result ≡ 2 + length (string_bytes text.now) }
{
    text.len() as u64 + 2
}
