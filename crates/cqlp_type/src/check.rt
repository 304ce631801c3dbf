//! What keeps a type from having an option.

ghost use Rattle.std.specs.Prelude.{◌≡◌, ◌^◌, true, false, nat_lt};
ghost use Rattle.cqlp_type.specs.TreeChecks.{both, checks_of};
ghost use Rattle.cqlp_type.specs.TypeLists.{listed_fields, listed_types};
ghost use Rattle.cqlp_type.specs.TypeTrees.{tree_of};

use crate::tree::TypeTree;

/// Whether a type, with all types in it, can have an option: each of these where none of them is in the way.
#[derive(Clone, Copy, Debug, PartialEq, Eq)]
pub struct TreeCheck {
    /// Each `Plain` is of a kind that is plain.
    pub formed: bool,
    /// A \[short\] can count the fields of each type.
    pub counts: bool,
    /// A \[short\] can count the bytes of each text.
    pub texts: bool,
}

impl TreeCheck {
    /// Both.
    fn and(self, other: TreeCheck) -> TreeCheck
        ensures { result ≡ both self other }
    {
        TreeCheck {
            formed: self.formed && other.formed,
            counts: self.counts && other.counts,
            texts: self.texts && other.texts,
        }
    }
}

/// What keeps a type from having an option.
#[must_use]
#[cycle(check_type)]
pub fn check_type(tree: &TypeTree) -> TreeCheck
    ensures { result ≡ checks_of false (tree_of tree.now) }
{
    match tree {
        TypeTree::Plain(kind) => checked(kind.is_plain(), true, true),
        TypeTree::Custom(class) => checked(true, true, is_counted(class.len())),
        TypeTree::List(inner) | TypeTree::Set(inner) => check_type(inner),
        TypeTree::Map(key, value) => check_type(key).and(check_type(value)),
        TypeTree::Udt {
            keyspace,
            name,
            fields,
        } => {
            let counts = is_counted(fields.len());
            let texts = checked(true, counts, is_counted(keyspace.len())).and(checked(
                true,
                true,
                is_counted(name.len()),
            ));
            texts.and(check_fields(fields))
        }
        TypeTree::Tuple(types) => {
            checked(true, is_counted(types.len()), true).and(check_types(types))
        }
    }
}

/// The same of inner types without names.
#[cycle(check_type)]
fn check_types(types: &[TypeTree]) -> TreeCheck
    ensures { result ≡ checks_of false (listed_types types.now) }
{
    let mut check = checked(true, true, true);
    for tree in types {
        check = check.and(check_type(tree));
    }
    check
}

/// The same of inner types with names.
#[cycle(check_type)]
fn check_fields(fields: &[(String, TypeTree)]) -> TreeCheck
    ensures { result ≡ checks_of true (listed_fields fields.now) }
{
    let mut check = checked(true, true, true);
    for (name, tree) in fields {
        let named = checked(true, true, is_counted(name.len()));
        check = check.and(named.and(check_type(tree)));
    }
    check
}

/// What is found so far.
fn checked(formed: bool, counts: bool, texts: bool) -> TreeCheck
    ensures { result ≡ record { formed = formed; counts = counts; texts = texts } }
{
    TreeCheck {
        formed,
        counts,
        texts,
    }
}

/// Whether a \[short\] can count this many.
fn is_counted(count: usize) -> bool
    ensures { result ≡ nat_lt count (2 ^ 16) }
{
    count < 65_536
}
