//! What is found of types before they are written.

ghost use Rattle.std.specs.Prelude.{◌≡◌, ◌-◌, ◌^◌, ◌↔◌, true, false, IsTrue, map, min};
ghost use Rattle.cqlp_type.specs.TreeChecks.{both, checks_of};
ghost use Rattle.cqlp_type.specs.Trees.{options_in};
ghost use Rattle.cqlp_type.specs.TypeLists.{listed_types};
ghost use Rattle.cqlp_type.specs.TypeTrees.{trees_size};

use crate::count::count_nodes;
use crate::typed::HasType;
use cqlp_type::{TreeCheck, check_type, type_size};

/// What is found of types side by side.
#[derive(Clone, Copy)]
pub(crate) struct Found {
    /// What keeps one of them from having an option.
    pub check: TreeCheck,
    /// How many bytes their options have; 2^64 - 1 where there are more.
    pub size: u64,
    /// How many nodes they have, those of their inner types counted; 2^64 - 1 where there are more.
    pub nodes: u64,
}

impl Found {
    /// Whether each of the types has an option.
    pub fn is_writable(&self) -> bool
        ensures { IsTrue result ↔ self.now.check ≡ record { formed = true; counts = true; texts = true } }
    {
        self.check.formed && self.check.counts && self.check.texts
    }
}

/// What is found of the types of these, in order.
pub(crate) fn find<T: HasType>(items: &[T]) -> Found
    ensures check { result.check ≡ checks_of false (listed_types (map T.type_of items.now)) }
    ensures size { result.size ≡ min (trees_size false (listed_types (map T.type_of items.now))) (2 ^ 64 - 1) }
    ensures nodes { result.nodes ≡ min (options_in (listed_types (map T.type_of items.now))) (2 ^ 64 - 1) }
{
    let mut check = TreeCheck {
        formed: true,
        counts: true,
        texts: true,
    };
    let mut size: u64 = 0;
    let mut nodes: u64 = 0;
    for item in items {
        let tree = item.tree();
        check = both(check, check_type(tree));
        size = size.saturating_add(type_size(tree));
        nodes = nodes.saturating_add(count_nodes(tree));
    }
    Found { check, size, nodes }
}

/// What keeps some types or others from having options.
fn both(one: TreeCheck, other: TreeCheck) -> TreeCheck
    ensures { result ≡ both one other }
{
    TreeCheck {
        formed: one.formed && other.formed,
        counts: one.counts && other.counts,
        texts: one.texts && other.texts,
    }
}
