//! Where metadata begins.

ghost use Rattle.std.specs.Prelude.{◌≡◌};
ghost use Rattle.cqlp_decode.specs.Reading.{nodes_after};

use cqlp_grammar::Role;
use cqlp_type::TypeTable;
use std::alloc::Allocator;

/// Metadata begins without types.
pub fn begin_metadata<A: Allocator>(role: Role, table: &mut TypeTable<A>)
    ensures { table.new ≡ record { nodes = nodes_after role table.old.nodes; room = table.old.room } }
{
    if matches!(role, Role::MetaFlags { .. } | Role::PreparedFlags) {
        table.clear();
    }
}
