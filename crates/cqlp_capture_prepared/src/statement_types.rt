//! The types of statements.

use cqlp_type::TypeTable;
use std::alloc::{Allocator, Global};
use std::marker::Model;

/// The types of the result of a statement.
#[derive(Drop)]
pub(crate) struct StatementTypes<A: Allocator = Global> {
    pub(crate) table: TypeTable<A>,
}

impl<A: Allocator> Model for StatementTypes<A> {
    ghost use Rattle.std.specs.Prelude.{List};
    ghost use Rattle.cqlp_kind.specs.declared.node.Node.{Node};

    ghost Value = { List Node };

    ghost view = { λ types. types.table.nodes };
}
