//! Types of the pages of statements by their ids.

ghost use Rattle.std.specs.Prelude.{◌≡◌, [], option_copied};
ghost use Rattle.cqlp_statement_types.specs.Types.{table_given};

use cqlp_type::TypeTable;
use std::alloc::{AllocError, Allocator, Global};
use std::collections::BTreeMap;
use std::marker::Model;

/// The types of the columns of statements' pages by the statements' ids.
#[derive(Drop)]
pub struct StatementTypes<A: Allocator = Global> {
    tables: BTreeMap<Vec<u8, A>, TypeTable<A>, A>,
}

impl<A: Allocator> Model for StatementTypes<A> {
    ghost use Rattle.cqlp_statement_types.specs.Types.{Given, given_in};

    ghost Value = { Given };

    ghost view = { λ t. given_in t.tables.entries };
}

impl<A: Allocator> StatementTypes<A> {
    /// None. Takes no memory.
    pub fn new(alloc: A) -> Self
        ensures { result ≡ [] }
    {
        StatementTypes {
            tables: BTreeMap::new(alloc),
        }
    }

    /// The types of the statement with this id.
    pub fn get(&self, id: &[u8]) -> Option<&TypeTable<A>>
        ensures { option_copied result ≡ table_given self.now id.now }
    {
        self.tables.get(id)
    }
}

impl<A: Allocator + Clone> StatementTypes<A> {
    /// Puts the types of a statement in the place of those that its id has.
    pub(crate) fn put(&mut self, id: Vec<u8, A>, table: TypeTable<A>) -> Result<(), AllocError> {
        match self.tables.insert(id, table) {
            Ok(_) => Ok(()),
            Err(_) => Err(AllocError),
        }
    }
}
