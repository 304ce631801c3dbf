//! Types of the pages of prepared statements, from what cqlsh writes of a node's tables of prepared statements, of columns and of user-defined types.
#![tactic(auto)]

mod column;
mod gathered;
mod name;
mod reading;
mod schema;
mod selection;
mod shape;
mod split;
mod statement_types;
mod token;
mod tree;

pub use reading::read_statement_types;
pub use statement_types::StatementTypes;
