//! Reading a file with statements and a schema.

use crate::gathered::Gathered;
use crate::statement_types::StatementTypes;
use cqlp_note::Source;
use cqlp_statement_file::{StatementsFault, read_objects};
use std::alloc::Global;

/// Reads what cqlsh writes of `SELECT JSON * FROM` `system.prepared_statements`, `system_schema.columns` and, for user-defined types, `system_schema.types`,
/// in any order: in each line that begins with `{` a row of one of them. Other lines are passed over. Of a row that comes twice the first counts.
///
/// # Errors
///
/// Why there are no types. Nothing more is read then.
pub fn read_statement_types<S: Source>(
    alloc: Global,
    input: &mut S,
) -> Result<StatementTypes, StatementsFault> {
    let mut gathered = Gathered::new(alloc);
    read_objects(alloc, input, &mut gathered)?;
    gathered.finish()
}
