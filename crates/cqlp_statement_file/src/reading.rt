//! Reading a file with statements.

use crate::fault::StatementsFault;
use crate::lines::Lines;
use crate::objects::TakesObjects;
use crate::texts::StatementTexts;
use cqlp_note::{IoFault, Source};
use std::alloc::Global;

/// How many bytes a read asks for.
const PIECE: usize = 1 << 16;

/// Reads what cqlsh writes of `SELECT JSON * FROM system.prepared_statements`: in each line that begins with `{` a statement's id and text, or a row of a
/// schema, which is passed over as other lines are.
///
/// # Errors
///
/// Why there are no statements. Nothing more is read then.
pub fn read_statements<S: Source>(
    alloc: Global,
    input: &mut S,
) -> Result<StatementTexts, StatementsFault> {
    let mut texts = StatementTexts::new(alloc);
    read_objects(alloc, input, &mut texts)?;
    if texts.is_empty() {
        Err(StatementsFault::NoStatement)
    } else {
        Ok(texts)
    }
}

/// Reads what cqlsh writes of `SELECT JSON`: in each line that begins with `{` an object. Other lines are passed over.
///
/// # Errors
///
/// A line that is too long, or has no object that is taken, or where there is no object at all. Nothing more is read then.
pub fn read_objects<S: Source, T: TakesObjects>(
    alloc: Global,
    input: &mut S,
    objects: &mut T,
) -> Result<(), StatementsFault> {
    let mut piece = vec![in alloc; 0; PIECE]?;
    let mut lines = Lines::new(alloc);
    for _ in 0..u64::MAX {
        match input.read(&mut piece) {
            Ok(0) => return lines.finish(objects),
            Ok(count) => lines.take(&piece[..count], objects)?,
            Err(IoFault) => return Err(StatementsFault::Read),
        }
    }
    Err(StatementsFault::Read)
}
