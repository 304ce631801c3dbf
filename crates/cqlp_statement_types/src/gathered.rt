//! What a file has of statements and of a schema.

use crate::schema::Schema;
use crate::selection::{is_select, types_selected};
use crate::statement_types::StatementTypes;
use cqlp_statement_file::{StatementsFault, TakesObjects, id_of, text_at};
use cqlp_type_tables::{TableError, table_of};
use json::Value;
use std::alloc::{AllocError, Global};

/// How many bytes the text of a statement has at most whose types are known.
const LONGEST: usize = 65_536;

/// The statements and the schema of a file, as far as it is read.
#[derive(Drop)]
pub(crate) struct Gathered {
    alloc: Global,
    schema: Schema,
    selects: Vec<Select>,
    /// Whether it has statements, SELECTs or others.
    has_statement: bool,
}

/// A SELECT that was prepared.
#[derive(Drop)]
struct Select {
    id: Vec<u8>,
    /// The keyspace that it was prepared in; empty, if in none.
    keyspace: Vec<u8>,
    text: Vec<u8>,
}

impl Gathered {
    /// Nothing came.
    pub(crate) fn new(alloc: Global) -> Self {
        Gathered {
            alloc,
            schema: Schema::new(alloc),
            selects: Vec::new(alloc),
            has_statement: false,
        }
    }

    /// The types of the statements, if there are some, and columns.
    pub(crate) fn finish(self) -> Result<StatementTypes, StatementsFault> {
        let Gathered {
            alloc,
            schema,
            selects,
            has_statement,
        } = self;
        if !has_statement {
            return Err(StatementsFault::NoStatement);
        }
        if schema.is_empty() {
            return Err(StatementsFault::NoColumn);
        }
        let mut types = StatementTypes::new(alloc);
        for select in selects {
            add_types(alloc, &schema, select, &mut types)?;
        }
        Ok(types)
    }

    /// Takes the statement of an object. Answers whether it has one.
    fn take_statement(&mut self, object: &Value<'_>, id: &str) -> Result<bool, AllocError> {
        let Some(text) = text_at(object, "query_string") else {
            return Ok(false);
        };
        let Some(id) = id_of(self.alloc, id)? else {
            return Ok(false);
        };
        self.has_statement = true;
        let text = text.as_bytes();
        if text.len() <= LONGEST && is_select(self.alloc, text)? {
            let keyspace = text_at(object, "logged_keyspace").unwrap_or("");
            self.selects.push(Select {
                id,
                keyspace: Vec::from_slice(self.alloc, keyspace.as_bytes())?,
                text: Vec::from_slice(self.alloc, text)?,
            })?;
        }
        Ok(true)
    }
}

impl TakesObjects for Gathered {
    ghost takes = { λ old v is_one new. Unit {0} };

    fn take(&mut self, _alloc: Global, object: &Value<'_>) -> Result<bool, AllocError> {
        match text_at(object, "prepared_id") {
            Some(id) => self.take_statement(object, id),
            None => self.schema.take(object),
        }
    }
}

/// Adds the types of a statement, if they are known, and its id has none.
fn add_types(
    alloc: Global,
    schema: &Schema,
    select: Select,
    types: &mut StatementTypes,
) -> Result<(), AllocError> {
    let Select { id, keyspace, text } = select;
    if types.get(id.as_slice()).is_some() {
        return Ok(());
    }
    let Some(trees) = types_selected(alloc, schema, keyspace.as_slice(), text.as_slice())? else {
        return Ok(());
    };
    match table_of(alloc, trees.as_slice()) {
        Ok(table) => types.put(id, table),
        Err(TableError::NoMemory) => Err(AllocError),
        Err(TableError::NotWritable | TableError::TooLong) => Ok(()),
    }
}
