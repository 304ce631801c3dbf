//! Columns of tables, and fields of user-defined types.

use crate::column::{Column, ColumnKind, place_of};
use cqlp_statement_file::text_at;
use json::Value;
use std::alloc::{AllocError, Global};
use std::collections::BTreeMap;

/// How many columns of a table are kept, and how many fields of a type.
const MOST: usize = 4_096;

/// What is between a keyspace and a name in a key: no text has it.
const BETWEEN: u8 = 0xFF;

/// The columns of tables and the fields of user-defined types, by their keyspaces and names.
#[derive(Drop)]
pub(crate) struct Schema {
    alloc: Global,
    tables: BTreeMap<Vec<u8>, Vec<Column>>,
    user_types: BTreeMap<Vec<u8>, Vec<Vec<u8>>>,
}

impl Schema {
    /// Nothing is known.
    pub(crate) fn new(alloc: Global) -> Self {
        Schema {
            alloc,
            tables: BTreeMap::new(alloc),
            user_types: BTreeMap::new(alloc),
        }
    }

    /// Whether no column is known.
    pub(crate) fn is_empty(&self) -> bool {
        self.tables.len() == 0
    }

    /// The columns of a table, in the order of `*`.
    pub(crate) fn columns_of(
        &self,
        keyspace: &[u8],
        table: &[u8],
    ) -> Result<Option<&[Column]>, AllocError> {
        let key = key_of(self.alloc, keyspace, table)?;
        match self.tables.get(&key) {
            Some(columns) => Ok(Some(columns.as_slice())),
            None => Ok(None),
        }
    }

    /// The types of the fields of a user-defined type.
    pub(crate) fn fields_of(
        &self,
        keyspace: &[u8],
        name: &[u8],
    ) -> Result<Option<&[Vec<u8>]>, AllocError> {
        let key = key_of(self.alloc, keyspace, name)?;
        match self.user_types.get(&key) {
            Some(fields) => Ok(Some(fields.as_slice())),
            None => Ok(None),
        }
    }

    /// Takes a row of system_schema.columns or system_schema.types. Answers whether it is one.
    pub(crate) fn take(&mut self, object: &Value<'_>) -> Result<bool, AllocError> {
        let Some(keyspace) = text_at(object, "keyspace_name") else {
            return Ok(false);
        };
        match text_at(object, "table_name") {
            Some(table) => self.take_column(object, keyspace, table),
            None => self.take_user_type(object, keyspace),
        }
    }

    fn take_column(
        &mut self,
        object: &Value<'_>,
        keyspace: &str,
        table: &str,
    ) -> Result<bool, AllocError> {
        let Some(column) = column_of(self.alloc, object)? else {
            return Ok(false);
        };
        let key = key_of(self.alloc, keyspace.as_bytes(), table.as_bytes())?;
        if let Some(columns) = self.tables.get_mut(&key) {
            add_column(columns, column)?;
            return Ok(true);
        }
        let mut columns = Vec::new(self.alloc);
        columns.push(column)?;
        match self.tables.insert(key, columns) {
            Ok(_) => Ok(true),
            Err(_) => Err(AllocError),
        }
    }

    /// The first type of a name counts.
    fn take_user_type(&mut self, object: &Value<'_>, keyspace: &str) -> Result<bool, AllocError> {
        let Some(name) = text_at(object, "type_name") else {
            return Ok(false);
        };
        let Some(fields) = object.get("field_types") else {
            return Ok(false);
        };
        let Some(fields) = texts_in(self.alloc, fields)? else {
            return Ok(false);
        };
        let key = key_of(self.alloc, keyspace.as_bytes(), name.as_bytes())?;
        if self.user_types.get(&key).is_some() {
            return Ok(true);
        }
        match self.user_types.insert(key, fields) {
            Ok(_) => Ok(true),
            Err(_) => Err(AllocError),
        }
    }
}

/// The column of an object, if it has one.
fn column_of(alloc: Global, object: &Value<'_>) -> Result<Option<Column>, AllocError> {
    let Some(name) = text_at(object, "column_name") else {
        return Ok(None);
    };
    let Some(type_text) = text_at(object, "type") else {
        return Ok(None);
    };
    let Some(kind) = text_at(object, "kind") else {
        return Ok(None);
    };
    let Some(kind) = ColumnKind::named(kind) else {
        return Ok(None);
    };
    Ok(Some(Column {
        name: Vec::from_slice(alloc, name.as_bytes())?,
        position: position_of(object),
        kind,
        type_text: Vec::from_slice(alloc, type_text.as_bytes())?,
    }))
}

/// Which of the keys of its kind a column is; that of others is -1.
fn position_of(object: &Value<'_>) -> u64 {
    match object.get("position") {
        Some(position) => position.as_u64().unwrap_or(0),
        None => 0,
    }
}

/// Adds a column at its place, unless there is one with its name, or too many.
fn add_column(columns: &mut Vec<Column>, column: Column) -> Result<(), AllocError> {
    if columns.len() >= MOST || has_name(columns.as_slice(), column.name.as_slice()) {
        return Ok(());
    }
    let place = place_of(columns.as_slice(), &column);
    columns.push(column)?;
    move_last(columns, place);
    Ok(())
}

/// Moves the last column to a place before others.
fn move_last(columns: &mut Vec<Column>, place: usize) {
    if place < columns.len() {
        let behind = &mut columns[place..];
        behind.rotate_right(1);
    }
}

fn has_name(columns: &[Column], name: &[u8]) -> bool {
    let mut found = false;
    for column in columns {
        found = found || column.name.as_slice() == name;
    }
    found
}

/// The texts of an array, if it has nothing else.
fn texts_in(alloc: Global, array: &Value<'_>) -> Result<Option<Vec<Vec<u8>>>, AllocError> {
    let mut texts = Vec::new(alloc);
    for index in 0..MOST {
        let Some(item) = array.at(index) else {
            return Ok(Some(texts));
        };
        let Some(text) = item.as_str() else {
            return Ok(None);
        };
        texts.push(Vec::from_slice(alloc, text.as_bytes())?)?;
    }
    Ok(None)
}

fn key_of(alloc: Global, keyspace: &[u8], name: &[u8]) -> Result<Vec<u8>, AllocError> {
    let mut key = Vec::from_slice(alloc, keyspace)?;
    key.push(BETWEEN)?;
    key.extend_from_slice(name)?;
    Ok(key)
}
