//! An object with a statement.

ghost use Rattle.std.specs.Prelude.{◌≡◌, IfOk, option_map};
ghost use Rattle.json.specs.Value.{value_view};
ghost use Rattle.cqlp_statement_file.specs.Ids.{id_of};
ghost use Rattle.cqlp_statement_file.specs.Objects.{Adds, is_of_schema, statement_of, text_at, with_id};

use crate::id::id_of;
use crate::objects::TakesObjects;
use crate::texts::StatementTexts;
use json::Value;
use std::alloc::{AllocError, Global};

/// Adds the statement of an object with an id and a text. Answers whether it is one.
fn add_object(
    alloc: Global,
    object: &Value<'_>,
    texts: &mut StatementTexts,
) -> Result<bool, AllocError>
    ensures { IfOk result (λ is_one. Adds (statement_of (value_view object.now)) is_one texts.old texts.new) }
{
    match text_at(object, "prepared_id") {
        Some(id) => match text_at(object, "query_string") {
            Some(text) => add_text(alloc, id, text, texts),
            None => Ok(false),
        },
        None => Ok(false),
    }
}

/// Adds a statement, if its id is one. Answers whether it is.
fn add_text(
    alloc: Global,
    id: &str,
    text: &str,
    texts: &mut StatementTexts,
) -> Result<bool, AllocError>
    ensures { IfOk result (λ is_one. Adds (with_id text.now (id_of id.now)) is_one texts.old texts.new) }
{
    match id_of(alloc, id) {
        Ok(Some(id)) => match texts.add(id, text) {
            Ok(()) => Ok(true),
            Err(AllocError) => Err(AllocError),
        },
        Ok(None) => Ok(false),
        Err(AllocError) => Err(AllocError),
    }
}

impl TakesObjects for StatementTexts {
    ghost use Rattle.cqlp_statement_file.specs.Objects.{TakesText};

    ghost takes = { TakesText };

    fn take(&mut self, alloc: Global, object: &Value<'_>) -> Result<bool, AllocError> {
        match add_object(alloc, object, self) {
            Ok(true) => Ok(true),
            Ok(false) => Ok(is_of_schema(object)),
            Err(AllocError) => Err(AllocError),
        }
    }
}

/// Whether an object is a row of a schema: it names a keyspace.
fn is_of_schema(object: &Value<'_>) -> bool
    ensures { result ≡ is_of_schema (value_view object.now) }
{
    text_at(object, "keyspace_name").is_some()
}

/// The text that an object has under a name.
pub fn text_at<'a>(object: &Value<'a>, name: &str) -> Option<&'a str>
    ensures { option_map (λ text. text.now) result ≡ text_at name.now (value_view object.now) }
{
    match object.get(name) {
        Some(value) => value.as_str(),
        None => None,
    }
}
