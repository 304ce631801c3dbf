//! What has parts, and parts that come again.

ghost use Rattle.std.specs.Prelude.{List, [], ◌∷◌, map, string_bytes};
ghost use Rattle.std.specs.List.{flat_map};
ghost use Rattle.cqlp_message.specs.Bodies as body;
ghost use Rattle.cqlp_message.specs.Owned.{bytes_of, table_of};
ghost use Rattle.std.specs.Option.{option_map};
ghost use Rattle.cqlp_message.specs.PartRefs.{Takes};

use crate::part::{PartRef, TakesParts};
use cqlp_note::Field;

/// What has parts in a frame.
pub trait HasParts {
    ghost use Rattle.cqlp_message.specs.Parts.{Part};

    /// What contracts see of it.
    ghost Value: { Type 0 };

    ghost value: { Self → Value };

    /// The parts of what is seen, in order.
    ghost parts: { Value → List Part };

    /// Hands its parts over, in order.
    fn walk<V: TakesParts>(&self, visitor: &mut V)
        ensures { Takes V.taken visitor.old visitor.new (parts (value self.now)) };
}

/// Hands the parts of each item over.
pub fn walk_each<T: HasParts, V: TakesParts>(items: &[T], visitor: &mut V)
    ensures { Takes V.taken visitor.old visitor.new (flat_map T.parts (map T.value items.now)) }
{
    for item in items {
        item.walk(visitor);
    }
}

/// Hands over a \[short\] that counts the items, and the parts of each.
#[tactic(auto, using(crate::proofs::Walks::takes_append))]
pub fn walk_counted<T: HasParts, V: TakesParts>(field: Field, items: &Vec<T>, visitor: &mut V)
    ensures { Takes V.taken visitor.old visitor.new (body.counted field T.parts (map T.value items.now.items)) }
{
    visitor.take(PartRef::Count16(field, items.len()));
    walk_each(items, visitor);
}

/// Hands over a \[string\] of each text.
fn walk_each_text<V: TakesParts>(field: Field, texts: &[String], visitor: &mut V)
    ensures { Takes V.taken visitor.old visitor.new
        (flat_map (λ t. body.text field t ∷ []) (map string_bytes texts.now)) }
{
    for text in texts {
        walk_text(field, text, visitor);
    }
}

/// Hands over a \[string list\].
#[tactic(auto, using(crate::proofs::Walks::takes_append))]
pub fn walk_texts<V: TakesParts>(list: Field, item: Field, texts: &Vec<String>, visitor: &mut V)
    ensures { Takes V.taken visitor.old visitor.new (body.texts list item (map string_bytes texts.now.items)) }
{
    visitor.take(PartRef::Count16(list, texts.len()));
    walk_each_text(item, texts, visitor);
}

/// Hands over a \[string\].
pub fn walk_text<V: TakesParts>(field: Field, text: &String, visitor: &mut V)
    ensures { Takes V.taken visitor.old visitor.new (body.text field (string_bytes text.now) ∷ []) }
{
    visitor.take(PartRef::Text(field, text.as_str()));
}

/// Hands over a keyspace, and the name of what is in it.
pub fn walk_in_keyspace<V: TakesParts>(
    keyspace: &String,
    field: Field,
    name: &String,
    visitor: &mut V,
)
    ensures { Takes V.taken visitor.old visitor.new
        (body.text Field.Keyspace (string_bytes keyspace.now) ∷ body.text field (string_bytes name.now) ∷ []) }
{
    walk_text(Field::Keyspace, keyspace, visitor);
    walk_text(field, name, visitor);
}

/// Hands over the text of a query.
pub fn walk_query<V: TakesParts>(text: &String, visitor: &mut V)
    ensures { Takes V.taken visitor.old visitor.new (body.query (string_bytes text.now) ∷ []) }
{
    visitor.take(PartRef::LongText(Field::Query, text.as_str()));
}

/// Hands over the id of a prepared statement.
pub fn walk_statement<V: TakesParts>(id: &Vec<u8>, visitor: &mut V)
    ensures { Takes V.taken visitor.old visitor.new (body.statement id.now.items ∷ []) }
{
    visitor.take(PartRef::ShortBytes(Field::StatementId, id.as_slice()));
}

/// Hands over \[bytes\].
pub fn walk_bytes<V: TakesParts>(field: Field, bytes: &Option<Vec<u8>>, visitor: &mut V)
    ensures { Takes V.taken visitor.old visitor.new (body.bytes field (bytes_of bytes.now) ∷ []) }
{
    match bytes {
        Some(bytes) => visitor.take(PartRef::Bytes(field, Some(bytes.as_slice()))),
        None => visitor.take(PartRef::Bytes(field, None)),
    }
}

/// Hands over a paging state, if there is one.
pub fn walk_paging<V: TakesParts>(paging: &Option<Option<Vec<u8>>>, visitor: &mut V)
    ensures { Takes V.taken visitor.old visitor.new (body.paging_parts (option_map bytes_of paging.now)) }
{
    if let Some(state) = paging {
        walk_bytes(Field::PagingState, state, visitor);
    }
}

/// Hands over a serial consistency, if there is one.
pub fn walk_serial<V: TakesParts>(serial: Option<u16>, visitor: &mut V)
    ensures { Takes V.taken visitor.old visitor.new (body.serial_parts serial) }
{
    if let Some(consistency) = serial {
        visitor.take(PartRef::Short(Field::SerialConsistency, consistency));
    }
}

/// Hands over a default timestamp, if there is one.
pub fn walk_timestamp<V: TakesParts>(timestamp: Option<i64>, visitor: &mut V)
    ensures { Takes V.taken visitor.old visitor.new (body.timestamp_parts timestamp) }
{
    if let Some(microseconds) = timestamp {
        visitor.take(PartRef::Long(Field::Timestamp, microseconds));
    }
}

/// Hands over a keyspace and a table, if they are there.
pub fn walk_table<V: TakesParts>(table: &Option<(String, String)>, visitor: &mut V)
    ensures { Takes V.taken visitor.old visitor.new (body.table_parts (table_of table.now)) }
{
    if let Some((keyspace, table)) = table {
        walk_in_keyspace(keyspace, Field::Table, table, visitor);
    }
}

/// Hands over the number of the values of a partition key, and each.
#[tactic(auto, using(crate::proofs::Walks::takes_append))]
pub fn walk_keys<V: TakesParts>(keys: &Vec<u16>, visitor: &mut V)
    ensures { Takes V.taken visitor.old visitor.new (body.counted_keys keys.now.items) }
{
    visitor.take(PartRef::Count32(Field::Keys, keys.len()));
    walk_each_key(keys, visitor);
}

/// Hands over each value of a partition key.
fn walk_each_key<V: TakesParts>(keys: &[u16], visitor: &mut V)
    ensures { Takes V.taken visitor.old visitor.new (flat_map (λ k. body.short Field.KeyIndex k ∷ []) keys.now) }
{
    for key in keys {
        visitor.take(PartRef::Short(Field::KeyIndex, *key));
    }
}
