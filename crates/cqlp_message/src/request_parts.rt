//! The parts of requests.

ghost use Rattle.std.specs.Prelude.{◌≡◌, ℕ, ℤ, List, [], ◌∷◌, Option, map, string_bytes};
ghost use Rattle.std.specs.Option.{option_map};
ghost use Rattle.cqlp_note.specs.Field.{BoundValue};
ghost use Rattle.cqlp_message.specs.Bodies as body;
ghost use Rattle.cqlp_message.specs.FrameValues as value;
ghost use Rattle.cqlp_message.specs.FrameValues.{Octets};
ghost use Rattle.cqlp_message.specs.Owned.{bound_of, entry_of, params_of};
ghost use Rattle.cqlp_message.specs.PartRefs.{Takes};

use crate::part::{PartRef, TakesParts};
use crate::request::{BatchEntry, OwnedBound, QueryParams};
use crate::walk::{
    HasParts, walk_counted, walk_paging, walk_query, walk_serial, walk_statement, walk_text,
    walk_timestamp,
};
use cqlp_note::Field;

impl HasParts for OwnedBound {
    ghost Value = { BoundValue };

    ghost value = { bound_of };

    ghost parts = { λ v. body.bound v ∷ [] };

    fn walk<V: TakesParts>(&self, visitor: &mut V) {
        visitor.take(PartRef::Bound(Field::Value, self));
    }
}

impl HasParts for (Option<String>, OwnedBound) {
    ghost Value = { Option Octets × BoundValue };

    ghost value = { λ v. (option_map string_bytes v.0, bound_of v.1) };

    ghost parts = { body.value_parts };

    fn walk<V: TakesParts>(&self, visitor: &mut V) {
        let (name, value) = self;
        walk_name(name, visitor);
        value.walk(visitor);
    }
}

/// Hands over the name of a value, if it has one.
fn walk_name<V: TakesParts>(name: &Option<String>, visitor: &mut V)
    ensures { Takes V.taken visitor.old visitor.new
        (body.where_some (λ n. body.text Field.ValueName n ∷ []) (option_map string_bytes name.now)) }
{
    if let Some(name) = name {
        walk_text(Field::ValueName, name, visitor);
    }
}

#[tactic(auto, using(crate::proofs::Walks::takes_append))]
impl HasParts for QueryParams {
    ghost Value = { value.QueryParams };

    ghost value = { params_of };

    ghost parts = { body.params_parts };

    fn walk<V: TakesParts>(&self, visitor: &mut V) {
        visitor.take(PartRef::Short(Field::Consistency, self.consistency));
        visitor.take(PartRef::Byte(Field::QueryFlags, self.flags));
        self.walk_values(visitor);
        self.walk_page_size(visitor);
        walk_paging(&self.paging, visitor);
        walk_serial(self.serial, visitor);
        walk_timestamp(self.timestamp, visitor);
    }
}

impl QueryParams {
    /// Hands over the values, if there are any.
    fn walk_values<V: TakesParts>(&self, visitor: &mut V)
        ensures { Takes V.taken visitor.old visitor.new
            (body.where_some (body.counted Field.Values body.value_parts) (params_of self.now).values) }
    {
        if let Some(values) = &self.values {
            walk_counted(Field::Values, values, visitor);
        }
    }

    /// Hands over the rows of a page, if they are there.
    fn walk_page_size<V: TakesParts>(&self, visitor: &mut V)
        ensures { Takes V.taken visitor.old visitor.new
            (body.where_some (λ z. body.int Field.PageSize z ∷ []) self.now.page_size) }
    {
        if let Some(rows) = self.page_size {
            visitor.take(PartRef::Int(Field::PageSize, rows));
        }
    }
}

impl HasParts for BatchEntry {
    ghost Value = { value.BatchEntry };

    ghost value = { entry_of };

    ghost parts = { body.entry_parts };

    fn walk<V: TakesParts>(&self, visitor: &mut V) {
        match self {
            BatchEntry::Text(text, values) => {
                visitor.take(PartRef::Byte(Field::EntryKind, 0));
                walk_query(text, visitor);
                walk_counted(Field::Values, values, visitor);
            }
            BatchEntry::Id(id, values) => {
                visitor.take(PartRef::Byte(Field::EntryKind, 1));
                walk_statement(id, visitor);
                walk_counted(Field::Values, values, visitor);
            }
        }
    }
}
