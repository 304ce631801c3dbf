//! Items that come one after the other.

ghost use Rattle.std.specs.Prelude.{◌≡◌, ℕ, List, [], ◌∷◌, Bool, true, Option, map, option_map, string_bytes};
ghost use Rattle.std.specs.List.{flat_map, list_all};
ghost use Rattle.cqlp_note.specs.declared.field.Field.TheVariants as field;
ghost use Rattle.cqlp_note.specs.Field.{BoundValue};
ghost use Rattle.cqlp_message.specs.Agreement.{there_if};
ghost use Rattle.cqlp_message.specs.Bodies as body;
ghost use Rattle.cqlp_message.specs.FrameValues as value;
ghost use Rattle.cqlp_message.specs.FrameValues.{Octets};
ghost use Rattle.cqlp_message.specs.Owned.{bound_of, bytes_of, entry_of, texts_of};
ghost use Rattle.cqlp_build.specs.FrameEvents.{Builds, Many};
ghost use Rattle.cqlp_build.specs.Emitted.{emitted};
ghost use Rattle.cqlp_build.specs.declared.lists.Wanted.{Wanted};

use crate::held::{Fault, FrameEvents};
use cqlp_message::{BatchEntry, OwnedBound};
use cqlp_note::Field;

/// What the items of a list are to be, where their type does not say it.
#[derive(Clone, Copy)]
pub(crate) struct Wanted {
    /// The field that each is.
    pub field: Field,
    /// Whether each has a name, or a column a table of its own.
    pub named: bool,
}

impl Wanted {
    /// Items whose type says it.
    pub const PLAIN: Wanted = Wanted {
        field: Field::Value,
        named: false,
    };
}

/// What is built of the events that come next.
pub(crate) trait FromEvents: Drop {
    ghost use Rattle.cqlp_message.specs.Parts.{Part};

    /// What contracts see of it.
    ghost Value: { Type 0 };

    ghost value: { Self → Value };

    /// The parts of what is seen, in order.
    ghost parts: { Wanted → Value → List Part };

    /// It is as is wanted.
    ghost is_wanted: { Wanted → Value → Bool };

    /// Takes the events of one.
    fn build(held: &mut FrameEvents, wanted: Wanted) -> Self
        ensures { Builds (λ v. emitted (parts wanted v)) (λ v. is_wanted wanted v ≡ true) (value result) held.old held.new };
}

impl FromEvents for String {
    ghost Value = { Octets };

    ghost value = { string_bytes };

    ghost parts = { λ w t. body.text w.field t ∷ [] };

    ghost is_wanted = { λ w t. true };

    fn build(held: &mut FrameEvents, wanted: Wanted) -> Self {
        held.text(wanted.field)
    }
}

impl FromEvents for (String, String) {
    ghost Value = { Octets × Octets };

    ghost value = { λ o. (string_bytes o.0, string_bytes o.1) };

    ghost parts = { λ w o. body.text field.OptionKey o.0 ∷ body.text field.OptionValue o.1 ∷ [] };

    ghost is_wanted = { λ w o. true };

    fn build(held: &mut FrameEvents, _wanted: Wanted) -> Self {
        let key = held.text(Field::OptionKey);
        let value = held.text(Field::OptionValue);
        (key, value)
    }
}

impl FromEvents for (String, Vec<String>) {
    ghost Value = { Octets × List Octets };

    ghost value = { λ o. (string_bytes o.0, texts_of o.1) };

    ghost parts = { λ w o. body.text field.OptionKey o.0 ∷ body.texts field.OptionValues field.OptionValue o.1 };

    ghost is_wanted = { λ w o. true };

    fn build(held: &mut FrameEvents, _wanted: Wanted) -> Self {
        let key = held.text(Field::OptionKey);
        let values = held.texts(Field::OptionValues, Field::OptionValue);
        (key, values)
    }
}

impl FromEvents for (String, Option<Vec<u8>>) {
    ghost Value = { Octets × Option Octets };

    ghost value = { λ i. (string_bytes i.0, bytes_of i.1) };

    ghost parts = { λ w i. body.text field.PayloadKey i.0 ∷ body.bytes field.PayloadValue i.1 ∷ [] };

    ghost is_wanted = { λ w i. true };

    fn build(held: &mut FrameEvents, _wanted: Wanted) -> Self {
        let key = held.text(Field::PayloadKey);
        let value = held.bytes(Field::PayloadValue);
        (key, value)
    }
}

impl FromEvents for OwnedBound {
    ghost Value = { BoundValue };

    ghost value = { bound_of };

    ghost parts = { λ w v. body.bound v ∷ [] };

    ghost is_wanted = { λ w v. true };

    fn build(held: &mut FrameEvents, _wanted: Wanted) -> Self {
        held.bound()
    }
}

impl FromEvents for (Option<String>, OwnedBound) {
    ghost Value = { Option Octets × BoundValue };

    ghost value = { λ v. (option_map string_bytes v.0, bound_of v.1) };

    ghost parts = { λ w v. body.value_parts v };

    ghost is_wanted = { λ w v. there_if w.named v.0 };

    fn build(held: &mut FrameEvents, wanted: Wanted) -> Self {
        let name = held.name_if(wanted.named);
        let value = held.bound();
        (name, value)
    }
}

impl FromEvents for BatchEntry {
    ghost Value = { value.BatchEntry };

    ghost value = { entry_of };

    ghost parts = { λ w e. body.entry_parts e };

    ghost is_wanted = { λ w e. true };

    fn build(held: &mut FrameEvents, _wanted: Wanted) -> Self {
        match held.byte(Field::EntryKind) {
            0 => {
                let text = held.text(Field::Query);
                let values = held.batch_values();
                BatchEntry::Text(text, values)
            }
            1 => {
                let id = held.statement();
                let values = held.batch_values();
                BatchEntry::Id(id, values)
            }
            _ => {
                held.refuse(Fault::NoFrame);
                BatchEntry::Id(Vec::new(held.alloc), Vec::new(held.alloc))
            }
        }
    }
}

impl FrameEvents {
    /// Takes this many items.
    pub fn many<T: FromEvents>(&mut self, count: u32, wanted: Wanted) -> Vec<T>
        ensures { Builds (flat_map (λ v. emitted (T.parts wanted v))) (Many (T.is_wanted wanted) count)
            (map T.value result.items) self.old self.new }
    {
        let mut items = Vec::new(self.alloc);
        for _ in 0..count {
            let item = T::build(self, wanted);
            if self.fault.is_some() {
                return items;
            }
            if items.push(item).is_err() {
                self.fault = Some(Fault::NoMemory);
                return items;
            }
        }
        items
    }

    /// Takes a number of items, and the items.
    pub fn counted<T: FromEvents>(&mut self, field: Field, wanted: Wanted) -> Vec<T>
        ensures { Builds (λ vs. emitted (body.counted field (T.parts wanted) vs)) (λ vs. list_all (T.is_wanted wanted) vs ≡ true)
            (map T.value result.items) self.old self.new }
    {
        let count = self.count(field);
        self.many(count, wanted)
    }

    /// Takes a \[string list\].
    pub fn texts(&mut self, list: Field, item: Field) -> Vec<String>
        ensures { Builds (λ ts. emitted (body.texts list item ts)) (λ ts. list_all (λ _. true) ts ≡ true)
            (texts_of result) self.old self.new }
    {
        self.counted(
            list,
            Wanted {
                field: item,
                named: false,
            },
        )
    }
}
