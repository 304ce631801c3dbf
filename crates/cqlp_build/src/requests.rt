//! Parts of requests.

ghost use Rattle.std.specs.Prelude.{◌≡◌, ℕ, List, [], ◌∷◌, ◌&&◌, true, Some, None, map, option_map, string_bytes};
ghost use Rattle.std.specs.List.{list_all};
ghost use Rattle.cqlp_note.specs.declared.field.Field.TheVariants as field;
ghost use Rattle.cqlp_message.specs.Agreement.{are_named, params_agree, there_if};
ghost use Rattle.cqlp_message.specs.Bodies as body;
ghost use Rattle.cqlp_message.specs.Owned.{bound_of, bytes_of, params_of};
ghost use Rattle.cqlp_build.specs.FrameEvents.{Builds, any};
ghost use Rattle.cqlp_build.specs.Emitted.{emitted};

use crate::held::{FrameEvents, has_flag};
use crate::lists::Wanted;
use cqlp_message::{OwnedBound, QueryParams};
use cqlp_note::Field;

impl FrameEvents {
    /// Takes the name of a value, if it is to have one.
    pub fn name_if(&mut self, there: bool) -> Option<String>
        ensures { Builds (λ o. emitted (body.where_some (λ n. body.text field.ValueName n ∷ []) o)) (λ o. there_if there o ≡ true)
            (option_map string_bytes result) self.old self.new }
    {
        if there {
            Some(self.text(Field::ValueName))
        } else {
            None
        }
    }

    /// Takes the values of a query, if they are to be there, with names or without.
    fn values_if(&mut self, there: bool, named: bool) -> Option<Vec<(Option<String>, OwnedBound)>>
        ensures { Builds (λ o. emitted (body.where_some (body.counted field.Values body.value_parts) o))
            (λ o. (there_if there o && are_named named o) ≡ true)
            (option_map (λ vs. map (λ v. (option_map string_bytes v.0, bound_of v.1)) vs.items) result) self.old self.new }
    {
        if there {
            let wanted = Wanted {
                field: Field::Value,
                named,
            };
            Some(self.counted(Field::Values, wanted))
        } else {
            None
        }
    }

    /// Takes the rows of a page, if they are to be there.
    fn page_size_if(&mut self, there: bool) -> Option<i32>
        ensures { Builds (λ o. emitted (body.where_some (λ z. body.int field.PageSize z ∷ []) o)) (λ o. there_if there o ≡ true)
            result self.old self.new }
    {
        if there {
            Some(self.int(Field::PageSize))
        } else {
            None
        }
    }

    /// Takes a paging state, if it is to be there.
    pub fn paging_if(&mut self, there: bool) -> Option<Option<Vec<u8>>>
        ensures { Builds (λ o. emitted (body.paging_parts o)) (λ o. there_if there o ≡ true)
            (option_map bytes_of result) self.old self.new }
    {
        if there {
            Some(self.bytes(Field::PagingState))
        } else {
            None
        }
    }

    /// Takes a serial consistency, if it is to be there.
    pub fn serial_if(&mut self, there: bool) -> Option<u16>
        ensures { Builds (λ o. emitted (body.serial_parts o)) (λ o. there_if there o ≡ true) result self.old self.new }
    {
        if there {
            Some(self.short(Field::SerialConsistency))
        } else {
            None
        }
    }

    /// Takes a default timestamp, if it is to be there.
    pub fn timestamp_if(&mut self, there: bool) -> Option<i64>
        ensures { Builds (λ o. emitted (body.timestamp_parts o)) (λ o. there_if there o ≡ true) result self.old self.new }
    {
        if there {
            Some(self.long(Field::Timestamp))
        } else {
            None
        }
    }

    /// Takes the parameters of a query.
    pub fn params(&mut self) -> QueryParams
        ensures { Builds (λ q. emitted (body.params_parts q)) (λ q. params_agree q ≡ true) (params_of result) self.old self.new }
    {
        let consistency = self.short(Field::Consistency);
        let flags = self.byte(Field::QueryFlags);
        let values = self.values_if(has_flag(flags, 0x01), has_flag(flags, 0x40));
        let page_size = self.page_size_if(has_flag(flags, 0x04));
        let paging = self.paging_if(has_flag(flags, 0x08));
        let serial = self.serial_if(has_flag(flags, 0x10));
        let timestamp = self.timestamp_if(has_flag(flags, 0x20));
        QueryParams {
            consistency,
            flags,
            values,
            page_size,
            paging,
            serial,
            timestamp,
        }
    }

    /// Takes the values of a statement of a batch.
    pub fn batch_values(&mut self) -> Vec<OwnedBound>
        ensures { Builds (λ vs. emitted (body.counted field.Values (λ v. body.bound v ∷ []) vs)) any
            (map bound_of result.items) self.old self.new }
    {
        self.counted(Field::Values, Wanted::PLAIN)
    }
}
