//! Metadata, and prepared statements.

ghost use Rattle.std.specs.Prelude.{◌≡◌, ◌&&◌, ℕ, List, [], ◌∷◌, Bool, false, true, map, option_map, string_bytes};
ghost use Rattle.std.specs.List.{list_all};
ghost use Rattle.cqlp_note.specs.declared.field.Field.TheVariants as field;
ghost use Rattle.cqlp_message.specs.Agreement.{metadata_agrees, prepared_agrees, spec_agrees, there_if};
ghost use Rattle.cqlp_message.specs.Bodies as body;
ghost use Rattle.cqlp_message.specs.FrameValues as value;
ghost use Rattle.cqlp_message.specs.Owned.{metadata_of, prepared_of, spec_of, table_of};
ghost use Rattle.cqlp_build.specs.FrameEvents.{Builds, any};
ghost use Rattle.cqlp_build.specs.Productions.{AreColumns, AreColumnsIf, columns_parts, columns_parts_if};
ghost use Rattle.cqlp_build.specs.Emitted.{emitted};
ghost use Rattle.cqlp_build.specs.Types.{is_built_metadata, is_built_statement, names_count};

use crate::held::FrameEvents;
use crate::lists::{FromEvents, Wanted};
use cqlp_grammar::has;
use cqlp_message::{Metadata, Prepared, Spec};
use cqlp_note::Field;

/// The table of all columns, and the columns.
type Columns = (Option<(String, String)>, Vec<Spec>);

/// The same, if columns are described.
type ColumnsIf = (Option<(String, String)>, Option<Vec<Spec>>);

impl FromEvents for u16 {
    ghost Value = { ℕ };

    ghost value = { λ n. n };

    ghost parts = { λ w n. body.short w.field n ∷ [] };

    ghost is_wanted = { λ w n. true };

    fn build(held: &mut FrameEvents, wanted: Wanted) -> Self {
        held.short(wanted.field)
    }
}

impl FromEvents for Spec {
    ghost Value = { value.Spec };

    ghost value = { spec_of };

    ghost parts = { λ w c. body.spec_parts c };

    ghost is_wanted = { λ w c. spec_agrees w.named c && names_count false c.tree };

    fn build(held: &mut FrameEvents, wanted: Wanted) -> Self {
        let table = held.table_if(wanted.named);
        let name = held.text(Field::ColumnName);
        let tree = held.tree();
        Spec { table, name, tree }
    }
}

impl FrameEvents {
    /// Takes a keyspace and a table, if they are to be there.
    fn table_if(&mut self, there: bool) -> Option<(String, String)>
        ensures { Builds (λ o. emitted (body.table_parts o)) (λ o. there_if there o ≡ true) (table_of result) self.old self.new }
    {
        if there {
            let keyspace = self.text(Field::Keyspace);
            let table = self.text(Field::Table);
            Some((keyspace, table))
        } else {
            None
        }
    }

    /// Takes this many columns, after their table where the flags say that it is that of all.
    fn columns(&mut self, flags: u32, count: u32) -> Columns
        ensures { Builds (λ c. emitted (columns_parts c)) (AreColumns flags count)
            (table_of result.0, map spec_of result.1.items) self.old self.new }
    {
        let global = has(flags, 0x01);
        let table = self.table_if(global);
        let wanted = Wanted {
            field: Field::ColumnName,
            named: !global,
        };
        let specs = self.many(count, wanted);
        (table, specs)
    }

    /// Takes this many columns, if the flags say that they are described.
    fn columns_if(&mut self, flags: u32, count: u32) -> ColumnsIf
        ensures { Builds (λ c. emitted (columns_parts_if c)) (AreColumnsIf flags count)
            (table_of result.0, option_map (λ cs. map spec_of cs.items) result.1) self.old self.new }
    {
        if has(flags, 0x04) {
            return (None, None);
        }
        let (table, specs) = self.columns(flags, count);
        (table, Some(specs))
    }

    /// Takes the description of a page's columns.
    pub fn metadata(&mut self) -> Metadata
        ensures { Builds (λ m. emitted (body.metadata_parts m)) (λ m. (metadata_agrees m && is_built_metadata m) ≡ true)
            (metadata_of result) self.old self.new }
    {
        let flags = self.int(Field::MetaFlags);
        let columns = self.count(Field::Columns);
        let bits = flags.cast_unsigned();
        let paging = self.paging_if(has(bits, 0x02));
        let (table, specs) = self.columns_if(bits, columns);
        Metadata {
            flags,
            columns,
            paging,
            table,
            specs,
        }
    }

    /// Takes the number of the values of a partition key, and each.
    fn keys(&mut self) -> Vec<u16>
        ensures { Builds (λ ks. emitted (body.counted_keys ks)) any result.items self.old self.new }
    {
        let wanted = Wanted {
            field: Field::KeyIndex,
            named: false,
        };
        self.counted(Field::Keys, wanted)
    }

    /// Takes a prepared statement.
    pub fn prepared(&mut self) -> Prepared
        ensures { Builds (λ p. emitted (body.prepared_parts p)) (λ p. (prepared_agrees p && is_built_statement p) ≡ true)
            (prepared_of result) self.old self.new }
    {
        let id = self.statement();
        let flags = self.int(Field::MetaFlags);
        let columns = self.count(Field::Columns);
        let keys = self.keys();
        let (table, specs) = self.columns(flags.cast_unsigned(), columns);
        let result = self.metadata();
        Prepared {
            id,
            flags,
            columns,
            keys,
            table,
            specs,
            result,
        }
    }
}
