//! Laws of tables that are made of types.

ghost use Rattle.cqlp_type_tables.specs.Laws.{IsAsRead, IsOfColumns, IsOfTypes, OneAnswer};

/// A table of types is what reading their options leaves, one after the other.
pub fn is_as_read()
    ensures { IsAsRead }
{}

/// A table of types that have options is whole and of these types, with room for just its nodes.
pub fn is_of_types()
    ensures { IsOfTypes }
{}

/// A table of specs has the types of the cells of a page with these columns.
pub fn is_of_columns()
    ensures { IsOfColumns }
{}

/// One answer of [`table_of`](crate::table_of), and one of [`table_of_specs`](crate::table_of_specs), meets its clause, but where memory
/// is refused: the same types have the same answer of both.
pub fn one_answer()
    ensures { OneAnswer }
{}
