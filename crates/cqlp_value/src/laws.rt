//! Laws of the definitions.

ghost use Rattle.cqlp_value.specs.Laws.{FittingIsSpelled, OneSpelled, ReadIsSpelled, ReadScalarFits, ScalarIsItsContent};
ghost use Rattle.cqlp_value.specs.Laws.{SpelledFits, SpelledIsLong, SpelledIsRead};
ghost use Rattle.cqlp_value.specs.Laws.{OneAnswerOfAdvance, OneAnswerOfFrontScalar, OneAnswerOfPush};

/// What is read of a cell is a value that its bytes spell, with just its items.
pub fn read_is_spelled()
    ensures { ReadIsSpelled }
{}

/// What spells a value that is within the limits is read as its items.
pub fn spelled_is_read()
    ensures { SpelledIsRead }
{}

/// The bytes that spell a value are as many as its size says.
pub fn spelled_is_long()
    ensures { SpelledIsLong }
{}

/// Bytes spell at most one value of a type.
pub fn one_is_spelled()
    ensures { OneSpelled }
{}

/// A scalar that fits is what is read of the content that is written of it.
pub fn scalar_is_its_content()
    ensures { ScalarIsItsContent }
{}

/// What is read of a content of bytes is of its kind, in range, and fits.
pub fn read_scalar_fits()
    ensures { ReadScalarFits }
{}

/// A value that fits is spelled by the bytes that are written of it.
pub fn fitting_is_spelled()
    ensures { FittingIsSpelled }
{}

/// A value that bytes spell fits, and its scalars are in range.
pub fn spelled_fits()
    ensures { SpelledFits }
{}

/// After the same bytes and events of a cell, one answer of `CellReader::push` to an input meets its clauses.
pub fn one_answer_of_cell_push()
    ensures { OneAnswerOfPush }
{}

/// After the same bytes and events of a cell, one answer of `CellReader::advance` to an input meets its clauses.
pub fn one_answer_of_cell_advance()
    ensures { OneAnswerOfAdvance }
{}

/// One answer of `front_scalar` meets its clause.
pub fn one_answer_of_front_scalar()
    ensures { OneAnswerOfFrontScalar }
{}
