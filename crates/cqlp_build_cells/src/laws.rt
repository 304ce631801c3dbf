//! Laws of the builder of cells.

ghost use Rattle.cqlp_build_cells.specs.Laws.{OneAnswer, OneAnswerOfFinish, ValueIsBuilt};

/// An event has one answer, unless memory was refused.
pub fn one_answer()
    ensures { OneAnswer }
{}

/// Of the same events and type there is one answer, unless memory was refused.
pub fn one_answer_of_finish()
    ensures { OneAnswerOfFinish }
{}

/// Of the events of a value of a type that is formed this value is built, unless memory is refused.
pub fn value_is_built()
    ensures { ValueIsBuilt }
{}
