//! Laws of the reading of values and cells.

ghost use Rattle.cqlp_read_value.specs.Cells.{CellsAreReading, OneAnswerOfReadCell};
ghost use Rattle.cqlp_read_value.specs.Laws.{OneAnswerOfReadValue, ReadIsWritten, UnownedIsRead, WrittenIsRead};

/// One answer of [`read_value`](crate::read_value) meets its clause, but where memory is refused.
pub fn one_answer_of_read_value()
    ensures { OneAnswerOfReadValue }
{}

/// Of bytes that spell a value that owns no memory, a number or a null, [`read_value`](crate::read_value) answers the value, whatever
/// memory there is.
pub fn unowned_is_read()
    ensures { UnownedIsRead }
{}

/// A value that fits its type and is within the limits is what is read of the bytes that are written of it.
pub fn written_is_read()
    ensures { WrittenIsRead }
{}

/// A value that is read fits its type, and the bytes that are written of it spell the same value.
pub fn read_is_written()
    ensures { ReadIsWritten }
{}

/// Scalars of a page that [`read_cell`](crate::read_cell) reads one behind the other are what reading the page says, each at its offset,
/// and so is what it refuses.
pub fn cells_are_reading()
    ensures { CellsAreReading }
{}

/// One answer of [`read_cell`](crate::read_cell) meets its clause.
pub fn one_answer_of_read_cell()
    ensures { OneAnswerOfReadCell }
{}
