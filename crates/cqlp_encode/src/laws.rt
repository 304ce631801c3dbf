//! The laws of the encoder.

ghost use Rattle.cqlp_encode.specs.Laws.{AttemptsAreOne, BoundIsAsWritten, CellIsWhole, OneAnswerOfBegin, OneAnswerOfBeginFrom};
ghost use Rattle.cqlp_encode.specs.Laws.{OneAnswerOfAppend, OneAnswerOfBindValue, OneAnswerOfCell, OneAnswerOfResume};
ghost use Rattle.cqlp_encode.specs.Laws.{OneAnswerOfEncode, OneAnswerOfEncodeFrom};
ghost use Rattle.cqlp_encode.specs.Laws.{OneAnswerOfFinish, OneAnswerOfRawValue, OneAnswerOfWriteValue, PageIsAsEncoded};
ghost use Rattle.cqlp_encode.specs.LentLaws.{OneAnswerOfEncodePage, SameAreNotChanged};

/// One answer of [`encode`](crate::encode) meets its clause, given how many bytes the target took.
pub fn one_answer_of_encode()
    ensures { OneAnswerOfEncode }
{}

/// One answer of [`append`](crate::append) meets its clause where there is room for the frame, and else where memory is not refused.
pub fn one_answer_of_append()
    ensures { OneAnswerOfAppend }
{}

/// One answer of [`encode_from`](crate::encode_from) meets its clause, given how many bytes the target took.
pub fn one_answer_of_encode_from()
    ensures { OneAnswerOfEncodeFrom }
{}

/// Over all calls of [`encode_from`](crate::encode_from) for one frame and one target, each with as many bytes before as the last one said,
/// the target got the first bytes of the frame, each once and in order, and all of them once a call is Ok.
pub fn attempts_are_one()
    ensures { AttemptsAreOne }
{}

/// One answer of [`write_value`](crate::write_value) meets its clause, given how many bytes the target took.
pub fn one_answer_of_write_value()
    ensures { OneAnswerOfWriteValue }
{}

/// One answer of [`bind_value`](crate::bind_value) meets its clause, but where memory is refused.
pub fn one_answer_of_bind_value()
    ensures { OneAnswerOfBindValue }
{}

/// One answer of [`raw_value`](crate::raw_value) meets its clause, but where memory is refused.
pub fn one_answer_of_raw_value()
    ensures { OneAnswerOfRawValue }
{}

/// What a bound value and a raw cell have as bytes is what is written of the value.
pub fn bound_is_as_written()
    ensures { BoundIsAsWritten }
{}

/// One answer of [`PageWriter::begin`](crate::PageWriter::begin) meets its clause, given how many bytes the target took.
pub fn one_answer_of_begin()
    ensures { OneAnswerOfBegin }
{}

/// One answer of [`PageWriter::cell`](crate::PageWriter::cell) meets its clause, and leaves one state, given how many bytes the
/// target took. It is so with [`PageWriter::cell_as`](crate::PageWriter::cell_as), whose clause is the same of another cell.
pub fn one_answer_of_cell()
    ensures { OneAnswerOfCell }
{}

/// One answer of [`PageWriter::begin_from`](crate::PageWriter::begin_from) meets its clause, given how many bytes the target took.
pub fn one_answer_of_begin_from()
    ensures { OneAnswerOfBeginFrom }
{}

/// One answer of [`PageWriter::resume`](crate::PageWriter::resume) meets its clause, and leaves one state, given how many bytes the
/// target took. It is so with [`PageWriter::resume_as`](crate::PageWriter::resume_as).
pub fn one_answer_of_resume()
    ensures { OneAnswerOfResume }
{}

/// Where [`PageWriter::cell`](crate::PageWriter::cell) stops within a cell, and [`PageWriter::resume`](crate::PageWriter::resume) goes on
/// with it until it is Ok, the target has got the bytes of the cell, each once and in order, and the writer is where a call of
/// `cell` leaves it that does not stop.
pub fn cell_is_whole()
    ensures { CellIsWhole }
{}

/// One answer of [`PageWriter::finish`](crate::PageWriter::finish) meets its clause.
pub fn one_answer_of_finish()
    ensures { OneAnswerOfFinish }
{}

/// A page that is begun, whose cells are written one after the other, and that is done, is the frame with those cells as
/// [`encode`](crate::encode) writes it.
pub fn page_is_as_encoded()
    ensures { PageIsAsEncoded }
{}

/// [`encode_page`](crate::encode_page) never says Changed of cells that are the same both times.
pub fn same_are_not_changed()
    ensures { SameAreNotChanged }
{}

/// One answer of [`encode_page`](crate::encode_page) meets its clause, given the bytes that the target got.
pub fn one_answer_of_encode_page()
    ensures { OneAnswerOfEncodePage }
{}
