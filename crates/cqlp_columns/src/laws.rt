//! The laws of columns, and of pages that are read into them.

ghost use Rattle.cqlp_columns.specs.Laws.{FullWhereRowsBegin, OneAnswerOfBatch, OneAnswerOfBytes, OneAnswerOfTake, RoomForOne};
ghost use Rattle.cqlp_columns.specs.PageLaws.{OneAnswerOfRead};

use cqlp_grammar::Sink;

/// Of the same cells before, one cell is taken by one column, or refused for one reason; of the same events before, one event by one batch, or for
/// one reason; and bits are spelled by one array of bytes.
pub fn one_answer()
    ensures take { OneAnswerOfTake }
    ensures batch { OneAnswerOfBatch }
    ensures bytes { OneAnswerOfBytes }
{}

/// A batch is full only where a row begins, so that none that is read and cleared has a part of a row; and one without rows has room for a row, if it may
/// have any, so that what was refused is taken after `clear`.
pub fn whole_rows()
    ensures full { FullWhereRowsBegin }
    ensures room { RoomForOne }
{}

/// At one place of a stream, over the same input and with the same columns, `read` has one answer: it uses as many bytes and stops for one reason, the columns
/// have taken the same cells, the other sink was handed the same event, and the decoder is at one place. Whether that sink fails is its own.
pub fn one_answer_of_read<S: Sink>()
    ensures { OneAnswerOfRead S.Sink }
{}
