//! Laws of the calls. No code needs them.

ghost use Rattle.std.specs.Thread.{IsSend};
ghost use Rattle.cqlp_c.specs.Laws.{ContentsLieThere, EventsArePushed, FramesAreHeard, IsOneAnswerOfCheck};
ghost use Rattle.cqlp_c.specs.Laws.{IsOneAnswerOfClientNew, IsOneAnswerOfNext, IsOneAnswerOfServerNew};
ghost use Rattle.cqlp_c.specs.CallsLaws.{IsOneAnswerOfColumnsClear, IsOneAnswerOfColumnsGet, IsOneAnswerOfColumnsNew, IsOneAnswerOfGive};
ghost use Rattle.cqlp_c.specs.CallsLaws.{IsOneAnswerOfHeld, IsOneAnswerOfNew, IsOneAnswerOfTakeGiven, IsOneAnswerOfTypesOf};
ghost use Rattle.cqlp_c.specs.ColumnsLaws.{IsOneAnswerOfColumns};
ghost use Rattle.cqlp_c.specs.EncodeLaws.{IsOneAnswerOfEncode, WrittenHasHeader, WrittenReadsBack};
ghost use Rattle.cqlp_c.specs.PagesLaws.{IsOneAnswerOfPageBegin, IsOneAnswerOfPagePut, PutPagesAreRead};
ghost use Rattle.cqlp_c.specs.PromisedNumbers.{ArePromised};
ghost use Rattle.cqlp_c.specs.Stretched.{FinishEndsThere, IsOneAnswerOfSkip, IsOneAnswerOverSkips, NewBegins, NextReadsOn, SkipGivesUp};
ghost use Rattle.cqlp_c.specs.contracts.client.CqlpClient as client;
ghost use Rattle.cqlp_c.specs.contracts.columns.CqlpColumns as columns;
ghost use Rattle.cqlp_c.specs.contracts.handle.CqlpDecoder as decoder;
ghost use Rattle.cqlp_c.specs.contracts.server.CqlpServer as server;

use crate::client::CqlpClient;
use crate::columns::CqlpColumns;
use crate::handle::CqlpDecoder;
use crate::server::CqlpServer;
use std::marker::Send;

/// After the same bytes and events, over the same input and with the same room, there is one answer: the same batch with
/// the same events, up to where the content of the last was gathered, if it was.
pub fn one_answer_of_next()
    ensures { IsOneAnswerOfNext }
{}

/// The bytes of the input where `cqlp_next` says that a content lies are the content.
pub fn contents_lie_there()
    ensures { ContentsLieThere }
{}

/// A stream has one verdict, so that of a check is the one that a decoder gives that is given the stream in pieces.
pub fn one_answer_of_check()
    ensures { IsOneAnswerOfCheck }
{}

/// Where memory is granted, `cqlp_client_new` has one answer. So have the other calls on a core, and `cqlp_write_header`,
/// whose clauses are equations.
pub fn one_answer_of_client_new()
    ensures { IsOneAnswerOfClientNew }
{}

/// Where memory is granted, `cqlp_server_new` has one answer. So have the other calls on a server's core, whose clauses are
/// equations.
pub fn one_answer_of_server_new()
    ensures { IsOneAnswerOfServerNew }
{}

/// A handle reads its stream in stretches, as cqlp_skip defines them: a decoder that was made is at the start of the first; over the next
/// piece `cqlp_next` puts the next events of the present one, just these, at their offsets in the whole stream; where `cqlp_skip` passes
/// over a frame, the present one is given up and the next begins after the frame; and what `cqlp_finish` answers is the end of the whole.
pub fn calls_read_stretches()
    ensures new { NewBegins }
    ensures next { NextReadsOn }
    ensures skip { SkipGivesUp }
    ensures finish { FinishEndsThere }
{}

/// From one place of a stream, over the same input, a call of `cqlp_next` has one batch, and leaves one place, also over skips.
pub fn one_answer_over_skips()
    ensures { IsOneAnswerOverSkips }
{}

/// From one state of a decoder, at one place of its stream, there is one answer of `cqlp_skip`, and one place after it; the decoder is as it
/// was, or at the start of a stream, where all decoders within the same rules are alike (`one_answer_of_new` of cqlp_laws).
pub fn one_answer_of_skip()
    ensures { IsOneAnswerOfSkip }
{}

/// The event of a frame shows a core what the header of the frame does.
pub fn frames_are_heard()
    ensures { FramesAreHeard }
{}

/// What `cqlp_server_event` writes is the header of an event that was pushed, which answers no request of a client.
pub fn events_are_pushed()
    ensures { EventsArePushed }
{}

/// Of the same events, with the same contents and room, `cqlp_encode` has one answer, but where memory is refused, and but for the event that it names
/// where no frame has them.
pub fn one_answer_of_encode()
    ensures { IsOneAnswerOfEncode }
{}

/// What `cqlp_encode` writes of a header and fields is read as these: a decoder within whose limits the frame is says of the bytes the
/// header with their length, the fields and an end, and nothing else.
pub fn written_events_are_read()
    ensures header { WrittenHasHeader }
    ensures written { WrittenReadsBack }
{}

/// Of the same events, with the same contents and room, `cqlp_page_begin` and, from one page, `cqlp_page_put` have one answer, but where memory
/// is refused. So has `cqlp_page_measure`, and `cqlp_page_end` of one page, whose clauses are equations.
pub fn one_answer_of_pages()
    ensures begin { IsOneAnswerOfPageBegin }
    ensures put { IsOneAnswerOfPagePut }
{}

/// What `cqlp_page_begin` and calls of `cqlp_page_put` have put of a page that `cqlp_page_end` says is whole is read as the events of its head and
/// of the cells that were put: a decoder within whose limits the page is says of the bytes its header with their length, these events and an end,
/// and nothing else.
pub fn put_pages_are_read()
    ensures { PutPagesAreRead }
{}

/// At one place of a stream of which nothing was refused, over the same input and with columns that have the same cells, `cqlp_columns_next` has one answer:
/// one batch, one event, up to where a content lies, and the same columns after it.
pub fn one_answer_of_columns()
    ensures { IsOneAnswerOfColumns }
{}

/// A handle that has none gets a decoder at the start of a stream by `cqlp_new` and `cqlp_new_lenient`, or none for one reason, but where memory is refused.
pub fn one_answer_of_new()
    ensures { IsOneAnswerOfNew }
{}

/// `cqlp_held` gives the same numbers of one decoder, which stays as it is.
pub fn one_answer_of_held()
    ensures { IsOneAnswerOfHeld }
{}

/// Of one decoder `cqlp_types_of` puts one table, or none for one reason, but where memory is refused.
pub fn one_answer_of_types_of()
    ensures { IsOneAnswerOfTypesOf }
{}

/// Given the same, one decoder has one answer to `cqlp_give`, gives back the same, and is at one place of its stream.
pub fn one_answer_of_give()
    ensures { IsOneAnswerOfGive }
{}

/// One decoder has one answer to `cqlp_take_given`, gives back the same, and is at one place of its stream, but where memory is refused.
pub fn one_answer_of_take_given()
    ensures { IsOneAnswerOfTakeGiven }
{}

/// Of the same limits and kinds `cqlp_columns_new` makes columns without rows, wherever they lie, or none for one reason, but where memory is refused.
pub fn one_answer_of_columns_new()
    ensures { IsOneAnswerOfColumnsNew }
{}

/// Of one column `cqlp_columns_get` gives one place of each array, and one length.
pub fn one_answer_of_columns_get()
    ensures { IsOneAnswerOfColumnsGet }
{}

/// Columns are the same after each `cqlp_columns_clear`: without rows, and with their arrays where they lay.
pub fn one_answer_of_columns_clear()
    ensures { IsOneAnswerOfColumnsClear }
{}

/// The numbers of codes, stops, ends, tags, marks, opcodes, fields, kinds, reasons, phases and replies, which include/cqlp.h has with `CQLP_` before each name.
pub fn promised_numbers()
    ensures { ArePromised }
{}

/// What a handle owns is the same to every thread, so a handle may go from one to another between two calls. Of a page, whose types may be nested, that is
/// not said.
pub fn handles_cross()
    ensures decoder { IsSend decoder.the_row }
    ensures client { IsSend client.the_row }
    ensures columns { IsSend columns.the_row }
    ensures server { IsSend server.the_row }
{
    crosses::<CqlpDecoder>();
    crosses::<CqlpClient>();
    crosses::<CqlpColumns>();
    crosses::<CqlpServer>();
}

/// A type whose values may go from one thread to another.
fn crosses<T: Send>()
    ensures { IsSend T.row }
{}
