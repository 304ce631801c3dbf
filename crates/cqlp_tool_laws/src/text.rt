//! Laws of one answer: what a call writes is decided by its arguments, but for whether its target failed.

ghost use Rattle.cqlp_tool_laws.specs.Text.{BytesAreOfferedOnce, CannotOpenLineIsWrittenOnce, CellTextIsWrittenOnce};
ghost use Rattle.cqlp_tool_laws.specs.Text.{EndingLineIsWrittenOnce, EventLineIsWrittenOnce, JsonLineIsWrittenOnce, PagePartIsWrittenOnce};
ghost use Rattle.cqlp_tool_laws.specs.Text.{CsvPartIsWrittenOnce, JsonPartIsWrittenOnce, TextIsWrittenOnce};

/// Of a cell there is one text; at a fault of the target, a front of it was written.
pub fn one_answer_of_cell_text()
    ensures { CellTextIsWrittenOnce }
{}

/// Of an event at an offset there is one line; at a fault of the target, a front of it was written.
pub fn one_answer_of_event_line()
    ensures { EventLineIsWrittenOnce }
{}

/// Of an event at an offset there is one JSON line; at a fault of the target, a front of it was written.
pub fn one_answer_of_json_line()
    ensures { JsonLineIsWrittenOnce }
{}

/// Of an event at a place of a page there is one text; at a fault of the target, a front of it was written. The place
/// after the event is one equation of the call.
pub fn one_answer_of_page_part()
    ensures { PagePartIsWrittenOnce }
{}

/// Of an event at a place of a page there is one text as JSON; at a fault of the target, a front of it was written. The
/// place after the event is one equation of the call.
pub fn one_answer_of_json_part()
    ensures { JsonPartIsWrittenOnce }
{}

/// Of an event at a place of a page there is one text as CSV; at a fault of the target, a front of it was written. The
/// place after the event is one equation of the call.
pub fn one_answer_of_csv_part()
    ensures { CsvPartIsWrittenOnce }
{}

/// Of an ending there is one line; at a fault of the target, a front of it was written.
pub fn one_answer_of_ending_line()
    ensures { EndingLineIsWrittenOnce }
{}

/// Of a file there is one line; at a fault of the target, a front of it was written.
pub fn one_answer_of_cannot_open_line()
    ensures { CannotOpenLineIsWrittenOnce }
{}

/// A text is written as it is; at a fault of the target, a front of it was written.
pub fn one_answer_of_put_text()
    ensures { TextIsWrittenOnce }
{}

/// All bytes go to a target, or a front of them, where it fails.
pub fn one_answer_of_offer()
    ensures { BytesAreOfferedOnce }
{}
