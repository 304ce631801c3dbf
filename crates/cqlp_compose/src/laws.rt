//! Laws of frames and pages that are written of their events.

ghost use Rattle.cqlp_compose.specs.Laws.{OneAnswerOfClose, OneAnswerOfTake, OneAnswerOfWrite};
ghost use Rattle.cqlp_compose.specs.PageLaws.{OneAnswer as OneAnswerOfCells, PageHasItsEvents, PageIsBuilt};
ghost use Rattle.cqlp_compose.specs.CellPages.{CellPageIsComposed, OneCellPage};
ghost use Rattle.cqlp_compose.specs.BatchLaws.{BatchesAreComposed, OneAnswer as OneAnswerOfPut, OneAnswerOfBegin, PageIsComposed, PageIsWritten};

/// An event has one answer and leaves one state; or memory was refused, and nothing changed.
pub fn one_answer_of_take()
    ensures { OneAnswerOfTake }
{}

/// The same events end as one frame, or for one reason as none, unless memory was refused.
pub fn one_answer_of_close()
    ensures { OneAnswerOfClose }
{}

/// Of the same events the same bytes are written, or for one reason none, unless memory was refused.
pub fn one_answer_of_write()
    ensures { OneAnswerOfWrite }
{}

/// An event of a cell has one answer, unless memory was refused: then nothing changed, or at the last event of a cell the cell is forgotten.
pub fn one_answer_of_cells()
    ensures { OneAnswerOfCells }
{}

/// What is written in all of a page, its head and then its cells in pieces, is the frame that has these events.
pub fn page_has_its_events()
    ensures { PageHasItsEvents }
{}

/// Where a frame is built of the events of a page that was written so, it is that page, and its bytes are the same.
pub fn page_is_built()
    ensures { PageIsBuilt }
{}

/// Of the same events, the same rows and as many bytes of cells, there is one page and one head, unless memory was refused.
pub fn one_answer_of_begin()
    ensures { OneAnswerOfBegin }
{}

/// An event of a cell that is put has one answer and puts the same bytes, unless memory was refused: then the cell under way is forgotten, and
/// nothing is put.
pub fn one_answer_of_put()
    ensures { OneAnswerOfPut }
{}

/// Of the events of a page whose cells are each one event the same bytes are written, which are those that a [`Composer`](crate::Composer) writes
/// of them; or memory is refused.
pub fn one_cell_page()
    ensures page { OneCellPage }
    ensures composed { CellPageIsComposed }
{}

/// A page that is begun, whose cells are all put in batches, and that has ended: what was written in all is the frame that has these events.
pub fn page_is_written()
    ensures { PageIsWritten }
{}

/// What a [`Composer`](crate::Composer) writes of the events of a page is what was written of it in pieces or put in batches, whatever length
/// its header says; or memory is refused.
pub fn page_is_composed()
    ensures pieces { PageIsComposed }
    ensures batches { BatchesAreComposed }
{}
