//! Laws of the progress that is written while a file is read.

ghost use Rattle.cqlp_tool.specs.ProgressLaws.{BeginsWithNothing, OneAnswer};

/// Before the first read nothing was written.
pub fn begins_with_nothing()
    ensures { BeginsWithNothing }
{}

/// Where the target does not fail, the bytes that were read and the file's length say what was written.
pub fn one_answer_of_progress()
    ensures { OneAnswer }
{}
