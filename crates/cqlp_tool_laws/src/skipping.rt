//! Laws of one answer of streams that are shown with refused frames passed over.

ghost use Rattle.cqlp_tool_laws.specs.Skipping.{IsOneAnswer, IsOneCheck, IsOneReport};

/// From the same bytes, where nothing outside fails and no frame ends past the greatest offset, there is one verdict, one text
/// for each output, and one answer whether a frame was passed over: however the bytes came in reads.
pub fn one_answer()
    ensures { IsOneAnswer }
{}

/// And one status and one line of the verdict, on the error output.
pub fn one_report()
    ensures { IsOneReport }
{}

/// The same of a check, on the output.
pub fn one_check()
    ensures { IsOneCheck }
{}
