//! Laws of rows: what is written of pages is the text of the values in them.

ghost use Rattle.cqlp_tool_laws.specs.Rows.{CellIsItsValue, FrameIsItsValues, FramesAreTheirValues};
ghost use Rattle.cqlp_tool_laws.specs.Rows.{NestingIsLimited};
ghost use Rattle.cqlp_tool_laws.specs.Rows.{ValuesAreRendered, ValuesAreShown};

/// The text of the events of a cell is that of its value, that of a frame's is that of the values in it, and the same holds
/// of frames one after the other. It has room for 64 values in one another, and no limits allow more.
pub fn rows_are_their_values()
    ensures cell { CellIsItsValue }
    ensures frame { FrameIsItsValues }
    ensures frames { FramesAreTheirValues }
    ensures nesting { NestingIsLimited }
{}

/// Of a stream of whole frames within the limits, read with types, the text of the values in their pages is written, and
/// nothing else, unless a target or the reader failed, memory was wanting or the turns ran out. The command reports that
/// the stream is whole.
pub fn rows_write_their_values()
    ensures rendered { ValuesAreRendered }
    ensures shown { ValuesAreShown }
{}
