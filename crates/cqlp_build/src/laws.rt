//! Laws of the builder.

ghost use Rattle.cqlp_build.specs.Laws.{OneAnswer, OnlyBoundsRefuse, StreamIsBuilt};

/// Of a stream of frames, cut anywhere, the frames are built, where nothing is refused.
pub fn stream_is_built()
    ensures { StreamIsBuilt }
{}

/// Of a stream of frames nothing is refused first but as a limit says, or for want of memory.
pub fn only_bounds_refuse()
    ensures { OnlyBoundsRefuse }
{}

/// An event has one answer, unless memory was refused.
pub fn one_answer()
    ensures { OneAnswer }
{}
