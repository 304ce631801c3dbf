//! Which frames are spelled.

ghost use Rattle.cqlp_message.specs.Fitting.{FitJustIfSpelled, WhatFitsIsSpelled, WhatIsSpelledFits, WrittenAreBytes};
ghost use Rattle.cqlp_message.specs.Pages.{PagesAreFrames};

/// A frame that nothing keeps from being spelled is spelled by the bytes that are written of it.
pub fn what_fits_is_spelled()
    ensures { WhatFitsIsSpelled }
{}

/// A frame that some bytes spell is one that nothing keeps from being spelled.
pub fn what_is_spelled_fits()
    ensures { WhatIsSpelledFits }
{}

/// What is written of a frame are bytes.
pub fn written_are_bytes()
    ensures { WrittenAreBytes }
{}

/// Nothing keeps a frame from being spelled exactly where some bytes spell it.
pub fn fit_just_if_spelled()
    ensures { FitJustIfSpelled }
{}

/// A page that can be begun, and then all its cells, are together the bytes of the frame with those cells.
pub fn pages_are_frames()
    ensures { PagesAreFrames }
{}
