//! Laws of the definitions.

ghost use Rattle.cqlp_message.specs.Laws.{HasItsSize};
ghost use Rattle.cqlp_message.specs.Plain.{DerivedFlagsAgree};

/// What spells a frame has the nine bytes of a header, the bytes of its parts, and those after them.
pub fn has_its_size()
    ensures { HasItsSize }
{}

/// With the flags of the parts that are there, a frame disagrees in its message or nowhere.
pub fn derived_flags_agree()
    ensures { DerivedFlagsAgree }
{}
