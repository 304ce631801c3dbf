//! Laws of the reading of cells.

ghost use Rattle.cqlp_cell.specs.Lenient.{LenientGoesOn, RawIsNoneOfItsType};

/// A lenient reading of a cell says what another says, and goes on only where that refuses a content that its type does not
/// have, or further bytes in a value than its fields.
pub fn lenient_goes_on()
    ensures { LenientGoesOn }
{}

/// Of a known type, raw bytes are read by a lenient caller alone, and just of a content that is none of the type.
pub fn raw_is_none_of_its_type()
    ensures { RawIsNoneOfItsType }
{}
