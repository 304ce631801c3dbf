//! Laws of a lenient reading.

ghost use Rattle.cqlp_laws.specs.Lenient.{LenientOnlyGoesOn};

/// A lenient reading says what one says that is not, and goes on only where that refuses a content that its type does not have,
/// further bytes in a value than its fields, or the id of a type option; where the same tables are given.
pub fn lenient_only_goes_on()
    ensures { LenientOnlyGoesOn }
{}
