//! Laws of the numbers that are promised.

ghost use Rattle.cqlp_tool_laws.specs.Numbers.{NumbersOfEvents, NumbersOfRows, TurnsOfCaptures};

/// The numbers that are promised of captures: how many reads are made at most, 2^32; how many frames are read at
/// one time, and within which limits.
pub fn promised_numbers()
    ensures turns { TurnsOfCaptures }
    ensures events { NumbersOfEvents }
    ensures rows { NumbersOfRows }
{}
