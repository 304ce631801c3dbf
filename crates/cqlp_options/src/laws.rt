//! Laws of the numbers of a command line. No code needs them.

ghost use Rattle.cqlp_options.specs.CommandLines.{RangeOfQueries};

/// The numbers that are promised: how many queries a conversation may have.
pub fn promised_numbers()
    ensures queries { RangeOfQueries }
{}
