//! Laws of a window. No code needs them.

ghost use Rattle.cqlp_packet_order.specs.Laws.{KeepsAll, LeavesInOrder, PassesAsKept, WaitsWithin};

/// The packets that left and those that wait are those that came, each once.
pub fn keeps_all()
    ensures { KeepsAll }
{}

/// Where all packets have a time and none was late, nor out of order with no window, they leave in the order of their times.
pub fn leaves_in_order()
    ensures { LeavesInOrder }
{}

/// Where `pop_due` gives none, the packets that wait are within the limits.
pub fn waits_within()
    ensures { WaitsWithin }
{}

/// A packet that passes does what it would if it were kept.
pub fn passes_as_kept()
    ensures { PassesAsKept }
{}
