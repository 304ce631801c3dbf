//! Laws of which types are reported. No code needs them.

ghost use Rattle.cqlp_capture_prepared.specs.Laws.{KeepsTheLatest, OneAnswerOfNew, ReportsAll, ReportsNoOthers};

/// Whatever happens on a connection, a page never gets other types than the last PREPARED said of the id that the last EXECUTE under its stream
/// id named, if nothing came under that stream id since.
pub fn no_other_types()
    ensures { ReportsNoOthers }
{}

/// A page gets these types, where no more different statements were prepared and never more EXECUTEs waited than there are places for.
pub fn all_types()
    ensures { ReportsAll }
{}

/// A statement that was prepared or executed while it was known stays known, until as many others were prepared or executed as there are places for.
pub fn latest_stay()
    ensures { KeepsTheLatest }
{}

/// `PreparedTypes::new` has one answer where memory is granted. The clauses of all other calls are equations, where memory is granted.
pub fn one_answer()
    ensures { OneAnswerOfNew }
{}
