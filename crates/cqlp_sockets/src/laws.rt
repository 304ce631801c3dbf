//! The law of causes.

ghost use Rattle.cqlp_sockets.specs.Causes.{OneCause};

/// After a call of an [`OfSocket`](crate::OfSocket) that says no error one cause is kept. After an error it is the error's, which the outside decides.
pub fn one_cause()
    ensures { OneCause }
{}
