//! What a BATCH is called in a summary.

ghost use Rattle.std.specs.Prelude.{◌≡◌, take};
ghost use Rattle.cqlp_capture_exchanges.specs.Labels.{label};
ghost use Rattle.cqlp_capture_exchanges.specs.Notings.{batch_name};

use crate::label::Label;

/// How many bytes of a statement's text there are at most.
pub(crate) const MOST: usize = 250;

/// The word `BATCH`, and the text of the first statement or its first bytes.
pub(crate) fn batch_name(text: &[u8]) -> Label
    ensures { result ≡ label (batch_name text.now) 0 0 }
{
    let mut name = Label::new();
    name.add(b"BATCH ");
    name.add(front_of(text));
    name
}

/// The first bytes of a text.
fn front_of(text: &[u8]) -> &[u8]
    ensures { result.now ≡ take 250 text.now }
{
    &text[..MOST.min(text.len())]
}
