//! The line of a frame that was passed over.

ghost use Rattle.std.specs.Prelude.{◌≡◌, ◌++◌, ◌∷◌, [], codes, decimal};
ghost use Rattle.cqlp_text.specs.Lines.{spaced};
ghost use Rattle.cqlp_text.specs.Outputs.{AppendsText, written};
ghost use Rattle.cqlp_text.specs.Written.{Writes};
ghost use Rattle.cqlp_render_skip.specs.Texts as texts;

use cqlp_decode::SinkFault;
use cqlp_note::Target;
use cqlp_skip::Skipped;
use cqlp_text::{Pen, TextWriter, reason_name};

/// Appends the line of a frame that was passed over. A fault is the target's own.
pub(crate) fn skipped_line<W: Target>(skipped: &Skipped, w: &mut W) -> Result<(), SinkFault>
    ensures { AppendsText (written W.Target w.old) (texts.skipped_line skipped.now.at skipped.now.refusal) result
        (written W.Target w.new) }
{
    let mut writer = TextWriter::over(w);
    let Ok(()) = put_skipped(&mut writer, skipped) else {
        let _ = writer.into_target();
        return Err(SinkFault);
    };
    let passed_on = writer.flush();
    let _ = writer.into_target();
    passed_on
}

/// Takes the line of a frame that was passed over.
fn put_skipped<P: Pen>(writer: &mut TextWriter<P>, skipped: &Skipped) -> Result<(), SinkFault>
    ensures { Writes writer.old (texts.skipped_line skipped.now.at skipped.now.refusal) result writer.new }
{
    writer.put(b"skipped ")?;
    writer.put_number(skipped.at)?;
    writer.put(b" ")?;
    writer.put(reason_name(skipped.refusal.why).as_bytes())?;
    writer.put(b" at ")?;
    writer.put_number(skipped.refusal.at)?;
    writer.put(b"\n")
}
