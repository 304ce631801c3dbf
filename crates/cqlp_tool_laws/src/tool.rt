//! Laws of one answer: what is written of a stream, and how that ends, is decided by its bytes, but for what only the
//! outside decides.

ghost use Rattle.cqlp_text.specs.PageText.{no_page};
ghost use Rattle.cqlp_tool_laws.specs.Tool.{ChecksEndOnce, EndsOnce, IsCheckedOnce, IsCheckedRightly, IsRenderedOnce, IsRenderedWhole};
ghost use Rattle.cqlp_tool_laws.specs.Tool.{IsReadAfterText, IsReadUnrefused, IsShownOnce, IsShownRightly};
ghost use Rattle.cqlp_render.specs.declared.text_form.TextForm.{TextForm};
ghost use Rattle.cqlp_render.specs.declared.text_form.TextForm.TheVariants as forms;

/// Finished, all lines of the stream were written, and its end is reported; and two runs that end alike wrote the same.
pub fn one_answer_of_render_events()
    ensures whole { IsRenderedWhole forms.Lines }
    ensures once { IsRenderedOnce forms.Lines }
{}

/// Finished, all pages of the stream were written, and its end is reported; and two runs that end alike wrote the same.
pub fn one_answer_of_render_rows()
    ensures whole { IsRenderedWhole (forms.Pages no_page) }
    ensures once { IsRenderedOnce (forms.Pages no_page) }
{}

/// A stream has one text in each form, one verdict line and one status: where `show`, `rows` and `show_as` write it, where `command` has no words and
/// where `execute` shows standard input. Two commands to which the outside did the same end alike, and two that end alike
/// wrote the same.
pub fn one_answer_of_show_as()
    ensures right { (form : TextForm) → IsShownRightly form }
    ensures ends { (form : TextForm) → EndsOnce form }
    ensures once { (form : TextForm) → IsShownOnce form }
{}

/// A stream has one verdict line and one status, also where `execute` checks standard input; two commands to which the
/// outside did the same end alike, and two that end alike wrote the same.
pub fn one_answer_of_check()
    ensures right { IsCheckedRightly }
    ensures ends { ChecksEndOnce }
    ensures once { IsCheckedOnce }
{}

/// A command makes its last read only after the text of all events of the bytes read before was given to the output, and
/// where those are refused nothing. So none follows a refusal, nor a write fault, at which some of that text is missing.
pub fn reads_after_text()
    ensures show_as { (form : TextForm) → IsReadAfterText form }
    ensures check { IsReadUnrefused }
{}
