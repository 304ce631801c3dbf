//! Laws of fields of CSV. No code needs them.

ghost use Rattle.std.specs.Prelude.{◌≡◌, ℕ, List, ◌∷◌, ◌++◌, Some, false};
ghost use Rattle.cqlp_row_text.specs.Quotes.{doubled};
ghost use Rattle.cqlp_row_text.specs.Reading.{begins_with_quote, read_field};

/// A reader of CSV reads the text of a field back, up to the quote after it, and after that no quote comes.
pub fn fields_read_back()
    ensures { (text rest : List ℕ) → begins_with_quote rest ≡ false
        → read_field (doubled 34 34 text ++ 34 ∷ rest) ≡ Some (text, rest) }
{}
