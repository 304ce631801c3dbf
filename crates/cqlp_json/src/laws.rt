//! Laws of strings. No code needs them.

ghost use Rattle.std.specs.Prelude.{◌≡◌, ℕ, List, ◌∷◌, ◌++◌, Some, true};
ghost use Rattle.cqlp_json.specs.Reading.{read_string, shows};
ghost use Rattle.cqlp_json.specs.Strings.{escape};

/// A reader of JSON reads the text back that was escaped, up to the quote after it.
pub fn strings_read_back()
    ensures { (text rest : List ℕ) → read_string (escape text ++ 34 ∷ rest) ≡ Some (text, rest) }
{}

/// A text that was escaped has no control character, after the quote before it.
pub fn strings_have_no_controls()
    ensures { (text : List ℕ) → shows 34 (escape text) ≡ true }
{}
