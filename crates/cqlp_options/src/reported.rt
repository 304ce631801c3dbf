//! Words as a mistake in them is reported.

ghost use Rattle.std.specs.Prelude.{◌≡◌, ◌<◌, ◌++◌, ◌∷◌, [], IfOk, OnOk, map, string_bytes};
ghost use Rattle.std.specs.Char.{digit_char};
ghost use Rattle.cqlp_options.specs.Reported.{reported, reported_char};

use std::alloc::{AllocError, Global};

/// The words, each in one line: a character that does not print is written as its two hexadecimal digits.
pub(crate) fn report_all(alloc: Global, words: &[&str]) -> Result<Vec<String>, AllocError>
    ensures { IfOk result (λ texts. map string_bytes texts.items ≡ map (λ word. reported word.now) words.now) }
{
    let mut texts = Vec::new(alloc);
    for word in words {
        texts.push(report(alloc, word)?)?;
    }
    Ok(texts)
}

/// A word in one line.
fn report(alloc: Global, word: &str) -> Result<String, AllocError>
    ensures { IfOk result (λ text. string_bytes text ≡ reported word.now) }
{
    let mut text = String::new(alloc);
    for c in word.chars() {
        push_reported(&mut text, c)?;
    }
    Ok(text)
}

fn push_reported(text: &mut String, c: char) -> Result<(), AllocError>
    ensures { OnOk result (string_bytes text.new ≡ string_bytes text.old ++ reported_char c) }
{
    if !c.is_ascii_control() {
        return text.push(c);
    }
    text.push_str("\\x")?;
    push_digit(text, u32::from(c) / 16)?;
    push_digit(text, u32::from(c) % 16)
}

/// Appends a hexadecimal digit.
fn push_digit(text: &mut String, digit: u32) -> Result<(), AllocError>
    requires { digit < 16 }
    ensures { OnOk result (string_bytes text.new ≡ string_bytes text.old ++ digit_char digit ∷ []) }
{
    text.push(char::from_digit(digit, 16).unwrap())
}
