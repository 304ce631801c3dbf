//! The text of a statement, as far as it is kept.

ghost use Rattle.std.specs.Prelude.{◌≡◌, IfOk, take};
ghost use Rattle.cqlp_statement_file.specs.Texts.{front_of, kept, text_front};

use std::alloc::{AllocError, Global};
use std::marker::Model;

/// How many bytes of a text are kept at most: as many as the first 256 bytes of a PREPARE have of its text.
const MOST: usize = 252;

/// The text of a statement, as far as it is kept.
#[derive(Drop)]
pub struct StatementText {
    text: String,
    is_whole: bool,
}

impl Model for StatementText {
    ghost use Rattle.std.specs.Prelude.{string_bytes};
    ghost use Rattle.cqlp_statement_file.specs.Texts.{StatementText, statement_text};

    ghost Value = { StatementText };

    ghost view = { λ t. statement_text (string_bytes t.text) t.is_whole };
}

impl StatementText {
    /// The first bytes of a text, as far as they are UTF-8.
    pub(crate) fn new(alloc: Global, text: &str) -> Result<Self, AllocError>
        ensures { IfOk result (λ t. t ≡ kept text.now) }
    {
        let front = front_of(text);
        let is_whole = front.len() == text.len();
        let text = String::from_str(alloc, front)?;
        Ok(StatementText { text, is_whole })
    }

    /// What is kept.
    pub fn as_str(&self) -> &str
        ensures { result.now ≡ self.now.text }
    {
        self.text.as_str()
    }

    /// Whether that is all of it.
    pub fn is_whole(&self) -> bool
        ensures { result ≡ self.now.is_whole }
    {
        self.is_whole
    }
}

/// The longest front of a text that is kept.
fn front_of(text: &str) -> &str
    ensures { result.now ≡ front_of text.now }
{
    text_front(first_bytes(text.as_bytes(), MOST))
}

/// So many bytes at most.
fn first_bytes(text: &[u8], most: usize) -> &[u8]
    ensures { result.now ≡ take most text.now }
{
    &text[..text.len().min(most)]
}

/// The longest front of bytes that is UTF-8.
fn text_front(bytes: &[u8]) -> &str
    ensures { result.now ≡ text_front bytes.now }
{
    match str::from_utf8(bytes) {
        Ok(text) => text,
        // SAFETY: the bytes up to there are UTF-8.
        Err(error) => unsafe { str::from_utf8_unchecked(&bytes[..error.valid_up_to()]) },
    }
}
