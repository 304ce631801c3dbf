//! Bytes that are a text. A text that comes in pieces is looked at once, when its last byte is there: `accepts` in partial.rt.

ghost use Rattle.std.specs.Prelude.{◌≡◌};
ghost use Rattle.std.specs.Str.{is_utf8};

/// Whether these bytes are UTF-8. ASCII, which most texts are, is found out eight bytes at a time.
#[tactic(auto, using(crate::proofs::Texts::utf8_true, crate::proofs::Texts::utf8_false, crate::proofs::Texts::utf8_of_ascii))]
#[inline]
pub fn is_text(bytes: &[u8]) -> bool
    ensures { result ≡ is_utf8 bytes.now }
{
    bytes.is_ascii() || is_wide_text(bytes)
}

/// The same, a character at a time.
#[tactic(auto, using(crate::proofs::Texts::utf8_true, crate::proofs::Texts::utf8_false))]
#[inline(never)]
fn is_wide_text(bytes: &[u8]) -> bool
    ensures { result ≡ is_utf8 bytes.now }
{
    match str::from_utf8(bytes) {
        Ok(_) => true,
        Err(_) => false,
    }
}
