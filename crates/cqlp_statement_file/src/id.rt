//! Ids of statements as cqlsh writes them.

ghost use Rattle.std.specs.Prelude.{◌≡◌, IfOk, option_map};
ghost use Rattle.cqlp_statement_file.specs.Ids.{digits_of, id_of, is_id};

use hex::FromHexError;
use std::alloc::{AllocError, Global};

/// How many digits an id has at most: two for each byte.
const MOST_DIGITS: usize = 128;

/// The bytes of an id, of which each is two hexadecimal digits, after 0x or nothing: 1 to 64 of them.
pub fn id_of(alloc: Global, text: &str) -> Result<Option<Vec<u8>>, AllocError>
    ensures { IfOk result (λ id. option_map (λ bytes. bytes.items) id ≡ id_of text.now) }
{
    let digits = digits_of(text.as_bytes());
    if !is_id(digits) {
        return Ok(None);
    }
    match hex::decode(alloc, digits) {
        Ok(id) => Ok(Some(id)),
        Err(FromHexError::OutOfMemory) => Err(AllocError),
        Err(_) => Ok(None),
    }
}

/// Whether there are as many digits as an id may have.
fn is_id(digits: &[u8]) -> bool
    ensures { result ≡ is_id digits.now }
{
    !digits.is_empty() && digits.len() <= MOST_DIGITS
}

/// What is behind 0x, where that is before it.
fn digits_of(text: &[u8]) -> &[u8]
    ensures { result.now ≡ digits_of text.now }
{
    match text {
        [b'0', b'x', digits @ ..] => digits,
        _ => text,
    }
}
