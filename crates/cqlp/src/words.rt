//! Words that need not be text.

ghost use Rattle.std.specs.Prelude.{◌≡◌, ◌&&◌, IfOk, IsUtf8, None, is_some, string_bytes};
ghost use Rattle.std.specs.List.{list_any};
ghost use Rattle.std.specs.Str.{bytes_eq};
ghost use Rattle.cqlp_options.specs.CommandLines.{files_of};

use cqlp_options::CommandLine;
use libc::STDIN_FILENO;
use std::alloc::{AllocError, Global};
use std::env::{Env, FillError};
use std::fmt::Write;

/// A word after the program's name.
#[derive(Drop)]
pub struct Argument {
    /// The word, where each byte that is no text is written as its two hexadecimal digits.
    pub(crate) text: String,
    /// Its own bytes, where they are no text.
    pub(crate) raw: Option<Vec<u8>>,
}

impl Argument {
    fn new(alloc: Global, bytes: Vec<u8>) -> Result<Argument, AllocError>
        ensures { IfOk result (λ w. IsUtf8 bytes.items → (string_bytes w.text ≡ bytes.items) × (w.raw ≡ None)) }
    {
        match String::from_utf8(bytes) {
            Ok(text) => Ok(Argument { text, raw: None }),
            Err(error) => {
                let raw = error.into_bytes();
                let text = escaped(alloc, &raw)?;
                let raw = Some(raw);
                Ok(Argument { text, raw })
            }
        }
    }
}

/// All words after the program's name.
pub fn read_words<R: Env + AllocGlobal>(rt: &R) -> Result<Vec<Argument>, AllocError> {
    let mut words = Vec::new(rt.alloc());
    for place in 1..usize::MAX {
        let Some(bytes) = read_word(rt, place)? else {
            break;
        };
        words.push(Argument::new(rt.alloc(), bytes)?)?;
    }
    Ok(words)
}

/// The bytes of the word at a place, if there is one. A buffer that is too short is doubled.
fn read_word<R: Env + AllocGlobal>(rt: &R, place: usize) -> Result<Option<Vec<u8>>, AllocError> {
    let mut bytes = Vec::new(rt.alloc());
    let mut room = 256usize;
    for _ in 0..usize::BITS {
        bytes.resize(room, 0)?;
        match rt.arg(place, bytes.as_mut_slice()) {
            Ok(len) => {
                bytes.truncate(len);
                return Ok(Some(bytes));
            }
            Err(FillError::NotPresent) => return Ok(None),
            Err(FillError::TooLong) => room = room.saturating_mul(2),
        }
    }
    Err(AllocError)
}

fn escaped(alloc: Global, bytes: &[u8]) -> Result<String, AllocError> {
    let mut text = String::new(alloc);
    for chunk in bytes.utf8_chunks() {
        text.push_str(chunk.valid())?;
        for byte in chunk.invalid() {
            write!(text, "\\x{byte:02x}")?;
        }
    }
    Ok(text)
}

/// The texts of the words.
pub fn texts(alloc: Global, words: &[Argument]) -> Result<Vec<&str>, AllocError> {
    let mut texts = Vec::new(alloc);
    for word in words {
        texts.push(word.text.as_str())?;
    }
    Ok(texts)
}

/// Why the command line's words were not read.
#[derive(Clone, Copy)]
pub enum NotRead {
    NoMemory,
    /// The word at this place names a file that cannot be opened.
    CannotOpen(usize),
}

impl From<AllocError> for NotRead {
    fn from(_error: AllocError) -> NotRead {
        NotRead::NoMemory
    }
}

/// Opens the files whose names are no text, and has their words name them by one: a file that is alone, opened in the place of standard input,
/// by `-`, and each of several by its descriptor.
pub fn redirect(alloc: Global, words: &mut [Argument]) -> Result<(), NotRead> {
    if words.iter().all(|word| word.raw.is_none()) {
        return Ok(());
    }
    let files = raw_files(alloc, words)?;
    for place in &files.places {
        let Some(word) = words.get_mut(*place) else {
            continue;
        };
        let name = match &word.raw {
            Some(raw) if files.are_several => descriptor_name(alloc, raw)?,
            Some(raw) => input_name(alloc, raw)?,
            None => continue,
        };
        word.text = name.ok_or(NotRead::CannotOpen(*place))?;
    }
    Ok(())
}

/// Files whose names are no text.
#[derive(Drop)]
struct RawFiles {
    /// The places of the words that name them.
    places: Vec<usize>,
    /// Whether the command line names more than one file.
    are_several: bool,
}

fn raw_files(alloc: Global, words: &[Argument]) -> Result<RawFiles, AllocError> {
    let mut places = Vec::new(alloc);
    let texts = texts(alloc, words)?;
    let Ok(line) = CommandLine::parse(alloc, texts.as_slice()) else {
        return Ok(RawFiles {
            places,
            are_several: false,
        });
    };
    for (place, word) in words.iter().enumerate() {
        if is_raw_file(&line, word) {
            places.push(place)?;
        }
    }
    let are_several = line.has_several_files();
    Ok(RawFiles {
        places,
        are_several,
    })
}

/// Whether a word is no text, and names one of the command line's files.
fn is_raw_file(line: &CommandLine<'_>, word: &Argument) -> bool
    ensures { result ≡ (is_some word.now.raw && list_any (λ file. bytes_eq file (string_bytes word.now.text)) (files_of line.now)) }
{
    word.raw.is_some() && line.has_file(word.text.as_str())
}

/// What names a file that is opened as standard input, if it can be.
fn input_name(alloc: Global, name: &[u8]) -> Result<Option<String>, AllocError> {
    if !open_as_input(name) {
        return Ok(None);
    }
    let text = String::from_str(alloc, "-")?;
    Ok(Some(text))
}

/// What names a file by a descriptor that is opened for it, if it can be.
fn descriptor_name(alloc: Global, name: &[u8]) -> Result<Option<String>, AllocError> {
    let descriptor = os::open_read(name);
    if descriptor < 0 {
        return Ok(None);
    }
    let text = format!(in alloc; "/dev/fd/{descriptor}")?;
    Ok(Some(text))
}

/// Whether a file was opened as standard input: the least descriptor that is free is the one just closed.
fn open_as_input(name: &[u8]) -> bool {
    libc::close(STDIN_FILENO);
    os::open_read(name) == STDIN_FILENO
}
