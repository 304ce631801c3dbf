//! What a file gives of statements that were prepared before a capture.

ghost use Rattle.std.specs.Prelude.{◌≡◌, [], None, IfOk, IsOk};
ghost use Rattle.cqlp_text.specs.Endings.{IsStatusOfTask};

use crate::command_line::cannot_open;
use cqlp_decode::SinkFault;
use cqlp_note::{OfStd, Target};
use cqlp_render::conclude;
use cqlp_statement_file::{StatementTexts, StatementsFault, read_statements};
use cqlp_statement_types::{StatementTypes, read_statement_types};
use cqlp_text::exit_status::{FAULT, NOT_WHOLE};
use cqlp_text::{Ending, Pen, TextWriter};
use std::fs::File;
use std::rt::Files;

/// What is known of statements that were prepared before a capture.
#[derive(Drop)]
pub(crate) struct Given {
    pub(crate) texts: StatementTexts,
    pub(crate) types: StatementTypes,
}

/// What is taken of a file.
#[derive(Clone, Copy)]
pub(crate) enum Gives {
    Texts,
    Types,
}

/// Why a file gives nothing.
#[derive(Clone, Copy)]
pub(crate) enum NotGiven<'a> {
    /// The file cannot be opened.
    NotOpened {
        file: &'a str,
    },
    /// It has none.
    Fault {
        file: &'a str,
        fault: StatementsFault,
    },
}

/// What the file gives that is asked for, and nothing where none is.
pub(crate) fn given_for<'a, R: Files + AllocGlobal>(
    rt: &R,
    asked: Option<&'a str>,
    gives: Gives,
) -> Result<Given, NotGiven<'a>>
    ensures none { IfOk result (λ given. asked.entry ≡ None → (given.texts ≡ []) × (given.types ≡ [])) }
    ensures found { asked.entry ≡ None → IsOk result }
{
    match asked {
        Some(file) => given_in(rt, file, gives),
        None => Ok(Given {
            texts: StatementTexts::new(rt.alloc()),
            types: StatementTypes::new(rt.alloc()),
        }),
    }
}

fn given_in<'a, R: Files + AllocGlobal>(
    rt: &R,
    file: &'a str,
    gives: Gives,
) -> Result<Given, NotGiven<'a>> {
    match File::open(rt, file) {
        Ok(opened) => match read_given(rt, opened, gives) {
            Ok(given) => Ok(given),
            Err(fault) => Err(NotGiven::Fault { file, fault }),
        },
        Err(_) => Err(NotGiven::NotOpened { file }),
    }
}

fn read_given<R: Files + AllocGlobal>(
    rt: &R,
    file: R::File,
    gives: Gives,
) -> Result<Given, StatementsFault> {
    let mut file = OfStd::new(file);
    match gives {
        Gives::Texts => Ok(Given {
            texts: read_statements(rt.alloc(), &mut file)?,
            types: StatementTypes::new(rt.alloc()),
        }),
        Gives::Types => Ok(Given {
            texts: StatementTexts::new(rt.alloc()),
            types: read_statement_types(rt.alloc(), &mut file)?,
        }),
    }
}

/// Reports why a file gives nothing. Answers the exit status: 1 where the file has something else, and 3 where a file or the memory failed.
pub(crate) fn put_not_given<E: Target>(not_given: NotGiven<'_>, err: E) -> (u8, E)
    ensures { IsStatusOfTask result.0 }
{
    match not_given {
        NotGiven::NotOpened { file } => cannot_open(file, err),
        NotGiven::Fault { file, fault } => put_fault(file, fault, err),
    }
}

fn put_fault<E: Target>(file: &str, fault: StatementsFault, err: E) -> (u8, E)
    ensures { IsStatusOfTask result.0 }
{
    match fault {
        StatementsFault::Read => conclude(Ending::ReadFault, err),
        StatementsFault::NoMemory => conclude(Ending::NoMemory, err),
        StatementsFault::NoObject { line } => put_bad(file, Some(line), NO_OBJECT, err),
        StatementsFault::TooLong { line } => put_bad(file, Some(line), TOO_LONG, err),
        StatementsFault::NoStatement => put_bad(file, None, NO_STATEMENT, err),
        StatementsFault::NoColumn => put_bad(file, None, NO_COLUMN, err),
    }
}

const NO_OBJECT: &str =
    "no row of system.prepared_statements, system_schema.columns or system_schema.types";

const TOO_LONG: &str = "a line of more than 1048576 bytes";

const NO_STATEMENT: &str =
    "no statement; write it by cqlsh -e \"SELECT JSON * FROM system.prepared_statements\"";

const NO_COLUMN: &str =
    "no column; add what cqlsh -e \"SELECT JSON * FROM system_schema.columns\" writes";

/// Writes what is wrong with a file, or with a line of it.
fn put_bad<E: Target>(file: &str, line: Option<u64>, words: &str, mut err: E) -> (u8, E)
    ensures { IsStatusOfTask result.0 }
{
    let mut writer = TextWriter::over(&mut err);
    let written = put_words(&mut writer, file, line, words).and(writer.flush());
    let _ = writer.into_target();
    match written {
        Ok(()) => (NOT_WHOLE, err),
        Err(SinkFault) => (FAULT, err),
    }
}

fn put_words<P: Pen>(
    writer: &mut TextWriter<P>,
    file: &str,
    line: Option<u64>,
    words: &str,
) -> Result<(), SinkFault> {
    writer.put(b"cqlp: ")?;
    writer.put_in_one_line(file.as_bytes())?;
    if let Some(line) = line {
        writer.put(b":")?;
        writer.put_number(line)?;
    }
    writer.put(b": ")?;
    writer.put(words.as_bytes())?;
    writer.put(b"\n")
}
