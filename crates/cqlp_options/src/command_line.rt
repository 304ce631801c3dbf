//! Command lines.

ghost use Rattle.std.specs.Prelude.{◌≡◌, ◌≤◌, IfOk, IfSome, Some, codes, length, map, nat_lt};
ghost use Rattle.std.specs.List.{list_any};
ghost use Rattle.std.specs.Str.{bytes_eq};
ghost use Rattle.clap.specs.Words.{found_of, rows_of, subcommand_rows_of};
ghost use Rattle.cqlp_options.specs.CommandLines.{HasInputAlone, IsWithin, files_of};
ghost use Rattle.cqlp_options.specs.Matched.{AskFor, IsLineOf, IsNumber};

use crate::bad_value::{BadValue, NoLine};
use crate::capture::CaptureOptions;
use crate::matched::short_number;
use crate::merge::MergeOptions;
use crate::no_task::{NoTask, no_task_of};
use crate::options::Options;
use crate::program::program;
use crate::reported::report_all;
use clap::error::ErrorKind;
use clap::{ArgMatches, Command, Error};
use cqlp_note::LimitRange;
use std::alloc::{AllocError, Global};
use std::convert::AsStr;

/// How many queries a conversation may have.
pub const QUERIES: LimitRange = LimitRange {
    least: 1,
    greatest: 1_000,
};

/// What a command line asks for.
#[derive(Drop)]
pub enum CommandLine<'a> {
    /// A task with a stream.
    Stream(Options<'a>),
    /// A conversation of a client and a server, with this many queries: 1 to 1,000.
    Loop { queries: u16 },
    /// A task with a capture.
    Capture(CaptureOptions<'a>),
    /// Summaries are added.
    Merge(MergeOptions<'a>),
}

impl<'a> CommandLine<'a> {
    /// Reads the words after the program's name. What is no command line of the program, and a request for help or the
    /// version, is an error, whose text says what is wrong or what was asked for.
    pub fn parse(alloc: Global, words: &'a [&'a str]) -> Result<CommandLine<'a>, NoTask>
        ensures within { IfOk result IsWithin }
        ensures alone { IfOk result HasInputAlone }
        ensures words { IfOk result (AskFor (map (λ word. word.now) words.entry.now)) }
    {
        match parsed(alloc, words) {
            Ok(line) => Ok(line),
            Err(error) => Err(no_task(alloc, words, &error)),
        }
    }

    /// Whether a file that it names has this path.
    pub fn has_file(&self, path: &str) -> bool
        ensures { result ≡ list_any (λ file. bytes_eq file path.now) (files_of self.now) }
    {
        match self {
            CommandLine::Stream(options) => options.file == path,
            CommandLine::Loop { .. } => false,
            CommandLine::Capture(options) => options.file == path || options.more.contains(&path),
            CommandLine::Merge(options) => options.file == path || options.more.contains(&path),
        }
    }

    /// Whether it names more than one file.
    pub fn has_several_files(&self) -> bool
        ensures { result ≡ nat_lt 1 (length (files_of self.now)) }
    {
        match self {
            CommandLine::Capture(options) => !options.more.is_empty(),
            CommandLine::Merge(options) => !options.more.is_empty(),
            CommandLine::Stream(_) | CommandLine::Loop { .. } => false,
        }
    }
}

/// What there is in place of a command line. The parser reports words as they are, so for its text they are read once
/// more, each in one line.
fn no_task(alloc: Global, words: &[&str], error: &Error) -> NoTask {
    let Ok(texts) = report_all(alloc, words) else {
        return NoTask::NoMemory;
    };
    match parsed(alloc, &texts) {
        Ok(_) => no_task_of(alloc, error),
        Err(error) => no_task_of(alloc, &error),
    }
}

fn parsed<'a, S: AsStr>(alloc: Global, words: &'a [S]) -> Result<CommandLine<'a>, Error>
    ensures within { IfOk result IsWithin }
    ensures alone { IfOk result HasInputAlone }
    ensures words { IfOk result (AskFor (map S.text words.entry.now)) }
{
    let mut program = program(alloc)?;
    let matches = program.try_get_matches_from_mut(words)?;
    match line_of(alloc, &matches) {
        Ok(line) => Ok(line),
        Err(NoLine::BadValue(bad)) => Err(bad_value(alloc, &mut program, bad)),
        Err(NoLine::NoMemory) => Err(Error::from(AllocError)),
    }
}

fn bad_value(alloc: Global, program: &mut Command<'_>, bad: BadValue) -> Error {
    match mistake_of(alloc, program, bad) {
        Ok(error) => error,
        Err(error) => Error::from(error),
    }
}

/// The mistake that a bad value is; of a pattern the place of its fault too.
fn mistake_of(
    alloc: Global,
    program: &mut Command<'_>,
    bad: BadValue,
) -> Result<Error, AllocError> {
    let BadValue::Pattern { fault, character } = bad else {
        return program.error(ErrorKind::ValueValidation, bad.text());
    };
    let fault = fault.text();
    let text = format!(in alloc;
        "invalid value for '--statement-regex <REGEX>': at character {character}, {fault}"
    )?;
    program.error(ErrorKind::ValueValidation, &text)
}

/// What the words of a command line were matched to, if its values are good.
fn line_of<'a>(alloc: Global, matches: &ArgMatches<'a>) -> Result<CommandLine<'a>, NoLine>
    ensures within { IfOk result IsWithin }
    ensures alone { IfOk result HasInputAlone }
    ensures words { IfOk result (IsLineOf (subcommand_rows_of matches.now)) }
{
    match matches.subcommand().ok_or(BadValue::Range)? {
        ("loop", matches) => {
            let queries = queries_of(matches).ok_or(BadValue::Range)?;
            Ok(CommandLine::Loop { queries })
        }
        ("capture", matches) => {
            let options = CaptureOptions::matched(alloc, matches)?;
            Ok(CommandLine::Capture(options))
        }
        ("merge", matches) => {
            let options = MergeOptions::matched(alloc, matches)?;
            Ok(CommandLine::Merge(options))
        }
        (name, matches) => {
            let options = Options::matched(name, matches).ok_or(BadValue::Range)?;
            Ok(CommandLine::Stream(options))
        }
    }
}

fn queries_of(matches: &ArgMatches<'_>) -> Option<u16>
    ensures within { IfSome result (λ queries. (1 ≤ queries) × (queries ≤ 1000)) }
    ensures number { IfSome result (λ queries. IsNumber 16 (codes "queries") (rows_of (found_of matches.now)) (Some queries)) }
{
    let queries = short_number(matches, "queries")?;
    if QUERIES.contains(u32::from(queries)) {
        Some(queries)
    } else {
        None
    }
}
