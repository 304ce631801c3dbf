//! The command line, from its words to the exit status.

ghost use Rattle.std.specs.Prelude.{◌≡◌, ◌≢◌, ◌<◌, ◌≤◌, [], false, true, IfOk, IfSome, IsSome, codes, option_map};
ghost use Rattle.cqlp_note.specs.Limits.{first_bad};
ghost use Rattle.cqlp_options.specs.CommandLines.{IsWithin};
ghost use Rattle.cqlp_options.specs.CaptureLimits.{AreWithin as AreWithinRanges};
ghost use Rattle.cqlp_options.specs.Ports.{AreWithin, named};
ghost use Rattle.cqlp_options.specs.declared.capture.CaptureTask.TheVariants as tasks;
ghost use Rattle.cqlp_tcp_connections.specs.Limits.{is_in_range};
ghost use Rattle.cqlp_capture_streams.specs.declared.buffering.Buffering.TheVariants.{Line};
ghost use Rattle.cqlp_tool.specs.Capturing.{DoesCaptureTask, DoesCaptureTaskKnowing, IsCaptureOfInput, SplitsToFolder, end_filter_of, filter_of};
ghost use Rattle.cqlp_tool.specs.Capturing.{form_of, intervals_as, moment_of, reply_kind_of, statements_of, style_of, summary_by, values_shown};
ghost use Rattle.cqlp_tool.specs.CommandLines.{Complains, DoesTask, Executes, Helps, NeedsNoInput, Performs, ReadsNoCapture};
ghost use Rattle.cqlp_tool.specs.CommandLines.{ReportsFault, ReportsWrong, PrintsNoTask, form_of_events, form_of_rows, rules_for};
ghost use Rattle.cqlp_tool.specs.Files.{DoesOn};
ghost use Rattle.cqlp_text.specs.Endings.{IsStatusOfTask, cannot_open_line as cannot_open_line_of};
ghost use Rattle.cqlp_text.specs.Outputs.{written};
ghost use Rattle.cqlp_render.specs.Streams.{streams};
ghost use Rattle.cqlp_text.specs.declared.ending.Ending.{Ending};

use crate::capture_files::{CaptureFiles, MorePaths};
use crate::conversing::converse;
use crate::folder::{Folder, is_folder};
use crate::followed_capture::FollowedCapture;
use crate::limits::{exchange_limits_of, streams_limits_of};
use crate::marks::MARK;
use crate::path_lines::PathLines;
use crate::progress::Progress;
use crate::statements::{Given, Gives, given_for, put_not_given};
use cqlp_capture_events::write_events;
use cqlp_capture_exchanges::{
    Attribute, EndFilter, ExchangeFilter, ExchangeForm, IntervalsAs, LineStyle, Moment, Naming,
    ReplyKind, StatementPart, SummaryBy, ValuesShown, write_exchanges,
};
use cqlp_capture_merge::{FileNames, MergedAs, merge_summaries};
use cqlp_capture_rows::write_rows;
use cqlp_capture_streams::{Buffering, CaptureInput, StreamsLimits, write_streams};
use cqlp_decode::SinkFault;
use cqlp_note::{IoFault, OfStd, Source, Target};
use cqlp_options::{
    AskedEnd, AskedKind, AskedLines, AskedTime, AtRefusal, CaptureOptions, CaptureTask,
    CommandLine, DEFAULT_LIMITS, EventsAs, ExchangeOptions, ExchangesAs, MergeOptions, NoTask,
    Options, RowsAs, SumAs, SummaryBy as AskedBy, Task,
};
use cqlp_render::{TextForm, check, conclude, show, show_as};
use cqlp_render_skip::{check_skipping, show_skipping};
use cqlp_row_text::TablePlace;
use cqlp_text::exit_status::{BAD_COMMAND_LINE, DONE, FAULT};
use cqlp_text::{Ending, PagePlace, cannot_open_line, put_text};
use std::alloc::Allocator;
use std::fs::{self, File, Metadata, OpenFile};
use std::io;
use std::net::{Net, TcpListener, TcpStream};
use std::rt::Files;

const NANOSECONDS_PER_MILLISECOND: u64 = 1_000_000;

/// What the program does: `words` are those after its name, and `input` is standard input. Without words that is what
/// `show -` does; with words, what `execute` does with what they are read as. Answers the exit status, and the two
/// outputs.
///
/// What is wrong with a command line is written to `err`, and help that was asked for to `out`.
pub fn command<R, I: CaptureInput, O: Target, E: Target>(
    rt: &R,
    words: &[&str],
    input: &mut I,
    out: O,
    err: E,
) -> (u8, O, E)
where
    R: Files + Net<Listener = TcpListener, Stream = TcpStream> + AllocGlobal,
    ensures performs { let view = streams I.Source O.Target E.Target in
        Performs words.now (view input.old out err) result.0 (view input.new result.1 result.2) }
    ensures untouched { result.0 ≡ 2 → input.new ≡ input.old }
{
    let mut nowhere: Option<OfStd<Vec<u8>>> = None;
    command_with_notes(rt, words, input, out, err, &mut nowhere)
}

/// What `command` does; and while a capture of more than 64 MB is read from a file, `notes` is given a line after each further 64 MB. The
/// program gives standard error for it, where that is a terminal.
pub fn command_with_notes<R, I: CaptureInput, O: Target, E: Target, N: Target + Drop>(
    rt: &R,
    words: &[&str],
    input: &mut I,
    out: O,
    err: E,
    notes: &mut Option<N>,
) -> (u8, O, E)
where
    R: Files + Net<Listener = TcpListener, Stream = TcpStream> + AllocGlobal,
    ensures performs { let view = streams I.Source O.Target E.Target in
        Performs words.now (view input.old out err) result.0 (view input.new result.1 result.2) }
    ensures untouched { result.0 ≡ 2 → input.new ≡ input.old }
    ensures quiet { words.now ≡ [] → notes.new ≡ notes.old }
{
    if words.is_empty() {
        return show(&rt.alloc(), DEFAULT_LIMITS, input, out, err);
    }
    let line = CommandLine::parse(rt.alloc(), words);
    execute(rt, line, input, out, err, notes)
}

/// Does what a command line asks for: a task with a stream or a capture, which is standard input or a file, or a conversation; or writes why it
/// starts none. Answers the exit status, and the two outputs.
#[inline(never)]
pub fn execute<R, I: CaptureInput, O: Target, E: Target, N: Target + Drop>(
    rt: &R,
    line: Result<CommandLine<'_>, NoTask>,
    input: &mut I,
    out: O,
    err: E,
    notes: &mut Option<N>,
) -> (u8, O, E)
where
    R: Files + Net<Listener = TcpListener, Stream = TcpStream> + AllocGlobal,
    requires within { IfOk line IsWithin }
    ensures executes { let view = streams I.Source O.Target E.Target in
        Executes R.File.Read line.entry (view input.old out err) result.0 (view input.new result.1 result.2) }
    ensures status { IfOk line.entry (λ _. IsStatusOfTask result.0) }
    ensures fault_at_most { result.0 ≤ 3 }
    ensures wrong { result.0 ≡ 2 → IsSome (O.contents out) → IsSome (E.contents err) →
        ReportsWrong (written O.Target out) (written E.Target err)
        (written O.Target result.1) (written E.Target result.2) }
    ensures untouched { NeedsNoInput line.entry → input.new ≡ input.old }
    ensures quiet { ReadsNoCapture line.entry → notes.new ≡ notes.old }
{
    match line {
        Ok(CommandLine::Stream(options)) => stream(rt, options, input, out, err),
        Ok(CommandLine::Loop { queries }) => converse(rt, queries, out, err),
        Ok(CommandLine::Capture(options)) => capture(rt, options, input, out, err, notes),
        Ok(CommandLine::Merge(options)) => merge(rt, options, input, out, err),
        Err(no_task) => print_no_task(no_task, out, err),
    }
}

/// Does the task with a stream: standard input, or a file that is opened.
#[inline(never)]
fn stream<R: Files + AllocGlobal, I: Source, O: Target, E: Target>(
    rt: &R,
    options: Options<'_>,
    input: &mut I,
    out: O,
    err: E,
) -> (u8, O, E)
    requires { first_bad options.limits ≡ Ok tt }
    ensures task { let view = streams I.Source O.Target E.Target in
        DoesOn R.File.Read options.entry.file.now (DoesTask options.entry.task (rules_for options.entry))
        (view input.old out err) result.0 (view input.new result.1 result.2) }
    ensures status { IsStatusOfTask result.0 }
    ensures untouched { options.entry.file.now ≢ codes "-" → input.new ≡ input.old }
{
    let heap = rt.alloc();
    if options.file == "-" {
        return perform(&heap, options, input, out, err);
    }
    match File::open(rt, options.file) {
        Ok(file) => perform(&heap, options, &mut OfStd::new(file), out, err),
        Err(_) => {
            let (status, err) = cannot_open(options.file, err);
            (status, out, err)
        }
    }
}

/// Reads what is asked for of statements that were prepared before, and does the task with a capture.
fn capture<R: Files + AllocGlobal, I: CaptureInput, O: Target, E: Target, N: Target + Drop>(
    rt: &R,
    options: CaptureOptions<'_>,
    input: &mut I,
    out: O,
    err: E,
    notes: &mut Option<N>,
) -> (u8, O, E)
    requires ports { AreWithin options.ports }
    requires limits { AreWithinRanges options.limits }
    ensures captures { let view = streams I.Source O.Target E.Target in
        IsCaptureOfInput options.entry → DoesCaptureTask Line options.entry.limits options.entry.task (named options.entry.ports)
        (view input.old out err) result.0 (view input.new result.1 result.2) }
    ensures status { IsStatusOfTask result.0 }
    ensures untouched { options.entry.file.now ≢ codes "-" → input.new ≡ input.old }
    ensures quiet { options.entry.file.now ≡ codes "-" → notes.new ≡ notes.old }
{
    match given_for(rt, asked_statements(options.task), gives(options.task)) {
        Ok(given) => capture_knowing(rt, options, given, input, out, err, notes),
        Err(not_given) => {
            let (status, err) = put_not_given(not_given, err);
            (status, out, err)
        }
    }
}

/// Opens the files of a capture, and does the task with them, where this is known of statements. Of a regular file lines are written in blocks; of
/// standard input and any other file, as a pipe, at once. Where files are long, `notes` gets how much of them was read.
fn capture_knowing<'a, R, I: CaptureInput, O: Target, E: Target, N: Target + Drop>(
    rt: &'a R,
    options: CaptureOptions<'a>,
    given: Given,
    input: &mut I,
    out: O,
    err: E,
    notes: &mut Option<N>,
) -> (u8, O, E)
where
    R: Files + AllocGlobal,
    requires ports { AreWithin options.ports }
    requires limits { AreWithinRanges options.limits }
    ensures captures { let view = streams I.Source O.Target E.Target in
        options.entry.file.now ≡ codes "-" → options.entry.follow ≡ false
        → DoesCaptureTaskKnowing given.texts given.types Line options.entry.limits options.entry.task (named options.entry.ports)
        (view input.old out err) result.0 (view input.new result.1 result.2) }
    ensures status { IsStatusOfTask result.0 }
    ensures untouched { options.entry.file.now ≢ codes "-" → input.new ≡ input.old }
    ensures quiet { options.entry.file.now ≡ codes "-" → notes.new ≡ notes.old }
{
    if let Some(folder) = missing_folder(rt, options.task) {
        let (status, err) = cannot_open(folder, err);
        return (status, out, err);
    }
    if options.file == "-" && options.follow {
        return follow(rt, &options, given, input, out, err);
    }
    if options.follow {
        return follow_growing(rt, &options, given, out, err);
    }
    if options.file == "-" {
        return read_capture(rt, &options, given, Buffering::Line, input, out, err);
    }
    let Ok(file) = File::open(rt, options.file) else {
        let (status, err) = cannot_open(options.file, err);
        return (status, out, err);
    };
    let more = options.more.as_slice();
    if let Some(path) = missing_file(rt, more) {
        let (status, err) = cannot_open(path, err);
        return (status, out, err);
    }
    let buffering = buffering_for(&file);
    let length = long_length(rt, &file, more);
    let mut files: CaptureFiles<'_, R, I> = CaptureFiles::new(rt, file, MorePaths::Named(more));
    match (notes.take(), length) {
        (Some(notes), Some(length)) => {
            let mut input = Progress::new(files, length, notes);
            read_capture(rt, &options, given, buffering, &mut input, out, err)
        }
        _ => read_capture(rt, &options, given, buffering, &mut files, out, err),
    }
}

/// Does the task with the captures whose paths the input names, a line each, as their lines come.
#[cold]
#[inline(never)]
fn follow<'a, R: Files + AllocGlobal, I: CaptureInput, O: Target, E: Target>(
    rt: &'a R,
    options: &CaptureOptions<'_>,
    given: Given,
    input: &'a mut I,
    out: O,
    err: E,
) -> (u8, O, E)
    requires ports { AreWithin options.now.ports }
    requires limits { AreWithinRanges options.now.limits }
    ensures status { IsStatusOfTask result.0 }
{
    let mut lines = PathLines::new(input);
    let first = match lines.advance() {
        Ok(true) => File::open(rt, lines.path()).ok(),
        Ok(false) | Err(IoFault) => None,
    };
    let Some(first) = first else {
        let (status, err) = cannot_open(or_none_named(lines.path()), err);
        return (status, out, err);
    };
    let mut files: CaptureFiles<'_, R, I> = CaptureFiles::new(rt, first, MorePaths::Listed(lines));
    let (status, out, err) = read_capture(
        rt,
        options,
        given,
        Buffering::Line,
        &mut files,
        out,
        err,
    );
    match files.missing() {
        Some(path) => {
            let (status, err) = cannot_open(or_none_named(path), err);
            (status, out, err)
        }
        None => (status, out, err),
    }
}

/// Does the task with a file as it grows, or with the captures of a folder, in the order in which they are written, until standard input is a pipe that
/// has ended.
#[cold]
#[inline(never)]
fn follow_growing<'a, R: Files + AllocGlobal, O: Target, E: Target>(
    rt: &'a R,
    options: &CaptureOptions<'a>,
    given: Given,
    out: O,
    err: E,
) -> (u8, O, E)
    requires ports { AreWithin options.now.ports }
    requires limits { AreWithinRanges options.now.limits }
    ensures status { IsStatusOfTask result.0 }
{
    let Ok(Some(mut capture)) = FollowedCapture::open(rt, options.file) else {
        let (status, err) = cannot_open(options.file, err);
        return (status, out, err);
    };
    let line = Buffering::Line;
    let (status, out, err) = read_capture(rt, options, given, line, &mut capture, out, err);
    match capture.missing() {
        Some(path) => {
            let (status, err) = cannot_open(path, err);
            (status, out, err)
        }
        None => (status, out, err),
    }
}

/// What cannot be opened, where standard input named this.
fn or_none_named(path: &str) -> &str {
    if path.is_empty() {
        "a capture: standard input names none"
    } else {
        path
    }
}

/// Opens files of summaries, and adds these.
#[inline(never)]
fn merge<'a, R: Files + AllocGlobal, I: CaptureInput, O: Target, E: Target>(
    rt: &'a R,
    options: MergeOptions<'a>,
    input: &mut I,
    out: O,
    err: E,
) -> (u8, O, E)
    ensures status { IsStatusOfTask result.0 }
    ensures untouched { options.entry.file.now ≢ codes "-" → input.new ≡ input.old }
{
    let first = options.file;
    let form = merged_as(options.form);
    let more = options.more.as_slice();
    if first == "-" {
        return merge_summaries(rt.alloc(), FileNames { first, more }, form, input, out, err);
    }
    let Ok(file) = File::open(rt, first) else {
        let (status, err) = cannot_open(first, err);
        return (status, out, err);
    };
    if let Some(path) = missing_file(rt, more) {
        let (status, err) = cannot_open(path, err);
        return (status, out, err);
    }
    let mut files: CaptureFiles<'_, R, I> = CaptureFiles::new(rt, file, MorePaths::Named(more));
    merge_summaries(
        rt.alloc(),
        FileNames { first, more },
        form,
        &mut files,
        out,
        err,
    )
}

fn merged_as(asked: SumAs) -> MergedAs {
    match asked {
        SumAs::Table => MergedAs::Table,
        SumAs::Json => MergedAs::Objects,
    }
}

/// The first of these files that cannot be opened.
fn missing_file<'a, R: Files>(rt: &R, paths: &[&'a str]) -> Option<&'a str> {
    for path in paths {
        if !is_found(rt, *path) {
            return Some(*path);
        }
    }
    None
}

/// Whether a regular file can be opened, or there is another one, as a pipe. That is not opened before its turn, since who writes to it would lose
/// its reader.
fn is_found<R: Files>(rt: &R, path: &str) -> bool {
    match fs::metadata(rt, path) {
        Ok(metadata) if metadata.is_file() => File::open(rt, path).is_ok(),
        Ok(_) => true,
        Err(_) => false,
    }
}

/// The folder that a task with a capture asks for, if there is none with this path.
fn missing_folder<'a, R: Files>(rt: &R, asked: CaptureTask<'a>) -> Option<&'a str>
    ensures { IfSome result (λ folder. asked.entry ≡ tasks.Streams folder) }
{
    match asked {
        CaptureTask::Streams { folder } if !is_folder(rt, folder) => Some(folder),
        CaptureTask::Streams { .. }
        | CaptureTask::Exchanges(_)
        | CaptureTask::Events { .. }
        | CaptureTask::Rows { .. } => None,
    }
}

/// The file with statements that a task with a capture asks for.
fn asked_statements<'a>(asked: CaptureTask<'a>) -> Option<&'a str>
    ensures { result ≡ statements_of asked.entry }
{
    match asked {
        CaptureTask::Exchanges(asked) => asked.statements,
        CaptureTask::Rows { statements, .. } => statements,
        CaptureTask::Streams { .. } | CaptureTask::Events { .. } => None,
    }
}

/// What a task with a capture takes of a file with statements.
fn gives(asked: CaptureTask<'_>) -> Gives {
    match asked {
        CaptureTask::Rows { .. } => Gives::Types,
        CaptureTask::Exchanges(_) | CaptureTask::Streams { .. } | CaptureTask::Events { .. } => {
            Gives::Texts
        }
    }
}

/// When the lines of a capture in this file are written.
fn buffering_for<F: OpenFile>(file: &F) -> Buffering {
    match file.metadata() {
        Ok(metadata) if metadata.is_file() => Buffering::Block,
        _ => Buffering::Line,
    }
}

/// How long these files are together, if they are regular ones and longer than 64 MB.
fn long_length<R: Files, F: OpenFile>(rt: &R, first: &F, more: &[&str]) -> Option<u64>
    ensures { IfSome result (λ length. 64_000_000 < length) }
{
    let mut length = regular_length(first.metadata())?;
    for path in more {
        length = length.saturating_add(regular_length(fs::metadata(rt, *path))?);
    }
    if length > MARK { Some(length) } else { None }
}

/// How long a file is, if it is a regular one.
fn regular_length(metadata: io::Result<Metadata>) -> Option<u64> {
    match metadata {
        Ok(metadata) if metadata.is_file() => Some(metadata.len()),
        _ => None,
    }
}

/// Does the task with a capture, whose folder is there if it asks for one, where this is known of statements. Out of line, as what else is seldom called:
/// each copy would have the options on the stack once more, whose pages cost more than a small capture.
#[inline(never)]
fn read_capture<R: Files + AllocGlobal, I: CaptureInput, O: Target, E: Target>(
    rt: &R,
    options: &CaptureOptions<'_>,
    given: Given,
    buffering: Buffering,
    input: &mut I,
    out: O,
    err: E,
) -> (u8, O, E)
    requires ports { AreWithin options.now.ports }
    requires limits { AreWithinRanges options.now.limits }
    ensures task { let view = streams I.Source O.Target E.Target in
        DoesCaptureTaskKnowing given.texts given.types buffering options.now.limits options.now.task (named options.now.ports)
        (view input.old out err) result.0 (view input.new result.1 result.2) }
    ensures status { IsStatusOfTask result.0 }
{
    let Given { texts, types } = given;
    let ports = options.ports.as_slice();
    let limits = streams_limits_of(&options.limits, buffering);
    match options.task {
        CaptureTask::Streams { folder } => {
            split_to_folder(rt, folder, limits, ports, input, out, err)
        }
        CaptureTask::Exchanges(asked) => {
            write_exchanges(
                rt.alloc(),
                limits,
                exchange_limits_of(&options.limits),
                ports,
                texts,
                filter_of(asked),
                form_of(asked.form),
                buffering,
                input,
                out,
                err,
            )
        }
        CaptureTask::Events { connection } => {
            write_events(rt.alloc(), limits, ports, connection, input, out, err)
        }
        CaptureTask::Rows { connection, .. } => {
            write_rows(
                rt.alloc(),
                limits,
                ports,
                types,
                connection,
                input,
                out,
                err,
            )
        }
    }
}

/// Splits a capture into the streams of its connections, whose files are made in the folder.
#[inline(never)]
fn split_to_folder<R: Files + AllocGlobal, I: CaptureInput, O: Target, E: Target>(
    rt: &R,
    folder: &str,
    limits: StreamsLimits,
    ports: &[u16],
    input: &mut I,
    out: O,
    err: E,
) -> (u8, O, E)
    requires { is_in_range limits.connections ≡ true }
    ensures splits { let view = streams I.Source O.Target E.Target in
        SplitsToFolder limits ports.now (view input.old out err) result.0 (view input.new result.1 result.2) }
    ensures status { IsStatusOfTask result.0 }
{
    let folder = Folder::new(rt, rt.alloc(), folder);
    let (status, _, out, err) = write_streams(rt.alloc(), limits, ports, input, folder, out, err);
    (status, out, err)
}

/// What is asked of exchanges, with the time in nanoseconds.
fn filter_of(asked: ExchangeOptions<'_>) -> ExchangeFilter
    ensures { result ≡ filter_of asked.entry }
{
    let ExchangeOptions {
        slow,
        errors,
        opcode,
        kind,
        client,
        node,
        since,
        until,
        statement,
        pattern,
        statements: _,
        connection,
        form: _,
    } = asked;
    ExchangeFilter {
        slow: slow.map(|ms| u64::from(ms) * NANOSECONDS_PER_MILLISECOND),
        errors,
        opcode,
        kind: kind.map(reply_kind_of),
        client: client.map(end_filter_of),
        node: node.map(end_filter_of),
        since: moment_of(since),
        until: moment_of(until),
        statement: statement.map(StatementPart::of),
        pattern,
        connection,
    }
}

fn reply_kind_of(asked: AskedKind) -> ReplyKind
    ensures { result ≡ reply_kind_of asked }
{
    match asked {
        AskedKind::Result(kind) => ReplyKind::Result(kind),
        AskedKind::Error(code) => ReplyKind::Error(code),
        AskedKind::Response(opcode) => ReplyKind::Response(opcode),
    }
}

fn end_filter_of(asked: AskedEnd) -> EndFilter
    ensures { result ≡ end_filter_of asked }
{
    EndFilter {
        address: asked.address,
        port: asked.port,
    }
}

fn moment_of(asked: Option<AskedTime>) -> Option<Moment>
    ensures { result ≡ option_map moment_of asked }
{
    match asked {
        Some(AskedTime::After(nanoseconds)) => Some(Moment::After(nanoseconds)),
        Some(AskedTime::At(nanoseconds)) => Some(Moment::At(nanoseconds)),
        None => None,
    }
}

fn form_of(asked: ExchangesAs) -> ExchangeForm
    ensures { result ≡ form_of asked }
{
    match asked {
        ExchangesAs::Lines { lines, values } => ExchangeForm::Lines(style_of(lines, values)),
        ExchangesAs::Json { values } => ExchangeForm::Json(values_shown(values)),
        ExchangesAs::Csv => ExchangeForm::Csv,
        ExchangesAs::Summary(by) => ExchangeForm::Summary(summary_by(by)),
        ExchangesAs::SummaryJson(by) => ExchangeForm::SummaryJson(summary_by(by)),
        ExchangesAs::Intervals { seconds, json } => {
            ExchangeForm::Intervals(seconds, intervals_as(json))
        }
        ExchangesAs::Histogram => ExchangeForm::Histogram,
    }
}

fn intervals_as(is_json: bool) -> IntervalsAs
    ensures { result ≡ intervals_as is_json }
{
    if is_json {
        IntervalsAs::Json
    } else {
        IntervalsAs::Lines
    }
}

fn values_shown(asked: bool) -> ValuesShown
    ensures { result ≡ values_shown asked }
{
    if asked {
        ValuesShown::Yes
    } else {
        ValuesShown::No
    }
}

fn style_of(asked: AskedLines, values: bool) -> LineStyle
    ensures { result ≡ style_of asked values }
{
    LineStyle {
        is_utc: asked.utc,
        has_ends: asked.ends,
        values: values_shown(values),
    }
}

fn summary_by(asked: AskedBy) -> SummaryBy
    ensures { result ≡ summary_by asked }
{
    match asked {
        AskedBy::Statement { literal: false } => SummaryBy::Statement(Naming::Fingerprint),
        AskedBy::Statement { literal: true } => SummaryBy::Statement(Naming::Literal),
        AskedBy::Table => SummaryBy::Table,
        AskedBy::Client => SummaryBy::Attribute(Attribute::Client),
        AskedBy::Node => SummaryBy::Attribute(Attribute::Node),
        AskedBy::Opcode => SummaryBy::Attribute(Attribute::Opcode),
        AskedBy::Error => SummaryBy::Attribute(Attribute::Error),
    }
}

/// Does the task with a stream.
fn perform<A: Allocator, I: Source, O: Target, E: Target>(
    heap: &A,
    options: Options<'_>,
    input: &mut I,
    out: O,
    err: E,
) -> (u8, O, E)
    requires { first_bad options.limits ≡ Ok tt }
    ensures task { let view = streams I.Source O.Target E.Target in
        DoesTask options.entry.task (rules_for options.entry)
        (view input.old out err) result.0 (view input.new result.1 result.2) }
    ensures status { IsStatusOfTask result.0 }
{
    let (limits, lenient) = (options.limits, options.lenient);
    match options.task {
        Task::Show(form, AtRefusal::End) => {
            show_as(heap, limits, lenient, form_of_events(form), input, out, err)
        }
        Task::Show(form, AtRefusal::Skip) => {
            show_skipping(heap, limits, lenient, form_of_events(form), input, out, err)
        }
        Task::Rows(form, AtRefusal::End) => {
            show_as(heap, limits, lenient, form_of_rows(form), input, out, err)
        }
        Task::Rows(form, AtRefusal::Skip) => {
            show_skipping(heap, limits, lenient, form_of_rows(form), input, out, err)
        }
        Task::Check(AtRefusal::End) => check(heap, limits, lenient, input, out, err),
        Task::Check(AtRefusal::Skip) => check_skipping(heap, limits, lenient, input, out, err),
    }
}

/// The form of the text of events.
fn form_of_events(form: EventsAs) -> TextForm
    ensures { result ≡ form_of_events form }
{
    match form {
        EventsAs::Lines => TextForm::Lines,
        EventsAs::Json => TextForm::JsonLines,
    }
}

/// The form of the text of rows, before the first page.
fn form_of_rows(form: RowsAs) -> TextForm
    ensures { result ≡ form_of_rows form }
{
    match form {
        RowsAs::Text => TextForm::Pages(PagePlace::new()),
        RowsAs::Json => TextForm::JsonRows(TablePlace::new()),
        RowsAs::Csv => TextForm::CsvRows(TablePlace::new()),
    }
}

/// Reports that a file cannot be opened. Answers the exit status.
pub(crate) fn cannot_open<E: Target>(file: &str, mut err: E) -> (u8, E)
    ensures status { result.0 ≡ 3 }
    ensures line { IsSome (E.contents err) →
        ReportsFault (cannot_open_line_of file.now) (written E.Target err) result.0 (written E.Target result.1) }
{
    match cannot_open_line(file, &mut err) {
        Ok(()) | Err(SinkFault) => (FAULT, err),
    }
}

/// Writes what there is in place of options: help or the version to `out`, and a mistake to `err`.
fn print_no_task<O: Target, E: Target>(no_task: NoTask, out: O, err: E) -> (u8, O, E)
    ensures prints { PrintsNoTask no_task (written O.Target out) (written E.Target err) result.0
        (written O.Target result.1) (written E.Target result.2) }
    ensures status { result.0 ≤ 3 }
    ensures bad_command_line { result.0 ≡ 2 → IsSome (O.contents out) → IsSome (E.contents err) →
        ReportsWrong (written O.Target out) (written E.Target err)
        (written O.Target result.1) (written E.Target result.2) }
{
    match no_task {
        NoTask::Help(text) => help(text.as_str(), out, err),
        NoTask::Mistake(text) => {
            let (status, err) = complain(text.as_str(), err);
            (status, out, err)
        }
        NoTask::NoMemory => {
            let (status, err) = conclude(Ending::NoMemory, err);
            (status, out, err)
        }
    }
}

/// Writes help that was asked for.
fn help<O: Target, E: Target>(text: &str, mut out: O, err: E) -> (u8, O, E)
    ensures status { IsStatusOfTask result.0 }
    ensures help { IsSome (O.contents out) → IsSome (E.contents err) →
        Helps text.now (written O.Target out) (written E.Target err) result.0
        (written O.Target result.1) (written E.Target result.2) }
{
    match put_text(text, &mut out) {
        Ok(()) => (DONE, out, err),
        Err(SinkFault) => {
            let (status, err) = conclude(Ending::WriteFault, err);
            (status, out, err)
        }
    }
}

/// Writes what is wrong with a command line. Answers the exit status.
fn complain<E: Target>(text: &str, mut err: E) -> (u8, E)
    ensures status { result.0 ≤ 3 }
    ensures complaint { IsSome (E.contents err) →
        Complains text.now (written E.Target err) result.0 (written E.Target result.1) }
{
    match put_text(text, &mut err) {
        Ok(()) => (BAD_COMMAND_LINE, err),
        Err(SinkFault) => (FAULT, err),
    }
}
