//! What is asked for with a capture.

ghost use Rattle.std.specs.Prelude.{◌≡◌, ◌≤◌, ◌↔◌, ◌∷◌, IfOk, IfSome, IsTrue, OnOk, codes, false, length};
ghost use Rattle.clap.specs.Words.{found_of, rows_of};
ghost use Rattle.cqlp_text.specs.Names.{opcode_name};
ghost use Rattle.cqlp_options.specs.Matched.{AreCaptureOptions, AreExchanges, AreTexts, IsCaptureTask, IsExchangesForm, IsOpcode};
ghost use Rattle.cqlp_options.specs.Matched.{AreLines, IsHistogramAlone, IsSummaryBy, by_name, by_word, is_literal, plain};
ghost use Rattle.cqlp_options.specs.CaptureFiles.{FollowsOne, GoesAlone, IsInputAlone, texts_of};
ghost use Rattle.cqlp_options.specs.CaptureLimits.{AreWithin as AreWithinRanges};
ghost use Rattle.cqlp_options.specs.Ports.{AreWithin, named};

use crate::bad_value::{BadValue, NoLine};
use crate::end::{AskedEnd, NoEnd, end};
use crate::kind::{AskedKind, kind};
use crate::limits::CaptureLimits;
use crate::matched::{flag, long_number, number, path};
use crate::pattern::pattern;
use crate::time::{AskedTime, time};
use clap::ArgMatches;
use cqlp_note::Opcode;
use cqlp_pattern::Pattern;
use std::alloc::Global;

/// How many ports may be named.
pub const MOST_PORTS: usize = 16;

/// The ports of nodes.
#[derive(Clone, Copy)]
pub struct Ports {
    /// The ports that are named, and after them zeros.
    numbers: [u16; MOST_PORTS],
    count: usize,
}

impl Ports {
    /// The port on which nodes listen where none is named.
    pub const DEFAULT: u16 = 9_042;

    /// This one.
    pub fn one(port: u16) -> Ports
        ensures { AreWithin result }
    {
        let mut numbers = [0; MOST_PORTS];
        numbers[0] = port;
        Ports { numbers, count: 1 }
    }

    /// The ports, each as often as it was named: at least one, and at most 16 of them.
    pub fn as_slice(&self) -> &[u16]
        requires { AreWithin self.now }
        ensures { result.now ≡ named self.now }
    {
        &self.numbers[..self.count]
    }

    /// With one more, if there are not too many.
    fn with(self, port: u16) -> Option<Ports>
        ensures { IfSome result AreWithin }
    {
        let Ports { mut numbers, count } = self;
        if count >= MOST_PORTS {
            return None;
        }
        numbers[count] = port;
        Some(Ports {
            numbers,
            count: count + 1,
        })
    }
}

/// What lines of exchanges are to have.
#[derive(Clone, Copy)]
pub struct AskedLines {
    /// Their times are dates and times of day of UTC.
    pub utc: bool,
    /// They name the client and the node.
    pub ends: bool,
}

impl AskedLines {
    fn matched(matches: &ArgMatches<'_>) -> AskedLines
        ensures { AreLines (rows_of (found_of matches.now)) result }
    {
        AskedLines {
            utc: flag(matches, "utc"),
            ends: flag(matches, "ends"),
        }
    }

    /// Refuses lines that are to have something.
    fn check_plain(self) -> Result<(), BadValue>
        ensures { OnOk result (self ≡ plain) }
    {
        if self.utc || self.ends {
            return Err(BadValue::Lines);
        }
        Ok(())
    }
}

/// How exchanges are written.
#[derive(Clone, Copy)]
pub enum ExchangesAs {
    /// A line for each.
    Lines {
        lines: AskedLines,
        /// Whether it has the values that the request binds.
        values: bool,
    },
    /// A JSON object in a line for each.
    Json {
        /// Likewise.
        values: bool,
    },
    /// A record of CSV for each.
    Csv,
    /// A line at the end for each of what they are counted by.
    Summary(SummaryBy),
    /// Likewise a JSON object in a line.
    SummaryJson(SummaryBy),
    /// A line for each interval of so many seconds.
    Intervals {
        seconds: u32,
        /// Whether it is a JSON object.
        json: bool,
    },
    /// How many took how long, in ranges of time that double.
    Histogram,
}

impl ExchangesAs {
    /// What the words were matched to, if what lines are to have is asked of lines.
    fn matched(matches: &ArgMatches<'_>) -> Result<ExchangesAs, BadValue>
        ensures { IfOk result (IsExchangesForm (rows_of (found_of matches.now))) }
    {
        let lines = AskedLines::matched(matches);
        let is_json = flag(matches, "json");
        if flag(matches, "summary") {
            lines.check_plain()?;
            if flag(matches, "histogram") {
                check_alone(matches, is_json)?;
                return Ok(ExchangesAs::Histogram);
            }
            if let Some(seconds) = number(matches, "every") {
                return Ok(ExchangesAs::Intervals {
                    seconds,
                    json: is_json,
                });
            }
            let by = SummaryBy::matched(matches)?;
            if is_json {
                return Ok(ExchangesAs::SummaryJson(by));
            }
            return Ok(ExchangesAs::Summary(by));
        }
        let values = flag(matches, "values");
        if is_json {
            lines.check_plain()?;
            return Ok(ExchangesAs::Json { values });
        }
        if flag(matches, "csv") {
            lines.check_plain()?;
            return Ok(ExchangesAs::Csv);
        }
        Ok(ExchangesAs::Lines { lines, values })
    }
}

/// Refuses a histogram beside what counts otherwise.
fn check_alone(matches: &ArgMatches<'_>, is_json: bool) -> Result<(), BadValue>
    ensures { OnOk result (IsHistogramAlone is_json (rows_of (found_of matches.now))) }
{
    if is_json || flag(matches, "literal") {
        return Err(BadValue::Histogram);
    }
    match (path(matches, "by"), number(matches, "every")) {
        (None, None) => Ok(()),
        (Some(_), _) | (None, Some(_)) => Err(BadValue::Histogram),
    }
}

/// What the requests of a summary are counted by.
#[derive(Clone, Copy)]
pub enum SummaryBy {
    Statement {
        /// Whether statements that differ in their literals alone count each for itself.
        literal: bool,
    },
    /// The tables that their statements name.
    Table,
    /// The client's address, at whichever port.
    Client,
    /// The node's address and port.
    Node,
    Opcode,
    /// The error of the reply.
    Error,
}

impl SummaryBy {
    /// What the words were matched to, if they name something, and literals count only where statements do.
    fn matched(matches: &ArgMatches<'_>) -> Result<SummaryBy, BadValue>
        ensures { IfOk result (IsSummaryBy (rows_of (found_of matches.now))) }
    {
        let literal = flag(matches, "literal");
        let word = by_word(matches);
        if word == "statement" {
            return Ok(SummaryBy::Statement { literal });
        }
        let by = attribute_named(word).ok_or(BadValue::By)?;
        if literal {
            return Err(BadValue::Literal);
        }
        Ok(by)
    }
}

/// The word that says what the requests of a summary are counted by.
fn by_word<'a>(matches: &ArgMatches<'a>) -> &'a str
    ensures { result.now ≡ by_word (rows_of (found_of matches.now)) }
{
    match path(matches, "by") {
        Some(word) => word,
        None => "statement",
    }
}

/// What has this name beside statements.
fn attribute_named(word: &str) -> Option<SummaryBy>
    ensures name { IfSome result (λ by. word.now ≡ by_name by) }
    ensures literal { IfSome result (λ by. is_literal by ≡ false) }
{
    match word {
        "table" => Some(SummaryBy::Table),
        "client" => Some(SummaryBy::Client),
        "node" => Some(SummaryBy::Node),
        "opcode" => Some(SummaryBy::Opcode),
        "error" => Some(SummaryBy::Error),
        _ => None,
    }
}

/// Which exchanges of a capture are written, those of which all holds that is asked for, and how.
#[derive(Clone, Copy)]
pub struct ExchangeOptions<'a> {
    /// Those alone whose reply's last byte came so many milliseconds after the request's first, or more.
    pub slow: Option<u32>,
    /// Those alone whose reply is an ERROR, and requests without a reply.
    pub errors: bool,
    /// Requests with this opcode alone.
    pub opcode: Option<Opcode>,
    /// Those alone whose reply is of this kind, and such responses alone.
    pub kind: Option<AskedKind>,
    /// Those of connections of this client alone.
    pub client: Option<AskedEnd>,
    /// Those of connections of this node alone.
    pub node: Option<AskedEnd>,
    /// Those alone that began at this time or later.
    pub since: Option<AskedTime>,
    /// Those alone that began at this time or earlier.
    pub until: Option<AskedTime>,
    /// Requests alone whose statement has this text.
    pub statement: Option<&'a str>,
    /// Requests alone whose statement has a match of this pattern.
    pub pattern: Option<Pattern>,
    /// The path of a file with texts of statements that were prepared before.
    pub statements: Option<&'a str>,
    /// Those of the connection with this number alone; the first has the number 1.
    pub connection: Option<u64>,
    pub form: ExchangesAs,
}

impl<'a> ExchangeOptions<'a> {
    fn matched(matches: &ArgMatches<'a>) -> Result<ExchangeOptions<'a>, BadValue>
        ensures { IfOk result (AreExchanges (rows_of (found_of matches.now))) }
    {
        let opcode = opcode_of(matches)?;
        let kind = kind(matches)?;
        let client = end(matches, "client").or(Err(BadValue::Client))?;
        let node = end(matches, "node").or(Err(BadValue::Node))?;
        let since = time(matches, "from").or(Err(BadValue::From))?;
        let until = time(matches, "to").or(Err(BadValue::To))?;
        let pattern = pattern(matches)?;
        let form = ExchangesAs::matched(matches)?;
        Ok(ExchangeOptions {
            slow: number(matches, "slow"),
            errors: flag(matches, "errors"),
            opcode,
            kind,
            client,
            node,
            since,
            until,
            statement: path(matches, "statement"),
            pattern,
            statements: path(matches, "statements"),
            connection: long_number(matches, "connection"),
            form,
        })
    }
}

/// What is done with a capture.
#[derive(Clone, Copy)]
pub enum CaptureTask<'a> {
    /// The bytes of each direction of each connection are written to a file in the folder with this path.
    Streams {
        folder: &'a str,
    },
    /// Requests are written with their replies.
    Exchanges(ExchangeOptions<'a>),
    /// A line is written for each event of each frame: of the connection with this number alone, if one is named; the first has the
    /// number 1.
    Events {
        connection: Option<u64>,
    },
    /// The pages of the connection with this number are written; the first has the number 1.
    Rows {
        connection: u64,
        /// The path of a file with statements that were prepared before, and with columns of tables.
        statements: Option<&'a str>,
    },
}

impl<'a> CaptureTask<'a> {
    /// What the words were matched to, if a connection is named whose pages are asked for, and what is asked of exchanges is there.
    fn matched(matches: &ArgMatches<'a>) -> Result<CaptureTask<'a>, BadValue>
        ensures { IfOk result (IsCaptureTask (rows_of (found_of matches.now))) }
    {
        let connection = long_number(matches, "connection");
        if let Some(folder) = path(matches, "streams") {
            return Ok(CaptureTask::Streams { folder });
        }
        if flag(matches, "rows") {
            let connection = connection.ok_or(BadValue::Range)?;
            return Ok(CaptureTask::Rows {
                connection,
                statements: path(matches, "statements"),
            });
        }
        if flag(matches, "events") {
            return Ok(CaptureTask::Events { connection });
        }
        let asked = ExchangeOptions::matched(matches)?;
        Ok(CaptureTask::Exchanges(asked))
    }
}

/// A task with a capture.
#[derive(Drop)]
pub struct CaptureOptions<'a> {
    pub task: CaptureTask<'a>,
    pub limits: CaptureLimits,
    pub ports: Ports,
    /// Whether `file` goes on: `-` has the paths of the capture's files, a line each, and any other is a file that grows, or a folder of them.
    pub follow: bool,
    /// The path of the capture's first file, or `-` for standard input, which goes alone.
    pub file: &'a str,
    /// The paths of further files, which were captured after it, in order.
    pub more: Vec<&'a str>,
}

impl<'a> CaptureOptions<'a> {
    /// What the words were matched to, if the limits are in their ranges, there are not too many ports, what is asked of exchanges is there, and
    /// standard input goes alone.
    pub(crate) fn matched(
        alloc: Global,
        matches: &ArgMatches<'a>,
    ) -> Result<CaptureOptions<'a>, NoLine>
        ensures within { IfOk result (λ options. AreWithin options.ports × AreWithinRanges options.limits) }
        ensures alone { IfOk result IsInputAlone }
        ensures follows { IfOk result FollowsOne }
        ensures words { IfOk result (AreCaptureOptions (rows_of (found_of matches.now))) }
    {
        let (file, others) = files_of(matches)?;
        let follow = flag(matches, "follow");
        if follow && !others.is_empty() {
            return Err(NoLine::BadValue(BadValue::Follow));
        }
        let task = CaptureTask::matched(matches)?;
        let limits = CaptureLimits::matched(matches).ok_or(BadValue::Range)?;
        let ports = ports_of(matches).ok_or(BadValue::Range)?;
        let mut more = Vec::new(alloc);
        more.extend_from_slice(others)?;
        Ok(CaptureOptions {
            task,
            limits,
            ports,
            follow,
            file,
            more,
        })
    }
}

/// The paths of files, the first and the others, if standard input goes alone.
pub(crate) fn files_of<'m, 'a>(
    matches: &'m ArgMatches<'a>,
) -> Result<(&'a str, &'m [&'a str]), BadValue>
    ensures paths { IfOk result (λ files. AreTexts (codes "file") (rows_of (found_of matches.now)) (files.0.now ∷ texts_of files.1.now)) }
    ensures alone { IfOk result (λ files. GoesAlone files.0.now (texts_of files.1.now)) }
{
    let Some([first, others @ ..]) = matches.get_strs("file") else {
        return Err(BadValue::Range);
    };
    if is_input_alone(first, others) {
        Ok((*first, others))
    } else {
        Err(BadValue::Input)
    }
}

/// Whether standard input is none of several files.
fn is_input_alone(first: &str, others: &[&str]) -> bool
    ensures { IsTrue result ↔ GoesAlone first.now (texts_of others.now) }
{
    others.is_empty() || (first != "-" && !others.contains(&"-"))
}

fn ports_of(matches: &ArgMatches<'_>) -> Option<Ports>
    ensures { IfSome result AreWithin }
{
    let mut ports = Ports {
        numbers: [0; MOST_PORTS],
        count: 0,
    };
    for port in matches.get_many::<u16>("port")? {
        ports = ports.with(port.ok()?)?;
    }
    if ports.count == 0 { None } else { Some(ports) }
}

/// The opcode that is asked for, if one is.
fn opcode_of(matches: &ArgMatches<'_>) -> Result<Option<Opcode>, BadValue>
    ensures { IfOk result (IsOpcode (codes "opcode") (rows_of (found_of matches.now))) }
{
    match path(matches, "opcode") {
        Some(name) => {
            let opcode = request_named(name).ok_or(BadValue::Opcode)?;
            Ok(Some(opcode))
        }
        None => Ok(None),
    }
}

/// The opcode of requests that has this name in lines.
fn request_named(name: &str) -> Option<Opcode>
    ensures { IfSome result (λ opcode. name.now ≡ opcode_name opcode) }
{
    match name {
        "STARTUP" => Some(Opcode::Startup),
        "OPTIONS" => Some(Opcode::Options),
        "QUERY" => Some(Opcode::Query),
        "PREPARE" => Some(Opcode::Prepare),
        "EXECUTE" => Some(Opcode::Execute),
        "BATCH" => Some(Opcode::Batch),
        "REGISTER" => Some(Opcode::Register),
        "AUTH_RESPONSE" => Some(Opcode::AuthResponse),
        _ => None,
    }
}
