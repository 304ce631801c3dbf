//! What is asked for with summaries.

ghost use Rattle.std.specs.Prelude.{IfOk, codes};
ghost use Rattle.clap.specs.Words.{found_of, rows_of};
ghost use Rattle.cqlp_options.specs.CaptureFiles.{IsMergeInputAlone};
ghost use Rattle.cqlp_options.specs.Matched.{AreMergeOptions, IsFlag, is_json_sum};

use crate::bad_value::NoLine;
use crate::capture::files_of;
use crate::matched::flag;
use clap::ArgMatches;
use std::alloc::Global;

/// How the sum of summaries is written.
#[derive(Clone, Copy)]
pub enum SumAs {
    /// As a table.
    Table,
    /// A JSON object for each name, in a line.
    Json,
}

impl SumAs {
    fn matched(matches: &ArgMatches<'_>) -> SumAs
        ensures { IsFlag (codes "json") (rows_of (found_of matches.now)) (is_json_sum result) }
    {
        if flag(matches, "json") {
            SumAs::Json
        } else {
            SumAs::Table
        }
    }
}

/// A task with summaries, which are added.
#[derive(Drop)]
pub struct MergeOptions<'a> {
    pub form: SumAs,
    /// The path of the first file, or `-` for standard input, which goes alone.
    pub file: &'a str,
    /// The paths of further files, in order.
    pub more: Vec<&'a str>,
}

impl<'a> MergeOptions<'a> {
    /// What the words were matched to, if standard input goes alone.
    pub(crate) fn matched(
        alloc: Global,
        matches: &ArgMatches<'a>,
    ) -> Result<MergeOptions<'a>, NoLine>
        ensures alone { IfOk result IsMergeInputAlone }
        ensures words { IfOk result (AreMergeOptions (rows_of (found_of matches.now))) }
    {
        let (file, others) = files_of(matches)?;
        let form = SumAs::matched(matches);
        let mut more = Vec::new(alloc);
        more.extend_from_slice(others)?;
        Ok(MergeOptions { form, file, more })
    }
}
