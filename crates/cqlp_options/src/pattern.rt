//! The pattern that is asked for.

ghost use Rattle.std.specs.Prelude.{IfOk, codes};
ghost use Rattle.clap.specs.Words.{found_of, rows_of};
ghost use Rattle.cqlp_options.specs.Matched.{IsPattern};

use crate::bad_value::BadValue;
use crate::matched::path;
use clap::ArgMatches;
use cqlp_pattern::Pattern;

/// The pattern that statements are to match, if one is given.
pub(crate) fn pattern(matches: &ArgMatches<'_>) -> Result<Option<Pattern>, BadValue>
    ensures { IfOk result (IsPattern (codes "statement-regex") (rows_of (found_of matches.now))) }
{
    match path(matches, "statement-regex") {
        Some(text) => {
            let pattern = pattern_in(text)?;
            Ok(Some(pattern))
        }
        None => Ok(None),
    }
}

/// The pattern of a text. It is out of line, since a caller's stack is touched as far as it may be needed, here for tables of 55 KB.
#[cold]
#[inline(never)]
fn pattern_in(text: &str) -> Result<Pattern, BadValue> {
    match Pattern::new(text) {
        Ok(pattern) => Ok(pattern),
        Err(bad) => Err(BadValue::Pattern {
            fault: bad.fault,
            character: bad.character(text),
        }),
    }
}
