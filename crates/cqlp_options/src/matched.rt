//! What the words of a task were matched to, an option at a time.

ghost use Rattle.std.specs.Prelude.{◌≡◌, option_map};
ghost use Rattle.clap.specs.Words.{first_of, found_of, rows_of};
ghost use Rattle.cqlp_options.specs.Matched.{IsFlag, IsNumber};

use clap::ArgMatches;

/// Whether an option that is alone is given.
pub(crate) fn flag(matches: &ArgMatches<'_>, option: &str) -> bool
    ensures { IsFlag option.now (rows_of (found_of matches.now)) result }
{
    matches.get_flag(option)
}

/// The number of an option, if it has one of 32 bits.
pub(crate) fn number(matches: &ArgMatches<'_>, option: &str) -> Option<u32>
    ensures { IsNumber 32 option.now (rows_of (found_of matches.now)) result }
{
    matches.get_one::<u32>(option)
}

/// The number of an option, if it has one of 16 bits.
pub(crate) fn short_number(matches: &ArgMatches<'_>, option: &str) -> Option<u16>
    ensures { IsNumber 16 option.now (rows_of (found_of matches.now)) result }
{
    matches.get_one::<u16>(option)
}

/// The number of an option, if it has one of 64 bits.
pub(crate) fn long_number(matches: &ArgMatches<'_>, option: &str) -> Option<u64>
    ensures { IsNumber 64 option.now (rows_of (found_of matches.now)) result }
{
    matches.get_one::<u64>(option)
}

/// The path that an option names, or its text.
pub(crate) fn path<'a>(matches: &ArgMatches<'a>, option: &str) -> Option<&'a str>
    ensures { option_map (λ path. path.now) result ≡ first_of option.now (rows_of (found_of matches.now)) }
{
    matches.get_str(option)
}
