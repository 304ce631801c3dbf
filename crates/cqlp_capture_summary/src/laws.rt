//! Laws of summaries. No code needs them.

ghost use Rattle.cqlp_capture_summary.specs.Heaviest.{CountsAllWhereThereIsRoom, KeepsEachOnce, KeepsTheHeaviest, ShowsExactlySince};
ghost use Rattle.cqlp_capture_summary.specs.Laws.{CountsEachInOneInterval, DearerComesFirst, EachHasItsRank, FirstComesFirst, IntervalsRise};
ghost use Rattle.cqlp_capture_summary.specs.Laws.{LiesInItsBucket, MergeCountsBoth, OneAnswerOfNew, OneAnswerOfNote, ReportsTimeAtRank, TextsAreAlike};
ghost use Rattle.cqlp_capture_summary.specs.Sums.{SumsAreExact};

/// Where memory is granted `Summary::new` has one answer, and so has `note`.
pub fn one_answer()
    ensures new { OneAnswerOfNew }
    ensures note { OneAnswerOfNote }
{}

/// A time is not above the greatest of its bucket, which is at most 1/32 more.
pub fn lies_in_its_bucket()
    ensures { LiesInItsBucket }
{}

/// Of fewer than 2^64 times, what is reported of a rank is at least the time at this rank, and at most 1/32 more.
pub fn reports_time_at_rank()
    ensures { ReportsTimeAtRank }
{}

/// Each statement has a rank of its own, and so its line once: the one that took more time in sum has the lesser rank, and of two that took
/// as much the one that was asked for first.
pub fn each_has_its_rank()
    ensures within { EachHasItsRank }
    ensures dearer { DearerComesFirst }
    ensures first { FirstComesFirst }
{}

/// In a table of N places, of fewer than 2^64 nanoseconds in all: a statement that took more than one in N of the whole time has a place, and no statement has
/// two. What is counted of a statement is exact from one time on that it was asked for. Before, it took at most what is shown as missing, which is at most one
/// in N of the whole time.
pub fn keeps_the_heaviest()
    ensures heaviest { KeepsTheHeaviest }
    ensures once { KeepsEachOnce }
    ensures exact { ShowsExactlySince }
{}

/// Where at most N different statements come, N places count each of them whole, in the order in which they came first, and nothing as others.
pub fn counts_all_where_there_is_room()
    ensures { CountsAllWhereThereIsRoom }
{}

/// What is counted of two captures together, from what is counted of each, is what is counted of the one behind the other.
pub fn merge_counts_both()
    ensures { MergeCountsBoth }
{}

/// What a table of any size counts of all names together, among them the others, is the sum of all that was added: each count, each sum and each bucket.
pub fn sums_are_exact()
    ensures { SumsAreExact }
{}

/// Each request is counted in one interval: what is counted of all of them together is what is counted of all requests. Whatever the order of the times is,
/// behind an interval there are later ones alone.
pub fn counts_each_in_one_interval()
    ensures once { CountsEachInOneInterval }
    ensures rise { IntervalsRise }
{}

/// Statements that differ in a text between quotes have the same fingerprint.
pub fn texts_are_alike()
    ensures { TextsAreAlike }
{}
