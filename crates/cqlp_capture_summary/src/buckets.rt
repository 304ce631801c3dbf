//! Times in buckets.

ghost use Rattle.std.specs.Prelude.{◌≡◌, ◌<◌, IfSome};
ghost use Rattle.cqlp_capture_summary.specs.Buckets.{bucket_of, greatest_in};

/// How many buckets there are.
pub(crate) const BUCKETS: usize = 1920;

/// The bucket of a time in nanoseconds: below 64 each time has its own, and above the times of a bucket have their first six binary digits in common.
pub(crate) fn bucket_of(time: u64) -> usize
    ensures bucket { result ≡ bucket_of time }
    ensures within { result < 1920 }
{
    let dropped = 58u32.saturating_sub(time.leading_zeros());
    32 * dropped as usize + (time >> dropped) as usize
}

/// The greatest time in a bucket, in nanoseconds.
pub fn greatest_in(bucket: usize) -> u64
    requires { bucket < 1920 }
    ensures { result ≡ greatest_in bucket }
{
    let digits = (bucket / 32).saturating_sub(1);
    let width = 1u64 << digits;
    (bucket - 32 * digits) as u64 * width + (width - 1)
}

/// The bucket of which this is the greatest time, in nanoseconds, if there is one.
pub(crate) fn bucket_up_to(time: u64) -> Option<usize>
    ensures bucket { IfSome result (λ bucket. greatest_in bucket ≡ time) }
    ensures within { IfSome result (λ bucket. bucket < 1920) }
{
    let bucket = bucket_of(time);
    if greatest_in(bucket) == time {
        Some(bucket)
    } else {
        None
    }
}
