ghost use Rattle.std.specs.Prelude.{◌≡◌};
ghost use Rattle.oc_probe.specs.Rates.{rate_of};

/// The length of the body that a probe downloads, in bytes.
pub const PROBE_BYTES: u64 = 10_240;

/// The rate of a probe in bytes per second, by the readings of the clock in milliseconds before and
/// after it. A time below one millisecond counts as one, and a rate below 1 as 1.
pub fn rate_of(start: u64, end: u64) -> u64
    ensures { result ≡ rate_of start end }
{
    let time = end.saturating_sub(start).max(1);
    (PROBE_BYTES * 1_000 / time).max(1)
}
