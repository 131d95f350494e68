// The tests of a PID, a rate and a size against the fixed limits of document 01.
ghost use Rattle.std.specs.Prelude.{◌≡◌};
ghost use Rattle.profile.specs.Range.{pid_ok, rate_ok, size_ok};

use crate::limits::{MAX_PID, MAX_RATE_BPS, MAX_SIZE, MIN_RATE_BPS, MIN_SIZE};

pub(crate) fn pid_ok(pid: u16) -> bool
    ensures { result ≡ pid_ok pid }
{
    pid <= MAX_PID
}

pub(crate) fn rate_ok(rate: u64) -> bool
    ensures { result ≡ rate_ok rate }
{
    (MIN_RATE_BPS..=MAX_RATE_BPS).contains(&rate)
}

pub(crate) fn size_ok(size: usize) -> bool
    ensures { result ≡ size_ok size }
{
    (MIN_SIZE..=MAX_SIZE).contains(&size)
}
