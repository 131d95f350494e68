// The work and the chain row that a replay needs, and the first three refusals in their order.
ghost use Rattle.std.specs.Prelude.{◌≡◌, ◌≤◌, leb};
ghost use Rattle.profile.specs.Range.{max_streams, max_clock_depth};
ghost use Rattle.profile.specs.Work.{row_len, times_needed, needed_of, check_of, Formed};

use crate::config::TStdConfig;
use crate::limits::{Limits, in_limits};
use error::Refusal;

// How many f64, u64 and chain records: what is lent, or what a replay needs.
#[derive(Clone, Copy)]
pub struct WorkSize {
    pub times: usize,
    pub places: usize,
    pub row: usize,
}

// One record for each stream, one more where there are system PIDs.
fn row_len(streams: usize, system_pids: usize) -> usize
    requires { streams ≤ max_streams }
    ensures { result ≡ row_len streams system_pids }
{
    if system_pids == 0 {
        streams
    } else {
        streams + 1
    }
}

// Whether the f64 lent are enough. The queue depth may be any number, so the product is not formed before it fits.
#[tactic(auto, using(crate::proofs::Sizes::times_compare))]
fn times_fit(config: TStdConfig, lent: usize) -> bool
    requires { (config.stream_count ≤ max_streams) × (config.clock_depth ≤ max_clock_depth) }
    ensures { result ≡ leb (times_needed config.stream_count config.queue_depth config.clock_depth) lent }
{
    let clock = 3 * config.clock_depth;
    if lent < clock {
        return false;
    }
    if config.stream_count == 0 {
        return true;
    }
    config.queue_depth <= (lent - clock) / (8 * config.stream_count)
}

#[tactic(auto, using(crate::proofs::Sizes::product), unfolding(crate::specs::Work::needed_of))]
fn needed(config: TStdConfig) -> WorkSize
    requires { Formed config }
    ensures { result ≡ needed_of config }
{
    let streams = config.stream_count;
    WorkSize {
        times: config.queue_depth * (8 * streams) + 3 * config.clock_depth,
        places: 2 * config.clock_depth,
        row: row_len(streams, config.system_count),
    }
}

// Numbers 1, 2 and 3 in that order, else what the replay needs.
// Ruled out: number 2 for a configuration outside the limits; a row without the system chain's record taken.
#[tactic(auto, using(crate::proofs::Within::limits_within), unfolding(crate::specs::Work::check_of, crate::specs::Work::covers, crate::specs::Work::needed_of))]
pub fn check(
    config: TStdConfig,
    limits: Limits,
    lent: WorkSize,
    recording_len: usize,
) -> Result<WorkSize, Refusal>
    ensures { result ≡ check_of limits config lent recording_len }
{
    if !in_limits(config, limits) {
        return Err(Refusal::OutsideLimits);
    }
    if !times_fit(config, lent.times) {
        return Err(Refusal::WorkTooShort);
    }
    let size = needed(config);
    if lent.places < size.places || lent.row < size.row {
        return Err(Refusal::WorkTooShort);
    }
    if limits.longest_recording < recording_len {
        return Err(Refusal::RecordingTooLong);
    }
    Ok(size)
}
