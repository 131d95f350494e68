// The test for number 1: whether a configuration is within the limits of document 01.
ghost use Rattle.std.specs.Prelude.{◌≡◌};
ghost use Rattle.profile.specs.Range.{pid_ok};
ghost use Rattle.profile.specs.Config.{stream_ok};
ghost use Rattle.std.specs.List.{list_all};
ghost use Rattle.profile.specs.Limits.{replay_limits, within_limits};

use crate::config::{TStdConfig, TStdStream, stream_ok};
use crate::range::pid_ok;

// The limits of the replay. Rates are in bit/s, sizes and the recording in bytes.
pub const MAX_PID: u16 = 8191;

pub const MAX_STREAMS: usize = 8;

pub const MAX_SYSTEM_PIDS: usize = 16;

pub const MIN_RATE_BPS: u64 = 8000;

pub const MAX_RATE_BPS: u64 = 1000000000;

pub const MIN_SIZE: usize = 1;

pub const MAX_SIZE: usize = 1073741824;

pub const MIN_QUEUE_DEPTH: usize = 1;

pub const MAX_QUEUE_DEPTH: usize = 8192;

pub const MIN_CLOCK_DEPTH: usize = 2;

pub const MAX_CLOCK_DEPTH: usize = 3000;

pub const MAX_RECORDING: usize = 16777216;

// The two that an entry may set lower than the replay's; the others are fixed.
#[derive(Clone, Copy)]
pub struct Limits {
    pub longest_recording: usize,
    pub deepest_queue: usize,
}

impl Limits {
    // Ruled out: 16,777,215 bytes as the longest recording; the two figures exchanged.
    pub fn replay() -> Self
        ensures { result ≡ replay_limits }
    {
        Limits {
            longest_recording: MAX_RECORDING,
            deepest_queue: MAX_QUEUE_DEPTH,
        }
    }
}

fn streams_ok(streams: &[TStdStream]) -> bool
    ensures { result ≡ list_all stream_ok streams.now }
{
    streams.iter().all(|stream| stream_ok(*stream))
}

fn pids_ok(pids: &[u16]) -> bool
    ensures { result ≡ list_all pid_ok pids.now }
{
    pids.iter().all(|pid| pid_ok(*pid))
}

// Ruled out: refusing a repeated stream PID, or what a slot past a count holds; a figure one outside its limit taken.
#[tactic(auto, unfolding(crate::specs::Limits::within_limits))]
pub fn in_limits(config: TStdConfig, limits: Limits) -> bool
    ensures { result ≡ within_limits limits config }
{
    pid_ok(config.pcr_pid)
        && config.stream_count <= MAX_STREAMS
        && config.system_count <= MAX_SYSTEM_PIDS
        && (MIN_QUEUE_DEPTH..=limits.deepest_queue).contains(&config.queue_depth)
        && (MIN_CLOCK_DEPTH..=MAX_CLOCK_DEPTH).contains(&config.clock_depth)
        && streams_ok(&config.streams[..config.stream_count])
        && pids_ok(&config.system_pids[..config.system_count])
}
