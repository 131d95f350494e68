// The configuration of one replay: the Rust's TStdConfig, with depths, which the Rust's queues do not have. Slots past
// stream_count and system_count are not looked at. Arrays with a count, since a configuration is copied (Copy) and a count
// above the slots is kept, for the replay to refuse, which a slice or a vector of at most eight could not say. The builders
// refuse nothing: a result outside the limits, as a model of video_low_main_level can be, is left to the replay.
ghost use Rattle.std.specs.Prelude.{◌≡◌};
ghost use Rattle.profile.specs.Config.{stream_ok, default_config, with_pcr_pid, with_streams, with_system_pids, with_queue_depth, with_clock_depth, single_program};

use crate::limits::{MAX_CLOCK_DEPTH, MAX_QUEUE_DEPTH, MAX_STREAMS, MAX_SYSTEM_PIDS};
use crate::model::{TStdBranch, TStdStreamModel, branch_ok};
use crate::range::{pid_ok, rate_ok};

#[derive(Clone, Copy)]
pub struct TStdStream {
    pub pid: u16,
    pub model: TStdStreamModel,
}

#[derive(Clone, Copy)]
pub struct TStdConfig {
    pub pcr_pid: u16,
    pub streams: [TStdStream; MAX_STREAMS],
    pub stream_count: usize,
    pub system_pids: [u16; MAX_SYSTEM_PIDS],
    pub system_count: usize,
    // Entries in each queue, and PCR samples.
    pub queue_depth: usize,
    pub clock_depth: usize,
}

#[tactic(auto, unfolding(crate::specs::Config::stream_ok))]
pub(crate) fn stream_ok(stream: TStdStream) -> bool
    ensures { result ≡ stream_ok stream }
{
    pid_ok(stream.pid) && rate_ok(stream.model.rx_bps) && branch_ok(stream.model.branch)
}

impl Default for TStdConfig {
    ghost is_default = { λ c. c ≡ default_config };

    // The Rust's default, with the deepest queues and clock.
    // Ruled out: a stream or system PID in use; depth 0, which the replay refuses.
    fn default() -> Self {
        let unused = TStdStream {
            pid: 0,
            model: TStdStreamModel {
                rx_bps: 0,
                branch: TStdBranch::Main { buffer_size: 0 },
            },
        };
        TStdConfig {
            pcr_pid: 0,
            streams: [unused; MAX_STREAMS],
            stream_count: 0,
            system_pids: [0u16; MAX_SYSTEM_PIDS],
            system_count: 0,
            queue_depth: MAX_QUEUE_DEPTH,
            clock_depth: MAX_CLOCK_DEPTH,
        }
    }
}

impl TStdConfig {
    // Ruled out: a PID cut to 13 bits; any other field changed.
    pub fn with_pcr_pid(self, v: u16) -> Self
        ensures { result ≡ with_pcr_pid self v }
    {
        Self { pcr_pid: v, ..self }
    }

    // Ruled out: streams added behind those there were; the old count kept.
    pub fn with_streams(self, v: [TStdStream; MAX_STREAMS], count: usize) -> Self
        ensures { result ≡ with_streams self v count }
    {
        Self {
            streams: v,
            stream_count: count,
            ..self
        }
    }

    // Ruled out: PID 0 added to the list; the old count kept.
    pub fn with_system_pids(self, v: [u16; MAX_SYSTEM_PIDS], count: usize) -> Self
        ensures { result ≡ with_system_pids self v count }
    {
        Self {
            system_pids: v,
            system_count: count,
            ..self
        }
    }

    // Ruled out: a depth cut to the limit; the clock's depth set too.
    pub fn with_queue_depth(self, v: usize) -> Self
        ensures { result ≡ with_queue_depth self v }
    {
        Self {
            queue_depth: v,
            ..self
        }
    }

    // Ruled out: a depth cut to the limit; the queues' depth set too.
    pub fn with_clock_depth(self, v: usize) -> Self
        ensures { result ≡ with_clock_depth self v }
    {
        Self {
            clock_depth: v,
            ..self
        }
    }

    // PAT, CAT and the program's PMT are the system PIDs (H.222.0 2.4.2.3).
    // Ruled out: a PMT PID of 0 or 1 left out of the three; the PMT PID first, which would name the system chain.
    pub fn single_program(
        pcr_pid: u16,
        pmt_pid: u16,
        streams: [TStdStream; MAX_STREAMS],
        count: usize,
    ) -> Self
        ensures { result ≡ single_program pcr_pid pmt_pid streams count }
    {
        let mut system = [0u16; MAX_SYSTEM_PIDS];
        system[1] = 1;
        system[2] = pmt_pid;
        TStdConfig {
            pcr_pid,
            streams,
            stream_count: count,
            system_pids: system,
            system_count: 3,
            queue_depth: MAX_QUEUE_DEPTH,
            clock_depth: MAX_CLOCK_DEPTH,
        }
    }
}
