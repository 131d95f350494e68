// The replay of a recording through the T-STD buffer model (H.222.0, 2.4.2; the Rust's `analyze_tstd`).
#![tactic(auto)]

mod chain;
mod figures;
mod front;
mod owners;
mod run;
mod skip;
mod times;

ghost use Rattle.std.specs.Prelude.{◌≡◌, ◌<◌, ◌≤◌, if◌then◌else◌};
ghost use Rattle.std.specs.Float.Ieee.{lt};
ghost use Rattle.ieee.specs.Binary64.{◌⊖◌, 0f};
ghost use Rattle.tstd.specs.Core.{accepted_of, Fitting, ReplayedAt, Ended, Replayed};

use answer::Answer;
use arrival::{Intervals, IntervalsMut};
use error::Refusal;
use packet::TsPacketLayout;
use profile::{Limits, TStdConfig, WorkSize};
use report::TStdReport;
use run::Ran;

fn modelled_seconds(first_time: f64, last_time: f64) -> f64
    ensures { result ≡ (if lt first_time last_time then (last_time ⊖ first_time) else 0f) }
{
    if first_time < last_time {
        last_time - first_time
    } else {
        0.0
    }
}

// The answer when no queue was full. The system chain's transport buffer is looked at last, where there are system PIDs. That there are at most
// eight streams is asked here, by the figures and by the ends of the streams, and no part of a configuration: its builders refuse nothing,
// and a checked one would be a second type of the same fields.
fn accepted(config: TStdConfig, ran: Ran, samples: usize) -> Answer
    requires { config.stream_count ≤ 8 }
    ensures { result ≡ accepted_of config ran samples }
{
    let mut slots = ran.slots;
    if 0 < config.system_count {
        front::note_tb(ran.system.tb, &mut slots, 49);
    }
    let mut report = summary::report_of(config, slots);
    report.pcr_samples = samples as u64;
    report.modelled_seconds = modelled_seconds(ran.times.first_time, ran.times.last_time);
    let figures = figures::figures(config, ran.chains, ran.system);
    Answer {
        outcome: Ok(figures),
        report,
    }
}

// Both passes at the layout that is found. The chains have the first part of the floats, and the clock what is behind it. Configuration, floats
// and numbers are parameters of their own, as C lends them.
#[tactic(auto, using(crate::proofs::Core::size_some, crate::proofs::Core::parts))]
fn replay_at(
    bytes: &[u8],
    layout: TsPacketLayout,
    config: TStdConfig,
    times: &mut [f64],
    places: &mut [u64],
) -> Result<Answer, Refusal>
    requires { Fitting config bytes.now layout times.old places.old }
    ensures { ReplayedAt config bytes.now layout times.old places.old result times.new places.new }
{
    let count = bytes.len() / layout.packet_size;
    let (work, clock) = times.split_at_mut(8 * config.queue_depth * config.stream_count);
    let mut intervals = IntervalsMut {
        times: clock,
        places,
        depth: config.clock_depth,
    };
    let n = arrival_clock::build(bytes, layout, count, config.pcr_pid, &mut intervals)?;
    let clock = Intervals {
        times: clock,
        places,
        count: n,
    };
    let ran = run::run(config, bytes, layout, count, work, clock)?;
    Ok(accepted(config, ran, n + 1))
}

// The checks, both passes, and the work cleared. The lent report does not enter.
#[tactic(auto, using(crate::proofs::Core::times_fit, crate::proofs::Core::places_fit))]
fn outcome(
    bytes: &[u8],
    config: TStdConfig,
    times: &mut [f64],
    places: &mut [u64],
    row_len: usize,
) -> Result<Answer, Refusal>
    ensures { Ended bytes.now config times.old places.old row_len result times.new places.new }
{
    let lent = WorkSize {
        times: times.len(),
        places: places.len(),
        row: row_len,
    };
    let needed = profile::check(config, Limits::replay(), lent, bytes.len())?;
    let layout = packet::detect_packet_layout(bytes).ok_or(Refusal::NoPacketLayout)?;
    let answer = replay_at(bytes, layout, config, times, places);
    times[..needed.times].fill(0.0);
    places[..needed.places].fill(0);
    answer
}

// The report is the replay's where the recording is accepted, else the one lent; row_len is the length of the row that the figures are for.
// Numbers 1 to 4 leave the work as it is; any other answer leaves zeros in what the replay needs of it, and the rest as it was.
// Ruled out: a clean report or empty figures whatever the recording holds; number 10 for a recording whose queues have room.
pub fn replay(
    bytes: &[u8],
    config: TStdConfig,
    times: &mut [f64],
    places: &mut [u64],
    row_len: usize,
    report: TStdReport,
) -> Answer
    ensures { Replayed bytes.now config times.old places.old row_len report result times.new places.new }
{
    match outcome(bytes, config, times, places, row_len) {
        Ok(answer) => answer,
        Err(refusal) => Answer::refused(report, refusal),
    }
}
