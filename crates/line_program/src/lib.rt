// The line program of document 01 but for its reading and writing: the text for a recording of up to 32,768 bytes, replayed for one
// audio stream.
#![tactic(auto)]

ghost use Rattle.std.specs.Prelude.{◌≡◌, ◌≤◌, length, take};
ghost use Rattle.report.specs.Report.{empty_report};
ghost use Rattle.tstd.specs.Core.{answer_for};
ghost use Rattle.line_program.specs.Output.{line_config, line_outcome, Output};

use answer::Answer;
use error::Refusal;
use profile::{TStdConfig, TStdStream, TStdStreamModel};
use report::TStdReport;

pub const LONGEST_RECORDING: usize = 32768;

// What a program reads: one byte more, so that a longer recording is seen.
pub const INPUT: usize = LONGEST_RECORDING + 1;

// The longest text (`lines::write`).
pub const TEXT: usize = 8618;

const QUEUE_DEPTH: usize = 128;

const CLOCK_DEPTH: usize = 64;

// What the profile needs with its one stream, and a record each for the stream and the system chain (`profile::check`).
const TIMES: usize = 8 * QUEUE_DEPTH + 3 * CLOCK_DEPTH;

const PLACES: usize = 2 * CLOCK_DEPTH;

const CHAINS: usize = 2;

// PCR PID 256; audio 257; system PIDs 0, 1 and 4096.
#[tactic(auto, unfolding(crate::specs::Output::line_config))]
fn config() -> TStdConfig
    ensures { result ≡ line_config }
{
    let audio = TStdStream {
        pid: 257,
        model: TStdStreamModel::audio(),
    };
    TStdConfig::single_program(256, 4096, [audio; 8], 1)
        .with_queue_depth(QUEUE_DEPTH)
        .with_clock_depth(CLOCK_DEPTH)
}

#[tactic(auto, unfolding(tstd::specs::Core::answer_for), using(crate::proofs::Line::line_long))]
fn answer(recording: &[u8]) -> Answer
    ensures { result ≡ answer_for empty_report (line_outcome recording.now) }
{
    let before = TStdReport::new();
    if LONGEST_RECORDING < recording.len() {
        return Answer::refused(before, Refusal::RecordingTooLong);
    }
    let mut times = [0.0; TIMES];
    let mut places = [0u64; PLACES];
    tstd::replay(recording, config(), &mut times, &mut places, CHAINS, before)
}

// The whole output from the start of out on, cut where out ends, and how many bytes of it out then holds: all, if out has 8,618.
// Ruled out: a recording of 32,769 bytes replayed; the streams of another profile.
#[tactic(auto, unfolding(crate::specs::Output::output_of), using(crate::proofs::Line::text_counts))]
pub fn text_of(recording: &[u8], out: &mut [u8]) -> usize
    ensures output { Output recording.now out.old result out.new }
    ensures upper_bound { (result ≤ length out.new) × (result ≡ length (take result out.new)) }
{
    lines::write(answer(recording), out)
}
