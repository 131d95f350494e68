// A report and a line read from words: four, then five for each of 64 lines.
ghost use Rattle.std.specs.Prelude.{◌≡◌, ◌+◌, ◌≤◌, length};
ghost use Rattle.words.specs.Report.{report_len};
ghost use Rattle.leaves.specs.Record.{bytes_kind, violation_of, violation_at, lines_at, report_at};

use crate::seconds::seconds_of;
use report::TStdViolation::*;
use report::{TStdReport, TStdViolation, ViolationLine};
use words::report_words::{HEAD_WORDS, LINE_WORDS, LINES};

// The kind is a number, as C hands it; any that names no kind is the last, BsysOverflow, as in the definition.
#[tactic(auto, unfolding(crate::specs::Record::bytes_kind))]
fn bytes_kind(kind: u64, pid: u16, limit: usize, time: f64, n: u64) -> TStdViolation
    ensures { result ≡ bytes_kind kind pid limit time n }
{
    match kind {
        0 => TbOverflow { pid, peak_bytes: n },
        2 => MainOverflow {
            pid,
            peak_bytes: n,
            limit,
        },
        3 => MainUnderflow {
            pid,
            decode_time: time,
            missing_bytes: n,
        },
        4 => MbOverflow {
            pid,
            peak_bytes: n,
            limit,
        },
        6 => EbUnderflow {
            pid,
            decode_time: time,
            missing_bytes: n,
        },
        _ => BsysOverflow { peak_bytes: n },
    }
}

// The kinds with a figure in seconds; any other number is of `bytes_kind`.
#[tactic(auto, unfolding(crate::specs::Record::violation_of))]
fn violation_of(kind: u64, pid: u16, limit: usize, time: f64, figure: u64) -> TStdViolation
    ensures { result ≡ violation_of kind pid limit time figure }
{
    let seconds = seconds_of(figure);
    match kind {
        1 => TbBusyOverOneSecond { pid, seconds },
        5 => MbBusyOverOneSecond { pid, seconds },
        7 => DelayOverOneSecond {
            pid,
            decode_time: time,
            delay_seconds: seconds,
        },
        _ => bytes_kind(kind, pid, limit, time, figure),
    }
}

#[tactic(auto, unfolding(crate::specs::Record::violation_at))]
pub(crate) fn violation_at(words: &[u64], at: usize) -> TStdViolation
    requires { at + 5 ≤ length words.now }
    ensures { result ≡ violation_at words.now at }
{
    violation_of(
        words[at],
        (words[at + 1] % 65536) as u16,
        words[at + 2] as usize,
        seconds_of(words[at + 3]),
        words[at + 4],
    )
}

fn lines_at(words: &[u64]) -> [ViolationLine; LINES]
    requires { length words.now ≡ report_len }
    ensures { result ≡ lines_at words.now }
{
    std::array::from_fn(|i| ViolationLine {
        violation: violation_at(words, HEAD_WORDS + LINE_WORDS * i),
    })
}

#[tactic(auto, unfolding(crate::specs::Record::report_at))]
pub(crate) fn report_at(words: &[u64]) -> TStdReport
    requires { length words.now ≡ report_len }
    ensures { result ≡ report_at words.now }
{
    TStdReport {
        violations: lines_at(words),
        violation_count: words[3] as usize,
        violation_events: words[0],
        pcr_samples: words[1],
        modelled_seconds: seconds_of(words[2]),
    }
}
