// The report in 324 words: events, PCR samples, bits of the modelled seconds and lines, then five for each of 64 lines.
ghost use Rattle.std.specs.Prelude.{◌≡◌};
ghost use Rattle.words.specs.Report.{figure_word, line_words, report_after};

use crate::seconds::SecondsWord;
use report::{Figure, TStdReport, ViolationLine};

// The words in front of the lines, and of a line: kind, PID, limit, bits of the decode time, figure whole or as bits.
pub const HEAD_WORDS: usize = 4;

pub const LINE_WORDS: usize = 5;

pub const LINES: usize = 64;

pub const REPORT_WORDS: usize = HEAD_WORDS + LINE_WORDS * LINES;

#[tactic(auto, unfolding(crate::specs::Report::figure_word))]
fn figure_word<S: SecondsWord>(figure: Figure) -> u64
    ensures { result ≡ figure_word S.told figure }
{
    match figure {
        Figure::Bytes(n) => n,
        Figure::Seconds(s) => S::word(s),
    }
}

#[tactic(auto, unfolding(crate::specs::Report::line_words, crate::specs::Report::fields_words))]
fn line_words<S: SecondsWord>(line: ViolationLine) -> [u64; LINE_WORDS]
    ensures { result ≡ line_words S.told line }
{
    let fields = line.violation.fields();
    [
        u64::from(fields.kind),
        u64::from(fields.pid),
        fields.limit as u64,
        S::word(fields.decode_time),
        figure_word::<S>(fields.figure),
    ]
}

// Nothing changes where the length is another. Ruled out: the lines in use alone, with words behind them left as they
// were; a figure in seconds told as a whole number.
#[tactic(auto, using(crate::proofs::Report::other_length, crate::proofs::Report::line_next))]
pub fn write_report<S: SecondsWord>(report: TStdReport, words: &mut [u64])
    ensures { words.new ≡ report_after S.told report words.old }
{
    if words.len() != REPORT_WORDS {
        return;
    }
    words[0] = report.violation_events;
    words[1] = report.pcr_samples;
    words[2] = S::word(report.modelled_seconds);
    words[3] = report.violation_count as u64;
    // By places, as in `write_row`.
    for (i, line) in report.violations.iter().enumerate() {
        let at = HEAD_WORDS + LINE_WORDS * i;
        words[at..at + LINE_WORDS].copy_from_slice(&line_words::<S>(*line));
    }
}
