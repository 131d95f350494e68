// `TStdReport::record` on a report in 324 words and a line in five.
ghost use Rattle.leaves.specs.Record.{Records};

use crate::put::number;
use crate::report_in::{report_at, violation_at};
use crate::seconds::AnyFigure;
use error::Refusal;
use report::TStdReport;
use words::report_words::LINE_WORDS;
use words::{REPORT_WORDS, write_report};

// Number 2 for words of another length. Ruled out: a report changed by a refusal; an event that is counted and makes no line.
#[unsafe(no_mangle)]
#[tactic(auto, using(crate::proofs::RecordCases::other_report, crate::proofs::RecordCases::other_line, crate::proofs::RecordCases::records_done))]
pub extern "C" fn leaf_record(report: &mut [u64], line: &[u64]) -> u64
    ensures { Records report.old line.now result report.new }
{
    if report.len() != REPORT_WORDS || line.len() != LINE_WORDS {
        return number(Refusal::WorkTooShort);
    }
    let recorded = TStdReport::record(report_at(report), violation_at(line, 0));
    match recorded.answer {
        Ok(()) => {
            write_report::<AnyFigure>(recorded.report, report);
            0
        }
        Err(refusal) => number(refusal),
    }
}
