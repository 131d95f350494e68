// The answer of a replay in one word, and in the words of row and report.
ghost use Rattle.std.specs.Prelude.{◌≡◌};
ghost use Rattle.words.specs.Answer.{answer_word, Told};

use crate::report_words::write_report;
use crate::row_words::write_row;
use crate::seconds::Finite;
use answer::Answer;
use error::Code;

// The largest place that a word holds. The places of a replay are 2^24 at most.
pub const MOST_PLACE: u64 = 1099511627775;

// Number + 256 * PID + 2^24 * place. Ruled out: PID and place exchanged; a place past 2^40 that wraps to a small one.
#[tactic(auto, unfolding(crate::specs::Answer::answer_word))]
pub fn answer_word(code: Code) -> u64
    ensures { result ≡ answer_word code }
{
    u64::from(code.number) + 256 * u64::from(code.pid) + 16777216 * code.place.min(MOST_PLACE)
}

// Ruled out: a row or report changed by a refusal; the report of an accepted recording left as it was.
pub fn write_answer(answer: Answer, row: &mut [u64], report: &mut [u64]) -> u64
    ensures { Told answer result row.old row.new report.old report.new }
{
    if let Ok(figures) = answer.outcome {
        write_row(figures, row);
        write_report::<Finite>(answer.report, report);
    }
    answer_word(Code::told(answer.outcome))
}
