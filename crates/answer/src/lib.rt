// What a replay answers: the figures of the chains or a refusal, and the report.
#![tactic(auto)]

ghost use Rattle.std.specs.Prelude.{◌≡◌, []};
ghost use Rattle.answer.specs.Answer.{figures_of, refused_answer};

use error::Refusal;
use report::{TStdChainStats, TStdReport};

// One record per stream, one more if there are system PIDs: 9 at most, of which the first count are in use.
// An array with a count, since an answer is copied and handed on as a whole, and a vector of fixed capacity is not Copy.
#[derive(Clone, Copy)]
pub struct Figures {
    pub rows: [TStdChainStats; 9],
    pub count: usize,
}

#[derive(Clone, Copy)]
pub struct Answer {
    pub outcome: Result<Figures, Refusal>,
    pub report: TStdReport,
}

impl Figures {
    // No chain. Ruled out: a record in use; an unused record that is not empty.
    #[tactic(auto, unfolding(crate::specs::Answer::figures_of, report::specs::Report::empty_stats))]
    pub fn new() -> Figures
        ensures { result ≡ figures_of [] }
    {
        let unused = TStdChainStats::new(0);
        Figures {
            rows: [unused; 9],
            count: 0,
        }
    }
}

impl Answer {
    // The report as it came. Ruled out: a cleared report; another refusal.
    #[tactic(auto, unfolding(crate::specs::Answer::refused_answer))]
    pub fn refused(report: TStdReport, refusal: Refusal) -> Answer
        ensures { result ≡ refused_answer report refusal }
    {
        Answer {
            outcome: Err(refusal),
            report,
        }
    }
}
