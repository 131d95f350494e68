// The report of a replay: one line for each kind and PID with the worst figure, the count of events, and the figures of a chain.
#![tactic(auto)]

ghost use Rattle.std.specs.Prelude.{◌≡◌};
ghost use Rattle.report.specs.Report.{empty_report, empty_stats, conformant};
ghost use Rattle.error.specs.Code.{code_told};
ghost use Rattle.report.specs.Record.{recorded, record_code};

pub mod violation;

use error::Refusal;
pub use violation::{Figure, Key, TStdViolation, ViolationFields, merge_worse};

// One of the table's 64 records: document 01 wants a record that holds a violation, and so it has a type of its own.
#[derive(Clone, Copy)]
pub struct ViolationLine {
    pub violation: TStdViolation,
}

// The first violation_count lines are in use. An array with a count, since a report is copied and handed on as a whole, and a
// vector of fixed capacity is not Copy.
#[derive(Clone, Copy)]
pub struct TStdReport {
    pub violations: [ViolationLine; 64],
    pub violation_count: usize,
    pub violation_events: u64,
    pub pcr_samples: u64,
    pub modelled_seconds: f64,
}

// The figures of one chain.
#[derive(Clone, Copy)]
pub struct TStdChainStats {
    pub pid: u16,
    pub peak_tb_bytes: u64,
    pub peak_main_bytes: u64,
    pub peak_eb_bytes: u64,
    pub access_units: u64,
    pub max_delay_seconds: f64,
}

// `record` takes a report by value and hands it back with its answer, after a refusal too, where a Result has no report.
#[derive(Clone, Copy)]
pub struct Recorded {
    pub answer: Result<(), Refusal>,
    pub report: TStdReport,
}

impl TStdChainStats {
    // Before any packet. Ruled out: a peak or a delay that is not 0; another PID.
    #[tactic(auto, unfolding(crate::specs::Report::empty_stats))]
    pub fn new(pid: u16) -> Self
        ensures { result ≡ empty_stats pid }
    {
        TStdChainStats {
            pid,
            peak_tb_bytes: 0,
            peak_main_bytes: 0,
            peak_eb_bytes: 0,
            access_units: 0,
            max_delay_seconds: 0.0,
        }
    }
}

impl TStdReport {
    // Before any event; unused records hold TbOverflow with PID 0 and peak 0. Ruled out: a line in use; an event counted.
    #[tactic(auto, unfolding(crate::specs::Report::empty_report))]
    pub fn new() -> Self
        ensures { result ≡ empty_report }
    {
        let violation = TStdViolation::TbOverflow {
            pid: 0,
            peak_bytes: 0,
        };
        let unused = ViolationLine { violation };
        TStdReport {
            violations: [unused; 64],
            violation_count: 0,
            violation_events: 0,
            pcr_samples: 0,
            modelled_seconds: 0.0,
        }
    }

    // Ruled out: conformant with a line in the table; not conformant for its count of events alone.
    pub fn is_conformant(self) -> bool
        ensures { result ≡ conformant self }
    {
        self.violation_count == 0
    }

    // One event: the line of its key takes the worse figure, or a new line is made. Over 64 lines, 64 and a new key, or
    // events at 2^64 - 1: number 1 and the report as it came. Ruled out: an event merged and not counted; a refusal that
    // changes the report. All in one function, so that the table is not copied for a call.
    pub fn record(mut self, v: TStdViolation) -> Recorded
        ensures { (result ≡ recorded self v) × (code_told result.answer ≡ record_code self v) }
    {
        let count = self.violation_count;
        if self.violation_events == u64::MAX || 64 < count {
            return Recorded {
                answer: Err(Refusal::OutsideLimits),
                report: self,
            };
        }
        let key = v.key();
        let found = self
            .violations
            .iter()
            .take(count)
            .position(|line| line.violation.key() == key);
        if let Some(i) = found {
            let violation = merge_worse(self.violations[i].violation, v);
            self.violations[i] = ViolationLine { violation };
            self.violation_events += 1;
            return Recorded {
                answer: Ok(()),
                report: self,
            };
        }
        if count == 64 {
            return Recorded {
                answer: Err(Refusal::OutsideLimits),
                report: self,
            };
        }
        self.violations[count] = ViolationLine { violation: v };
        self.violation_count += 1;
        self.violation_events += 1;
        Recorded {
            answer: Ok(()),
            report: self,
        }
    }
}

// `record` on a report that the caller lends: document 01 asks for both forms, and this one calls the other.
// Ruled out: the report left as it was; another answer than `record` gives.
pub fn record_in(report: &mut TStdReport, v: TStdViolation) -> Result<(), Refusal>
    ensures { (report.new ≡ (recorded report.old v).report) × (result ≡ (recorded report.old v).answer) × (code_told result ≡ record_code report.old v) }
{
    let r = report.record(v);
    *report = r.report;
    r.answer
}
