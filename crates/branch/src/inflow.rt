// `CumulativeIn`: how many bytes have arrived by a time, of runs in a ring of the work.
ghost use Rattle.std.specs.Prelude.{◌≡◌, ◌<◌};
ghost use Rattle.branch.specs.Queue.{Lies, place_of, floats_at};
ghost use Rattle.branch.specs.CumulativeIn.{fraction, total_of, final_total, time_of_cumulative};
ghost use Rattle.branch.specs.InflowInWork.{run_of, inflow_of, runs_of, SettledTo, ArrivedTo, RunPushedTo};

use crate::queue::{Place, Ring};
use crate::{QueueFull, Run};

// The runs still tracked, and the bytes of those that are spent. Place and work are handed on beside it (see Place).
#[derive(Clone, Copy)]
pub struct CumulativeIn {
    pub runs: Ring,
    pub settled: f64,
}

#[derive(Clone, Copy)]
pub struct Arrived {
    pub inflow: CumulativeIn,
    pub total: f64,
}

impl Run {
    // How much of a run has arrived by t, where the run has begun.
    #[tactic(auto, unfolding(crate::specs::CumulativeIn::fraction, crate::specs::CumulativeIn::clamp))]
    fn fraction_by(self, t: f64) -> f64
        ensures { result ≡ fraction self t }
    {
        let span = self.t1 - self.t0;
        if span <= 0.0 {
            return 1.0;
        }
        ((t - self.t0) / span).clamp(0.0, 1.0)
    }
}

impl Ring {
    // The run i from the front.
    fn run_at(self, w: Place, work: &[f64], i: usize) -> Run
        requires lies { Lies 3 work.now w self }
        requires i_lt_count { i < self.count }
        ensures { result ≡ run_of (floats_at 3 work.now (place_of 3 w self i)) }
    {
        Run::from(self.entry(w, work, i))
    }
}

impl CumulativeIn {
    // A run without bytes is no run. Nothing changes where the queue is full.
    pub(crate) fn push_run(&mut self, w: Place, work: &mut [f64], run: Run) -> Result<(), QueueFull>
        requires { Lies 3 work.old w self.old.runs }
        ensures { RunPushedTo work.old w self.old run result self.new work.new }
    {
        if !(run.bytes > 0.0) {
            return Ok(());
        }
        self.runs.push(w, work, <[f64; 3]>::from(run))
    }

    // The runs that have ended by t go from the ring to the sum.
    #[tactic(auto, using(crate::proofs::Inflows::settle_stops, crate::proofs::Inflows::settle_ends, crate::proofs::Rings::count_popped))]
    fn settle(self, w: Place, work: &[f64], t: f64) -> CumulativeIn
        requires { Lies 3 work.now w self.runs }
        ensures { SettledTo work.now w self t result }
    {
        let mut q = self.runs;
        let mut sum = self.settled;
        while 0 < q.count {
            let run = q.run_at(w, work, 0);
            if run.t1 <= t {
                sum = sum + run.bytes;
                q.pop(w);
            } else {
                break;
            }
        }
        CumulativeIn {
            runs: q,
            settled: sum,
        }
    }

    // The sum with each run's part.
    fn total(self, w: Place, work: &[f64], t: f64) -> f64
        requires { Lies 3 work.now w self.runs }
        ensures { result ≡ total_of (runs_of work.now w self.runs) self.settled t }
    {
        let mut sum = self.settled;
        for i in 0..self.runs.count {
            let run = self.runs.run_at(w, work, i);
            if run.t0 >= t {
                return sum;
            }
            sum = sum + run.bytes * run.fraction_by(t);
        }
        sum
    }

    #[tactic(auto, using(crate::proofs::Inflows::total_settled))]
    pub(crate) fn arrived_by(self, w: Place, work: &[f64], t: f64) -> Arrived
        requires { Lies 3 work.now w self.runs }
        ensures { ArrivedTo work.now w self t result }
    {
        let inflow = self.settle(w, work, t);
        let total = inflow.total(w, work, t);
        Arrived { inflow, total }
    }

    // The sum once every run has arrived.
    pub(crate) fn final_total(self, w: Place, work: &[f64]) -> f64
        requires { Lies 3 work.now w self.runs }
        ensures { result ≡ final_total (inflow_of work.now w self) }
    {
        let mut sum = 0.0;
        for i in 0..self.runs.count {
            sum = sum + self.runs.run_at(w, work, i).bytes;
        }
        self.settled + sum
    }

    // When the byte `target` of the sum came, as far as the ring knows; none where it has not come.
    #[tactic(auto, using(crate::proofs::Inflows::time_more, crate::proofs::Inflows::time_stops, crate::proofs::Inflows::time_ends, crate::proofs::Inflows::time_first, crate::proofs::Inflows::time_unsettled))]
    pub(crate) fn time_of_cumulative(self, w: Place, work: &[f64], target: f64) -> Option<f64>
        requires { Lies 3 work.now w self.runs }
        ensures { result ≡ time_of_cumulative (inflow_of work.now w self) target }
    {
        if target <= self.settled {
            if self.runs.count == 0 {
                return Some(f64::NEG_INFINITY);
            }
            return Some(self.runs.run_at(w, work, 0).t0);
        }
        let mut sum = self.settled;
        for i in 0..self.runs.count {
            let run = self.runs.run_at(w, work, i);
            if target <= sum + run.bytes {
                return Some(run.t0 + (run.t1 - run.t0) * ((target - sum) / run.bytes));
            }
            sum = sum + run.bytes;
        }
        None
    }
}
