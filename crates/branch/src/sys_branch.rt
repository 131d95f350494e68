// `SysBranch`: the system data buffer Bsys, of 1536 bytes, which drains at Rsys all the time (H.222.0, 2.4.2.3).
ghost use Rattle.std.specs.Prelude.{◌≡◌};
ghost use Rattle.events.specs.Slots.{noted_all};
ghost use Rattle.branch.specs.SysBranch.{new_sys, rsys_of, since as sinceDef, idled as idledDef, filled as filledDef, push_sys, sys_events};

use crate::Run;
use events::{Event, Slots};

// The time of the last byte is -infinity before the first run, as in the definition `since`. The slots are handed on beside k (see
// MainModel).
#[derive(Clone, Copy)]
pub struct SysBranch {
    pub fullness: f64,
    pub last_time: f64,
    pub peak: f64,
}

// Rsys in bytes a second, from the transport rate in bytes a second. Ruled out: a rate below 80000 bit/s; one in bits.
#[tactic(auto, unfolding(crate::specs::SysBranch::rsys_of))]
pub fn rsys(rate: f64) -> f64
    ensures { result ≡ rsys_of rate }
{
    ieee::max(rate * 8.0 / 500.0, 80000.0) / 8.0
}

impl SysBranch {
    // Ruled out: a clock that starts at 0; a peak that falls.
    pub fn new() -> SysBranch
        ensures { result ≡ new_sys }
    {
        SysBranch {
            fullness: 0.0,
            last_time: f64::NEG_INFINITY,
            peak: 0.0,
        }
    }

    fn since(self, t0: f64) -> f64
        ensures { result ≡ sinceDef self t0 }
    {
        if self.last_time == f64::NEG_INFINITY {
            return t0;
        }
        self.last_time
    }

    // The fullness once the idle gap has drained.
    #[tactic(auto, unfolding(crate::specs::SysBranch::idled))]
    fn idled(self, t0: f64, rate: f64) -> f64
        ensures { result ≡ idledDef self t0 rate }
    {
        let gap = ieee::max(t0 - self.since(t0), 0.0);
        ieee::max(self.fullness - rate * gap, 0.0)
    }

    // The fullness at the run's end.
    #[tactic(auto, unfolding(crate::specs::SysBranch::filled))]
    fn filled(self, run: Run, rate: f64) -> f64
        ensures { result ≡ filledDef self run rate }
    {
        let left = self.idled(run.t0, rate);
        let span = ieee::max(run.t1 - run.t0, 0.0);
        ieee::max(left + run.bytes - rate * span, 0.0)
    }

    // The push of a ring shares the name alone. A run goes into Bsys, at the rate around its time; an overflow goes to slot k.
    // Ruled out: an overflow at 1536 bytes without the byte of tolerance; the gap before the first run drained.
    #[tactic(auto, unfolding(crate::specs::SysBranch::push_sys, crate::specs::SysBranch::sys_events))]
    pub fn push(self, run: Run, rate: f64, slots: &mut Slots, k: usize) -> SysBranch
        ensures { (result ≡ push_sys self run rate) × (slots.new ≡ noted_all k (sys_events self run rate) slots.old) }
    {
        let fullness = self.filled(run, rate);
        slots.note_when(fullness > 1536.0 + 1.0, k, Event::Overflow(fullness));
        SysBranch {
            fullness,
            last_time: run.t1,
            peak: ieee::max(self.peak, fullness),
        }
    }
}
