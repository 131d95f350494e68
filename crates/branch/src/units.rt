// `Units`: the access units of a branch, which are removed whole at their decode times (H.222.0, 2.4.2.3).
ghost use Rattle.std.specs.Prelude.{◌≡◌, ◌+◌, ◌≤◌, ◌<◌};
ghost use Rattle.events.specs.Slots.{noted_all};
ghost use Rattle.branch.specs.Queue.{Lies};
ghost use Rattle.branch.specs.Units.{close_units, open_units, stamp_of, unit_events};
ghost use Rattle.branch.specs.UnitsInWork.{no_units, waiting_of, UnitsTo, grown_units, FirstOf, DueOf, removed_units};

use crate::queue::{Place, Ring};
use crate::{AccessUnit, Delivered, QueueFull};
use events::{Event, Slots};

// The units that are pending, in a ring of the work, and the one whose bytes still arrive; and what the removals tell. Place and
// work are handed on beside it (see Place), and the slots beside k (see MainModel). Its close and remove are what those of the branches call.
#[derive(Clone, Copy)]
pub struct Units {
    pub pending: Ring,
    pub open_au: Option<AccessUnit>,
    pub access_units: u64,
    pub max_delay_seconds: f64,
}

// What a removal tells of its unit: underflow and delay.
#[tactic(auto, using(crate::proofs::UnitQueues::noted_removal))]
pub(crate) fn note_removal(arrived: f64, required: f64, u: AccessUnit, slots: &mut Slots, k: usize)
    ensures { slots.new ≡ noted_all k (unit_events arrived required u) slots.old }
{
    let decode_time = u.decode_time;
    let missing = required - arrived;
    slots.note_when(
        arrived + 1.0 < required,
        k,
        Event::Underflow {
            decode_time,
            missing,
        },
    );
    let seconds = decode_time - u.first_input_time;
    slots.note_when(
        seconds > 1.0 + 1e-6,
        k,
        Event::Delay {
            decode_time,
            seconds,
        },
    );
}

impl Delivered {
    // The unit that the stamp opens.
    fn stamped(self) -> Option<AccessUnit>
        ensures { result ≡ stamp_of self }
    {
        if self.decode_time != f64::NEG_INFINITY {
            return Some(AccessUnit {
                decode_time: self.decode_time,
                bytes: 0.0,
                first_input_time: self.first_input_time,
            });
        }
        None
    }
}

impl Units {
    // Nothing is pending and no unit is open.
    pub(crate) fn new() -> Units
        ensures { result ≡ no_units }
    {
        Units {
            pending: Ring { head: 0, count: 0 },
            open_au: None,
            access_units: 0,
            max_delay_seconds: 0.0,
        }
    }

    // The open unit becomes a pending one. Nothing changes where none is open, nor where the ring is full.
    #[tactic(auto, using(crate::proofs::UnitQueues::units_same, crate::proofs::UnitQueues::close_none, crate::proofs::UnitQueues::close_full))]
    pub(crate) fn close(&mut self, w: Place, work: &mut [f64]) -> Result<(), QueueFull>
        requires { Lies 3 work.old w self.old.pending }
        ensures { UnitsTo work.old w self.old (close_units w.depth (waiting_of work.old w self.old)) result self.new work.new }
    {
        let Some(u) = self.open_au else {
            return Ok(());
        };
        self.pending.push(w, work, <[f64; 3]>::from(u))?;
        self.open_au = None;
        Ok(())
    }

    // A stamp closes the open unit, and opens the next.
    #[tactic(auto, using(crate::proofs::UnitQueues::units_same, crate::proofs::UnitQueues::stamp_none))]
    pub(crate) fn open(&mut self, w: Place, work: &mut [f64], d: Delivered) -> Result<(), QueueFull>
        requires { Lies 3 work.old w self.old.pending }
        ensures { UnitsTo work.old w self.old (open_units w.depth (stamp_of d) (waiting_of work.old w self.old)) result self.new work.new }
    {
        let Some(u) = d.stamped() else {
            return Ok(());
        };
        self.close(w, work)?;
        self.open_au = Some(u);
        Ok(())
    }

    // Bytes of the open unit.
    #[tactic(auto, using(crate::proofs::UnitQueues::grown_some, crate::proofs::UnitQueues::grown_none))]
    pub(crate) fn grow(&mut self, bytes: f64)
        ensures { self.new ≡ grown_units self.old bytes }
    {
        if let Some(u) = &mut self.open_au {
            u.bytes = u.bytes + bytes;
        }
    }

    // The first pending unit.
    #[tactic(auto, using(crate::proofs::UnitQueues::first_none, crate::proofs::UnitQueues::first_some))]
    pub(crate) fn first(self, w: Place, work: &[f64]) -> Option<AccessUnit>
        requires { Lies 3 work.now w self.pending }
        ensures { FirstOf work.now w self.pending result }
    {
        if self.pending.count == 0 {
            return None;
        }
        Some(AccessUnit::from(self.pending.entry(w, work, 0)))
    }

    // The same, where it is due.
    #[tactic(auto, using(crate::proofs::UnitQueues::due_none, crate::proofs::UnitQueues::due_first, crate::proofs::UnitQueues::due_later))]
    pub(crate) fn due(self, w: Place, work: &[f64], frontier: f64) -> Option<AccessUnit>
        requires { Lies 3 work.now w self.pending }
        ensures { DueOf work.now w self.pending frontier result }
    {
        let unit = self.first(w, work)?;
        if unit.decode_time <= frontier {
            return Some(unit);
        }
        None
    }

    // The first pending unit, u, goes.
    pub(crate) fn remove(&mut self, w: Place, u: AccessUnit)
        requires head_lt_depth { (self.old.pending.head < w.depth) × (0 < self.old.pending.count) }
        requires count_bound { self.old.access_units < 18446744073709551615 }
        ensures { self.new ≡ removed_units w.depth self.old u }
    {
        self.pending.pop(w);
        self.access_units = self.access_units + 1;
        self.max_delay_seconds = ieee::max(
            self.max_delay_seconds,
            u.decode_time - u.first_input_time,
        );
    }
}
