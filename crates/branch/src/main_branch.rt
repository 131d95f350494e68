// `MainBranch`: runs in the main buffer Bn, and access units that are removed whole at their decode times (H.222.0, 2.4.2.3).
ghost use Rattle.std.specs.Prelude.{◌≡◌, ◌+◌, ◌*◌, ◌≤◌, ◌<◌};
ghost use Rattle.branch.specs.MainBranch.{drain as drainDef, look_at_end, stamp_of, add_run, deliver as deliverDef};
ghost use Rattle.branch.specs.MainInWork.{new_branch, runs_place, units_place, main_of, BranchLies, ready as readyDef, RemovedTo, DrainedTo, FedTo, StepOf, FinishOf, CloseOf};

use crate::inflow::CumulativeIn;
use crate::queue::{Place, Ring};
use crate::units::{Units, note_removal};
use crate::{AccessUnit, Delivered, QueueFull, Run};
use events::{Event, Slots};

// What does not change: BSn in bytes, and where the chain's part of the work begins, with the depth of its two rings. The work is handed
// on beside it (see Place), so the clause BranchLies says where the rings lie. The slots are handed on beside k, where those of the chain
// begin, since one Slots counts the events of all chains in one order; a view of both, with the `&mut Slots` in it, would make each clause
// say `slots.old.slots.now` where it says `slots.old`.
#[derive(Clone, Copy)]
pub struct MainModel {
    pub buffer_size: f64,
    pub base: usize,
    pub depth: usize,
}

// Functions of these names stand in VideoBranch too, and no trait over both: what both do is in `Units`, and the rest differs (lib.rt).
#[derive(Clone, Copy)]
pub struct MainBranch {
    pub inflow: CumulativeIn,
    pub units: Units,
    pub removed: f64,
    pub required: f64,
    pub peak: f64,
}

impl MainModel {
    fn runs_place(self) -> Place
        ensures { result ≡ runs_place self }
    {
        Place {
            base: self.base,
            depth: self.depth,
        }
    }

    fn units_place(self) -> Place
        requires { self.base + 6 * self.depth ≤ 9223372036854775807 }
        ensures { result ≡ units_place self }
    {
        Place {
            base: self.base + 3 * self.depth,
            depth: self.depth,
        }
    }
}

impl MainBranch {
    // Nothing has arrived and no unit is open. Ruled out: an open unit of decode time 0; a ring that does not lie in the work.
    #[tactic(auto, unfolding(crate::specs::MainInWork::new_branch))]
    pub fn new() -> MainBranch
        ensures { result ≡ new_branch }
    {
        MainBranch {
            inflow: CumulativeIn {
                runs: Ring { head: 0, count: 0 },
                settled: 0.0,
            },
            units: Units::new(),
            removed: 0.0,
            required: 0.0,
            peak: 0.0,
        }
    }

    // The rings lie in a work of len floats, the count of units has room, and the chain has slots. Work that does not fit is no error: a
    // public function demands nothing, and the contract says that all stays as it is (`Unchanged`). The one caller, tstd's replay, always
    // meets the test, since it has answered OutsideLimits or WorkTooShort before.
    #[tactic(auto, unfolding(crate::specs::MainInWork::ready))]
    fn ready(self, p: MainModel, len: usize, k: usize) -> bool
        requires { len ≤ 1152921504606846976 }
        ensures { result ≡ readyDef len p self k }
    {
        if p.depth > len || p.base > len {
            return false;
        }
        // not &&, of which the proof would make a case each
        (p.base + 6 * p.depth <= len)
            & self.inflow.runs.fits(p.depth)
            & self.units.pending.fits(p.depth)
            & (self.units.access_units < 1 << 63)
            & (k < 64)
    }

    // At the end the unit whose bytes were arriving becomes a pending one. Ruled out: a unit that is dropped where its queue is full;
    // a unit that is pending and still open.
    #[tactic(auto, using(crate::proofs::MainSteps::close_not_ready, crate::proofs::MainSteps::close_made, crate::proofs::MainSteps::ready_room, crate::proofs::MainSteps::ready_pending))]
    pub fn close(&mut self, p: MainModel, work: &mut [f64]) -> Result<(), QueueFull>
        ensures { CloseOf work.old p self.old result self.new work.new }
    {
        if !self.ready(p, work.len(), 0) {
            return Ok(());
        }
        self.units.close(p.units_place(), work)
    }

    // The first pending unit, u, is removed.
    fn remove(&mut self, p: MainModel, work: &[f64], u: AccessUnit, slots: &mut Slots, k: usize)
        requires branch_lies { BranchLies work.now p self.old }
        requires pending { 0 < self.old.units.pending.count }
        requires count_bound { self.old.units.access_units < 18446744073709551615 }
        ensures { RemovedTo work.now p self.old u k slots.old self.new slots.new }
    {
        let got = self.inflow.arrived_by(p.runs_place(), work, u.decode_time);
        let fullness = got.total - self.removed;
        let required = self.required + u.bytes;
        slots.note_when(fullness > p.buffer_size + 1.0, k, Event::Overflow(fullness));
        note_removal(got.total, required, u, slots, k);
        self.inflow = got.inflow;
        self.units.remove(p.units_place(), u);
        self.removed = ieee::min(required, got.total);
        self.required = required;
        self.peak = ieee::max(self.peak, fullness);
    }

    // Every pending unit with a decode time up to the frontier is removed, in queue order. Not by `Units::due`: where a decode time is no
    // number the definition, `drain_from`, removes the unit, and `due` would leave it.
    #[tactic(auto, using(crate::proofs::Removals::drain_stops, crate::proofs::Removals::drain_ends))]
    fn drain(&mut self, p: MainModel, work: &[f64], frontier: f64, slots: &mut Slots, k: usize)
        requires branch_lies { BranchLies work.now p self.old }
        requires count_bound { self.old.units.access_units + self.old.units.pending.count ≤ 18446744073709551615 }
        ensures { DrainedTo work.now p k slots.old (drainDef p.buffer_size frontier (main_of work.now p self.old)) self.new slots.new }
    {
        while let Some(u) = self.units.first(p.units_place(), work) {
            if u.decode_time > frontier {
                break;
            }
            self.remove(p, work, u, slots, k);
        }
    }

    // The fullness of all that arrives.
    fn look_at_end(&mut self, p: MainModel, work: &[f64], slots: &mut Slots, k: usize)
        requires branch_lies { BranchLies work.now p self.old }
        ensures { DrainedTo work.now p k slots.old (look_at_end p.buffer_size (main_of work.now p self.old)) self.new slots.new }
    {
        let fullness = self.inflow.final_total(p.runs_place(), work) - self.removed;
        slots.note_when(fullness > p.buffer_size + 1.0, k, Event::Overflow(fullness));
        self.peak = ieee::max(self.peak, fullness);
    }

    // A run goes into the main buffer; its bytes are the open unit's too.
    #[tactic(auto, using(crate::proofs::Feeding::fed_same, crate::proofs::Feeding::no_run))]
    fn add_run(&mut self, p: MainModel, work: &mut [f64], run: Run) -> Result<(), QueueFull>
        requires { BranchLies work.old p self.old }
        ensures { FedTo work.old p self.old (add_run p.depth run (main_of work.old p self.old)) result self.new work.new }
    {
        if !(run.bytes > 0.0) {
            return Ok(());
        }
        self.inflow.push_run(p.runs_place(), work, run)?;
        self.units.grow(run.bytes);
        Ok(())
    }

    // The stamp, then the runs in their order; a queue with no place left ends it.
    fn deliver(&mut self, p: MainModel, work: &mut [f64], d: Delivered) -> Result<(), QueueFull>
        requires { BranchLies work.old p self.old }
        ensures { FedTo work.old p self.old (deliverDef p.depth d (main_of work.old p self.old)) result self.new work.new }
    {
        self.units.open(p.units_place(), work, d)?;
        self.add_run(p, work, d.head)?;
        self.add_run(p, work, d.rest)?;
        self.add_run(p, work, d.body)
    }

    // A packet that arrives at t and delivers d. Its events go to the slots from k on.
    // Ruled out: a unit closed after the run that opens the next; a queue called full with a place left; work of another chain written.
    #[tactic(auto, using(crate::proofs::MainSteps::step_not_ready, crate::proofs::MainSteps::step_made, crate::proofs::MainSteps::ready_branch, crate::proofs::MainSteps::ready_bound))]
    pub fn step(
        &mut self,
        p: MainModel,
        work: &mut [f64],
        d: Delivered,
        t: f64,
        slots: &mut Slots,
        k: usize,
    ) -> Result<(), QueueFull>
        ensures { StepOf work.old p self.old d t k slots.old result self.new work.new slots.new }
    {
        if !self.ready(p, work.len(), k) {
            return Ok(());
        }
        self.drain(p, work, t, slots, k);
        self.deliver(p, work, d)
    }

    // The end of the stream: the open unit becomes a pending one, every unit is removed, and the fullness of all that arrives is looked at.
    // Ruled out: a unit that is still pending; an overflow after the last removal that is not noted.
    #[tactic(auto, using(crate::proofs::MainSteps::finish_not_ready, crate::proofs::MainSteps::ready_room, crate::proofs::MainSteps::ready_pending, crate::proofs::MainSteps::ready_slots))]
    pub fn finish(
        &mut self,
        p: MainModel,
        work: &mut [f64],
        slots: &mut Slots,
        k: usize,
    ) -> Result<(), QueueFull>
        ensures { FinishOf work.old p self.old k slots.old result self.new work.new slots.new }
    {
        if !self.ready(p, work.len(), k) {
            return Ok(());
        }
        self.units.close(p.units_place(), work)?;
        self.drain(p, work, f64::INFINITY, slots, k);
        self.look_at_end(p, work, slots, k);
        Ok(())
    }
}
