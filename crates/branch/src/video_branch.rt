// `VideoBranch`: MBn leaks into EBn at Rbxn, PES headers are dropped on the way, and access units are removed from EBn at their decode
// times (H.222.0, 2.4.2.3, leak method). The queues are three rings in the lent work; the events go into lent slots.
ghost use Rattle.std.specs.Prelude.{◌≡◌, ◌+◌, ◌*◌, ◌≤◌, ◌<◌, true, false};
ghost use Rattle.branch.specs.VideoBranch.{advance as advanceOf};
ghost use Rattle.branch.specs.VideoStep.{add_run, deliver as deliverOf};
ghost use Rattle.branch.specs.VideoInWork.{rates_of, video_of, VideoLies, RemovedBy, AdvancedTo, chain_of, Apart, VideoFedTo, QueuedTo, MarkedTo, layout_of, ready as readyOf, SteppedTo, StepOf, FinishOf, CloseOf, new_branch};

use crate::inflow::CumulativeIn;
// The leak's types stand in a file of their own, and go by this module's name too.
pub use crate::leak::{Flow, Headers, Leak, Looked, Turned, VideoLayout};
use crate::queue::{Place, Ring};
use crate::units::{Units, note_removal};
use crate::{AccessUnit, Delivered, HeaderMark, QueueFull, Run};
use events::{Event, Slots};
use ieee::{max, min};

// What does not change: the rate Rbxn in bytes a second, the sizes MBSn and EBSn in bytes, and where the chain's part of the work begins,
// with the depth of its three rings. Work and slots are handed on beside it, the slots beside k, where those of the chain begin: as for
// MainModel.
#[derive(Clone, Copy)]
pub struct VideoModel {
    pub rbx: f64,
    pub mb_size: f64,
    pub eb_size: f64,
    pub base: usize,
    pub depth: usize,
}

// The branch behind the transport buffer. Functions of its names stand in MainBranch too, and no trait over both: what both do is in `Units`,
// and the rest differs (lib.rt). Apart is asked by the functions that write, and no invariant of VideoLayout: the leak's, which read, take any.
#[derive(Clone, Copy)]
pub struct VideoBranch {
    pub leak: Leak,
    pub units: Units,
    pub queued: f64,
    pub eb_required: f64,
}

impl VideoModel {
    // The three rings stand one behind the other.
    fn layout(self) -> VideoLayout
        requires { self.base + 8 * self.depth ≤ 9223372036854775807 }
        ensures { result ≡ layout_of self }
    {
        VideoLayout {
            rbx: self.rbx,
            mb_size: self.mb_size,
            eb_size: self.eb_size,
            runs: Place {
                base: self.base,
                depth: self.depth,
            },
            units: Place {
                base: self.base + 3 * self.depth,
                depth: self.depth,
            },
            marks: Place {
                base: self.base + 6 * self.depth,
                depth: self.depth,
            },
        }
    }
}

impl VideoBranch {
    // Ruled out: a clock that is set already; a branch that holds bytes.
    pub fn new() -> VideoBranch
        ensures { result ≡ new_branch }
    {
        let none = Ring { head: 0, count: 0 };
        VideoBranch {
            leak: Leak {
                mb_in: CumulativeIn {
                    runs: none,
                    settled: 0.0,
                },
                flow: Flow {
                    marks: none,
                    transferred: 0.0,
                    eb_in: 0.0,
                    eb_removed: 0.0,
                    eb_peak: 0.0,
                },
                busy_since: f64::NEG_INFINITY,
                longest_busy: 0.0,
                mb_peak: 0.0,
                proc_time: f64::NEG_INFINITY,
            },
            units: Units::new(),
            queued: 0.0,
            eb_required: 0.0,
        }
    }

    // The rings lie in a work of len floats, the count of units has room, and the chain has slots. Work that does not fit is no error: a
    // public function demands nothing, and the contract says that all stays as it is (`Unchanged`). The one caller, tstd's replay, always
    // meets the test, since it has answered OutsideLimits or WorkTooShort before.
    #[tactic(auto, unfolding(crate::specs::VideoInWork::ready))]
    fn ready(self, p: VideoModel, len: usize, k: usize) -> bool
        requires { len ≤ 1152921504606846976 }
        ensures { result ≡ readyOf len p self k }
    {
        if p.depth > len || p.base > len {
            return false;
        }
        // not &&, of which the proof would make a case each
        (p.base + 8 * p.depth <= len)
            & self.leak.mb_in.runs.fits(p.depth)
            & self.units.pending.fits(p.depth)
            & self.leak.flow.marks.fits(p.depth)
            & (self.units.access_units < 1 << 63)
            & (k < 64)
    }

    // The first pending unit, u, is removed from EBn.
    fn remove(&mut self, m: VideoLayout, u: AccessUnit, slots: &mut Slots, k: usize)
        requires head_lt_depth { (self.old.units.pending.head < m.units.depth) × (0 < self.old.units.pending.count) }
        requires count_bound { self.old.units.access_units < 18446744073709551615 }
        ensures { RemovedBy m self.old u k slots.old slots.new self.new }
    {
        let required = self.eb_required + u.bytes;
        note_removal(self.leak.flow.eb_in, required, u, slots, k);
        self.units.remove(m.units, u);
        self.eb_required = required;
        self.leak.flow.eb_removed = min(required, self.leak.flow.eb_in);
    }

    // The leak up to the frontier, with each unit removed that is due by then.
    fn advance(&mut self, m: VideoLayout, work: &[f64], frontier: f64, slots: &mut Slots, k: usize)
        requires video_lies { VideoLies work.now m self.old }
        requires count_bound { self.old.units.access_units + self.old.units.pending.count ≤ 18446744073709551615 }
        ensures { AdvancedTo work.now m k self.old.units.open_au slots.old (advanceOf (rates_of m) frontier (video_of work.now m self.old)) self.new slots.new }
    {
        loop {
            let due = self.units.due(m.units, work, frontier);
            let to = match due {
                Some(u) => u.decode_time,
                None => frontier,
            };
            self.leak = self.leak.leak_until(m, work, to, slots, k);
            let Some(u) = due else {
                return;
            };
            self.remove(m, u, slots, k);
        }
    }

    // A run goes into MBn; metric is what it adds to the open unit.
    #[tactic(auto, using(crate::proofs::VideoFeeding::run_queued, crate::proofs::VideoFeeding::run_refused_lem))]
    fn queue_run(
        &mut self,
        m: VideoLayout,
        work: &mut [f64],
        run: Run,
        metric: f64,
    ) -> Result<(), QueueFull>
        requires video_lies { VideoLies work.old m self.old }
        requires apart { Apart m }
        ensures { QueuedTo work.old m self.old run metric result self.new work.new }
    {
        self.leak.mb_in.push_run(m.runs, work, run)?;
        self.units.grow(metric);
        self.queued = self.queued + run.bytes;
        Ok(())
    }

    // The mark of header bytes that end where the queue ends.
    fn mark_run(&mut self, m: VideoLayout, work: &mut [f64], bytes: f64)
        requires video_lies { VideoLies work.old m self.old }
        requires apart { Apart m × (self.old.leak.flow.marks.count < m.marks.depth) }
        ensures { MarkedTo work.old m self.old bytes self.new work.new }
    {
        let mark = HeaderMark {
            threshold: self.queued,
            bytes,
        };
        self.leak
            .flow
            .marks
            .push(m.marks, work, <[f64; 2]>::from(mark))
            .unwrap();
    }

    // A run of content: its bytes are the open unit's too.
    #[tactic(auto, using(crate::proofs::VideoFeeding::fed_same, crate::proofs::VideoFeeding::run_none, crate::proofs::VideoFeeding::content_fed))]
    fn add_content(&mut self, m: VideoLayout, work: &mut [f64], run: Run) -> Result<(), QueueFull>
        requires video_lies { VideoLies work.old m self.old }
        requires apart { Apart m }
        ensures { VideoFedTo work.old m self.old (add_run m.runs.depth false run (chain_of work.old m self.old)) result self.new work.new }
    {
        if run.bytes <= 0.0 {
            return Ok(());
        }
        self.queue_run(m, work, run, run.bytes)
    }

    // A run of header bytes, with its mark.
    #[tactic(auto, using(crate::proofs::VideoFeeding::fed_same, crate::proofs::VideoFeeding::run_none, crate::proofs::VideoFeeding::fed_full, crate::proofs::VideoFeeding::header_fed))]
    fn add_header(&mut self, m: VideoLayout, work: &mut [f64], run: Run) -> Result<(), QueueFull>
        requires video_lies { VideoLies work.old m self.old }
        requires apart { Apart m }
        ensures { VideoFedTo work.old m self.old (add_run m.runs.depth true run (chain_of work.old m self.old)) result self.new work.new }
    {
        if run.bytes <= 0.0 {
            return Ok(());
        }
        if self.leak.flow.marks.count == m.marks.depth {
            return Err(QueueFull);
        }
        self.queue_run(m, work, run, 0.0)?;
        self.mark_run(m, work, run.bytes);
        Ok(())
    }

    // What a packet delivers: a stamp, which closes the open unit and opens the next, the header bytes up to its end, those behind, and
    // the content.
    fn deliver(&mut self, m: VideoLayout, work: &mut [f64], d: Delivered) -> Result<(), QueueFull>
        requires video_lies { VideoLies work.old m self.old }
        requires apart { Apart m }
        ensures { VideoFedTo work.old m self.old (deliverOf m.runs.depth d (chain_of work.old m self.old)) result self.new work.new }
    {
        self.units.open(m.units, work, d)?;
        self.add_header(m, work, d.head)?;
        self.add_header(m, work, d.rest)?;
        self.add_content(m, work, d.body)
    }

    // At the end the unit whose bytes were arriving becomes a pending one. Ruled out: a unit that is dropped where its queue is full;
    // a unit that is pending and still open.
    #[tactic(auto, using(crate::proofs::VideoSteps::ready_is))]
    pub fn close(&mut self, p: VideoModel, work: &mut [f64]) -> Result<(), QueueFull>
        ensures { CloseOf work.old p self.old result self.new work.new }
    {
        if !self.ready(p, work.len(), 0) {
            return Ok(());
        }
        self.units.close(p.layout().units, work)
    }

    // A packet that arrives at t and delivers d. Its events go to the slots from k on.
    // Ruled out: a unit removed before the leak has come to its decode time; header bytes that enter EBn; a queue called full with a
    // place left; work of another chain written.
    #[tactic(auto, using(crate::proofs::VideoSteps::ready_is))]
    pub fn step(
        &mut self,
        p: VideoModel,
        work: &mut [f64],
        d: Delivered,
        t: f64,
        slots: &mut Slots,
        k: usize,
    ) -> Result<(), QueueFull>
        ensures { StepOf work.old p self.old d t k slots.old result self.new work.new slots.new }
    {
        if !self.ready(p, work.len(), k) {
            return Ok(());
        }
        let m = p.layout();
        self.advance(m, work, t, slots, k);
        self.deliver(m, work, d)
    }

    // The end of the stream: the leak goes on until all that is queued has left, and MBn's busy stretch is looked at once.
    // Ruled out: a unit that is still open; a busy stretch that is looked at before the leak's end.
    #[tactic(auto, using(crate::proofs::VideoSteps::ready_is, crate::proofs::VideoSteps::layout_apart, crate::proofs::VideoFeeding::units_closed))]
    pub fn finish(
        &mut self,
        p: VideoModel,
        work: &mut [f64],
        slots: &mut Slots,
        k: usize,
    ) -> Result<(), QueueFull>
        ensures { FinishOf work.old p self.old k slots.old result self.new work.new slots.new }
    {
        if !self.ready(p, work.len(), k) {
            return Ok(());
        }
        let m = p.layout();
        self.units.close(m.units, work)?;
        let end = max(self.leak.proc_time, 0.0) + self.queued / m.rbx + 2.0;
        self.advance(m, work, end, slots, k);
        let longest = self.leak.longest_busy;
        slots.note_when(longest > 1.0 + 1e-6, k, Event::MbBusy(longest));
        Ok(())
    }
}
