// The leak of a video chain: bytes leave MBn at Rbxn, those of PES headers are dropped, and the others enter EBn (H.222.0, 2.4.2.3, leak
// method).
ghost use Rattle.std.specs.Prelude.{◌≡◌, cond, Float, Some, ◌≤◌};
ghost use Rattle.std.specs.Float.Ieee.{eq, lt};
ghost use Rattle.ieee.specs.Binary64.{◌⊖◌, 1f, -∞};
ghost use Rattle.ieee.specs.MaxMin.{max_of};
ghost use Rattle.branch.specs.Queue.{Lies};
ghost use Rattle.branch.specs.VideoBranch.{overlap as overlapOf, eb_room, mb_fullness, looked, stalled as stalledOf, paced as pacedOf, backlogged as backloggedOf, break, step as step_of, ran};
ghost use Rattle.branch.specs.VideoInWork.{rates_of, flow_of, leak_of, HeadersBy, Transferred, LeakLies, LeakIs, seen_state, LooksBy, TurnIs, SettledAt, TurnsEnd, ReachedBy, ClosedBy, LeaksTo};

use crate::HeaderMark;
use crate::inflow::CumulativeIn;
use crate::queue::{Place, Ring};
use events::{Event, Slots};
use ieee::{max, min};

// The rate Rbxn in bytes a second, the sizes MBSn and EBSn in bytes, and where the three rings stand in the work. The work is handed on
// beside it (see Place), so the clauses LeakLies, VideoLies and Apart say where the rings lie. The slots are handed on beside k (see
// MainModel).
#[derive(Clone, Copy)]
pub struct VideoLayout {
    pub rbx: f64,
    pub mb_size: f64,
    pub eb_size: f64,
    pub runs: Place,
    pub units: Place,
    pub marks: Place,
}

// What a transfer changes: the header marks ahead, the bytes out of MBn, and the bytes into and out of EBn.
#[derive(Clone, Copy)]
pub struct Flow {
    pub marks: Ring,
    pub transferred: f64,
    pub eb_in: f64,
    pub eb_removed: f64,
    pub eb_peak: f64,
}

// The leak. busy_since is -infinity while MBn is not busy, and proc_time is -infinity before the first leak: the definition, over lists
// and floats, has them so too.
#[derive(Clone, Copy)]
pub struct Leak {
    pub mb_in: CumulativeIn,
    pub flow: Flow,
    pub busy_since: f64,
    pub longest_busy: f64,
    pub mb_peak: f64,
    pub proc_time: f64,
}

#[derive(Clone, Copy)]
pub struct Headers {
    marks: Ring,
    bytes: f64,
}

#[derive(Clone, Copy)]
pub struct Looked {
    leak: Leak,
    available: f64,
}

// What a turn gives: total is what has arrived by t where the loop ends, and none where it goes on.
#[derive(Clone, Copy)]
pub struct Turned {
    total: Option<f64>,
    leak: Leak,
}

impl HeaderMark {
    // The bytes of a mark between start and end.
    #[tactic(auto, unfolding(crate::specs::VideoBranch::overlap))]
    fn overlap(self, start: f64, end: f64) -> f64
        ensures { result ≡ overlapOf self start end }
    {
        max(
            min(end, self.threshold) - max(start, self.threshold - self.bytes),
            0.0,
        )
    }
}

impl Flow {
    // The marked bytes of those that leave up to the byte `end`; the marks that end there go.
    fn header_bytes(self, w: Place, work: &[f64], end: f64) -> Headers
        requires { Lies 2 work.now w self.marks }
        ensures { HeadersBy work.now w self.marks self.transferred end result }
    {
        let mut q = self.marks;
        let mut sum = 0.0;
        while 0 < q.count {
            let m = HeaderMark::from(q.entry(w, work, 0));
            if m.threshold - m.bytes >= end {
                break;
            }
            sum = sum + m.overlap(self.transferred, end);
            if m.threshold <= end {
                q.pop(w);
            } else {
                break;
            }
        }
        Headers {
            marks: q,
            bytes: sum,
        }
    }

    // Bytes leave MBn: those that are marked are dropped, the others enter EBn.
    #[tactic(auto, unfolding(crate::specs::VideoBranch::transfer, crate::specs::VideoBranch::moved, crate::specs::VideoBranch::eb_in_after, crate::specs::VideoInWork::flow_of))]
    fn transfer(self, w: Place, work: &[f64], bytes: f64) -> Flow
        requires { Lies 2 work.now w self.marks }
        ensures { Transferred work.now w self bytes result }
    {
        if bytes <= 0.0 {
            return self;
        }
        let end = self.transferred + bytes;
        let h = self.header_bytes(w, work, end);
        let eb_in = self.eb_in + (bytes - h.bytes);
        Flow {
            marks: h.marks,
            transferred: end,
            eb_in,
            eb_peak: max(self.eb_peak, eb_in - self.eb_removed),
            ..self
        }
    }
}

impl Turned {
    // The runs up to t are settled, with what has arrived by then; a look at t that was the last one is not taken again.
    fn reached(self, m: VideoLayout, work: &[f64], t: f64) -> (Leak, f64)
        requires leak_lies { LeakLies work.now m self.leak }
        requires settled_at { (total : Float) → self.total ≡ Some total → SettledAt (leak_of work.now m self.leak).mb_in t total }
        ensures { ReachedBy work.now m t self.leak result.0 result.1 }
    {
        if let Some(total) = self.total {
            return (self.leak, total);
        }
        let got = self.leak.mb_in.arrived_by(m.runs, work, t);
        let leak = Leak {
            mb_in: got.inflow,
            ..self.leak
        };
        (leak, got.total)
    }
}

// The most turns of a leak: 2^25 + 4, more than any takes.
const BUDGET: u64 = 33554436;

impl Leak {
    // Where MBn's busy stretch began: where there is none, a fullness over a byte begins one.
    fn busy_from(self, fullness: f64) -> f64
        ensures { result ≡ cond (eq self.busy_since -∞) (cond (lt 1f fullness) self.proc_time -∞) self.busy_since }
    {
        if self.busy_since == f64::NEG_INFINITY {
            if fullness > 1.0 {
                return self.proc_time;
            }
            return f64::NEG_INFINITY;
        }
        self.busy_since
    }

    // The longest busy stretch, where one that has not ended counts up to t.
    fn longest_until(self, t: f64) -> f64
        ensures { result ≡ cond (eq self.busy_since -∞) self.longest_busy (max_of self.longest_busy (t ⊖ self.busy_since)) }
    {
        if self.busy_since == f64::NEG_INFINITY {
            return self.longest_busy;
        }
        max(self.longest_busy, t - self.busy_since)
    }

    // MBn's fullness at the leak's time: over a byte MBn is busy, and else its busy stretch ends.
    fn seen(self, fullness: f64) -> Leak
        ensures { result ≡ seen_state self fullness }
    {
        let mb_peak = max(self.mb_peak, fullness);
        if fullness > 1.0 {
            return Leak {
                busy_since: self.busy_from(fullness),
                mb_peak,
                ..self
            };
        }
        Leak {
            busy_since: f64::NEG_INFINITY,
            longest_busy: self.longest_until(self.proc_time),
            mb_peak,
            ..self
        }
    }

    // MBn at the leak's time: what waits there, its peak and its busy stretch.
    fn look(self, m: VideoLayout, work: &[f64]) -> Looked
        requires { LeakLies work.now m self }
        ensures { LooksBy work.now m self result }
    {
        let got = self.mb_in.arrived_by(m.runs, work, self.proc_time);
        let available = got.total - self.flow.transferred;
        let settled = Leak {
            mb_in: got.inflow,
            ..self
        };
        Looked {
            leak: settled.seen(available),
            available,
        }
    }

    // EBn is full: all that arrives up to t stays in MBn.
    fn stalled(self, m: VideoLayout, work: &[f64], t: f64) -> Turned
        requires { LeakLies work.now m self }
        ensures { TurnIs work.now m t result (break (stalledOf (leak_of work.now m self) t)) }
    {
        let got = self.mb_in.arrived_by(m.runs, work, t);
        let fullness = got.total - self.flow.transferred;
        Turned {
            total: Some(got.total),
            leak: Leak {
                mb_in: got.inflow,
                busy_since: self.busy_from(fullness),
                mb_peak: max(self.mb_peak, fullness),
                proc_time: t,
                ..self
            },
        }
    }

    // The leak keeps pace: what arrives up to t leaves, or as much as EBn has room for. Where EBn fills up on the way, the leak goes on
    // from the time of that byte.
    fn paced(self, m: VideoLayout, work: &[f64], t: f64, available: f64, room: f64) -> Turned
        requires { LeakLies work.now m self }
        ensures { TurnIs work.now m t result (pacedOf (leak_of work.now m self) t available room) }
    {
        let got = self.mb_in.arrived_by(m.runs, work, t);
        let arriving = got.total - self.flow.transferred - available;
        let take = min(arriving, max(room, 0.0));
        let flow = self.flow.transfer(m.marks, work, max(take, 0.0));
        let mut next = Turned {
            total: Some(got.total),
            leak: Leak {
                mb_in: got.inflow,
                flow,
                proc_time: t,
                ..self
            },
        };
        if take + 1.0 < arriving {
            if let Some(tt) = got
                .inflow
                .time_of_cumulative(m.runs, work, flow.transferred)
            {
                next.total = None;
                next.leak.proc_time = max(tt, self.proc_time);
            }
        }
        next
    }

    // Bytes wait: they leave at the rate up to t, or all of them, or as many as EBn has room for.
    fn backlogged(self, m: VideoLayout, work: &[f64], t: f64, available: f64, room: f64) -> Leak
        requires { LeakLies work.now m self }
        ensures { LeakIs work.now m result (backloggedOf (rates_of m) (leak_of work.now m self) t available room) }
    {
        let now = self.proc_time;
        let take = min(min(m.rbx * (t - now), available), room);
        Leak {
            flow: self.flow.transfer(m.marks, work, take),
            proc_time: now + max(take / m.rbx, 1e-6),
            ..self
        }
    }

    // A turn of the leak toward t.
    fn turn(self, m: VideoLayout, work: &[f64], t: f64) -> Turned
        requires { LeakLies work.now m self }
        ensures { TurnIs work.now m t result (step_of (rates_of m) t (looked (leak_of work.now m self)) (mb_fullness (leak_of work.now m self) self.proc_time) (eb_room (rates_of m) (flow_of work.now m.marks self.flow))) }
    {
        let room = m.eb_size - (self.flow.eb_in - self.flow.eb_removed);
        let s = self.look(m, work);
        if room <= 1.0 {
            return s.leak.stalled(m, work, t);
        }
        if s.available <= 1.0 {
            return s.leak.paced(m, work, t, s.available, room);
        }
        Turned {
            total: None,
            leak: s.leak.backlogged(m, work, t, s.available, room),
        }
    }

    // Turns until the leak has come to t.
    fn turns(self, m: VideoLayout, work: &[f64], t: f64) -> Turned
        requires { LeakLies work.now m self }
        ensures { TurnsEnd work.now m t result (ran (rates_of m) t (leak_of work.now m self)) }
    {
        let mut s = Turned {
            total: None,
            leak: self,
        };
        for _ in 0..BUDGET {
            if s.total.is_some() {
                break;
            }
            if !(s.leak.proc_time < t - 1e-6) {
                break;
            }
            s = s.leak.turn(m, work, t);
        }
        s
    }

    // Behind the turns: MBn's peak, its overflow and its busy stretch at t, where total has arrived.
    fn closed(self, m: VideoLayout, total: f64, t: f64, slots: &mut Slots, k: usize) -> Leak
        ensures { ClosedBy m self total t k slots.old slots.new result }
    {
        let fullness = total - self.flow.transferred;
        slots.note_when(fullness > m.mb_size + 1.0, k, Event::Overflow(fullness));
        Leak {
            longest_busy: self.longest_until(t),
            mb_peak: max(self.mb_peak, fullness),
            proc_time: max(self.proc_time, t),
            ..self
        }
    }

    // The leak up to t; the first call only sets the clock.
    pub(crate) fn leak_until(
        self,
        m: VideoLayout,
        work: &[f64],
        t: f64,
        slots: &mut Slots,
        k: usize,
    ) -> Leak
        requires leak_lies { LeakLies work.now m self }
        ensures { LeaksTo work.now m t k slots.old slots.new (leak_of work.now m self) result }
    {
        if self.proc_time == f64::NEG_INFINITY {
            return Leak {
                proc_time: t,
                ..self
            };
        }
        let s = self.turns(m, work, t);
        let (leak, total) = s.reached(m, work, t);
        leak.closed(m, total, t, slots, k)
    }
}
