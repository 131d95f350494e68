// The arrival clock (H.222.0, 2.4.2.2): intervals of constant rate in lent work, the arrival time of a byte, and the time of a
// PTS or DTS.
#![tactic(auto)]

ghost use Rattle.std.specs.Prelude.{◌≡◌, ◌+◌, ◌-◌, ◌*◌, ◌^◌, ◌<◌, length};
ghost use Rattle.clock.specs.Pcr.{pcr_modulus};
ghost use Rattle.arrival.specs.ArrivalClock.{seconds, anchor_at, step_to, interval_at, close};
ghost use Rattle.arrival.specs.Times.{no_interval, time_of, decode_time_or_zero};
ghost use Rattle.arrival.specs.Samples.{ticks_of};
ghost use Rattle.arrival.specs.Work.{room_for, interval_in, nowhere_at, cursor_at, advance, start_of_arrival, next_arrival};
ghost use Rattle.arrival.specs.Pass.{no_sample, store_times, store_places, in_range, closed_by, building_in, take_sample, Written, Builds, answer_of, no_packet, other_packet, passing_in, pass_field, pass_packet, Passes};

use clock::{PCR_MODULUS_27MHZ, TIMESTAMP_MODULUS_90KHZ};
use error::Refusal;
use packet::{ClockReference, TsError, TsPacket};

// A PCR on the PCR PID: its byte position, its ticks of 27 MHz, and whether a discontinuity is marked at it.
#[derive(Clone, Copy)]
pub struct Sample {
    pub position: u64,
    pub ticks: u64,
    pub marked: bool,
}

// The last sample: its position, its PCR on the extended time line, its time, and the rate before it.
#[derive(Clone, Copy)]
pub struct Anchor {
    pub position: u64,
    pub extended: u64,
    pub time: f64,
    pub rate: f64,
}

// What a sample gives: the interval that ends at it, and the next anchor.
#[derive(Clone, Copy)]
pub struct Closed {
    pub interval: RateInterval,
    pub anchor: Anchor,
}

// The clock built so far; its intervals are in lent work.
#[derive(Clone, Copy)]
pub struct ClockBuild {
    pub samples: usize,
    pub anchor: Anchor,
    pub refusal: Option<Refusal>,
}

// The pass over the packets so far; the next packet begins at `start`.
#[derive(Clone, Copy)]
pub struct ClockPass {
    pub start: u64,
    pub pending_discontinuity: bool,
    pub build: ClockBuild,
}

// A stretch of constant transport rate.
#[derive(Clone, Copy)]
pub struct RateInterval {
    pub start_pos: u64,
    pub start_time: f64,
    pub rate: f64,
    pub pts_offset: f64,
    pub pcr_ref_90k: u64,
}

// The intervals of a clock in lent work: interval i has three floats at 3 i and two numbers at 2 i.
#[derive(Clone, Copy)]
pub struct Intervals<'a> {
    pub times: &'a [f64],
    pub places: &'a [u64],
    pub count: usize,
}

// The same to be written, for as many samples as the depth.
#[derive(Drop)]
pub struct IntervalsMut<'a> {
    pub times: &'a mut [f64],
    pub places: &'a mut [u64],
    pub depth: usize,
}

// The interval that the cursor is at; `until` is where the next begins, or NEVER where none does, so that one comparison with a position
// serves both. An Option of it, 16 bytes for 8 in a struct that is copied for each packet, was not measured.
#[derive(Clone, Copy)]
pub struct Cursor {
    pub index: usize,
    pub until: u64,
    pub interval: RateInterval,
}

// A packet arrives from t0 to t1; the cursor is at its end.
#[derive(Clone, Copy)]
pub struct PacketArrival {
    pub cursor: Cursor,
    pub end: u64,
    pub t0: f64,
    pub t1: f64,
}

// Behind every position: there is no next interval.
const NEVER: u64 = u64::MAX;

// By how many floats and numbers there are.
fn holds_intervals(n: usize, times: usize, places: usize) -> bool
    ensures { result ≡ room_for n times places }
{
    n <= times / 3 && n <= places / 2
}

// Not `ieee::as_float`, which tests for a count below 2^31: one of ticks is seldom so small.
fn in_seconds(ticks: u64) -> f64
    ensures { result ≡ seconds ticks }
{
    std::num::nearest_u64_to_f64(ticks) / 27000000.0
}

fn ticks_of(reference: ClockReference) -> u64
    ensures { result ≡ ticks_of reference }
{
    reference.base % TIMESTAMP_MODULUS_90KHZ * 300 + u64::from(reference.extension % 512)
}

impl Anchor {
    fn first(sample: Sample) -> Anchor
        ensures { result ≡ anchor_at sample }
    {
        Anchor {
            position: sample.position,
            extended: sample.ticks,
            time: 0.0,
            rate: 0.0,
        }
    }

    fn step_to(self, sample: Sample) -> u64
        requires { sample.ticks < 2 ^ 63 }
        ensures { (result ≡ step_to self sample) × (result < pcr_modulus) }
    {
        (sample.ticks + PCR_MODULUS_27MHZ - self.extended % PCR_MODULUS_27MHZ) % PCR_MODULUS_27MHZ
    }

    fn interval(self, rate: f64) -> RateInterval
        ensures { result ≡ interval_at self rate }
    {
        RateInterval {
            start_pos: self.position,
            start_time: self.time,
            rate,
            pts_offset: self.time - in_seconds(self.extended),
            pcr_ref_90k: self.extended / 300,
        }
    }

    #[tactic(auto, unfolding(crate::specs::ArrivalClock::close))]
    fn close(self, n: u64, sample: Sample) -> Result<Closed, Refusal>
        requires { (sample.ticks < 2 ^ 63) × (self.extended < 2 ^ 63) }
        ensures { result ≡ close n self sample }
    {
        let bytes = ieee::as_float(sample.position.saturating_sub(self.position));
        if sample.marked {
            if n == 1 {
                return Err(Refusal::DiscontinuityBeforeRate { sample: n });
            }
            return Ok(Closed {
                interval: self.interval(self.rate),
                anchor: Anchor {
                    position: sample.position,
                    extended: sample.ticks,
                    time: self.time + bytes / self.rate,
                    rate: self.rate,
                },
            });
        }
        let step = self.step_to(sample);
        if step == 0 {
            return Err(Refusal::RepeatedPcr { sample: n });
        }
        let dt = in_seconds(step);
        let rate = bytes / dt;
        if rate < 1000.0 || rate > 1000000000.0 {
            return Err(Refusal::RateOutsideLimits { sample: n });
        }
        Ok(Closed {
            interval: self.interval(rate),
            anchor: Anchor {
                position: sample.position,
                extended: self.extended + step,
                time: self.time + dt,
                rate,
            },
        })
    }
}

impl IntervalsMut<'_> {
    #[tactic(auto, unfolding(crate::specs::Pass::store_times, crate::specs::Pass::store_places))]
    fn store(&mut self, interval: RateInterval, index: usize)
        requires { (3 * index + 2 < length self.old.times.now) × (2 * index + 1 < length self.old.places.now) }
        ensures { Written (store_times self.old.times.now index interval) (store_places self.old.places.now index interval) self.old self.new }
    {
        let t = 3 * index;
        self.times[t] = interval.start_time;
        self.times[t + 1] = interval.rate;
        self.times[t + 2] = interval.pts_offset;
        let p = 2 * index;
        self.places[p] = interval.start_pos;
        self.places[p + 1] = interval.pcr_ref_90k;
    }
}

impl ClockBuild {
    // Ruled out: a sample already counted; a refusal already there.
    pub fn new() -> ClockBuild
        ensures { result ≡ no_sample }
    {
        ClockBuild {
            samples: 0,
            anchor: Anchor {
                position: 0,
                extended: 0,
                time: 0.0,
                rate: 0.0,
            },
            refusal: None,
        }
    }

    #[tactic(auto, unfolding(crate::specs::Pass::in_range))]
    fn in_range(self, sample: Sample) -> bool
        ensures { result ≡ in_range self sample }
    {
        sample.ticks < 1 << 63 && self.samples < 1 << 63 && self.anchor.extended < 1 << 63
    }

    #[tactic(auto, unfolding(crate::specs::Pass::closed_by))]
    fn closed(&mut self, closed: Result<Closed, Refusal>, intervals: &mut IntervalsMut)
        requires samples_nonzero { (0 < self.old.samples) × (self.old.samples < 2 ^ 63) }
        requires samples_in_bounds { (3 * (self.old.samples - 1) + 2 < length intervals.old.times.now) × (2 * (self.old.samples - 1) + 1 < length intervals.old.places.now) }
        ensures { Builds (closed_by (building_in self.old intervals.old) closed) self.new intervals.old intervals.new }
    {
        match closed {
            Ok(Closed { interval, anchor }) => {
                intervals.store(interval, self.samples - 1);
                self.anchor = anchor;
            }
            Err(refusal) => self.refusal = Some(refusal),
        }
        self.samples += 1;
    }

    // Ruled out: a sample behind a refusal that is not counted; an interval stored one place too far.
    #[tactic(auto, unfolding(crate::specs::Pass::take_sample, crate::specs::Pass::in_range, crate::specs::Work::holds))]
    pub fn sample(&mut self, sample: Sample, intervals: &mut IntervalsMut)
        ensures { Builds (take_sample intervals.old.depth (building_in self.old intervals.old) sample) self.new intervals.old intervals.new }
    {
        let depth = intervals.depth;
        if !self.in_range(sample)
            || !holds_intervals(depth, intervals.times.len(), intervals.places.len())
        {
            return;
        }
        if self.samples == 0 {
            self.anchor = Anchor::first(sample);
            self.samples = 1;
        } else if self.refusal.is_some() || depth <= self.samples {
            self.samples += 1;
        } else {
            let closed = self.anchor.close(self.samples as u64, sample);
            self.closed(closed, intervals);
        }
    }

    // Ruled out: number 9 where there are more samples than the depth; the count of samples for that of intervals.
    #[tactic(auto, unfolding(crate::specs::Pass::answer_of))]
    pub fn answer(self, depth: usize) -> Result<usize, Refusal>
        ensures { result ≡ answer_of depth self }
    {
        if depth < self.samples {
            return Err(Refusal::ClockFull {
                depth: depth as u64,
            });
        }
        if self.samples < 2 {
            return Err(Refusal::TooFewPcrs);
        }
        match self.refusal {
            None => Ok(self.samples - 1),
            Some(refusal) => Err(refusal),
        }
    }
}

impl ClockPass {
    // Ruled out: a mark already pending; a first packet that begins anywhere but at 0.
    pub fn new() -> ClockPass
        ensures { result ≡ no_packet }
    {
        ClockPass {
            start: 0,
            pending_discontinuity: false,
            build: ClockBuild::new(),
        }
    }

    // A packet that does not parse, of another PID, or without an adaptation field. Ruled out: a packet not counted as 188 bytes; a mark dropped.
    #[tactic(auto, unfolding(crate::specs::Pass::other_packet))]
    pub fn other(&mut self)
        ensures { self.new ≡ other_packet self.old }
    {
        if self.start <= NEVER - 188 {
            self.start += 188;
        }
    }

    // A packet on the PCR PID, by its adaptation field. Ruled out: a mark that does not reach the PCR of its own packet; one that reaches the second PCR.
    #[tactic(auto, unfolding(crate::specs::Pass::pass_seen, crate::specs::Pass::take_samples, crate::specs::Samples::seen_pcr))]
    pub fn field(
        &mut self,
        discontinuity_indicator: bool,
        pcr: Option<ClockReference>,
        intervals: &mut IntervalsMut,
    )
        ensures { Passes (pass_field intervals.old.depth (passing_in self.old intervals.old) discontinuity_indicator pcr) self.new intervals.old intervals.new }
    {
        if NEVER - 188 < self.start {
            return;
        }
        let marked = self.pending_discontinuity || discontinuity_indicator;
        match pcr {
            None => self.pending_discontinuity = marked,
            Some(reference) => {
                let sample = Sample {
                    position: self.start + 10,
                    ticks: ticks_of(reference),
                    marked,
                };
                self.build.sample(sample, intervals);
                self.pending_discontinuity = false;
            }
        }
        self.start += 188;
    }

    // Ruled out: the clock of another PID; a stop at a packet that does not parse.
    #[tactic(auto, unfolding(crate::specs::Pass::pass_packet, crate::specs::Pass::pass_seen, crate::specs::Pass::take_samples, crate::specs::Pass::other_packet, crate::specs::Samples::field_on, crate::specs::Samples::seen_in))]
    pub fn packet(
        &mut self,
        parsed: Result<TsPacket, TsError>,
        pcr_pid: u16,
        intervals: &mut IntervalsMut,
    )
        ensures { Passes (pass_packet pcr_pid intervals.old.depth (passing_in self.old intervals.old) parsed) self.new intervals.old intervals.new }
    {
        let Ok(packet) = parsed else {
            return self.other();
        };
        if packet.pid != pcr_pid {
            return self.other();
        }
        match packet.adaptation_field {
            Some(field) => {
                self.field(field.discontinuity_indicator, field.pcr, intervals);
            }
            None => self.other(),
        }
    }
}

impl RateInterval {
    fn none() -> RateInterval
        ensures { result ≡ no_interval }
    {
        RateInterval {
            start_pos: 0,
            start_time: 0.0,
            rate: 0.0,
            pts_offset: 0.0,
            pcr_ref_90k: 0,
        }
    }

    // Ruled out: the time by the position and not by the bytes from the start; a sum before the start.
    #[tactic(auto, unfolding(crate::specs::Times::time_of))]
    pub fn time_of(self, pos: u64) -> f64
        ensures { result ≡ time_of self pos }
    {
        if self.start_pos <= pos {
            return self.start_time + ieee::as_float(pos - self.start_pos) / self.rate;
        }
        self.start_time - ieee::as_float(self.start_pos - pos) / self.rate
    }

    // Ruled out: the stamp in its first epoch; the offset added before the division.
    #[tactic(auto, unfolding(crate::specs::Times::decode_time, crate::specs::Times::decode_time_or_zero, clock::specs::Timestamp::extend_near))]
    pub fn decode_time(self, raw_90k: u64) -> f64
        ensures { result ≡ decode_time_or_zero self raw_90k }
    {
        match clock::extend_near(raw_90k, self.pcr_ref_90k) {
            Ok(ticks) => std::num::nearest_u64_to_f64(ticks) / 90000.0 + self.pts_offset,
            // No PCR gives such a reference (`decode_within`).
            Err(_) => 0.0,
        }
    }
}

impl Intervals<'_> {
    #[tactic(auto, unfolding(crate::specs::Work::interval_in))]
    fn read(self, index: usize) -> RateInterval
        requires { (3 * index + 2 < length self.times.now) × (2 * index + 1 < length self.places.now) }
        ensures { result ≡ interval_in self.entry.times.now self.entry.places.now index }
    {
        let t = 3 * index;
        let p = 2 * index;
        RateInterval {
            start_pos: self.places[p],
            start_time: self.times[t],
            rate: self.times[t + 1],
            pts_offset: self.times[t + 2],
            pcr_ref_90k: self.places[p + 1],
        }
    }
}

impl Cursor {
    fn nowhere(index: usize) -> Cursor
        ensures { result ≡ nowhere_at index }
    {
        Cursor {
            index,
            until: NEVER,
            interval: RateInterval::none(),
        }
    }

    // An index past the count, or lent work that does not hold the count, has a cursor nowhere: nothing is asked of the caller.
    // Ruled out: an interval past the count; the interval before.
    #[tactic(auto, unfolding(crate::specs::Work::cursor_at, crate::specs::Work::holds))]
    pub fn at(intervals: Intervals, index: usize) -> Cursor
        ensures { result ≡ cursor_at intervals.entry.times.now intervals.entry.places.now intervals.entry.count index }
    {
        if intervals.count <= index {
            return Cursor::nowhere(index);
        }
        if !holds_intervals(
            intervals.count,
            intervals.times.len(),
            intervals.places.len(),
        ) {
            return Cursor::nowhere(index);
        }
        let interval = intervals.read(index);
        let next = index + 1;
        Cursor {
            index,
            until: if next < intervals.count {
                intervals.places[2 * next]
            } else {
                NEVER
            },
            interval,
        }
    }

    // Ruled out: a step to an interval that begins behind the position; a stop before one that begins at it.
    #[tactic(auto, using(crate::proofs::Cursors::advance_last, crate::proofs::Cursors::advance_here, crate::proofs::Cursors::advance_on, crate::proofs::Cursors::cursor_index))]
    pub fn advance(self, intervals: Intervals, pos: u64) -> Cursor
        ensures { result ≡ advance intervals.entry.times.now intervals.entry.places.now intervals.entry.count self pos }
    {
        let mut next = self;
        let last = intervals.count.saturating_sub(1);
        // A `while`: the cursor that each step makes has its own index, so a `for` would count beside it.
        while next.index < last && next.until <= pos {
            next = Cursor::at(intervals, next.index + 1);
        }
        next
    }
}

impl PacketArrival {
    // Before the first packet. Ruled out: an interval that begins behind byte 0 though one begins there; a first packet that begins at byte 188.
    #[tactic(auto, unfolding(crate::specs::Work::start_of_arrival))]
    pub fn start(intervals: Intervals) -> PacketArrival
        ensures { result ≡ start_of_arrival intervals.entry.times.now intervals.entry.places.now intervals.entry.count }
    {
        let first = Cursor::at(intervals, 0);
        let cursor = first.advance(intervals, 0);
        let t = cursor.interval.time_of(0);
        PacketArrival {
            cursor,
            end: 0,
            t0: t,
            t1: t,
        }
    }

    // Ruled out: the interval of the packet's start; a start other than the last packet's end.
    #[tactic(auto, unfolding(crate::specs::Work::next_arrival))]
    pub fn next(self, intervals: Intervals) -> PacketArrival
        ensures { result ≡ next_arrival intervals.entry.times.now intervals.entry.places.now intervals.entry.count self }
    {
        if NEVER - 188 < self.end {
            return self;
        }
        let end = self.end + 188;
        let cursor = self.cursor.advance(intervals, end);
        PacketArrival {
            cursor,
            end,
            t0: self.t1,
            t1: cursor.interval.time_of(end),
        }
    }
}
