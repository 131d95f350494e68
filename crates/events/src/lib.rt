// What is kept of the events of a replay: for each kind of event of a chain a slot.
#![tactic(auto)]

ghost use Rattle.std.specs.Prelude.{◌≡◌};
ghost use Rattle.events.specs.Event.{when, kind_of, event_of, figure_of, decode_of};
ghost use Rattle.events.specs.Slots.{no_events, noted, noted_all};

// What a chain finds against the rules of H.222.0, 2.4.2.6: the kinds in the order of their slots. Bytes are floats, as the buffers count them.
#[derive(Clone, Copy)]
pub enum Event {
    // the main buffer's fullness, in bytes, is above its size (Bn, MBn or Bsys)
    Overflow(f64),
    // at a decode time so many bytes of the unit are missing
    Underflow { decode_time: f64, missing: f64 },
    // at a decode time the unit's first byte is so many seconds old
    Delay { decode_time: f64, seconds: f64 },
    // the transport buffer's fullness, in bytes, is above its size
    TbOverflow(f64),
    // the transport buffer was busy for so many seconds
    TbBusy(f64),
    // the multiplexing buffer was busy for so many seconds
    MbBusy(f64),
}

impl Event {
    // The place of its kind's slot among those of a chain: a number, as slots are counted, and `at` goes back. Ruled out: two kinds in one slot; a place past 5.
    #[tactic(auto, unfolding(crate::specs::Event::kind_of))]
    pub fn place(self) -> usize
        ensures { result ≡ kind_of self }
    {
        match self {
            Event::Overflow(_) => 0,
            Event::Underflow { .. } => 1,
            Event::Delay { .. } => 2,
            Event::TbOverflow(_) => 3,
            Event::TbBusy(_) => 4,
            Event::MbBusy(_) => 5,
        }
    }

    // The event of a slot's place, figure and decode time. Ruled out: two places below 6 with one kind; another kind than MbBusy past 5.
    #[tactic(auto, unfolding(crate::specs::Event::event_of))]
    pub fn at(place: usize, figure: f64, decode_time: f64) -> Event
        ensures { result ≡ event_of place figure decode_time }
    {
        match place {
            0 => Event::Overflow(figure),
            1 => Event::Underflow {
                decode_time,
                missing: figure,
            },
            2 => Event::Delay {
                decode_time,
                seconds: figure,
            },
            3 => Event::TbOverflow(figure),
            4 => Event::TbBusy(figure),
            _ => Event::MbBusy(figure),
        }
    }

    // What of it is kept as the largest: bytes, or seconds. Ruled out: a decode time in its place; 0 for a kind without decode time.
    #[tactic(auto, unfolding(crate::specs::Event::figure_of))]
    pub fn figure(self) -> f64
        ensures { result ≡ figure_of self }
    {
        match self {
            Event::Overflow(bytes) | Event::TbOverflow(bytes) => bytes,
            Event::Underflow { missing, .. } => missing,
            Event::Delay { seconds, .. } => seconds,
            Event::TbBusy(seconds) | Event::MbBusy(seconds) => seconds,
        }
    }

    // 0 for an event that has no decode time.
    #[tactic(auto, unfolding(crate::specs::Event::decode_of))]
    fn decode_time(self) -> f64
        ensures { result ≡ decode_of self }
    {
        match self {
            Event::Underflow { decode_time, .. } | Event::Delay { decode_time, .. } => decode_time,
            _ => 0.0,
        }
    }
}

// The count of the events, and of slot k, from 1 to 63, the number of its first event in firsts[k] (0: none yet, since the count begins at 1), its largest figure in
// figures[k], and the decode time of its first event in decode_times[k]; index 0 is no slot's. Lists and not one of structs, since the order
// of the slots goes by the first numbers alone: `first_slots` and `NextSlot` in `summary`, and their laws, are over that list.
#[derive(Clone, Copy)]
pub struct Slots {
    pub events: u64,
    pub firsts: [u64; 64],
    pub figures: [f64; 64],
    pub decode_times: [f64; 64],
}

impl Slots {
    // No event. Ruled out: a count that begins at 1; a slot that has an event already.
    pub fn new() -> Slots
        ensures { result ≡ no_events }
    {
        Slots {
            events: 0,
            firsts: [0; 64],
            figures: [0.0; 64],
            decode_times: [0.0; 64],
        }
    }

    // One event in slot k; where there is no such slot, or the count is at its end, nothing changes.
    #[tactic(auto, using(crate::proofs::Noted::noted_none, crate::proofs::Noted::noted_past, crate::proofs::Noted::noted_end))]
    fn note(&mut self, k: usize, event: Event)
        ensures { self.new ≡ noted k (figure_of event) (decode_of event) self.old }
    {
        if k == 0 || k > 63 || self.events == u64::MAX {
            return;
        }
        self.events = self.events + 1;
        if self.firsts[k] == 0 {
            self.firsts[k] = self.events;
            self.figures[k] = event.figure();
            self.decode_times[k] = event.decode_time();
        } else {
            self.figures[k] = ieee::max_num(self.figures[k], event.figure());
        }
    }

    // Where the event was found, it goes to its slot of the chain whose slots begin at k. The test is a parameter, as in std's `bool::then`,
    // since up to three events are noted one behind the other, each with a test of its own. Ruled out: an event noted that was not found, or
    // one found and not counted; a later, smaller figure in the place of the largest, or the decode time of a later event.
    #[tactic(auto, unfolding(crate::specs::Slots::noted_all), using(crate::proofs::Noted::noted_when_lem))]
    pub fn note_when(&mut self, found: bool, k: usize, event: Event)
        ensures { self.new ≡ noted_all k (when found event) self.old }
    {
        if found {
            self.note(k.saturating_add(event.place()), event);
        }
    }
}
