// When the packets arrive: the arrival clock of pass 2 as it goes from packet to packet.
ghost use Rattle.std.specs.Prelude.{◌≡◌};
ghost use Rattle.arrival.specs.Work.{start_of_arrival, next_arrival};
ghost use Rattle.tstd.specs.Times.{start_times, parsed_times, next_times};

use arrival::{Intervals, PacketArrival};
use header::PacketHeader;

// The packet's arrival, and that of the first and the last byte of the packets that parse.
#[derive(Clone, Copy)]
pub struct Times {
    pub arrival: PacketArrival,
    pub first_time: f64,
    pub last_time: f64,
}

impl Times {
    // Before any packet.
    pub(crate) fn start(clock: Intervals) -> Times
        ensures { result ≡ start_times (start_of_arrival clock.entry.times.now clock.entry.places.now clock.entry.count) }
    {
        Times {
            arrival: PacketArrival::start(clock),
            first_time: f64::INFINITY,
            last_time: f64::NEG_INFINITY,
        }
    }

    // The times behind the next packet, whose header is given where it parses.
    #[tactic(auto, unfolding(crate::specs::Times::next_times))]
    pub(crate) fn next(self, header: Option<PacketHeader>, clock: Intervals) -> Times
        ensures { result ≡ next_times header (next_arrival clock.entry.times.now clock.entry.places.now clock.entry.count self.arrival) self }
    {
        let arrival = self.arrival.next(clock);
        if header.is_none() {
            return Times { arrival, ..self };
        }
        self.parsed(arrival)
    }

    // The times behind a packet that parses.
    pub(crate) fn parsed(self, arrival: PacketArrival) -> Times
        ensures { result ≡ parsed_times arrival self }
    {
        Times {
            arrival,
            first_time: ieee::min(self.first_time, arrival.t0),
            last_time: ieee::max(self.last_time, arrival.t1),
        }
    }
}
