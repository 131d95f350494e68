// Pass 1 of the replay: the arrival clock is built from the packets of a recording, in lent work.
#![tactic(auto)]

ghost use Rattle.std.specs.Prelude.{◌≡◌, false, ◌+◌, ◌-◌, ◌*◌, ◌/◌, ◌≤◌, min, max, length, take, drop, None};
ghost use Rattle.packet.specs.Packet.{parse_of};
ghost use Rattle.arrival.specs.Samples.{field_on};
ghost use Rattle.arrival.specs.Work.{never};
ghost use Rattle.arrival_clock.specs.Clock.{parses_from, pass_over, Answers};
ghost use Rattle.arrival_clock.specs.Stretch.{Whole, NoFieldOn};

use arrival::{ClockPass, IntervalsMut};
use error::Refusal;
use packet::{TsPacket, TsPacketLayout};

// The bytes of a recording and how its packets lie in them.
#[derive(Clone, Copy)]
struct Recording<'a> {
    bytes: &'a [u8],
    layout: TsPacketLayout,
}

// Whether the packet at a place is of the PCR PID and has an adaptation field, by bytes 1 to 3 alone.
#[tactic(auto, using(crate::proofs::Absent::elsewhere_at, crate::proofs::Absent::bare_at, packet::proofs::Slices::of_slice))]
fn has_field_at(bytes: &[u8], place: usize, pcr_pid: u16) -> bool
    requires { place + 188 ≤ length bytes.now }
    ensures { result ≡ false → field_on pcr_pid (parse_of (take 188 (drop place bytes.now))) ≡ None }
{
    let has_field = bytes[place + 3] / 32 % 2 == 1;
    has_field && packet::pid_of(bytes[place + 1], bytes[place + 2]) == pcr_pid
}

impl Recording<'_> {
    // How many packets from the first on, at most `count`, are known to lie in the recording: none where a packet is shorter than 188
    // bytes or longer than the recording.
    fn whole_packets(self, count: usize) -> usize
        ensures { (result ≤ count) × Whole self.entry.layout self.entry.bytes.now result }
    {
        let size = self.layout.packet_size;
        let len = self.bytes.len();
        if size < 188 || len < size {
            return 0;
        }
        let room = len - 188;
        if room < self.layout.sync_offset {
            return 0;
        }
        count.min((room - self.layout.sync_offset) / size + 1)
    }

    // The next packet, from packet k on and before `end`, that has an adaptation field on the PCR PID; else where the search ends.
    #[tactic(auto, using(crate::proofs::Stretch::search_starts))]
    fn next_field_on(self, k: usize, end: usize, pcr_pid: u16) -> usize
        requires { Whole self.layout self.bytes.now end }
        ensures { (k ≤ result) × (result ≤ max k end) × NoFieldOn pcr_pid self.entry.layout self.entry.bytes.now k result }
    {
        if end <= k {
            return k;
        }
        let Recording { bytes, layout } = self;
        let mut place = k * layout.packet_size + layout.sync_offset;
        for next in k..end {
            if has_field_at(bytes, place, pcr_pid) {
                return next;
            }
            place += layout.packet_size;
        }
        end
    }
}

// Where the packet begins that follows n packets from `start` on. A packet whose end has no position does not move it.
fn start_behind(start: u64, n: usize) -> u64
    ensures { result ≡ start + 188 * min n ((never - start) / 188) }
{
    let room = (u64::MAX - start) / 188;
    start + 188 * room.min(n as u64)
}

// Only a packet with an adaptation field on the PCR PID is parsed, or one that is not known to lie in the recording. All before the
// next such packet change the start alone, at once: 0.7 ns a packet, and 1.6 with a call of `other` for each.
// Ruled out: a clock of the packets before the first that does not parse; a clock with the PCRs of another PID.
#[tactic(auto, using(crate::proofs::Turns::starts))]
pub fn build(
    bytes: &[u8],
    layout: TsPacketLayout,
    count: usize,
    pcr_pid: u16,
    intervals: &mut IntervalsMut,
) -> Result<usize, Refusal>
    ensures { Answers (pass_over pcr_pid intervals.old.depth intervals.old.times.now intervals.old.places.now (parses_from layout bytes.now 0 count)) result intervals.old intervals.new }
{
    let mut pass = ClockPass::new();
    let recording = Recording { bytes, layout };
    let whole = recording.whole_packets(count);
    let mut k = 0;
    // A `while`: each turn goes to the next field, and no step is known before the search.
    while k < count {
        let next = recording.next_field_on(k, whole, pcr_pid);
        pass.start = start_behind(pass.start, next - k);
        k = next;
        if k < count {
            let parsed = TsPacket::parse(packet::window(bytes, layout, k));
            pass.packet(parsed, pcr_pid, intervals);
            k += 1;
        }
    }
    pass.build.answer(intervals.depth)
}
