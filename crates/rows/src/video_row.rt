// The video branch of a chain.
ghost use Rattle.std.specs.Prelude.{◌≡◌, ◌+◌, ◌≤◌};
ghost use Rattle.branch.specs.Stores.{store_from};
ghost use Rattle.rows.specs.Rows.{rows_of, video_leak_at, read_video, leak_floats, leak_counts, stored_video_floats, stored_video_counts};

use crate::units_row::{held, open_of, ring_at, set_ring};
use crate::{CHAINS, COUNTS, FLOATS, Rows, places};
use branch::AccessUnit;
use branch::inflow::CumulativeIn;
use branch::leak::{Flow, Leak};
use branch::units::Units;
use branch::video_branch::VideoBranch;

// MBn and what it leaked, of a chain whose floats begin at b and whose counts begin at c.
fn leak_at(floats: &[f64; FLOATS], counts: &[u64; COUNTS], b: usize, c: usize) -> Leak
    requires { (b + 32 ≤ 256) × (c + 16 ≤ 128) }
    ensures { result ≡ video_leak_at floats.now counts.now b c }
{
    Leak {
        mb_in: CumulativeIn {
            runs: ring_at(
                counts,
                c + places::VIDEO_RUNS_HEAD,
                c + places::VIDEO_RUNS_COUNT,
            ),
            settled: floats[b + places::VIDEO_SETTLED],
        },
        flow: Flow {
            marks: ring_at(
                counts,
                c + places::VIDEO_MARKS_HEAD,
                c + places::VIDEO_MARKS_COUNT,
            ),
            transferred: floats[b + places::VIDEO_TRANSFERRED],
            eb_in: floats[b + places::VIDEO_EB_IN],
            eb_removed: floats[b + places::VIDEO_EB_REMOVED],
            eb_peak: floats[b + places::VIDEO_EB_PEAK],
        },
        busy_since: floats[b + places::VIDEO_BUSY_SINCE],
        longest_busy: floats[b + places::VIDEO_LONGEST_BUSY],
        mb_peak: floats[b + places::VIDEO_MB_PEAK],
        proc_time: floats[b + places::VIDEO_PROC_TIME],
    }
}

// Ruled out: the branch of another chain; the rings of runs and of marks exchanged.
#[tactic(auto, unfolding(crate::specs::Rows::read_video, crate::specs::Rows::video_in))]
pub fn video_of(floats: &[f64; FLOATS], counts: &[u64; COUNTS], i: usize) -> VideoBranch
    ensures { result ≡ read_video floats.now counts.now i }
{
    if i >= CHAINS {
        return VideoBranch::new();
    }
    let b = 32 * i;
    let c = 16 * i;
    VideoBranch {
        leak: leak_at(floats, counts, b, c),
        units: Units {
            pending: ring_at(
                counts,
                c + places::VIDEO_PENDING_HEAD,
                c + places::VIDEO_PENDING_COUNT,
            ),
            open_au: open_of(AccessUnit {
                decode_time: floats[b + places::VIDEO_DECODE_TIME],
                bytes: floats[b + places::VIDEO_BYTES],
                first_input_time: floats[b + places::VIDEO_FIRST_INPUT_TIME],
            }),
            access_units: counts[c + places::VIDEO_ACCESS_UNITS],
            max_delay_seconds: floats[b + places::VIDEO_MAX_DELAY],
        },
        queued: floats[b + places::VIDEO_QUEUED],
        eb_required: floats[b + places::VIDEO_EB_REQUIRED],
    }
}

#[tactic(auto, unfolding(branch::specs::Stores::store_from))]
fn set_leak(floats: &mut [f64; FLOATS], counts: &mut [u64; COUNTS], b: usize, c: usize, leak: Leak)
    requires { (b + 32 ≤ 256) × (c + 16 ≤ 128) }
    ensures { (floats.new ≡ store_from floats.old b 13 (leak_floats leak)) × (counts.new ≡ store_from counts.old c 5 (leak_counts leak)) }
{
    set_ring(
        counts,
        c + places::VIDEO_RUNS_HEAD,
        c + places::VIDEO_RUNS_COUNT,
        leak.mb_in.runs,
    );
    set_ring(
        counts,
        c + places::VIDEO_MARKS_HEAD,
        c + places::VIDEO_MARKS_COUNT,
        leak.flow.marks,
    );
    floats[b + places::VIDEO_SETTLED] = leak.mb_in.settled;
    floats[b + places::VIDEO_TRANSFERRED] = leak.flow.transferred;
    floats[b + places::VIDEO_EB_IN] = leak.flow.eb_in;
    floats[b + places::VIDEO_EB_REMOVED] = leak.flow.eb_removed;
    floats[b + places::VIDEO_EB_PEAK] = leak.flow.eb_peak;
    floats[b + places::VIDEO_BUSY_SINCE] = leak.busy_since;
    floats[b + places::VIDEO_LONGEST_BUSY] = leak.longest_busy;
    floats[b + places::VIDEO_MB_PEAK] = leak.mb_peak;
    floats[b + places::VIDEO_PROC_TIME] = leak.proc_time;
}

// Ruled out: bytes that came into EBn stored for those removed; another chain's numbers written.
#[tactic(auto, unfolding(crate::specs::Rows::stored_video_floats, crate::specs::Rows::stored_video_counts, branch::specs::Stores::store_from))]
pub fn set_video(floats: &mut [f64; FLOATS], counts: &mut [u64; COUNTS], i: usize, v: VideoBranch)
    ensures { (floats.new ≡ stored_video_floats floats.old i v) × (counts.new ≡ stored_video_counts counts.old i v) }
{
    if i >= CHAINS {
        return;
    }
    let b = 32 * i;
    let c = 16 * i;
    let unit = held(v.units.open_au);
    set_leak(floats, counts, b, c, v.leak);
    set_ring(
        counts,
        c + places::VIDEO_PENDING_HEAD,
        c + places::VIDEO_PENDING_COUNT,
        v.units.pending,
    );
    counts[c + places::VIDEO_ACCESS_UNITS] = v.units.access_units;
    floats[b + places::VIDEO_DECODE_TIME] = unit.decode_time;
    floats[b + places::VIDEO_BYTES] = unit.bytes;
    floats[b + places::VIDEO_FIRST_INPUT_TIME] = unit.first_input_time;
    floats[b + places::VIDEO_QUEUED] = v.queued;
    floats[b + places::VIDEO_EB_REQUIRED] = v.eb_required;
    floats[b + places::VIDEO_MAX_DELAY] = v.units.max_delay_seconds;
}

impl Rows {
    // Ruled out: the branch of another chain; the rings of runs and of marks exchanged.
    pub fn video(&self, i: usize) -> VideoBranch
        ensures { result ≡ read_video self.now.floats self.now.counts i }
    {
        video_of(&self.floats, &self.counts, i)
    }

    // Ruled out: bytes that came into EBn stored for those removed; another chain's numbers written.
    pub fn set_video(&mut self, i: usize, v: VideoBranch)
        ensures { self.new ≡ rows_of (stored_video_floats self.old.floats i v) (stored_video_counts self.old.counts i v) self.old.bytes }
    {
        set_video(&mut self.floats, &mut self.counts, i, v);
    }
}
