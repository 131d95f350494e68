// The main branch of a chain.
ghost use Rattle.std.specs.Prelude.{◌≡◌};
ghost use Rattle.rows.specs.Rows.{rows_of, read_main, stored_main_floats, stored_main_counts};

use crate::units_row::{held, open_of, ring_at, set_ring};
use crate::{CHAINS, COUNTS, FLOATS, Rows, places};
use branch::AccessUnit;
use branch::inflow::CumulativeIn;
use branch::main_branch::MainBranch;
use branch::units::Units;

// Ruled out: the branch of another chain; the two rings exchanged.
#[tactic(auto, unfolding(crate::specs::Rows::read_main, crate::specs::Rows::main_in))]
pub fn main_of(floats: &[f64; FLOATS], counts: &[u64; COUNTS], i: usize) -> MainBranch
    ensures { result ≡ read_main floats.now counts.now i }
{
    if i >= CHAINS {
        return MainBranch::new();
    }
    let b = 32 * i;
    let c = 16 * i;
    MainBranch {
        inflow: CumulativeIn {
            runs: ring_at(
                counts,
                c + places::MAIN_RUNS_HEAD,
                c + places::MAIN_RUNS_COUNT,
            ),
            settled: floats[b + places::MAIN_SETTLED],
        },
        units: Units {
            pending: ring_at(
                counts,
                c + places::MAIN_PENDING_HEAD,
                c + places::MAIN_PENDING_COUNT,
            ),
            open_au: open_of(AccessUnit {
                decode_time: floats[b + places::MAIN_DECODE_TIME],
                bytes: floats[b + places::MAIN_BYTES],
                first_input_time: floats[b + places::MAIN_FIRST_INPUT_TIME],
            }),
            access_units: counts[c + places::MAIN_ACCESS_UNITS],
            max_delay_seconds: floats[b + places::MAIN_MAX_DELAY],
        },
        removed: floats[b + places::MAIN_REMOVED],
        required: floats[b + places::MAIN_REQUIRED],
        peak: floats[b + places::MAIN_PEAK],
    }
}

// Ruled out: removed and required exchanged; another chain's numbers written.
#[tactic(auto, unfolding(crate::specs::Rows::stored_main_floats, crate::specs::Rows::stored_main_counts, branch::specs::Stores::store_from))]
pub fn set_main(floats: &mut [f64; FLOATS], counts: &mut [u64; COUNTS], i: usize, m: MainBranch)
    ensures { (floats.new ≡ stored_main_floats floats.old i m) × (counts.new ≡ stored_main_counts counts.old i m) }
{
    if i >= CHAINS {
        return;
    }
    let b = 32 * i;
    let c = 16 * i;
    let unit = held(m.units.open_au);
    set_ring(
        counts,
        c + places::MAIN_RUNS_HEAD,
        c + places::MAIN_RUNS_COUNT,
        m.inflow.runs,
    );
    set_ring(
        counts,
        c + places::MAIN_PENDING_HEAD,
        c + places::MAIN_PENDING_COUNT,
        m.units.pending,
    );
    counts[c + places::MAIN_ACCESS_UNITS] = m.units.access_units;
    floats[b + places::MAIN_SETTLED] = m.inflow.settled;
    floats[b + places::MAIN_DECODE_TIME] = unit.decode_time;
    floats[b + places::MAIN_BYTES] = unit.bytes;
    floats[b + places::MAIN_FIRST_INPUT_TIME] = unit.first_input_time;
    floats[b + places::MAIN_REMOVED] = m.removed;
    floats[b + places::MAIN_REQUIRED] = m.required;
    floats[b + places::MAIN_PEAK] = m.peak;
    floats[b + places::MAIN_MAX_DELAY] = m.units.max_delay_seconds;
}

impl Rows {
    // Ruled out: the branch of another chain; the two rings exchanged.
    pub fn main(&self, i: usize) -> MainBranch
        ensures { result ≡ read_main self.now.floats self.now.counts i }
    {
        main_of(&self.floats, &self.counts, i)
    }

    // Ruled out: removed and required exchanged; another chain's numbers written.
    pub fn set_main(&mut self, i: usize, m: MainBranch)
        ensures { self.new ≡ rows_of (stored_main_floats self.old.floats i m) (stored_main_counts self.old.counts i m) self.old.bytes }
    {
        set_main(&mut self.floats, &mut self.counts, i, m);
    }
}
