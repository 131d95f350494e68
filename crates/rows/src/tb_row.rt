// The transport buffer of a chain.
ghost use Rattle.std.specs.Prelude.{◌≡◌};
ghost use Rattle.rows.specs.Rows.{rows_of, read_tb, stored_tb};

use crate::{CHAINS, FLOATS, Rows, places};
use fifo::FluidFifo;

// Ruled out: the transport buffer of another chain; peak and longest busy time exchanged.
#[tactic(auto, unfolding(crate::specs::Rows::read_tb, crate::specs::Rows::tb_in))]
pub fn tb_of(floats: &[f64; FLOATS], i: usize) -> FluidFifo
    ensures { result ≡ read_tb floats.now i }
{
    if i >= CHAINS {
        return FluidFifo::new(0);
    }
    let b = 32 * i;
    FluidFifo {
        rate: floats[b + places::TB_RATE],
        virtual_done: floats[b + places::TB_VIRTUAL_DONE],
        busy_since: floats[b + places::TB_BUSY_SINCE],
        peak: floats[b + places::TB_PEAK],
        longest_busy: floats[b + places::TB_LONGEST_BUSY],
    }
}

// Ruled out: a store one place off; another chain's floats written.
#[tactic(auto, unfolding(crate::specs::Rows::stored_tb))]
pub fn set_tb(floats: &mut [f64; FLOATS], i: usize, t: FluidFifo)
    ensures { floats.new ≡ stored_tb floats.old i t }
{
    if i >= CHAINS {
        return;
    }
    let b = 32 * i;
    floats[b + places::TB_RATE] = t.rate;
    floats[b + places::TB_VIRTUAL_DONE] = t.virtual_done;
    floats[b + places::TB_BUSY_SINCE] = t.busy_since;
    floats[b + places::TB_PEAK] = t.peak;
    floats[b + places::TB_LONGEST_BUSY] = t.longest_busy;
}

impl Rows {
    // Ruled out: the transport buffer of another chain; peak and longest busy time exchanged.
    pub fn tb(&self, i: usize) -> FluidFifo
        ensures { result ≡ read_tb self.now.floats i }
    {
        tb_of(&self.floats, i)
    }

    // Ruled out: a store one place off; another chain's floats written.
    pub fn set_tb(&mut self, i: usize, t: FluidFifo)
        ensures { self.new ≡ rows_of (stored_tb self.old.floats i t) self.old.counts self.old.bytes }
    {
        set_tb(&mut self.floats, i, t);
    }
}
