// `FluidFifo::new` and `push` on five figures: rate, end, busy since (-infinity for none), peak, longest.
ghost use Rattle.std.specs.Prelude.{◌≡◌};
ghost use Rattle.fifo.specs.FluidFifo.{new};
ghost use Rattle.leaves.specs.Leaves.{stored, fifo_figures, Pushes};

use crate::put::put;
use fifo::FluidFifo;

#[tactic(auto, unfolding(crate::specs::Leaves::fifo_figures))]
fn fifo_figures(f: FluidFifo) -> [f64; 5]
    ensures { result ≡ fifo_figures f }
{
    [f.rate, f.virtual_done, f.busy_since, f.peak, f.longest_busy]
}

// Ruled out: a rate left in bit/s; a state of fewer than five figures changed.
#[unsafe(no_mangle)]
pub extern "C" fn leaf_fifo_new(rate: u64, state: &mut [f64])
    ensures { state.new ≡ stored (fifo_figures (new rate)) state.old }
{
    put(&fifo_figures(FluidFifo::new(rate)), state);
}

// Ruled out: the state before the push kept; a window stored for a state of fewer than five figures.
#[unsafe(no_mangle)]
pub extern "C" fn leaf_fifo_push(state: &mut [f64], from: f64, to: f64, bytes: f64, out: &mut [f64])
    ensures { Pushes state.old from to bytes out.old state.new out.new }
{
    let [rate, virtual_done, busy_since, peak, longest_busy, ..] = *state else {
        return;
    };
    let before = FluidFifo {
        rate,
        virtual_done,
        busy_since,
        peak,
        longest_busy,
    };
    let pushed = before.push(from, to, bytes);
    put(&fifo_figures(pushed.fifo), state);
    put(&[pushed.start, pushed.end], out);
}
