// `extend_near` and `Pcr::delta_ticks`: number 0 and a word, or the number of a refusal and no word.
ghost use Rattle.std.specs.Prelude.{◌≡◌, [], ◌∷◌};
ghost use Rattle.clock.specs.Timestamp.{extend_near};
ghost use Rattle.clock.specs.Pcr.{delta_ticks};
ghost use Rattle.leaves.specs.Leaves.{Told, twos_complement, stamp_leaf, delta_leaf};

use crate::put::tell;
use clock::Pcr;

fn one(word: u64) -> [u64; 1]
    ensures { result ≡ word ∷ [] }
{
    [word]
}

// A signed number as its word.
#[tactic(auto, using(crate::proofs::Complement::complement))]
fn step_word(step: i64) -> [u64; 1]
    ensures { result ≡ twos_complement step ∷ [] }
{
    [step.cast_unsigned()]
}

// Ruled out: a stamp stored with a refusal; number 0 with no stamp in a slice that has room.
#[unsafe(no_mangle)]
#[tactic(auto, unfolding(crate::specs::Leaves::stamp_leaf, crate::specs::Leaves::told_leaf))]
pub extern "C" fn leaf_extend_near(raw: u64, reference: u64, out: &mut [u64]) -> u64
    ensures { Told (stamp_leaf (extend_near raw reference)) result out.old out.new }
{
    tell(clock::extend_near(raw, reference).map(one), out)
}

// Two clocks are two words for C.
// Ruled out: the size of a negative step without its sign; `b` - `a`.
#[unsafe(no_mangle)]
#[tactic(auto, unfolding(crate::specs::Leaves::delta_leaf, crate::specs::Leaves::told_leaf))]
pub extern "C" fn leaf_delta_ticks(a: u64, b: u64, out: &mut [u64]) -> u64
    ensures { Told (delta_leaf (delta_ticks (record { ticks_27mhz = a }) (record { ticks_27mhz = b }))) result out.old out.new }
{
    let from = Pcr { ticks_27mhz: b };
    let to = Pcr { ticks_27mhz: a };
    tell(to.delta_ticks(from).map(step_word), out)
}
