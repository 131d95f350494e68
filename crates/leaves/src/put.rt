// The words or figures of an answer, stored from the start of a slice that has room for them.
ghost use Rattle.std.specs.Prelude.{◌≡◌};
ghost use Rattle.error.specs.Code.{code_of};
ghost use Rattle.leaves.specs.Leaves.{Told, told_leaf, stored, plus_one, word_of};

use error::Refusal;

#[tactic(auto, unfolding(crate::specs::Leaves::stored))]
pub(crate) fn put<T: Copy>(words: &[T], out: &mut [T])
    ensures { out.new ≡ stored words.now out.old }
{
    let n = words.len();
    if n <= out.len() {
        out[..n].copy_from_slice(words);
    }
}

pub(crate) fn number(refusal: Refusal) -> u64
    ensures { result ≡ (code_of refusal).number }
{
    u64::from(refusal.code().number)
}

// Number 0 and the words, or the number of a refusal and no word.
#[tactic(auto, using(crate::proofs::Stored::stored_none), unfolding(crate::specs::Leaves::told_leaf))]
pub(crate) fn tell<const N: usize>(told: Result<[u64; N], Refusal>, out: &mut [u64]) -> u64
    ensures { Told (told_leaf told.entry) result out.old out.new }
{
    match told {
        Ok(words) => {
            put(&words, out);
            0
        }
        Err(refusal) => number(refusal),
    }
}

// A number that is there is told as the one above it, as 0 tells that there is none.
#[tactic(auto, unfolding(crate::specs::Leaves::plus_one))]
pub(crate) fn plus_one(x: u64) -> u64
    ensures { result ≡ plus_one x }
{
    x.wrapping_add(1)
}

#[tactic(auto, unfolding(crate::specs::Leaves::word_of))]
pub(crate) fn word_of(x: Option<u64>) -> u64
    ensures { result ≡ word_of x }
{
    x.map_or(0, plus_one)
}
