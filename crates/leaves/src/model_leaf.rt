// The constructors of a stream model by a kind, and the model in five words: Rxn, then the branch as in a profile.
ghost use Rattle.std.specs.Prelude.{◌≡◌};
ghost use Rattle.leaves.specs.Leaves.{Told, model_by, model_words, model_leaf};

use crate::put::{number, put};
use error::Refusal;
use profile::{TStdBranch, TStdStreamModel};

// The kind is a number, as C hands it.
#[tactic(auto, unfolding(crate::specs::Leaves::model_by))]
fn model_by(kind: u64, a: u64, b: u64, c: u64) -> Result<TStdStreamModel, Refusal>
    ensures { result ≡ model_by kind a b c }
{
    match kind {
        0 => Ok(TStdStreamModel::audio()),
        1 => TStdStreamModel::video_low_main_level(a, b as usize, c as usize),
        2 => TStdStreamModel::video_high_level(a, b, c as usize),
        _ => Err(Refusal::OutsideLimits),
    }
}

#[tactic(auto, unfolding(crate::specs::Leaves::model_words, words::specs::Profile::branch_words))]
fn model_words(model: TStdStreamModel) -> [u64; 5]
    ensures { result ≡ model_words model }
{
    match model.branch {
        TStdBranch::Main { buffer_size } => [model.rx_bps, 0, buffer_size as u64, 0, 0],
        TStdBranch::Video {
            rbx_bps,
            mb_size,
            eb_size,
        } => [model.rx_bps, 1, rbx_bps, mb_size as u64, eb_size as u64],
    }
}

// Ruled out: words stored with a refusal; the words of a Main branch for a video stream.
#[unsafe(no_mangle)]
#[tactic(auto, using(crate::proofs::Stored::stored_none), unfolding(crate::specs::Leaves::model_leaf))]
pub extern "C" fn leaf_model(kind: u64, a: u64, b: u64, c: u64, out: &mut [u64]) -> u64
    ensures { Told (model_leaf (model_by kind a b c)) result out.old out.new }
{
    // A match in place of tell over map, by which the third word was stored in three pieces.
    match model_by(kind, a, b, c) {
        Ok(model) => {
            put(&model_words(model), out);
            0
        }
        Err(refusal) => number(refusal),
    }
}
