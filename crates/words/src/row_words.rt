// The chain row in words: six for each chain.
ghost use Rattle.std.specs.Prelude.{◌≡◌};
ghost use Rattle.words.specs.Row.{chain_words, chains_of, row_after};

use crate::seconds::{Finite, SecondsWord};
use answer::Figures;
use report::TStdChainStats;

// PID, TB peak, main peak, EB peak, units, bits of the greatest delay.
pub const ROW_WORDS: usize = 6;

#[tactic(auto, unfolding(crate::specs::Row::chain_words))]
fn chain_words(chain: TStdChainStats) -> [u64; ROW_WORDS]
    ensures { result ≡ chain_words chain }
{
    [
        u64::from(chain.pid),
        chain.peak_tb_bytes,
        chain.peak_main_bytes,
        chain.peak_eb_bytes,
        chain.access_units,
        Finite::word(chain.max_delay_seconds),
    ]
}

// The records of the chains in use from the start of the row, as many whole ones as fit.
// Ruled out: a part of a record at the row's end; a word changed behind the last record.
#[tactic(auto, using(crate::proofs::Row::row_ends))]
pub fn write_row(figures: Figures, row: &mut [u64])
    ensures { row.new ≡ row_after (chains_of figures) row.old }
{
    let chains = figures.rows;
    let end = figures.count.min(chains.len()).min(row.len() / ROW_WORDS);
    // By places: over `chunks_exact_mut` the loop was tried, but behind it nothing is known of the row, and `returns` stays open.
    for i in 0..end {
        let at = ROW_WORDS * i;
        row[at..at + ROW_WORDS].copy_from_slice(&chain_words(chains[i]));
    }
}
