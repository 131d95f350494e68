// `PesScanner::feed` on a state in words: count, whether a unit is open, bytes 3, 7 and 8, the five of the PTS, the five of
// the DTS. Zeros are the state before the first unit.
ghost use Rattle.std.specs.Prelude.{◌≡◌, ◌+◌, ◌%◌, ◌≤◌, length};
ghost use Rattle.leaves.specs.Scanner.{stamp_in, scanner_at, scanner_words, run_words, Feeds};

use crate::put::{put, word_of};
use scanner::{PesHeader, PesScanner, Runs, StampBytes};

// The words of a state, read from a slice by their places as the definition reads them: a pattern would name all 15.
const STATE_WORDS: usize = 15;

// The low byte: `u8::try_from` would refuse a larger word.
fn byte(word: u64) -> u8
    ensures { result ≡ word % 256 }
{
    (word % 256) as u8
}

#[tactic(auto, unfolding(crate::specs::Scanner::stamp_in))]
fn stamp_in(state: &[u64], at: usize) -> StampBytes
    requires { (at ≤ 10) × (15 ≤ length state.now) }
    ensures { result ≡ stamp_in state.now at }
{
    StampBytes {
        b0: byte(state[at]),
        b1: byte(state[at + 1]),
        b2: byte(state[at + 2]),
        b3: byte(state[at + 3]),
        b4: byte(state[at + 4]),
    }
}

#[tactic(auto, unfolding(crate::specs::Scanner::scanner_at))]
fn scanner_at(state: &[u64]) -> PesScanner
    requires { 15 ≤ length state.now }
    ensures { result ≡ scanner_at state.now }
{
    PesScanner {
        count: (state[0] % 65536) as u16,
        started: state[1] == 1,
        header: PesHeader {
            stream_id: byte(state[2]),
            flags: byte(state[3]),
            header_data_length: byte(state[4]),
            pts: stamp_in(state, 5),
            dts: stamp_in(state, 10),
        },
    }
}

#[tactic(auto, unfolding(crate::specs::Scanner::scanner_words))]
fn scanner_words(s: PesScanner) -> [u64; STATE_WORDS]
    ensures { result ≡ scanner_words s }
{
    let h = s.header;
    [
        u64::from(s.count),
        u64::from(s.started),
        u64::from(h.stream_id),
        u64::from(h.flags),
        u64::from(h.header_data_length),
        u64::from(h.pts.b0),
        u64::from(h.pts.b1),
        u64::from(h.pts.b2),
        u64::from(h.pts.b3),
        u64::from(h.pts.b4),
        u64::from(h.dts.b0),
        u64::from(h.dts.b1),
        u64::from(h.dts.b2),
        u64::from(h.dts.b3),
        u64::from(h.dts.b4),
    ]
}

#[tactic(auto, unfolding(crate::specs::Scanner::run_words))]
fn run_words(runs: Runs) -> [u64; 4]
    ensures { result ≡ run_words runs }
{
    [
        runs.head as u64,
        word_of(runs.decode_ts),
        runs.rest as u64,
        runs.body as u64,
    ]
}

// Ruled out: the state before the payload kept; runs stored for a state of fewer than 15 words.
#[unsafe(no_mangle)]
pub extern "C" fn leaf_feed(state: &mut [u64], payload: &[u8], start: u64, out: &mut [u64])
    ensures { Feeds state.old payload.now start out.old state.new out.new }
{
    if state.len() < STATE_WORDS {
        return;
    }
    let fed = scanner_at(state).feed(payload, start == 1);
    put(&scanner_words(fed.scanner), state);
    put(&run_words(fed.runs), out);
}
