// Answers of the unchanged Rust (data/answers.bin; README.md says how they were made and in which form), each replayed through the C
// boundary and compared word by word. A case is given by the list from its first byte on.
#![tactic(auto)]

ghost use Rattle.std.specs.Prelude.{◌≤◌, length, IfSome};

use reading::read_full;
use std::fs::File;
use std::io;

// Room for the list, and for the work of any case in it.
const LIST: usize = 350000;

const TIMES: usize = 16384;

const PLACES: usize = 1024;

// What row and report hold before a call.
const BEFORE: u64 = 99;

const NEGATIVE_ZERO: u64 = 9223372036854775808;

// The number of an answer that is equal, as the list has it, and the case's length there.
#[derive(Clone, Copy)]
struct Seen {
    number: usize,
    bytes: usize,
}

// How many cases were equal, by number, and where in the list they end.
#[derive(Clone, Copy)]
struct Tally {
    counts: [u64; 11],
    cases: u64,
    bytes: usize,
}

// Word k of the list, 0 where it has fewer.
fn word(list: &[u8], k: usize) -> u64 {
    if k >= list.len() / 8 {
        return 0;
    }
    list[8 * k..]
        .first_chunk()
        .map_or(0, |bytes| u64::from_le_bytes(*bytes))
}

// A zero of either sign counts as equal.
fn level(word: u64) -> u64 {
    if word == NEGATIVE_ZERO { 0 } else { word }
}

// Whether the first count words are the list's, and the others are what `rest` says: a slice of count words would not have the others.
fn same_words(list: &[u8], words: &[u64], count: usize, rest: u64) -> bool {
    words.iter().enumerate().all(|(i, found)| {
        let wanted = if i < count { word(list, i) } else { rest };
        level(*found) == level(wanted)
    })
}

fn profile_at(list: &[u8]) -> [u64; 69] {
    std::array::from_fn(|i| word(list, i + 1))
}

// One record for each stream, one more where there are system PIDs.
fn chains(streams: u64, system_pids: u64) -> usize
    ensures { result ≤ 9 }
{
    if streams > 8 {
        return 9;
    }
    streams as usize + usize::from(system_pids != 0)
}

// The length of an accepted case, from the words behind its answer on: four words of the report, five for each line, six
// for each chain. None where one differs or is cut off.
fn accepted(list: &[u8], chains: usize, report: &[u64], row: &[u64]) -> Option<usize>
    requires { chains ≤ 9 }
    ensures { IfSome result (λ bytes. (bytes ≤ length list.now) × (bytes ≤ 3024)) }
{
    let lines = word(list, 3) as usize;
    if lines > 64 {
        return None;
    }
    let told = 4 + 5 * lines;
    let bytes = 8 * (told + 6 * chains);
    if list.len() < bytes {
        return None;
    }
    let same = same_words(list, report, told, 0)
        & same_words(&list[8 * told..], row, 6 * chains, BEFORE);
    same.then_some(bytes)
}

fn replay(recording: &[u8], profile: &[u64], row: &mut [u64], report: &mut [u64]) -> u64 {
    let mut times = [0.0; TIMES];
    let mut places = [0u64; PLACES];
    exports::tstd_replay(recording, profile, &mut times, &mut places, row, report)
}

// The recording's length, the profile, the recording in whole words, the answer's word. None for a case that differs or
// is cut off.
fn case(list: &[u8]) -> Option<Seen>
    ensures { IfSome result (λ seen. (seen.bytes ≤ length list.now) × (seen.number ≤ 10)) }
{
    let n = word(list, 0) as usize;
    if n > 32768 {
        return None;
    }
    let answer_at = 70 + n.div_ceil(8);
    let behind = 8 * answer_at + 8;
    if list.len() < behind {
        return None;
    }
    let profile = profile_at(list);
    let mut row = [BEFORE; 54];
    let mut report = [BEFORE; 324];
    let told = replay(&list[560..560 + n], &profile, &mut row, &mut report);
    if told != word(list, answer_at) {
        return None;
    }
    if told == 0 {
        let chains = chains(profile[1], profile[2]);
        let bytes = accepted(&list[behind..], chains, &report, &row)?;
        return Some(Seen {
            number: 0,
            bytes: behind + bytes,
        });
    }
    let number = (told % 256) as usize;
    let same = same_words(list, &report, 0, BEFORE) & same_words(list, &row, 0, BEFORE);
    if number > 10 || !same {
        return None;
    }
    Some(Seen {
        number,
        bytes: behind,
    })
}

// The cases behind the list's first word, up to one that differs or is cut.
fn replay_all(list: &[u8], total: u64) -> Tally
    requires { 8 ≤ length list.now }
{
    let mut counts = [0u64; 11];
    let mut bytes = 8;
    for cases in 0..total {
        let Some(seen) = case(&list[bytes..]) else {
            return Tally {
                counts,
                cases,
                bytes,
            };
        };
        counts[seen.number] = counts[seen.number].wrapping_add(1);
        bytes += seen.bytes;
    }
    Tally {
        counts,
        cases: total,
        bytes,
    }
}

fn print_all(rt: &impl Print, list: &[u8]) -> io::Result<()> {
    let total = word(list, 0);
    if list.len() < 8 {
        return println!(rt; "the list is cut");
    }
    if total == 0 {
        return println!(rt; "the list is empty");
    }
    let tally = replay_all(list, total);
    println!(rt; "cases {}", tally.cases)?;
    for (number, count) in tally.counts.iter().enumerate() {
        println!(rt; "number {number}: {count}")?;
    }
    if tally.cases != total {
        return println!(rt; "the next case differs or is cut");
    }
    if tally.bytes != list.len() {
        return println!(rt; "the list has bytes behind its last case");
    }
    println!(rt; "all equal")
}

fn main(rt: HostRuntime) -> io::Result<()> {
    let Ok(mut file) = File::open(&rt, "answers.bin") else {
        return println!(rt; "there is no list");
    };
    let mut list = [0u8; LIST];
    let n = read_full(&mut file, &mut list)?;
    print_all(&rt, &list[..n])
}
