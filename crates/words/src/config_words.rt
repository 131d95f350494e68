// A profile of 69 words: PCR PID, stream count, system count, queue depth and clock depth; 8 slots of six words, PID, Rxn,
// kind 0 with BSn and two words that are not looked at, or kind 1 with Rbxn, MBSn and EBSn; 16 system PIDs.
ghost use Rattle.std.specs.Prelude.{◌≡◌, ◌&&◌, ◌<◌, leb};
ghost use Rattle.profile.specs.Range.{max_streams, max_system_pids};
ghost use Rattle.words.specs.Config.{SomeIf, pid_fits, branch_of, stream_at, slot_fits, slots_fit, slot_streams, system_fits, slot_pids, profile_fits, config_at, config_of};

use error::Refusal;
use profile::limits::{MAX_STREAMS, MAX_SYSTEM_PIDS};
use profile::{TStdBranch, TStdConfig, TStdStream, TStdStreamModel};

pub const PROFILE_WORDS: usize = 69;

// The words of a slot, and where the slots and the system PIDs begin. A count beside the words, below, is that of slots in use and not their
// length: C lends all 69, and a slot's place is counted from their begin.
const SLOT_WORDS: usize = 6;

const SLOTS: usize = 5;

const SYSTEM_PIDS: usize = 53;

fn pid_of(word: u64) -> Option<u16>
    ensures { SomeIf (pid_fits word) word result }
{
    u16::try_from(word).ok()
}

// A profile in words tells the kind of a branch by a number.
#[tactic(auto, unfolding(crate::specs::Config::branch_of))]
fn branch_of(kind: u64, a: u64, b: u64, c: u64) -> Option<TStdBranch>
    ensures { SomeIf (leb kind 1) (branch_of kind a b c) result }
{
    match kind {
        0 => Some(TStdBranch::Main {
            buffer_size: a as usize,
        }),
        1 => Some(TStdBranch::Video {
            rbx_bps: a,
            mb_size: b as usize,
            eb_size: c as usize,
        }),
        _ => None,
    }
}

#[tactic(auto, using(crate::proofs::Profile::no_pid, crate::proofs::Profile::no_kind, crate::proofs::Profile::slot_both, crate::proofs::Profile::stream_is))]
fn stream_at(words: &[u64; PROFILE_WORDS], i: usize) -> Option<TStdStream>
    requires { i < max_streams }
    ensures { SomeIf (slot_fits words.now i) (stream_at words.now i) result }
{
    let at = SLOTS + SLOT_WORDS * i;
    Some(TStdStream {
        pid: pid_of(words[at])?,
        model: TStdStreamModel {
            rx_bps: words[at + 1],
            branch: branch_of(words[at + 2], words[at + 3], words[at + 4], words[at + 5])?,
        },
    })
}

// `slot_pids` does the same over the system PIDs. One function for both would take the reader as a closure, and its contract the two
// definitions that each reader meets.
#[tactic(auto, unfolding(crate::specs::Config::slots_fit, crate::specs::Config::slot_streams), using(crate::proofs::UpTo::filled_next, crate::proofs::UpTo::passes_all))]
fn slot_streams(words: &[u64; PROFILE_WORDS], count: usize) -> Option<[TStdStream; MAX_STREAMS]>
    ensures { SomeIf (leb count max_streams && slots_fit words.now count) (slot_streams words.now count) result }
{
    if count > MAX_STREAMS {
        return None;
    }
    let mut streams = TStdConfig::default().streams;
    for i in 0..count {
        streams[i] = stream_at(words, i)?;
    }
    Some(streams)
}

#[tactic(auto, unfolding(crate::specs::Config::system_fits, crate::specs::Config::slot_pids), using(crate::proofs::UpTo::passes_all))]
fn slot_pids(words: &[u64; PROFILE_WORDS], count: usize) -> Option<[u16; MAX_SYSTEM_PIDS]>
    ensures { SomeIf (leb count max_system_pids && system_fits words.now count) (slot_pids words.now count) result }
{
    if count > MAX_SYSTEM_PIDS {
        return None;
    }
    let mut pids = [0; MAX_SYSTEM_PIDS];
    for i in 0..count {
        pids[i] = pid_of(words[SYSTEM_PIDS + i])?;
    }
    Some(pids)
}

#[tactic(auto, using(crate::proofs::Profile::no_pcr, crate::proofs::Profile::no_streams, crate::proofs::Profile::no_system, crate::proofs::Profile::all_fit), unfolding(crate::specs::Config::config_at))]
fn config_at(words: &[u64; PROFILE_WORDS]) -> Option<TStdConfig>
    ensures { SomeIf (profile_fits words.now) (config_at words.now) result }
{
    let stream_count = words[1] as usize;
    let system_count = words[2] as usize;
    Some(TStdConfig {
        pcr_pid: pid_of(words[0])?,
        streams: slot_streams(words, stream_count)?,
        stream_count,
        system_pids: slot_pids(words, system_count)?,
        system_count,
        queue_depth: words[3] as usize,
        clock_depth: words[4] as usize,
    })
}

// OutsideLimits for another length, a count above its limit, or a kind or PID that does not fit in a slot that counts.
// Ruled out: a word of a slot past the count, or a main stream's spare word, that matters; a PID cut to 16 bits.
#[tactic(auto, unfolding(crate::specs::Config::config_of), using(crate::proofs::Profile::other_length, crate::proofs::Profile::told))]
pub fn profile_of(words: &[u64]) -> Result<TStdConfig, Refusal>
    ensures { result ≡ config_of words.now }
{
    let Some(words) = words.as_array() else {
        return Err(Refusal::OutsideLimits);
    };
    config_at(words).ok_or(Refusal::OutsideLimits)
}
