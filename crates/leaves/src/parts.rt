// The optional parts of an adaptation field in words, two or one: 0 where the part is not there.
ghost use Rattle.std.specs.Prelude.{◌≡◌};
ghost use Rattle.leaves.specs.Packet.{clock_words, countdown_word, private_words, ltw_words, splice_words};

use crate::put::plus_one;
use packet::{ClockReference, Ltw, PrivateData, SeamlessSplice};

#[tactic(auto, unfolding(crate::specs::Packet::clock_words))]
pub(crate) fn clock_words(clock: Option<ClockReference>) -> (u64, u64)
    ensures { result ≡ clock_words clock }
{
    clock.map_or((0, 0), |c| {
        (plus_one(c.base), plus_one(u64::from(c.extension)))
    })
}

// The countdown as its eight bits.
#[tactic(auto, unfolding(crate::specs::Packet::countdown_word), using(crate::proofs::Complement::narrow))]
pub(crate) fn countdown_word(countdown: Option<i8>) -> u64
    ensures { result ≡ countdown_word countdown }
{
    countdown.map_or(0, |n| plus_one(u64::from(n.cast_unsigned())))
}

// Where the data begin in the packet, above by one, and their length as it is.
#[tactic(auto, unfolding(crate::specs::Packet::private_words))]
pub(crate) fn private_words(bytes: Option<PrivateData>) -> (u64, u64)
    ensures { result ≡ private_words bytes }
{
    bytes.map_or((0, 0), |data| {
        ((data.start as u64).wrapping_add(5), data.len as u64)
    })
}

#[tactic(auto, unfolding(crate::specs::Packet::ltw_words))]
pub(crate) fn ltw_words(ltw: Option<Ltw>) -> (u64, u64)
    ensures { result ≡ ltw_words ltw }
{
    ltw.map_or((0, 0), |l| {
        (plus_one(u64::from(l.valid)), plus_one(u64::from(l.offset)))
    })
}

#[tactic(auto, unfolding(crate::specs::Packet::splice_words))]
pub(crate) fn splice_words(splice: Option<SeamlessSplice>) -> (u64, u64)
    ensures { result ≡ splice_words splice }
{
    splice.map_or((0, 0), |s| {
        (plus_one(u64::from(s.splice_type)), plus_one(s.dts_next_au))
    })
}
