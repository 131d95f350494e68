// `TsPacket::parse` in words: 8 of the header, 10 of the adaptation field and 8 of its extension.
ghost use Rattle.std.specs.Prelude.{◌≡◌};
ghost use Rattle.packet.specs.Packet.{parse_of};
ghost use Rattle.leaves.specs.Leaves.{Told};
ghost use Rattle.leaves.specs.Packet.{extension_words, present_extension, field_flags, field_words, present_field, packet_words, parse_leaf};

use crate::parts::{clock_words, countdown_word, ltw_words, private_words, splice_words};
use crate::put::{put, word_of};
use packet::{AdaptationField, AdaptationFieldExtension, TsError, TsPacket};

#[tactic(auto, unfolding(crate::specs::Packet::present_extension))]
fn present_extension(e: AdaptationFieldExtension) -> [u64; 8]
    ensures { result ≡ present_extension e }
{
    let ltw = ltw_words(e.ltw);
    let splice = splice_words(e.seamless_splice);
    let flags = 4 * u64::from(e.ltw.is_some())
        + 2 * u64::from(e.piecewise_rate.is_some())
        + u64::from(e.seamless_splice.is_some());
    [
        1,
        u64::from(e.length),
        flags,
        ltw.0,
        ltw.1,
        word_of(e.piecewise_rate.map(u64::from)),
        splice.0,
        splice.1,
    ]
}

#[tactic(auto, unfolding(crate::specs::Packet::extension_words))]
fn extension_words(extension: Option<AdaptationFieldExtension>) -> [u64; 8]
    ensures { result ≡ extension_words extension }
{
    extension.map_or([0; 8], present_extension)
}

// Eight flags, the first with the greatest weight.
#[tactic(auto, unfolding(crate::specs::Packet::field_flags))]
fn field_flags(f: AdaptationField) -> u64
    ensures { result ≡ field_flags f }
{
    128 * u64::from(f.discontinuity_indicator)
        + 64 * u64::from(f.random_access_indicator)
        + 32 * u64::from(f.elementary_stream_priority_indicator)
        + 16 * u64::from(f.pcr.is_some())
        + 8 * u64::from(f.opcr.is_some())
        + 4 * u64::from(f.splice_countdown.is_some())
        + 2 * u64::from(f.transport_private_data.is_some())
        + u64::from(f.adaptation_field_extension.is_some())
}

#[tactic(auto, unfolding(crate::specs::Packet::present_field), using(crate::proofs::Stored::filled_behind))]
fn present_field(f: AdaptationField) -> [u64; 18]
    ensures { result ≡ present_field f }
{
    let pcr = clock_words(f.pcr);
    let opcr = clock_words(f.opcr);
    let data = private_words(f.transport_private_data);
    let mut words = [0; 18];
    words[..10].copy_from_slice(&[
        1,
        u64::from(f.length),
        field_flags(f),
        pcr.0,
        pcr.1,
        opcr.0,
        opcr.1,
        countdown_word(f.splice_countdown),
        data.0,
        data.1,
    ]);
    words[10..].copy_from_slice(&extension_words(f.adaptation_field_extension));
    words
}

#[tactic(auto, unfolding(crate::specs::Packet::field_words))]
fn field_words(field: Option<AdaptationField>) -> [u64; 18]
    ensures { result ≡ field_words field }
{
    field.map_or([0; 18], present_field)
}

#[tactic(auto, unfolding(crate::specs::Packet::packet_words), using(crate::proofs::Stored::filled_behind))]
fn packet_words(p: TsPacket) -> [u64; 26]
    ensures { result ≡ packet_words p }
{
    // The field's words first: taken behind the header's, they cost a packet without a field half as much time again.
    let field = field_words(p.adaptation_field);
    let mut words = [0; 26];
    words[..8].copy_from_slice(&[
        u64::from(p.pid),
        u64::from(p.payload_unit_start),
        u64::from(p.transport_error),
        u64::from(p.transport_priority),
        u64::from(p.transport_scrambling_control),
        u64::from(p.continuity_counter),
        p.payload_start as u64,
        188u64.saturating_sub(p.payload_start as u64),
    ]);
    words[8..].copy_from_slice(&field);
    words
}

// Ruled out: the words of a packet with a bad sync byte; a field that is not there told as one of value 0.
#[unsafe(no_mangle)]
#[tactic(auto, unfolding(crate::specs::Packet::parse_leaf))]
pub extern "C" fn leaf_parse(bytes: &[u8], out: &mut [u64]) -> u64
    ensures { Told (parse_leaf (parse_of bytes.now)) result out.old out.new }
{
    match TsPacket::parse(bytes) {
        Ok(p) => {
            put(&packet_words(p), out);
            0
        }
        Err(TsError::Truncated(cut)) => {
            put(&[cut.have as u64, cut.need as u64], out);
            1
        }
        Err(TsError::BadSyncByte(byte)) => {
            put(&[u64::from(byte)], out);
            2
        }
    }
}
