// Which PES packets have the optional header (H.222.0, 2.4.3.6), and the 33-bit time stamp (2.4.3.7).
#![tactic(auto)]

ghost use Rattle.std.specs.Prelude.{◌≡◌};
ghost use Rattle.pes.specs.StreamId.{has_optional_header};
ghost use Rattle.syntax.specs.TimeStamp.{timestamp};

// program_stream_map, padding_stream, private_stream_2, ECM_stream, EMM_stream, program_stream_directory, DSMCC_stream,
// ITU-T Rec. H.222.1 type E.
const WITHOUT_OPTIONAL_HEADER: [u8; 8] = [0xBC, 0xBE, 0xBF, 0xF0, 0xF1, 0xFF, 0xF2, 0xF8];

// Ruled out: yes for one of the eight; no for an id that is none of them, such as 0xE0 or 0xBD.
#[tactic(auto, unfolding(crate::specs::StreamId::has_optional_header))]
pub fn has_optional_pes_header(stream_id: u8) -> bool
    ensures { result ≡ has_optional_header stream_id }
{
    !WITHOUT_OPTIONAL_HEADER.contains(&stream_id)
}

// The time stamp of five bytes. Prefix and marker bits are not looked at, as in the Rust.
// Ruled out: a marker bit read as a bit of the stamp; the parts joined at other weights than 2^30, 2^15 and 1.
pub fn read_ts33(bytes: [u8; 5]) -> u64
    ensures { result ≡ timestamp bytes }
{
    let [b0, b1, b2, b3, b4] = bytes;
    (u64::from(b0) / 2 % 8) * 0x4000_0000
        + u64::from(b1) * 0x40_0000
        + u64::from(b2) / 2 * 0x8000
        + u64::from(b3) * 0x80
        + u64::from(b4) / 2
}
