// The part of a packet's header that every packet is asked for: its PID, whether a unit starts in it, and where its payload begins.
// It is read straight from the bytes; of an adaptation field only its length, and whether it has room for its parts.
#![tactic(auto)]

ghost use Rattle.std.specs.Prelude.{◌≡◌};
ghost use Rattle.packet.specs.Packet.{parse_of};
ghost use Rattle.header.specs.Header.{header_of};

use packet::payload_start_of;
pub use packet::pid_of;

#[derive(Clone, Copy)]
pub struct PacketHeader {
    pub pid: u16,
    pub payload_unit_start: bool,
    pub payload_start: usize,
}

// None for a packet that does not parse.
// Ruled out: a header for a packet whose adaptation field is cut short; payload start 4 in a packet that has no payload.
#[tactic(auto, using(crate::proofs::Headers::short_unparsed, crate::proofs::Headers::sync_unparsed, crate::proofs::Headers::overlong_unparsed))]
pub fn read(bytes: &[u8]) -> Option<PacketHeader>
    ensures { result ≡ header_of (parse_of bytes.now) }
{
    if bytes.len() < 188 {
        return None;
    }
    if bytes[0] != 0x47 {
        return None;
    }
    let b1 = bytes[1];
    let b2 = bytes[2];
    let b3 = bytes[3];
    let has_field = b3 / 32 % 2 == 1;
    let mut from = 4;
    if has_field {
        from = 5 + usize::from(bytes[4]);
        if 188 < from {
            return None;
        }
        if packet::adaptation_field_room(&bytes[4..from]).is_err() {
            return None;
        }
    }
    Some(PacketHeader {
        pid: pid_of(b1, b2),
        payload_unit_start: b1 / 64 % 2 == 1,
        payload_start: payload_start_of(b3, from),
    })
}
